//! Do worked scripts, histories and names have the results that the rules of their formats give, also if a writer or an
//! allocation fails?
//!
//! [`scripts`], [`histories`] and [`names`] call `lt_script`, `lt_history` and `lt_ids`. They are kept out of those
//! crates so that no crate is proved a second time together with its tests. `lt_tool_tests` has the texts that the
//! program reads and writes. Start with [`histories`].
#![tactic(auto)]

#[cfg(test)]
mod histories;
#[cfg(test)]
mod names;
#[cfg(test)]
mod scripts;
