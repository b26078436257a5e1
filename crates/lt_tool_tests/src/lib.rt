//! What do the jobs of the program write, byte by byte, and how do they fail?
//!
//! [`scripts`] runs scripts, [`checks`] checks and upgrades texts, and [`words`] reads command lines. `lt_tool_test_kit` has the
//! readers, writers and gates that they share. tools/gate/compare_runs plays what texts and command lines can say of the program
//! itself. Start with [`scripts`].
#![tactic(auto)]

#[cfg(test)]
mod checks;
#[cfg(test)]
mod scripts;
#[cfg(test)]
mod words;
