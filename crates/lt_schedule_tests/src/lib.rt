//! Does a table follow the rules of a key and of a request, over each of the two key tables?
//!
//! - **A second evaluation of the rules.** [`second::Second`] evaluates the rules of one key. It is written from the
//!   tables of `docs/RULES.md` and shares no code and no definition with `lt_rules`. A mistake in the definitions
//!   themselves, which no proof can find, shows up when a test compares the two.
//! - **Random schedules.** [`schedules`] plays random calls of one thread and knows each answer. [`linked`] plays
//!   commands on a table over linked queues.
#![tactic(auto)]

#[cfg(test)]
mod linked;
#[cfg(test)]
mod schedules;
#[cfg(test)]
mod second;
