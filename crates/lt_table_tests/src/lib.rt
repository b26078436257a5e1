//! Does the table keep its promises when threads work at once and when callers sleep?
//!
//! - **Threads at work.** In [`thread_tests`] four threads ([`work`]) work at once, on a whole table ([`race_player`])
//!   and while a fifth thread takes the steps out ([`stream_player`]).
//! - **Sleepers.** In [`waiting`] callers sleep until they are let through.
//!
//! `lt_call_tests` makes the table's calls on one thread, `lt_schedule_tests` random ones.
#![tactic(auto)]

#[cfg(test)]
mod race_player;
#[cfg(test)]
mod stream_player;
#[cfg(test)]
mod thread_tests;
#[cfg(test)]
mod waiting;
#[cfg(test)]
mod work;
