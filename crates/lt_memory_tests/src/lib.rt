//! Can every lock be given up where memory has ended, and which calls take no memory?
//!
//! [`giving_up`] gives locks up where memory has ended, under fault injection. [`counting`] makes the calls that take no memory, and
//! `tools/gate/count_requests` counts what they ask for. Start with [`giving_up`].
#![tactic(auto)]

#[cfg(test)]
mod counting;
#[cfg(test)]
mod giving_up;
