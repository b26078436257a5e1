//! Does a table answer as the rules say, when the rules of a request are evaluated a second time?
//!
//! [`table::SecondTable`] is written from `docs/RULES.md`, "A request", and from what the public calls of
//! `lt_table` promise, with none of their code. [`crate::second`] has the rules of one key. A
//! [`schedule`] is a list of random commands of several passes, with the expected outcome of each. The test plays
//! it on linked tables and on plain ones ([`plain`]). It compares each outcome, the state of keys in between
//! ([`standing`]), the histories of all shards step by step, and the number of draws. So an error in the
//! definitions of a request, which no proof can show, shows up here. [`cases`] counts what happened, so that no
//! kind of answer is left out.

mod cases;
mod plain;
mod request;
mod schedule;
mod standing;
mod steps;
mod table;
mod tests;
