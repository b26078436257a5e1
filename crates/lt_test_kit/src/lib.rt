//! What tools do the tests of several crates share? Read [`run`] first: it plays a table of rows on an open table.
//!
//! - **Playing commands.** Everything here uses the table's public calls and nothing else. A [`seat::Seat`] holds
//!   a pass or its guard. [`play`] plays one command on a seat and reports the outcome of the call. [`asking`]
//!   asks a running table for the state of a key or the keys of a shard. [`key`] maps a byte to a key. [`run`]
//!   plays a list of commands and then closes the table.
//! - **One request.** [`request`] has a lock held, and a request come and go.
//! - **Small parts.** [`replay`] repeats the steps of a history, and [`plain`] makes the plain tables of a table's
//!   shards.
#![tactic(auto)]

pub mod asking;
pub mod command;
pub mod holds;
pub mod key;
pub mod plain;
pub mod play;
pub mod replay;
pub mod request;
pub mod run;
pub mod seat;
