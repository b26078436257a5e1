//! The load of `lockbench`: [`report`] times rounds of a store's transactions on a table, on one thread or many. The table
//! keeps its history whole, streams it, or records none, and may hold further locks meanwhile.
//!
//! Read next: `load.rt`, and then `drivers.rt` for what each pass does.
#![tactic(auto)]

mod drivers;
mod holding;
mod key_names;
mod load;

pub use load::{Load, report};
