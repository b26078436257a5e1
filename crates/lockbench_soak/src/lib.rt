//! The soak test of `lockbench`: [`report`] plays random requests on threads and counts what is wrong.
#![tactic(auto)]

mod memory;
mod soak;

pub use soak::{Soak, report};
