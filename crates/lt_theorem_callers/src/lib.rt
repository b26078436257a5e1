//! Can a program meet what the main theorem asks, and conclude it?
//!
//! Two callers use a streamed table: each enters, scans, waits, takes a lock, leaves and frees the lock. Each notes every
//! answer that a call gave it, and every request that it read as let through. Then the table is closed, and the contract
//! of the run says of these notes what `lt_table_core::laws::main_theorem` says.
//!
//! Read first [`notes`], then [`caller`] (the calls), [`run`] (both callers) and `specs/Heard.antt`.
#![tactic(auto)]

pub mod caller;
pub mod notes;
pub mod run;
