//! How does the lock table work, over any table of one key's rules?
//!
//! A store uses `lt_table`, which re-exports everything here and opens a table over linked queues (`lt_lock`). Its
//! first page says how requests enter, wait and leave, and what is promised. This crate has the table itself. It
//! asks only that the table of each shard is a [`KeyTable`](lt_rules::KeyTable), so a change in the linked queues
//! changes nothing here.
//!
//! How a request walks through the table, and what the calls tell, stands in `lt_walk`. This crate locks the shards,
//! and lets callers wait for a lock or for a let.
//!
//! Read next the definitions of `lt_walk`: `specs/Machine.antt` (the state of a request, and what each call makes of
//! it), `specs/Reported.antt` (what a call tells of its steps) and `specs/Closed.antt` (what is left when a table is
//! closed). `docs/RULES.md`, "A request", has the rules in words. `docs/PROOFS.md` names the
//! clauses of the public calls.
#![tactic(auto)]

mod closing;
mod drawing;
mod entering;
mod inspecting;
mod key_steps;
mod leaving;
mod locking;
mod named;
mod opening;
mod scan_and_poll;
mod shard_value;
mod table;
mod taking;
mod valuing;
mod waiting;

pub use closing::CloseRefused;
pub use lt_shard::{Answer, KeyState, Rest, StepError};
pub use lt_walk::{
    CloseError, Config, EnterError, EnterRefused, Gone, Guard, Histories, LeaveStopped, Left, Mode,
    Poll, PrepareError, Progress, Reader, Ready, Rests, Scan, ScanError, abandon_guards, laws,
    prepare, prepare_with,
};
pub use lt_words::{Keeping, Waker};
pub use opening::{
    empty_tables, open_valued_waking_with, open_valued_with, open_waking_with, open_with,
};
pub use shard_value::ShardValue;
pub use table::Table;
pub use valuing::FinishRefused;
