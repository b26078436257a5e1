//! How does a request walk through a table that many callers share, and what do the table's calls tell, whichever lock
//! its shards have?
//!
//! The key list, the machine of a request, its guard, and how it enters, scans, polls, looks and leaves stand here, over
//! any table that makes key steps ([`KeySteps`]). So do the configuration, what a close counts and leaves, and the laws,
//! the main theorem among them. Nothing here takes a lock or waits. `lt_table_core` is the table whose callers wait for
//! each other.
//!
//! Read next the definitions: `specs/Machine.antt` (the state of a request, and what each call makes of it),
//! `specs/Reported.antt` (what a call tells of its steps) and `specs/Closed.antt` (what is left when a table is
//! closed). Then `src/key_steps.rt`. `docs/RULES.md`, "A request", has the rules in words.
#![tactic(auto)]

mod closing;
mod config;
mod entering;
mod guard;
mod inspecting;
mod key_steps;
mod keys;
pub mod laws;
mod leaving;
mod noting;
mod scan_and_poll;
mod scan_results;
mod stepping;
mod taking;
mod walk;
mod walk_progress;

pub use closing::{
    CloseError, ClosedTable, Histories, PassCount, Rests, Wanted, abandon_guards, all_passes,
    into_histories, is_counted, learn_all,
};
pub use config::{Config, PrepareError, Ready, ReadyParts, parts_of, prepare, prepare_with};
pub use entering::{EnterRefused, Terms, enter_on};
pub use guard::{Guard, pass_of};
pub use inspecting::{KeyStates, inspect_in};
pub use key_steps::KeySteps;
pub use keys::EnterError;
pub use leaving::{LeaveStopped, Left, into_left, leave_on};
pub use lt_shard::{Answer, StepError};
pub use noting::{keeping_lets, noting_lets};
pub use scan_and_poll::{poll_again_on, poll_on, scan_on};
pub use scan_results::{Poll, Scan, ScanError};
pub use stepping::{look_on, step_in};
pub use taking::{Gone, Reader};
pub use walk::Walk;
pub use walk_progress::{Mode, Progress};
