//! How do callers share a lock table without ever waiting for each other? Each shard stands in a slot that is tried once.
//! If another caller is in the shard, the call answers `Busy`: nothing was done, and the caller calls again.
//!
//! No function here needs a permission to wait, so a static library can offer this table to callers that have no
//! runtime. A request goes through its keys by `lt_walk`, as in the table whose callers wait (`lt_table_core`). So the
//! calls and their contracts are the same, with two more answers: `Busy`, and `Lost`, which no table that was opened
//! gives ([`TryError`]).
//!
//! Read next `src/slot.rt` (the shard in its slot), `src/table.rt` (how a call makes one key step) and
//! `src/requests.rt` (how a request enters, scans and leaves). `src/seats.rt` says how the passes of a table come back if its
//! callers hold it by shares.
#![tactic(auto)]

mod closing;
mod error;
mod inspecting;
mod letting;
mod linked;
mod locking;
mod opening;
mod requests;
mod seats;
mod slot;
mod table;
mod taking;

pub use closing::TryCloseRefused;
pub use error::TryError;
pub use linked::LinkedTables;
pub use lt_shard::{Answer, EmptyTables, KeyState, Rest};
pub use lt_walk::{
    CloseError, Config, EnterError, EnterRefused, Gone, Guard, Histories, LeaveStopped, Left, Mode,
    Poll, PrepareError, Progress, Reader, Ready, Rests, Scan, ScanError, abandon_guards, prepare,
    prepare_with,
};
pub use lt_words::{Keeping, Pass, Waker, abandon_all};
pub use seats::Seats;
pub use table::TryTable;
