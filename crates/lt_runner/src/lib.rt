//! Runs the lines of a script by the public calls of a lock table, on one thread or with a thread for each pass.
//!
//! A pass either has a request or has none. That state and the call of a line decide what the line does:
//! `specs/Machine.antt` says for each kind of line which answer and which key steps follow from the state of the
//! request, the status word that was read and the replies that came back. So no answer can be made up, including
//! `busy`, `none` and `stranger`.
//!
//! [`run`] opens a table, runs the lines and closes the table. It promises (`specs/Ran.antt`):
//!
//! - The machine of each pass answers a prefix of the pass's lines, and all of them if the run is done. The gate may
//!   let each of these lines run. If lines are left, a line used up the turns or the gate may refuse the next line.
//! - Everything that the answers tell is in the final histories (`specs/Standing.antt`): each step at its index,
//!   with its pass, key, call and reply. No two steps have the same index in a shard, and the steps of one pass in
//!   one shard are in the order of its lines.
//! - No number is drawn twice, and a request that proceeds after a wait was let through.
//! - All of this holds on threads and on one thread. On one thread, the steps of a shard are also in the order of
//!   the script's lines, across passes, and a line that reads the status word hears every let of the lines before it
//!   (`specs/Turns.antt`).
//!
//! Read next: `specs/Machine.antt`, then `src/act.rt`, which has one function for each kind of line, and
//! `src/worker.rt`. `lt_tool` writes the text of the answers.
#![tactic(auto)]

mod act;
mod answer;
mod find;
mod gate;
pub mod laws;
mod outcome;
mod plan;
mod running;
mod session;
mod whole;
mod worker;

pub use answer::{AnswerLine, LineAnswer, Refusal};
pub use gate::{Gate, OpenGate};
pub use outcome::{Finish, OutOfMemory, Ran, RunFault, Work};
pub use plan::{Host, Plan};
pub use session::Session;
pub use whole::run;
pub use worker::work;
