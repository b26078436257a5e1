//! Does a waiting layer over the rules treat its requests rightly? A waiting layer puts requests to sleep and wakes them.
//! Its trace has the steps of a lock table in the order in which they happened, and between them its own lines: whom it
//! put to sleep, whom it told of a let, and who gave up. This crate judges these lines. `lt_checker` judges the steps.
//!
//! [`WaitJudge::take_line`] takes the lines one after the other, and [`WaitJudge::first_open`] says what is open at
//! the end:
//!
//! - A request visits only if none of its waits is open, or, once it was told, with a greater wait number.
//! - Whoever has to wait is put to sleep before his let comes.
//! - Each let is told once, before its request visits again, unless the request gives up or leaves.
//! - Nobody is told who was not let through.
//! - Whoever gave up leaves.
//! - At the end, no wait is open.
//!
//! What is promised: a line is refused exactly if it breaks one of these rules after the lines before it, with the first
//! such fault; the judge's verdict at the end is that of all lines together (`specs/Judged.antt`). The judge holds the
//! open waits and nothing else.
//!
//! Read next: `open_wait.rt` has the rules for one request, `moves.rt` what a line says, and `judge.rt` the judge.
#![tactic(auto)]

mod judge;
mod moves;
mod open_wait;

pub use judge::{JudgeError, OpenRequest, WaitJudge};
pub use open_wait::{RequestWait, WaitFault, WaitPhase};
