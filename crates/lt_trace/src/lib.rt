//! Sorts the trace of a lock table into the text of histories that `lt_checker` checks.
//!
//! A lock table writes its steps in the order in which they happened. The text of histories has the keys in rising
//! order, each with its steps in their order and numbered from 1. [`sort_trace`] reads a trace of any length, one
//! step a line, and writes that text. It collects lines in memory up to a limit, sorts them, writes them to a
//! temporary file, and merges these files at the end.
//!
//! What is proved:
//!
//! - A line is read exactly if it is a line of histories without its index (`trace_line_of` in `specs/Step.antt`).
//!   With any index after its key, it is the text of a line of histories ([`laws::numbered_is_line`]).
//! - If no temporary file was made, the header and the lines were written in the order of the keys. The lines of one key keep
//!   their order, and have the indices from 1 (`sorted` of `sort_trace`).
//! - Only a trace without a faulty line is sorted, and the report has the number of its lines (`read`). As many lines are written,
//!   also if there were temporary files (`numbered`).
//! - A refusal names the first faulty line and its fault (`refused`), also if lines before it are in temporary files. If a line
//!   is refused or a read of the trace fails, the output is unchanged (`unchanged`).
//! - A JSON line gives the step that its members spell, and a line is refused only if it says no step (`read_line` in
//!   `src/sort.rt`).
//! - A run has the lines of a full memory, sorted (`write_batch`). A merge takes the first of the least heads (`least_of`), and
//!   writes each line that it takes with the index that is due (`merge`, and `numbered` of `sort_trace`).
//!
//! What is tested and not proved: the temporary files. No contract says that the lines that come out of them are those that
//! went in. Each line is checked again when it is read back, and at the end their number is compared.
//!
//! Read next: `src/sort.rt`, then `src/line.rt` for what a line is.
#![tactic(auto)]

mod error;
mod heads;
pub mod laws;
mod line;
mod lines;
mod merge;
mod object;
mod page;
mod runs;
mod sort;

pub use error::{SortError, TraceFault};
pub use sort::{SortOptions, SortReport, TraceForm, sort_trace};
