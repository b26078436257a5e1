//! Histories of keys as text: this crate writes them, and checks such texts exactly.
//!
//! A history is a list of the key steps that a lock table made. Each step is an [`Entry`]: its key, its pass, its
//! call, its reply and the lets of the step. [`print`] writes the text of such lists to a stream. All that
//! `lt_checker` and `lt_writer` have for users is re-exported here: [`compose`] returns the text as a vector,
//! [`check`] decides whether a text is the text of legal histories, and a [`Checker`] reads it in pieces.
//!
//! What is promised:
//!
//! - `print` gives the text of all entries: the keys in rising order, and the steps of each key in their order
//!   (`IsTextOf` in `lt_checker/specs/Histories.antt`). If memory runs out, it writes nothing; if a write fails, it
//!   has written a prefix of the text (`specs/Print.antt`).
//! - The two crates behind this one have their promises at their heads.
//!
//! Read next: `src/printer.rt`, then the heads of `lt_writer` and `lt_checker`. `docs/FORMATS.md` describes the
//! format for readers who do not know the project.
#![tactic(auto)]

mod printer;

pub use lt_checker::{
    CheckError, Checker, Expected, Fault, HistoryLineError, Line, LineStep, Report, check, laws,
    read_line, upgrade,
};
pub use lt_entry::{Entry, Lets, LetsRoom};
pub use lt_writer::{PrintError, compose, put_histories, write_out};
pub use printer::print;
