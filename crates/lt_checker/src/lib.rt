//! Is a text the text of legal histories? This crate reads such texts line by line and checks them exactly.
//!
//! [`check`] reads a text and decides whether it is the text of legal histories: the rules of one key (`lt_rules`)
//! must give every reply and every let in it. So anybody who has the text can audit a run without the table that
//! made it. A text of the first version is checked by the rules of that version, and [`upgrade`] turns it into a
//! text of the second. `lt_writer` writes such texts, and `lt_history` re-exports both crates.
//!
//! What is promised:
//!
//! - `check` answers `Ok` exactly for the texts of legal histories, of either version by that version's rules, and
//!   reports the version and the numbers of keys and steps. It refuses any other text with the first faulty line
//!   and the first fault in that line. No text has two verdicts. Only running out of memory can keep `check` from
//!   its verdict, and that cannot happen if the first line is wrong or is the only line (`specs/Verdict.antt`).
//! - A [`Checker`] gives the verdict of `check` on a text that comes in pieces, wherever it is cut, and explains a
//!   fault (`specs/Pieces.antt`).
//! - `upgrade` changes only the first line of a legal text. The text stays legal, with the same numbers.
//!
//! Read next: `src/checker.rt` and `src/pieces.rt`. `specs/Histories.antt` defines the text of a list of entries,
//! `specs/Lines.antt` the form of a line, `specs/Text.antt` the faults and their order, `specs/Version.antt` the
//! versions. `docs/FORMATS.md` describes the format for readers who do not know the project.
#![tactic(auto)]

mod checker;
mod cursor;
mod error;
pub mod laws;
mod line;
mod pieces;
mod version;

pub use checker::{CheckError, Report, check, upgrade};
pub use cursor::Expected;
pub use error::{Fault, HistoryLineError};
pub use line::{Line, LineStep, read_lets, read_line, read_step};
pub use pieces::Checker;
