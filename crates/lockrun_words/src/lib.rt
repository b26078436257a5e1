//! Reads the words of the command line.
//!
//! [`read_words`] says what the words after the program's name ask for: to run a script with its [`Options`], to
//! check or upgrade a text of histories, or to print help. It promises that the words name a job only if clap's
//! rules find no fault in them and each number is in its range. The contract also spells out the answer for the
//! usual command lines.
//!
//! Read next: `specs/Words.antt` for what the words ask for, and `specs/Options.antt` for what the options of a run
//! may say. `docs/FORMATS.md` describes the same for readers. `lt_tool` does what is asked for.
#![tactic(auto)]

mod options;
mod words;

pub use options::Options;
pub use words::{Job, WordsError, read_words};
