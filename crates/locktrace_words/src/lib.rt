//! Reads the words of the command line of `locktrace`.
//!
//! [`read_task`] says which [`Task`] the words after the program's name ask for. `docs/FORMATS.md` describes the commands
//! for readers. The program does what is asked for.
//!
//! Read next: `src/words.rt`.
#![tactic(auto)]

mod help;
mod words;

pub use words::{PictureWords, SortWords, Task, TaskError, WantedSteps, read_task};
