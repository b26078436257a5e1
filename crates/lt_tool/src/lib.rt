//! The work of the program `lockrun`: runs a script over a lock table, checks a text of histories, and upgrades an
//! older text to the latest version.
//!
//! - [`run_script`] reads a script, checks all of it, and runs its lines by the public calls of a table, on one
//!   thread or with a thread for each pass. It writes one answer for each line that was run, and then the histories
//!   of the keys. It promises that the machine of each pass (`lt_runner`) gives the pass's answers, for all its
//!   lines if the run is done; that the histories are legal and hold everything that the answers tell; that a
//!   script is refused exactly with its first fault; and that at most a prefix of the output was written if it
//!   fails. [`run_script_with`] also asks a gate before each line.
//! - [`check_text`] answers a legal text with its numbers of keys and steps, and any other text with the first
//!   faulty line and the first fault in it. [`upgrade_text`] writes a legal text with the first line of the latest
//!   version, and promises that the text stays legal.
//! - [`read_words`] reads the words of the command line, and [`perform`] does what they ask for. [`status`] and
//!   [`complain`] give the exit status and the line on standard error.
//! - [`laws::output_tells`] says in one place how the answer lines and the histories of an output relate.
//!
//! Read next: `specs/Output.antt` for what a run writes, over `specs/Ran.antt` of `lt_runner`; `specs/Answers.antt`
//! for how an answer is written; `specs/Check.antt` for what a check answers. `lockrun_words` defines what the
//! words and the options may say. `docs/FORMATS.md` describes the same for readers.
#![tactic(auto)]

mod answer;
mod check;
mod failure;
mod input;
mod job;
pub mod laws;
mod script;
mod table_run;

pub use check::{CheckTextError, check_text, upgrade_text};
pub use failure::{Failure, complain, status};
pub use job::perform;
pub use lockrun_words::{Job, Options, WordsError, read_words};
pub use lt_runner::{Finish, Gate, OpenGate};
pub use script::{RunError, run_script, run_script_with};
