//! Reads and checks the text of a script.
//!
//! A script says, line by line, which pass makes which call: open a request for some keys, scan, acquire a key, and
//! so on. [`read_script`] returns its commands, each with its line number and its pass, or the first faulty line
//! and the first fault in it. The contract holds in both directions: the commands are exactly what the text says,
//! and a text without a fault is read unless memory runs out.
//!
//! Read next: `specs/Lines.antt` for the lines of a text and the words of a line, and `specs/Script.antt` for what
//! the words mean and which fault comes first. `docs/FORMATS.md` describes the same for readers.
#![tactic(auto)]

mod command;
mod error;
mod line;
mod pass;
mod read;
mod words;

pub use command::{Accesses, Action, Command, Script};
pub use error::{ScriptError, ScriptFault};
pub use pass::ScriptPass;
pub use read::read_script;
