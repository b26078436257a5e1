//! What is there to see of the life of one key? This crate writes the steps of a key as a table for a terminal, and
//! computes what a picture of them shows. `lt_trace_picture` draws it.
//!
//! The input is a list of [`ShownStep`]: each step of the key with the key's state after it. [`put_heading`] and
//! [`put_shown`] write the table, one line for each step; a [`Terminal`] decides how wide it is and whether it is
//! coloured. A [`ShownRange`] takes the steps of a picture, and keeps of each what it changed. [`lanes_of`] computes the
//! picture of at most [`MOST_STEPS`] steps: who has a lane, which bar is in which lane, and who lets whom through.
//! [`owners_of`] finds whose the lanes are.
//!
//! Read next: `step.rt` has the input; `cell.rt`, `columns.rt`, `terminal.rt` and `show.rt` make the table, and `words.rt`
//! its cells; `drawn.rt` has the steps of a picture, and `change.rt` finds what each changed; `timeline.rt` follows the
//! phases of a lane, `lanes.rt` computes the bars, and `whose.rt` finds whose a request is. `specs/` defines what is
//! escaped and how, how a cell fits its width, how the steps of a picture stand for those of the key, and which bars a lane
//! has. `docs/RULES.md` says what the steps of a key do.
#![tactic(auto)]

mod cell;
mod change;
mod columns;
mod drawn;
mod error;
mod escape;
mod lanes;
mod layout;
mod phase_map;
mod show;
mod step;
mod terminal;
mod timeline;
mod whose;
mod words;

pub use columns::{COLUMNS, Layout, MOST_QUEUED};
pub use drawn::{DrawnStep, ShownRange};
pub use error::PictureError;
pub use escape::{put_escaped, put_printable};
pub use lanes::{Arrow, Bar, Lanes, MOST_STEPS, index_of, lanes_of};
pub use layout::{choice_of, layout_of, width_of};
pub use show::{put_heading, put_key, put_shown};
pub use step::ShownStep;
pub use terminal::{ColourChoice, Terminal};
pub use timeline::{Lane, Phase, lane_of};
pub use whose::{Claim, owners_of};
pub use words::{put_column, put_column_before, put_column_name, put_state, put_step_words};
