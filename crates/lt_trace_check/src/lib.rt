//! Audits of traces of any size: a text of histories is checked as it is read.
//!
//! - [`check_stream`] checks a text of any length that a reader gives. It holds a chunk, the longest line and one key's
//!   record, and gives the verdict of [`lt_checker::check`] on the whole text.
//! - [`check_pieces`] gives the same verdict on a text that can be read at any offset, such as a file. It uses threads,
//!   and a [`CutPlan`] says where it cuts the text.
//! - Both tell a [`CheckProgress`] how far they are.
//! - [`explain`] reads a text up to a line and says why a check refuses it: by a [`LineReason`], and by the first word
//!   that cannot stand in its place ([`bad_word`]). [`rule_of`] names the row of docs/RULES.md that applies.
//!
//! Read next: `specs/Audit.antt` for what a verdict on a stream says, `src/stream.rt`, and `src/parallel.rt`.
#![tactic(auto)]

mod chunks;
mod cuts;
mod error;
mod explained;
mod parallel;
mod progress;
mod reason;
mod rule;
mod shape;
mod stream;
mod text_at;

pub use cuts::CutPlan;
pub use error::AuditError;
pub use explained::{Explained, MOST_LINES, explain, read_first_line};
pub use parallel::check_pieces;
pub use progress::CheckProgress;
pub use reason::LineReason;
pub use rule::{Rule, rule_of};
pub use shape::{BadWord, bad_word};
pub use stream::{check_stream, check_stream_with};
pub use text_at::TextAt;
