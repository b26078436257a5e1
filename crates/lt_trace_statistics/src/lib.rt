//! How are the steps of a text of histories summarized? [`Statistics`] takes the steps of a text one after the other, and
//! [`Statistics::finish`] gives their [`TextSummary`]: counts, the longest queue, the longest wait and the hottest keys.
//!
//! It holds the open waits of one key and [`MOST_KEYS`] keys, however long the text is. It counts what it is given: a
//! checker of `lt_history` says whether the steps are legal.
//!
//! Read next: `specs/Findings.antt` defines each figure as a function of the list of steps; then `src/statistics.rt`.
#![tactic(auto)]

mod hottest;
mod laws;
mod queue;
mod statistics;
mod summary;
mod waits;

pub use hottest::MOST_KEYS;
pub use laws::{longest_waits, no_longer_queue, ranking_is_hottest_first};
pub use statistics::Statistics;
pub use summary::{HotKey, LongestQueue, LongestWait, StepCounts, TextSummary};
