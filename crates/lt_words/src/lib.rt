//! How do threads share one history that no thread ever holds? Through a book: a row of atomic words, tied by a
//! rule to a log that only grows and exists in the proofs alone.
//!
//! Many threads draw request numbers, make key steps, and tell waiting requests that they were let through. Each of
//! these acts is one atomic exchange of one word of a [`Book`]:
//!
//! - the number word counts the draws;
//! - a shard's step word counts the steps of that shard, and its take word counts those that were taken out;
//! - a pass's status word has the highest ticket that was shown to the pass (`specs/Shown.antt`).
//!
//! The log lists all draws, all steps, all lets that were shown and all takes, in the order in which their exchanges happened.
//! The rule (`WordsMatchLog` in `specs/Rules.antt`) holds between any two exchanges. It says that the words agree
//! with the log, that the draws and steps are a legal table history (`specs/History.antt`), and that each let that
//! was shown had been let through.
//!
//! No thread sees the whole log. A [`Pass`] (one caller's token) and a [`Front`] (which a shard keeps behind its
//! lock) each carry a **seen prefix**: a prefix of the log that they are known to have reached. A seen prefix only
//! grows, and any two of them are prefixes of one list. So whatever any caller was told is part of one legal
//! history, in every schedule.
//!
//! Read next `src/book.rt` (the calls) and `specs/Rules.antt` (the rule). `docs/ARCHITECTURE.md`, "The growing
//! history", has a picture.
#![tactic(auto)]

mod book;
mod cache_line;
mod entry_parts;
mod event;
mod front;
mod keeping;
mod law;
pub mod laws;
mod name;
mod parking;
mod pass;
mod sharding;
mod sleepers;
mod untold;
mod waker;

pub use book::Book;
pub use entry_parts::EntryParts;
pub use event::{Event, Take};
pub use front::Front;
pub use keeping::Keeping;
pub use name::Name;
pub use parking::{Announced, LookedAgain};
pub use pass::{Pass, abandon_all};
pub use sharding::shard_of;
pub use waker::Waker;
