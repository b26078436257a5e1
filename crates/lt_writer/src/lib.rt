//! How does a list of key steps become the text of histories? This crate composes the text, and writes texts out.
//!
//! A history is a list of the key steps that a lock table made. Each step is an [`Entry`]: its key, its pass, its
//! call, its reply and the lets of the step. [`compose`] returns the text of such lists as a vector,
//! [`put_histories`] appends it to a vector, and [`write_out`] writes any text to a stream.
//!
//! What is promised:
//!
//! - `compose` and `put_histories` give the text of all entries: the keys in rising order, and the steps of each key
//!   in their order (`IsTextOf` in `lt_checker/specs/Histories.antt`).
//! - `write_out` writes the whole text, or a prefix of it if a write fails (`specs/Puts.antt`).
//!
//! Read next: `src/composer.rt` and `src/output.rt`. `lt_checker` reads and checks such texts.
#![tactic(auto)]

mod composer;
mod output;

pub use composer::{compose, put_histories};
pub use lt_entry::Entry;
pub use output::{PrintError, write_out};
