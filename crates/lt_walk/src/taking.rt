//! Who reads the steps of a table while it runs? Read next `specs/Taken.antt`.
use thiserror::Error;

/// A reader of one shard's history. `next` is how many of the shard's steps the reader was given: the first ones.
#[derive(Clone, Copy, Debug, PartialEq, Eq)]
pub struct Reader {
    pub shard: usize,
    pub next: u64,
}

/// The reader does not continue where the last take ended: another call took steps out, or the table stores none.
/// The number is how many of the shard's first steps are gone.
#[derive(Clone, Copy, Debug, PartialEq, Eq, Drop, Error)]
#[error("so many steps of the shard are gone: {0}")]
pub struct Gone(pub u64);
