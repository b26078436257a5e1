use crate::keeping::Keeping;
use lt_entry::Entry;
use lt_ids::Through;

/// An event of the table history. The opening comes first and names the numbers of shards and passes and how steps
/// are kept; draws of numbers and key steps follow. No code makes a value of this type: it exists in the proofs
/// alone.
pub enum Event {
    Opened {
        shards: usize,
        passes: usize,
        keeping: Keeping,
    },
    Draw {
        pass: u32,
        number: u64,
    },
    Step {
        shard: usize,
        entry: Entry,
    },
}

/// A take of stored steps: the pass that took them, their shard, and how many they were.
#[derive(Drop)]
pub struct Take {
    pub pass: u32,
    pub shard: usize,
    pub many: u64,
}

/// An entry of the log: an event of the table history, that a let was shown to the pass that waits, or that stored
/// steps were taken out. No code makes a value of this type: it exists in the proofs alone.
pub enum Logged {
    Happened(Event),
    Shown(Through),
    Took(Take),
}
