use lt_entry::Entry;
use lt_ids::{Key, Through};
use lt_rules::{Call, Reply};
use std::marker::Model;
use std::snapshot::Snapshot;

/// The entry of a step, by its parts. In contracts it is that entry. The parts exist in the proofs alone, so a step
/// that is not stored needs no entry in memory, and the book copies none.
#[derive(Drop)]
pub struct EntryParts {
    key: Snapshot<Key>,
    pass: u32,
    call: Snapshot<Call>,
    reply: Snapshot<Reply>,
    lets: Snapshot<Vec<Through>>,
}

impl Model for EntryParts {
    ghost use Rattle.lt_rules.specs.Step.{EntryState};
    ghost use Rattle.lt_words.specs.Row.{made};

    ghost Value = { EntryState };

    ghost view = { λ e. made e.key.value e.pass e.call.value e.reply.value e.lets.value.items };
}

impl EntryParts {
    ghost use Rattle.std.specs.Prelude.{◌≡◌};
    ghost use Rattle.lt_words.specs.Row.{made};

    /// The parts of the entry of this pass's step at this key.
    pub fn new(key: &Key, pass: u32, call: &Call, reply: &Reply, lets: &Vec<Through>) -> EntryParts
        ensures { result ≡ made key.now pass call.now reply.now lets.now.items }
    {
        EntryParts {
            key: Snapshot::of(key),
            pass,
            call: Snapshot::of(call),
            reply: Snapshot::of(reply),
            lets: Snapshot::of(lets),
        }
    }

    /// The parts of an entry.
    pub fn of(entry: &Entry) -> EntryParts
        ensures { result ≡ entry.now }
    {
        EntryParts {
            key: Snapshot::of(entry.key()),
            pass: entry.pass(),
            call: Snapshot::of(&entry.call()),
            reply: Snapshot::of(&entry.reply()),
            lets: entry.snapshot_of_lets(),
        }
    }

    /// The pass that makes the step.
    pub fn pass(&self) -> u32
        ensures { result ≡ self.now.pass }
    {
        self.pass
    }
}
