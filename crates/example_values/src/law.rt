//! Which rule do the words of a log keep, and what does each access of a word tell its caller? The types here implement the
//! traits of the kit's `logbook`. Read `specs/Values.antt` next.
use crate::entry::LeftValue;
use logbook::{Gain, Opening, Plain, Play, Rule};
use lt_ids::Key;
use std::snapshot::Snapshot;

/// The rule of every log of values.
pub struct ValueRule;

impl Rule<LeftValue, u64> for ValueRule {
    ghost use Rattle.std.specs.Prelude.{[]};
    ghost use base.Fml.{ftrue};
    ghost use Rattle.example_values.specs.Values.{WordsBound};

    ghost holds = { λ cells log. WordsBound cells log };

    ghost first = { [] };

    ghost hinted = { λ n log. Unit {0} };

    ghost shows = { λ log. [] };

    ghost keeps = { λ names log. ftrue };

    ghost moves = { λ ask before after answer. Unit {0} };
}

/// A caller gains nothing from an access besides what the access tells it.
pub struct NoGain;

impl Gain<LeftValue, u64> for NoGain {
    ghost use base.Fml.{ftrue};

    ghost after = { λ names about answer. ftrue };
}

/// The log with which a log of values opens: nothing.
pub struct OpensEmpty;

impl Opening<(), LeftValue> for OpensEmpty {
    ghost use Rattle.std.specs.Prelude.{[]};

    ghost log = { λ count about. [] };
}

/// A load of a word.
pub struct WordReadRule;

impl Play<LeftValue, u64> for WordReadRule {
    ghost use Rattle.example_values.specs.Values.{WordReadGives};

    ghost then = { WordReadGives };
}

/// An exchange of a word, for an entry.
pub struct LeaveRule;

impl Play<LeftValue, u64> for LeaveRule {
    ghost use Rattle.example_values.specs.Values.{LeaveGives};

    ghost then = { LeaveGives };
}

/// What a step left, to be appended.
#[derive(Drop)]
pub struct Leaving {
    pub shard: usize,
    pub key: Snapshot<Key>,
    pub at: u64,
    pub value: Snapshot<Option<Vec<u8>>>,
}

/// The entry that an access asks the log to append.
pub struct AsksToLeave;

impl Plain<Leaving, LeftValue, u64> for AsksToLeave {
    ghost use Rattle.std.specs.Prelude.{None};
    ghost use Rattle.example_values.specs.Values.{left_at};

    ghost ask = { λ l. left_at l.shard l.key.value l.at l.value.value };

    ghost state = { λ l. None };
}

impl Plain<(), LeftValue, u64> for AsksToLeave {
    ghost use Rattle.std.specs.Prelude.{None, []};
    ghost use Rattle.example_values.specs.Values.{left_at};

    ghost ask = { λ l. left_at 0 [] 0 None };

    ghost state = { λ l. None };
}
