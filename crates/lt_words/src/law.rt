//! Which rule do the words keep, and what does each access of a word tell its caller?
//!
//! The types here implement the traits of the kit's `logbook`, on which a book is built. The rule and the accesses
//! name their definitions in `specs/Rules.antt`. Read next that file, and then `src/front.rt`, which makes the
//! accesses.
use crate::entry_parts::EntryParts;
use crate::event::{Logged, Take};
use crate::keeping::Keeping;
use logbook::{Gain, Opening, Plain, Play, Rule};
use lt_ids::Through;
use std::snapshot::Snapshot;

/// The rule of every book: its words match its log.
pub struct BookRule;

impl Rule<Logged, u64> for BookRule {
    ghost use Rattle.std.specs.Prelude.{[]};
    ghost use base.Fml.{ftrue};
    ghost use Rattle.lt_words.specs.Rules.{WordsMatchLog};

    ghost holds = { λ cells log. WordsMatchLog cells log };

    ghost first = { [] };

    ghost hinted = { λ n log. Unit {0} };

    ghost shows = { λ log. [] };

    ghost keeps = { λ names log. ftrue };

    ghost moves = { λ ask before after answer. Unit {0} };
}

/// A caller gains nothing from an access besides what the access tells it.
pub struct Nothing;

impl Gain<Logged, u64> for Nothing {
    ghost use base.Fml.{ftrue};

    ghost after = { λ names about answer. ftrue };
}

/// What a book's opening event names: the numbers of shards and passes, and how its table keeps steps.
#[derive(Drop)]
pub struct Sizes {
    pub shards: usize,
    pub passes: usize,
    pub keeping: Keeping,
}

/// The log with which a book opens: the opening event alone.
pub struct Opens;

impl Opening<Sizes, Logged> for Opens {
    ghost use Rattle.std.specs.Prelude.{[], ◌∷◌};
    ghost use Rattle.lt_words.specs.declared.event.Event.TheVariants.{Opened};
    ghost use Rattle.lt_words.specs.declared.event.Logged.TheVariants.{Happened};

    ghost log = { λ count sizes. Happened (Opened sizes.shards sizes.passes sizes.keeping) ∷ [] };
}

/// A load of the number word.
pub struct DrawnRule;

impl Play<Logged, u64> for DrawnRule {
    ghost use Rattle.lt_words.specs.Rules.{DrawnGives};

    ghost then = { DrawnGives };
}

/// A load of a status word.
pub struct ReadRule;

impl Play<Logged, u64> for ReadRule {
    ghost use Rattle.lt_words.specs.Rules.{ReadGives};

    ghost then = { ReadGives };
}

/// An exchange of the number word, for a draw.
pub struct DrawRule;

impl Play<Logged, u64> for DrawRule {
    ghost use Rattle.lt_words.specs.Rules.{DrawGives};

    ghost then = { DrawGives };
}

/// An exchange of a step word, for a step.
pub struct CommitRule;

impl Play<Logged, u64> for CommitRule {
    ghost use Rattle.lt_words.specs.Rules.{CommitGives};

    ghost then = { CommitGives };
}

/// An exchange of a step word from n to n, which changes nothing.
pub struct ExactRule;

impl Play<Logged, u64> for ExactRule {
    ghost use Rattle.lt_words.specs.Rules.{ExactGives};

    ghost then = { ExactGives };
}

/// An exchange of a status word, for a let that is being shown.
pub struct SignalRule;

impl Play<Logged, u64> for SignalRule {
    ghost use Rattle.lt_words.specs.Rules.{SignalGives};

    ghost then = { SignalGives };
}

/// An exchange of a take word, for a take of stored steps.
pub struct TakeRule;

impl Play<Logged, u64> for TakeRule {
    ghost use Rattle.lt_words.specs.Rules.{TakeGives};

    ghost then = { TakeGives };
}

/// An exchange of a take word from n to n, which changes nothing.
pub struct TakenRule;

impl Play<Logged, u64> for TakenRule {
    ghost use Rattle.lt_words.specs.Rules.{TakenGives};

    ghost then = { TakenGives };
}

/// A draw: its pass and its number.
#[derive(Drop)]
pub struct Drawing {
    pub pass: u32,
    pub number: u64,
}

/// A step: its shard and its entry.
#[derive(Drop)]
pub struct Stepping {
    pub shard: usize,
    pub entry: Snapshot<EntryParts>,
}

/// The entry that an exchange asks the log to append.
pub struct Asks;

impl Plain<Drawing, Logged, u64> for Asks {
    ghost use Rattle.std.specs.Prelude.{None};
    ghost use Rattle.lt_words.specs.declared.event.Event.TheVariants.{Draw};
    ghost use Rattle.lt_words.specs.declared.event.Logged.TheVariants.{Happened};

    ghost ask = { λ d. Happened (Draw d.pass d.number) };

    ghost state = { λ d. None };
}

impl Plain<Stepping, Logged, u64> for Asks {
    ghost use Rattle.std.specs.Prelude.{None};
    ghost use Rattle.lt_words.specs.declared.event.Event.TheVariants.{Step};
    ghost use Rattle.lt_words.specs.declared.event.Logged.TheVariants.{Happened};

    ghost ask = { λ s. Happened (Step s.shard s.entry.value) };

    ghost state = { λ s. None };
}

impl Plain<Through, Logged, u64> for Asks {
    ghost use Rattle.std.specs.Prelude.{None};
    ghost use Rattle.lt_words.specs.declared.event.Logged.TheVariants.{Shown};

    ghost ask = { λ t. Shown t };

    ghost state = { λ t. None };
}

impl Plain<Take, Logged, u64> for Asks {
    ghost use Rattle.std.specs.Prelude.{None};
    ghost use Rattle.lt_words.specs.declared.event.Logged.TheVariants.{Took};

    ghost ask = { λ t. Took t };

    ghost state = { λ t. None };
}
