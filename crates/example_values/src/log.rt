//! How is the log of values opened, read and extended?
ghost use Rattle.std.specs.Prelude.{◌≡◌, ◌+◌, ◌≤◌, true, Some};
ghost use mathlib.Core.List.{IsPrefix};
ghost use Rattle.example_values.specs.Values.{left_at, said_of, EntriesStay};

use crate::entry::LeftValue;
use crate::law::{AsksToLeave, LeaveRule, Leaving, NoGain, OpensEmpty, ValueRule, WordReadRule};
use logbook::{Offer, Seen, Start, Word};
use lt_ids::Key;
use std::alloc::{AllocError, Global};
use std::marker::Model;
use std::snapshot::Snapshot;

/// A prefix of a log of values that was seen. It has no bytes.
#[derive(Drop)]
pub struct SeenValues {
    seen: Seen<LeftValue, u64, ValueRule>,
}

impl Model for SeenValues {
    ghost use Rattle.example_values.specs.Values.{ValuesState};

    ghost Value = { ValuesState };

    ghost view = { λ v. record { book = v.seen.book; log = v.seen.log } };
}

impl SeenValues {
    ghost use Rattle.std.specs.Prelude.{◌≡◌};
    ghost use mathlib.Core.List.{IsPrefix};

    /// A copy.
    pub fn again(&self) -> SeenValues
        ensures { result ≡ self.now }
    {
        SeenValues {
            seen: self.seen.again(),
        }
    }

    /// Extends what was seen: afterwards it has all that both had seen.
    pub fn learn(&mut self, other: &SeenValues)
        requires { other.now.book ≡ self.old.book }
        ensures book { self.new.book ≡ self.old.book }
        ensures more { IsPrefix self.old.log self.new.log }
        ensures that { IsPrefix other.now.log self.new.log }
    {
        self.seen.learn(&other.seen);
    }
}

/// The word of a shard. It is above the index of the latest step of which an entry was made. It fills a cache line, so that
/// threads at different shards do not slow each other down.
#[derive(Drop)]
struct ValueWord {
    word: Word<LeftValue, u64, ValueRule>,
    shard: usize,
    _rest: [u64; 6],
}

impl Model for ValueWord {
    ghost use Rattle.std.specs.Prelude.{◌≡◌, ◌<◌};
    ghost use Rattle.example_values.specs.Values.{WordState, value_word};

    ghost Value = { WordState };

    ghost view = { λ w. record { book = w.word.book; shard = w.shard } };

    ghost invariant = { λ w. (w.word ≡ value_word w.word.book w.shard) × (w.shard < 64) };
}

/// A log of values, by the words that keep it: one for each of 64 shards. Threads share it. Contracts see which book it is.
#[derive(Drop)]
pub struct ValueBook {
    words: Vec<ValueWord>,
    start: SeenValues,
}

impl Model for ValueBook {
    ghost use Rattle.logbook.specs.Pages.{Book};
    ghost use Rattle.example_values.specs.Values.{IsValueBook};

    ghost Value = { Book };

    ghost view = { λ b. b.start.book };

    ghost invariant = { λ b. IsValueBook b.start b.words.items };
}

impl SeenValues {
    /// What the word is, in a log that is then seen.
    fn read(&mut self, word: &ValueWord) -> u64
        requires { word.now.book ≡ self.old.book }
        ensures book { self.new.book ≡ self.old.book }
        ensures more { IsPrefix self.old.log self.new.log }
    {
        let mut offer: Offer<LeftValue, u64, ValueRule, NoGain> = self
            .seen
            .plain::<NoGain, (), AsksToLeave>(&());
        word.word
            .load::<WordReadRule, NoGain>(&mut self.seen, &mut offer)
    }

    /// Tries once to append the entry, and says whether it did. The word was `old`.
    fn try_leave(&mut self, word: &ValueWord, old: u64, new: u64, leaving: &Leaving) -> bool
        requires book { word.now.book ≡ self.old.book }
        requires shard { leaving.now.shard ≡ word.now.shard }
        requires above { old ≤ leaving.now.at }
        requires next { new ≡ leaving.now.at + 1 }
        ensures book { self.new.book ≡ self.old.book }
        ensures more { IsPrefix self.old.log self.new.log }
        ensures left { result ≡ true → said_of self.new.log leaving.now.shard leaving.now.at ≡ Some (left_at leaving.now.shard leaving.now.key.value leaving.now.at leaving.now.value.value) }
    {
        let mut offer: Offer<LeftValue, u64, ValueRule, NoGain> = self
            .seen
            .plain::<NoGain, Leaving, AsksToLeave>(leaving);
        let mut pen = self.seen.no_pen();
        let found = word
            .word
            .compare_exchange::<LeaveRule, NoGain>(old, new, &mut self.seen, &mut offer, &mut pen);
        found == old
    }
}

impl ValueBook {
    ghost use Rattle.std.specs.Prelude.{◌≡◌, ◌<◌, true, Some, IfOk};
    ghost use mathlib.Core.List.{IsPrefix};
    ghost use Rattle.example_values.specs.Values.{left_at, said_of};

    /// Opens a log of values, which says nothing yet. If an allocation fails, nothing is left.
    pub fn open(alloc: Global) -> Result<ValueBook, AllocError> {
        let mut words = Vec::with_capacity(alloc, 64)?;
        let (seen, mut pens) = Seen::open_row::<(), OpensEmpty>(&(), Start::alone(), 64);
        for shard in 0..64 {
            let mut pen = pens.take();
            let word = Word::tracked(0, &mut pen);
            words.push_reserved(ValueWord {
                word,
                shard,
                _rest: [0; 6],
            });
        }
        Ok(ValueBook {
            words,
            start: SeenValues { seen },
        })
    }

    /// What is seen of the log by a caller who has seen nothing of it.
    pub fn seen(&self) -> SeenValues
        ensures { result.book ≡ self.now }
    {
        self.start.again()
    }

    /// Appends an entry to the log: the step with this index of the shard freed the key's lock, and left this value there.
    /// False if the shard's word is above the index already, or if another caller changes it meanwhile. Then nothing was
    /// appended. Shards are numbered from 0 to 63.
    pub fn leave(
        &self,
        seen: &mut SeenValues,
        shard: usize,
        key: &Key,
        at: u64,
        value: &Option<Vec<u8>>,
    ) -> bool
        requires book { self.now ≡ seen.old.book }
        requires shard { shard < 64 }
        ensures book { seen.new.book ≡ seen.old.book }
        ensures more { IsPrefix seen.old.log seen.new.log }
        ensures left { result ≡ true → said_of seen.new.log shard at ≡ Some (left_at shard key.now at value.now) }
    {
        // Ghost read: tells the prover what the book's words are.
        let _ = &self.start;
        let word = &self.words[shard];
        let old = seen.read(word);
        let Some(new) = at.checked_add(1) else {
            return false;
        };
        if old > at {
            return false;
        }
        let leaving = Leaving {
            shard,
            key: Snapshot::of(key),
            at,
            value: Snapshot::of(value),
        };
        seen.try_leave(word, old, new, &leaving)
    }
}

/// What the log says of a step stays, however it grows.
pub fn entries_stay()
    ensures { EntriesStay }
{}
