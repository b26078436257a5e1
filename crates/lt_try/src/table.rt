//! What is a table whose callers never wait, and how does a call make one key step? Read next `src/requests.rt`.
ghost use Rattle.std.specs.Prelude.{◌≡◌, ◌≤◌, ◌<◌, IfOk, IfErr, OnErr, IfSome};
ghost use Rattle.lt_entry.specs.Ranges.{NamesNumber};
ghost use Rattle.lt_words.specs.History.{shard_of};
ghost use Rattle.lt_words.specs.Row.{awoken};
ghost use Rattle.lt_walk.specs.Reported.{ReportsCall};
ghost use Rattle.lt_try.specs.Slots.{IsInShard};
ghost use Rattle.lt_try.specs.Refused.{RefusesCallWith};

use crate::error::TryError;
use crate::slot::{Inside, ShardSlot};
use lt_ids::Key;
use lt_rules::{Call, KeyTable};
use lt_shard::{Answer, EmptyTables, Shard};
use lt_walk::{Config, KeySteps};
use lt_words::{Book, Keeping, Pass, Waker, shard_of};
use std::marker::Model;

/// A lock table that callers share, and whose calls never wait. `T` keeps the records of a shard's keys, `M` makes empty
/// tables, and `W` is called for each let.
#[derive(Drop)]
pub struct TryTable<T: KeyTable, M: EmptyTables<T>, W: Waker = ()> {
    pub(crate) config: Config,
    pub(crate) book: Book,
    pub(crate) slots: Vec<ShardSlot<T>>,
    pub(crate) tables: M,
    pub(crate) waker: W,
}

impl<T: KeyTable, M: EmptyTables<T>, W: Waker> Model for TryTable<T, M, W> {
    ghost use Rattle.std.specs.Prelude.{◌≡◌, length};
    ghost use Rattle.lt_walk.specs.Configs.{IsOpened};
    ghost use Rattle.lt_try.specs.Tags.{TableState, AreTags};

    ghost Value = { TableState };

    ghost view = { λ t. record { config = t.config; of = t.book } };

    ghost invariant = { λ t.
        IsOpened t.config t.book × (length t.slots.items ≡ t.book.shards)
        × AreTags t.book t.config.max_steps t.slots.items };
}

/// Makes the call at the key, which is in this shard. The pass has then still to wake whom the step let through.
#[inline(always)]
fn step_inside<T: KeyTable + Drop, M: EmptyTables<T>>(
    shard: &mut Shard<T>,
    tables: &M,
    book: &Book,
    pass: &mut Pass,
    key: &Key,
    call: &Call,
) -> Result<Answer, TryError>
    requires book { book.now ≡ shard.old.front.of }
    requires pass { pass.old.of ≡ book.now }
    requires shard { shard.old.index ≡ shard_of key.now book.now.shards }
    requires number { NamesNumber call.now }
    ensures ok { IfOk result (λ a. ReportsCall pass.old (awoken pass.new) key.now call.now a) }
    ensures err { OnErr result (pass.new ≡ pass.old) }
    ensures refused { IfErr result (λ e. RefusesCallWith book.now.keeping call.now e) }
    ensures of { shard.new.front.of ≡ shard.old.front.of }
    ensures index { shard.new.index ≡ shard.old.index }
    ensures max_steps { shard.new.max_steps ≡ shard.old.max_steps }
{
    match shard.step_once(tables, book, pass, key, call) {
        Ok(answer) => Ok(answer),
        Err(error) => Err(TryError::from(error)),
    }
}

impl<T: KeyTable + Drop, M: EmptyTables<T>, W: Waker> TryTable<T, M, W> {
    /// How many shards the table has, from 1 to 64.
    pub fn shards(&self) -> usize
        ensures { result ≡ self.now.of.shards }
    {
        self.slots.len()
    }

    /// The shard of a key, from 0: the sum of the key's bytes modulo the number of shards.
    pub fn shard_of(&self, key: &Key) -> usize
        ensures shard { result ≡ shard_of key.now self.now.of.shards }
        ensures below { result < self.now.of.shards }
    {
        shard_of(key, self.slots.len())
    }

    /// How many passes the table has, from 1 to 1024.
    pub fn passes(&self) -> usize
        ensures passes { result ≡ self.now.config.passes }
        ensures same { result ≡ self.now.of.passes }
        ensures few { result ≤ 1024 }
    {
        self.config.passes
    }

    /// How the table keeps its steps.
    pub fn keeping(&self) -> Keeping
        ensures { result ≡ self.now.of.keeping }
    {
        self.book.keeping()
    }

    /// Goes into the shard with this index, if no other caller is in it.
    #[inline(always)]
    pub(crate) fn enter_shard(&self, index: usize) -> Option<Inside<'_, T>>
        requires { index < self.now.of.shards }
        ensures { IfSome result (λ inside. IsInShard self.now.of self.now.config.max_steps index inside.slot.now inside.seat.me) }
    {
        let inside = self.slots[index].enter()?;
        Some(inside)
    }
}

impl<T: KeyTable + Drop, M: EmptyTables<T>, W: Waker> KeySteps for TryTable<T, M, W> {
    type Refusal = TryError;

    ghost of = { λ t. t.of };

    ghost may_refuse = { λ t call e. RefusesCallWith t.of.keeping call e };

    #[inline(always)]
    fn book(&self) -> &Book {
        &self.book
    }

    /// Makes the call at the key, if no other caller is in the key's shard.
    #[inline(always)]
    fn step(&self, pass: &mut Pass, key: &Key, call: &Call) -> Result<Answer, TryError> {
        let index = self.shard_of(key);
        let Some(mut inside) = self.enter_shard(index) else {
            return Err(TryError::Busy);
        };
        let slot = inside.slot;
        let shard = inside.seat.slot_mut(&slot.place.shared, 0);
        let answered = step_inside(shard, &self.tables, &self.book, pass, key, call);
        inside.leave();
        let answer = answered?;
        // The slot is free again, so the callers that are woken do not find it taken.
        self.book.hand_out(pass, &self.waker);
        Ok(answer)
    }
}
