//! What stands behind a shard's lock, and how is a step made of it? The shard makes the step, and the value beside it is
//! told. Read next `src/table.rt`.
ghost use Rattle.std.specs.Prelude.{◌≡◌, ◌≢◌, ◌+◌, true, List, IfOk, IfErr, OnErr, take};
ghost use Rattle.std.specs.Fn.{FnOnceReturnsAt, FnOnceReturnsAtMut};
ghost use Rattle.lt_rules.specs.Memory.{gives_up};
ghost use Rattle.lt_entry.specs.declared.entry.Entry.{Entry};
ghost use Rattle.lt_entry.specs.Ranges.{NamesNumber};
ghost use Rattle.lt_words.specs.History.{part, shard_of};
ghost use Rattle.lt_words.specs.declared.keeping.Keeping.TheVariants.{Unrecorded};
ghost use Rattle.lt_shard.specs.Shards.{ReportsStep, entry_of};
ghost use Rattle.lt_shard.specs.declared.answer.StepError.TheVariants.{HistoryFull};

use crate::shard_value::ShardValue;
use lt_ids::Key;
use lt_rules::{Call, KeyTable};
use lt_shard::{Answer, Shard, StepError};
use lt_words::laws::parts_begin;
use lt_words::{Book, Name, Pass};
use std::marker::{Model, PhantomData};
use std::sync::Wait;

/// A shard of the book that `N` names, and the value beside it, which fits the steps that were made of the shard. A value
/// behind a lock is known by its type alone. Contracts see the shard.
#[derive(Drop)]
pub(crate) struct Named<N: Name, T: KeyTable, V: ShardValue> {
    pub shard: Shard<T>,
    value: V,
    name: PhantomData<N>,
}

impl<N: Name, T: KeyTable, V: ShardValue> Model for Named<N, T, V> {
    ghost use Rattle.std.specs.Prelude.{◌≡◌};
    ghost use Rattle.std.specs.Coded.{codes};
    ghost use Rattle.lt_rules.specs.Codes.{records_code};
    ghost use Rattle.lt_shard.specs.Shards.{View};

    ghost Value = { View };

    ghost coded = { Prim.hlevel (codes, records_code) };

    ghost view = { λ s. s.shard };

    ghost invariant = { λ s. (s.shard.front.of ≡ N.of) × V.fits s.shard.stored s.value };
}

impl<N: Name, T: KeyTable, V: ShardValue> Named<N, T, V> {
    /// A shard of this book, and the value beside it.
    pub fn new(shard: Shard<T>, value: V) -> Named<N, T, V>
        requires of { shard.front.of ≡ N.of }
        requires fits { V.fits shard.stored value }
        ensures { result ≡ shard }
    {
        Named {
            shard,
            value,
            name: PhantomData,
        }
    }

    /// The shard, and the value beside it.
    pub fn into_parts(self) -> (Shard<T>, V)
        ensures same { result.0 ≡ self }
        ensures of { result.0.front.of ≡ N.of }
        ensures fits { V.fits self.stored result.1 }
    {
        let Named { shard, value, .. } = self;
        (shard, value)
    }

    /// [`Shard::step`], of which the value is told. If the value has no room for the call, no step is made.
    #[inline(always)]
    pub fn step<R: Wait>(
        &mut self,
        rt: &R,
        book: &Book,
        pass: &mut Pass,
        key: &Key,
        call: &Call,
    ) -> Result<Answer, StepError>
        requires book { book.now ≡ N.of }
        requires pass { pass.old.of ≡ N.of }
        requires home { self.old.index ≡ shard_of key.now N.of.shards }
        requires number { NamesNumber call.now }
        ensures reports { IfOk result (λ a. ReportsStep self.old pass.old pass.new key.now call.now a) }
        ensures reply { IfOk result (λ a. a.reply ≡ (entry_of self.old.stored pass.old.number key.now call.now).reply) }
        ensures index { self.new.index ≡ self.old.index }
        // The steps that were made of the shard are the first ones in its part of what the pass has then seen.
        ensures exact { IfOk result (λ a. take (a.at + 1) (part self.old.index pass.new.seen) ≡ self.new.stored) }
        ensures err { OnErr result ((self.new ≡ self.old) × (pass.new ≡ pass.old)) }
        ensures refused { IfErr result (λ e. N.of.keeping ≡ Unrecorded → (e ≢ HistoryFull) × (gives_up call.now ≢ true)) }
    {
        let number = pass.number();
        // Ghost call: tells the prover that the steps so far are legal.
        let _held = self.shard.history();
        if self.value.reserve(key, call).is_err() {
            return Err(StepError::Memory);
        }
        let answer = self.shard.step(rt, book, pass, key, call)?;
        // Ghost calls: tell the prover that the pass has seen the shard's steps, in their order.
        let _made = self.shard.history();
        parts_begin();
        self.value.follow(number, key, call, &answer);
        Ok(answer)
    }

    /// Lends the value, which fits the steps that were made of the shard.
    pub fn lend<A, F: FnOnce(&V) -> A>(&self, f: F) -> A
        requires { F.IsAlwaysCallable f }
        ensures { (v : V) × FnOnceReturnsAt F.FnOnce f v result × V.fits self.now.stored v }
    {
        f(&self.value)
    }

    /// Lends the value to be changed. It fits the same steps before and after.
    pub fn change<A, F: FnOnce(&mut V) -> A>(&mut self, f: F) -> A
        requires callable { F.IsAlwaysCallable f }
        requires keeps { (es : List Entry) (v : V) (a : A) (w : V) → V.fits es v → FnOnceReturnsAtMut F.FnOnce f v a w → V.fits es w }
        ensures changed { (v : V) × (w : V) × FnOnceReturnsAtMut F.FnOnce f v result w
            × V.fits self.old.stored v × V.fits self.old.stored w }
        ensures same { self.new ≡ self.old }
    {
        f(&mut self.value)
    }
}
