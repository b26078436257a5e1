//! How is a table closed, what is left of it, and why may a close be refused?
//!
//! One pass learns what all the others had seen, and then meets each shard once. So what it has then seen is one
//! history that extends what every pass had seen, and each shard's steps are a prefix of that history's part. Read
//! next `IsClosed` in `specs/Closed.antt` of `lt_walk`, and then `close` and `close_rest` at the end of this file.
ghost use Rattle.std.specs.Prelude.{◌≡◌, ◌≢◌, ◌≤◌, ◌<◌, ◌+◌, ℕ, [], true, IsTrue, IsFalse, map, length, slice_index, slice_index_or, vec_len, vec_capacity, IfOk, IfErr, IfSome, IfNone, OnErr, OnOk};
ghost use Rattle.std.specs.List.{All, AllByRecursion};
ghost use mathlib.Core.List.{IsPrefix};
ghost use Rattle.lt_shard.specs.Shards.{View};
ghost use Rattle.lt_words.specs.Row.{SeesMore};
ghost use Rattle.lt_table_core.specs.Slots.{AreInPlace};
ghost use Rattle.lt_walk.specs.Closed.{tally, tallied_at, taken_at, passes_of, IsCounted, AreCounted, IsMiscount, IsEnded, AreEnded, IsClosed, IsClosedRest, AreRestsOf, AreWhole, IsRoomFor, IsUnclosed, IsGivenBack};

use crate::named::Named;
use crate::shard_value::ShardValue;
use crate::table::{Label, Slot, Table};
use lt_entry::Entry;
use lt_rules::KeyTable;
use lt_shard::Rest;
use lt_walk::{
    CloseError, ClosedTable, Guard, Histories, Rests, Wanted, abandon_guards, all_passes,
    into_histories, is_counted, learn_all,
};
use lt_words::{Book, Keeping, Name, Pass, Waker, abandon_all};
use std::alloc::{AllocError, Global};
use std::sync::Wait;

/// A table that was not closed: the table, the passes and the guards come back as they were.
pub struct CloseRefused<N: Name, T: KeyTable, W: Waker = (), V: ShardValue = ()> {
    pub table: Table<N, T, W, V>,
    pub passes: Vec<Pass>,
    pub guards: Vec<Guard>,
    pub error: CloseError,
}

impl<N: Name, T: KeyTable + Drop, W: Waker + Drop, V: ShardValue + Drop> CloseRefused<N, T, W, V> {
    /// Gives up the table with its passes and guards.
    pub fn abandon(self) {
        let CloseRefused {
            table: _,
            passes,
            guards,
            error: _,
        } = self;
        abandon_all(passes);
        abandon_guards(guards);
    }
}

/// Names the first shard that is not counted in the sense of `is_counted`.
fn count_fault<N: Name, T: KeyTable, V: ShardValue>(
    shards: &[Named<N, T, V>],
    wanted: Wanted,
    passes: &[Pass],
    guards: &[Guard],
) -> Option<CloseError>
    requires many { length shards.now ≡ N.of.shards }
    requires passes { All (λ p. p.of ≡ N.of) passes.now }
    requires guards { All (λ g. g.pass.of ≡ N.of) guards.now }
    ensures none { IfNone result (AreCounted wanted (passes_of passes.now guards.now) shards.now N.of.shards) }
    ensures some { IfSome result (IsMiscount wanted (passes_of passes.now guards.now) shards.now) }
{
    for index in 0..shards.len() {
        let named = &shards[index];
        if !is_counted(&named.shard, index, wanted, passes, guards) {
            return Some(CloseError::Counts(index));
        }
    }
    None
}

/// Lets the pass meet the shard, and returns what is left of the shard.
fn end_shard<N: Name, T: KeyTable + Drop, V: ShardValue + Drop, R: Wait>(
    rt: &R,
    book: &Book,
    named: Named<N, T, V>,
    last: &mut Pass,
) -> Rest
    requires book { book.now ≡ N.of }
    requires pass { last.old.of ≡ N.of }
    ensures ended { IsEnded N.of last.old last.new named.index named result }
    ensures more { SeesMore last.old last.new }
{
    let (mut shard, _value) = named.into_parts();
    shard.meet(rt, book, last);
    shard.into_rest()
}

/// Lets the pass meet each shard, and returns what is left of each.
fn end_shards<N: Name, T: KeyTable + Drop, V: ShardValue + Drop, R: Wait>(
    rt: &R,
    book: &Book,
    shards: Vec<Named<N, T, V>>,
    last: &mut Pass,
    mut rests: Vec<Rest>,
) -> Vec<Rest>
    requires book { book.now ≡ N.of }
    requires pass { last.old.of ≡ N.of }
    requires indices { (s : ℕ) (v : View) → s < length shards.items → (slice_index_or shards.items s v).index ≡ s }
    requires empty { rests.items ≡ [] }
    requires room { length shards.items ≤ vec_capacity rests }
    ensures ended { AreEnded N.of last.old last.new shards.items result.items }
    ensures more { SeesMore last.old last.new }
{
    for shard in shards {
        let rest = end_shard(rt, book, shard, last);
        rests.push_reserved(rest);
    }
    rests
}

/// The shards of these slots, in order. `shards` is empty and has room for them.
fn shards_of<N: Name, T: KeyTable + Drop, V: ShardValue + Drop>(
    slots: Vec<Slot<N, T, V>>,
    mut shards: Vec<Named<N, T, V>>,
) -> Vec<Named<N, T, V>>
    requires empty { shards.items ≡ [] }
    requires room { length slots.items ≤ vec_capacity shards }
    ensures { length result.items ≡ length slots.items }
{
    for slot in slots {
        shards.push_reserved(slot.into_shard());
    }
    shards
}

/// Puts each shard back behind a lock, in order. `slots` is empty and has room for them.
fn slots_back<N: Name, T: KeyTable + Drop, V: ShardValue + Drop>(
    shards: Vec<Named<N, T, V>>,
    max_steps: u64,
    mut slots: Vec<Slot<N, T, V>>,
) -> Vec<Slot<N, T, V>>
    requires empty { slots.items ≡ [] }
    requires room { length shards.items ≤ vec_capacity slots }
    ensures many { length result.items ≡ length shards.items }
    ensures each { AreInPlace max_steps (map (λ s. s.label) result.items) }
{
    for shard in shards {
        let label = Label {
            index: slots.len(),
            max_steps,
        };
        slots.push_reserved(Slot::back(shard, label));
    }
    slots
}

/// Room for the shards, for their locks if the table comes back, for what is left of them, and for their histories.
#[derive(Drop)]
struct CloseRoom<N: Name, T: KeyTable, V: ShardValue> {
    shards: Vec<Named<N, T, V>>,
    slots: Vec<Slot<N, T, V>>,
    rests: Vec<Rest>,
    histories: Vec<Vec<Entry>>,
}

/// Allocates that room, and room in `passes` for the passes of so many guards.
fn take_room<N: Name, T: KeyTable + Drop, V: ShardValue + Drop>(
    alloc: Global,
    shards: usize,
    passes: &mut Vec<Pass>,
    guards: usize,
) -> Result<CloseRoom<N, T, V>, CloseError>
    ensures shards { IfOk result (λ room. IsRoomFor shards room.shards) }
    ensures slots { IfOk result (λ room. IsRoomFor shards room.slots) }
    ensures rests { IfOk result (λ room. IsRoomFor shards room.rests) }
    ensures histories { IfOk result (λ room. IsRoomFor shards room.histories) }
    ensures passes { passes.new.items ≡ passes.old.items }
    ensures guards { OnOk result (length passes.old.items + guards ≤ vec_capacity passes.new) }
    ensures refused { IfErr result (λ e. e ≡ CloseError.Memory) }
{
    passes.reserve(guards)?;
    Ok(CloseRoom {
        shards: Vec::with_capacity(alloc, shards)?,
        slots: Vec::with_capacity(alloc, shards)?,
        rests: Vec::with_capacity(alloc, shards)?,
        histories: Vec::with_capacity(alloc, shards)?,
    })
}

/// Ends the table: one pass learns what all passes had seen and meets each shard, so it has then seen everything.
fn end<N: Name, T: KeyTable + Drop, V: ShardValue + Drop, R: Wait>(
    rt: &R,
    book: &Book,
    shards: Vec<Named<N, T, V>>,
    wanted: Wanted,
    mut passes: Vec<Pass>,
    rests: Vec<Rest>,
) -> Rests
    requires book { book.now ≡ N.of }
    requires some { 0 < length passes.items }
    requires passes { All (λ p. p.of ≡ N.of) passes.items }
    requires many { length shards.items ≡ N.of.shards }
    requires counted { AreCounted wanted passes.items shards.items N.of.shards }
    requires keeping { wanted.keeping ≡ N.of.keeping }
    requires empty { rests.items ≡ [] }
    requires room { length shards.items ≤ vec_capacity rests }
    ensures closed { IsClosedRest N.of passes.items result.shards.items result.draws }
    ensures whole { wanted.whole ≡ true → AreWhole N.of result.shards.items }
    ensures limit { All (λ t. length t.entries.items ≤ wanted.max_steps) result.shards.items }
{
    let Some(mut last) = passes.pop() else {
        unreachable!()
    };
    learn_all(&mut last, &passes);
    let rests = end_shards(rt, book, shards, &mut last, rests);
    let draws = book.drawn(&mut last);
    last.legal();
    last.abandon();
    abandon_all(passes);
    Rests {
        shards: rests,
        draws,
    }
}

/// The table with its passes and guards, which come back because of this error.
fn refusal<N: Name, T: KeyTable, W: Waker, V: ShardValue>(
    table: Table<N, T, W, V>,
    passes: Vec<Pass>,
    guards: Vec<Guard>,
    error: CloseError,
) -> CloseRefused<N, T, W, V>
    requires { IsUnclosed error (length passes.items + length guards.items) table }
    ensures { IsGivenBack table passes.items guards.items result.error result.table result.passes.items result.guards.items }
{
    CloseRefused {
        table,
        passes,
        guards,
        error,
    }
}

impl<N: Name, T: KeyTable + Drop, W: Waker + Drop, V: ShardValue + Drop> Table<N, T, W, V> {
    /// Closes a table whose passes are back, in this room. With `only_whole`, refuses it if steps are gone.
    fn close_in<R: Wait>(
        self,
        rt: &R,
        only_whole: bool,
        passes: Vec<Pass>,
        guards: Vec<Guard>,
        room: CloseRoom<N, T, V>,
    ) -> Result<ClosedTable, CloseRefused<N, T, W, V>>
        requires passes { All (λ p. p.of ≡ N.of) passes.items }
        requires guards { All (λ g. g.pass.of ≡ N.of) guards.items }
        requires back { self.passes ≤ length passes.items + length guards.items }
        requires shards { IsRoomFor self.shards room.shards }
        requires slots { IsRoomFor self.shards room.slots }
        requires rests { IsRoomFor self.shards room.rests }
        requires histories { IsRoomFor self.shards room.histories }
        requires all { length passes.items + length guards.items ≤ vec_capacity passes }
        ensures closed { IfOk result (λ e. AreRestsOf N.of passes.items guards.items e.rests) }
        ensures whole { IfOk result (λ e. only_whole ≡ true → AreWhole N.of e.rests.shards.items) }
        ensures limit { IfOk result (λ e. All (λ t. length t.entries.items ≤ self.max_steps) e.rests.shards.items) }
        ensures room { IfOk result (λ e. IsRoomFor (length e.rests.shards.items) e.histories) }
        ensures enough { OnOk result (self.passes ≤ length passes.items + length guards.items) }
        ensures back { IfErr result (λ e. IsGivenBack self passes.items guards.items e.error e.table e.passes.items e.guards.items) }
    {
        let Table {
            config,
            book,
            shards,
            waker,
        } = self;
        let shards = shards_of(shards, room.shards);
        let wanted = Wanted {
            whole: only_whole,
            max_steps: config.max_steps,
            keeping: book.keeping(),
        };
        if let Some(error) = count_fault(&shards, wanted, &passes, &guards) {
            let shards = slots_back(shards, config.max_steps, room.slots);
            let table = Table {
                config,
                book,
                shards,
                waker,
            };
            return Err(refusal(table, passes, guards, error));
        }
        let passes = all_passes(passes, guards);
        let rests = end(rt, &book, shards, wanted, passes, room.rests);
        Ok(ClosedTable {
            rests,
            histories: room.histories,
        })
    }

    /// Closes the table if all passes are back. With `only_whole`, refuses it if steps are gone.
    fn close_as<R: Wait>(
        self,
        rt: &R,
        alloc: Global,
        only_whole: bool,
        mut passes: Vec<Pass>,
        guards: Vec<Guard>,
    ) -> Result<ClosedTable, CloseRefused<N, T, W, V>>
        requires passes { All (λ p. p.of ≡ N.of) passes.items }
        requires guards { All (λ g. g.pass.of ≡ N.of) guards.items }
        ensures closed { IfOk result (λ e. AreRestsOf N.of passes.items guards.items e.rests) }
        ensures whole { IfOk result (λ e. only_whole ≡ true → AreWhole N.of e.rests.shards.items) }
        ensures limit { IfOk result (λ e. All (λ t. length t.entries.items ≤ self.max_steps) e.rests.shards.items) }
        ensures room { IfOk result (λ e. IsRoomFor (length e.rests.shards.items) e.histories) }
        ensures enough { OnOk result (self.passes ≤ length passes.items + length guards.items) }
        ensures back { IfErr result (λ e. IsGivenBack self passes.items guards.items e.error e.table e.passes.items e.guards.items) }
    {
        let handed = passes.len() + guards.len();
        if handed < self.config.passes {
            let error = CloseError::PassesOut(self.config.passes - handed);
            return Err(refusal(self, passes, guards, error));
        }
        match take_room(alloc, self.shards.len(), &mut passes, guards.len()) {
            Ok(room) => self.close_in(rt, only_whole, passes, guards, room),
            Err(error) => Err(refusal(self, passes, guards, error)),
        }
    }

    /// Closes the table if all of its passes are back, alone or in a guard, and gives one history for each shard
    /// and the number of draws. A guard may be closed without leaving. Its queue entries and reservations then stay
    /// in the records, which end here.
    ///
    /// If steps of the table are gone, there are no such histories: the close is refused with `Counts`, and
    /// [`Table::close_rest`] closes the table. No step of a whole table is ever gone. A refusal gives everything
    /// back.
    pub fn close<R: Wait>(
        self,
        rt: &R,
        alloc: Global,
        passes: Vec<Pass>,
        guards: Vec<Guard>,
    ) -> Result<Histories, CloseRefused<N, T, W, V>>
        requires passes { All (λ p. p.of ≡ N.of) passes.items }
        requires guards { All (λ g. g.pass.of ≡ N.of) guards.items }
        ensures closed { IfOk result (λ h. IsClosed N.of (passes_of passes.items guards.items) h.shards.items h.draws) }
        ensures limit { IfOk result (λ h. All (λ es. length es.items ≤ self.max_steps) h.shards.items) }
        ensures enough { OnOk result (self.passes ≤ length passes.items + length guards.items) }
        ensures refused { IfErr result (λ e. IsUnclosed e.error (length passes.items + length guards.items) self) }
        ensures table { IfErr result (λ e. e.table ≡ self) }
        ensures passes { IfErr result (λ e. e.passes.items ≡ passes.items) }
        ensures guards { IfErr result (λ e. e.guards.items ≡ guards.items) }
    {
        let ended = self.close_as(rt, alloc, true, passes, guards)?;
        Ok(into_histories(ended))
    }

    /// [`Table::close`] for a table that may have given steps away or stored none. Gives for each shard the steps
    /// that are left, and how many steps were made before them.
    pub fn close_rest<R: Wait>(
        self,
        rt: &R,
        alloc: Global,
        passes: Vec<Pass>,
        guards: Vec<Guard>,
    ) -> Result<Rests, CloseRefused<N, T, W, V>>
        requires passes { All (λ p. p.of ≡ N.of) passes.items }
        requires guards { All (λ g. g.pass.of ≡ N.of) guards.items }
        ensures closed { IfOk result (λ r. AreRestsOf N.of passes.items guards.items r) }
        ensures limit { IfOk result (λ r. All (λ t. length t.entries.items ≤ self.max_steps) r.shards.items) }
        ensures enough { OnOk result (self.passes ≤ length passes.items + length guards.items) }
        ensures refused { IfErr result (λ e. IsUnclosed e.error (length passes.items + length guards.items) self) }
        ensures table { IfErr result (λ e. e.table ≡ self) }
        ensures passes { IfErr result (λ e. e.passes.items ≡ passes.items) }
        ensures guards { IfErr result (λ e. e.guards.items ≡ guards.items) }
    {
        let ended = self.close_as(rt, alloc, false, passes, guards)?;
        Ok(ended.rests)
    }
}
