//! How is a table closed, what is left of it, and why may a close be refused? As of the table whose callers wait: see
//! `src/closing.rt` of `lt_table_core`, and `IsClosed` in `specs/Closed.antt` of `lt_walk`.
//!
//! A close owns the table, so no caller is in a shard. It takes the shards out of their slots, and one pass meets each.
ghost use Rattle.std.specs.Prelude.{◌≡◌, ◌≢◌, ◌≤◌, ◌<◌, ◌+◌, ◌^◌, ℕ, [], true, map, length, slice_index_or, vec_capacity, IfOk, IfErr, IfSome, IfNone, OnOk, OnSome};
ghost use Rattle.std.specs.List.{All};
ghost use Rattle.lt_shard.specs.Shards.{View};
ghost use Rattle.lt_words.specs.Row.{SeesMore};
ghost use Rattle.lt_walk.specs.Closed.{passes_of, AreCounted, IsMiscount, IsEnded, AreEnded, IsClosed, IsClosedRest, AreRestsOf, AreWhole, IsRoomFor, IsUnclosed, IsGivenBack};
ghost use Rattle.lt_try.specs.Tags.{IsPlaced, IsTagged, ArePlaced, AreTags};

use crate::error::TryError;
use crate::slot::ShardSlot;
use crate::table::TryTable;
use lt_entry::Entry;
use lt_rules::KeyTable;
use lt_shard::{EmptyTables, Rest, Shard};
use lt_walk::{
    CloseError, ClosedTable, Guard, Histories, Rests, Wanted, abandon_guards, all_passes,
    into_histories, is_counted, learn_all,
};
use lt_words::{Book, Pass, Waker, abandon_all};
use std::alloc::{AllocError, Global};

/// A table that was not closed: the table, the passes and the guards come back as they were.
pub struct TryCloseRefused<T: KeyTable, M: EmptyTables<T>, W: Waker = ()> {
    pub table: TryTable<T, M, W>,
    pub passes: Vec<Pass>,
    pub guards: Vec<Guard>,
    pub error: CloseError,
}

impl<T: KeyTable + Drop, M: EmptyTables<T> + Drop, W: Waker + Drop> TryCloseRefused<T, M, W> {
    /// Gives up the table with its passes and guards.
    pub fn abandon(self) {
        let TryCloseRefused {
            table: _,
            passes,
            guards,
            error: _,
        } = self;
        abandon_all(passes);
        abandon_guards(guards);
    }
}

/// Takes the shards out of their slots, in order, and leaves empty ones there. `shards` is empty and has room for them.
/// `None` if somebody is in a shard.
fn shards_of<T: KeyTable + Drop, M: EmptyTables<T>>(
    alloc: Global,
    book: &Book,
    tables: &M,
    slots: &[ShardSlot<T>],
    max_steps: u64,
    mut shards: Vec<Shard<T>>,
) -> Option<Vec<Shard<T>>>
    requires many { length slots.now ≡ book.now.shards }
    requires tags { AreTags book.now max_steps slots.now }
    requires low { 1 ≤ max_steps }
    requires high { max_steps ≤ 2 ^ 32 }
    requires empty { shards.items ≡ [] }
    requires room { length slots.now ≤ vec_capacity shards }
    ensures many { IfSome result (λ all. length all.items ≡ length slots.now) }
    ensures each { IfSome result (λ all. ArePlaced book.now max_steps all.items) }
{
    for index in 0..slots.len() {
        let empty = Shard::new(alloc, tables.empty_table(), book, index, max_steps);
        let shard = slots[index].replace(empty)?;
        shards.push_reserved(shard);
    }
    Some(shards)
}

/// Puts each shard back into its slot. False if somebody is in a shard.
fn put_back<T: KeyTable + Drop>(
    book: &Book,
    slots: &[ShardSlot<T>],
    max_steps: u64,
    mut shards: Vec<Shard<T>>,
) -> bool
    requires many { length shards.items ≡ length slots.now }
    requires tags { AreTags book.now max_steps slots.now }
    requires placed { ArePlaced book.now max_steps shards.items }
{
    while let Some(shard) = shards.pop() {
        if slots[shards.len()].replace(shard).is_none() {
            return false;
        }
    }
    true
}

/// Names the first shard that is not counted in the sense of `is_counted`.
fn count_fault<T: KeyTable>(
    book: &Book,
    shards: &[Shard<T>],
    wanted: Wanted,
    passes: &[Pass],
    guards: &[Guard],
) -> Option<CloseError>
    requires many { length shards.now ≡ book.now.shards }
    requires passes { All (λ p. p.of ≡ book.now) passes.now }
    requires guards { All (λ g. g.pass.of ≡ book.now) guards.now }
    ensures none { IfNone result (AreCounted wanted (passes_of passes.now guards.now) shards.now book.now.shards) }
    ensures some { IfSome result (IsMiscount wanted (passes_of passes.now guards.now) shards.now) }
{
    for index in 0..shards.len() {
        if !is_counted(&shards[index], index, wanted, passes, guards) {
            return Some(CloseError::Counts(index));
        }
    }
    None
}

/// Lets the pass meet the shard, and returns what is left of the shard. `None` if the shard was lost.
fn end_shard<T: KeyTable + Drop>(book: &Book, mut shard: Shard<T>, last: &mut Pass) -> Option<Rest>
    requires book { shard.front.of ≡ book.now }
    requires pass { last.old.of ≡ book.now }
    ensures ended { IfSome result (IsEnded book.now last.old last.new shard.index shard) }
    ensures more { SeesMore last.old last.new }
{
    if !shard.meet_once(book, last) {
        return None;
    }
    Some(shard.into_rest())
}

/// Lets the pass meet each shard, and returns what is left of each. `None` if a shard was lost.
fn end_shards<T: KeyTable + Drop>(
    book: &Book,
    shards: Vec<Shard<T>>,
    max_steps: u64,
    last: &mut Pass,
    mut rests: Vec<Rest>,
) -> Option<Vec<Rest>>
    requires placed { ArePlaced book.now max_steps shards.items }
    requires pass { last.old.of ≡ book.now }
    requires empty { rests.items ≡ [] }
    requires room { length shards.items ≤ vec_capacity rests }
    ensures ended { IfSome result (λ all. AreEnded book.now last.old last.new shards.items all.items) }
    ensures more { SeesMore last.old last.new }
{
    for shard in shards {
        let rest = end_shard(book, shard, last)?;
        rests.push_reserved(rest);
    }
    Some(rests)
}

/// Room for the shards, for what is left of them, and for their histories.
#[derive(Drop)]
struct EndingRoom<T: KeyTable> {
    shards: Vec<Shard<T>>,
    rests: Vec<Rest>,
    histories: Vec<Vec<Entry>>,
}

/// Allocates that room, and room in `passes` for the passes of so many guards.
fn take_room<T: KeyTable + Drop>(
    alloc: Global,
    shards: usize,
    passes: &mut Vec<Pass>,
    guards: usize,
) -> Result<EndingRoom<T>, CloseError>
    ensures shards { IfOk result (λ room. IsRoomFor shards room.shards) }
    ensures rests { IfOk result (λ room. IsRoomFor shards room.rests) }
    ensures histories { IfOk result (λ room. IsRoomFor shards room.histories) }
    ensures passes { passes.new.items ≡ passes.old.items }
    ensures guards { OnOk result (length passes.old.items + guards ≤ vec_capacity passes.new) }
    ensures refused { IfErr result (λ e. e ≡ CloseError.Memory) }
{
    passes.reserve(guards)?;
    Ok(EndingRoom {
        shards: Vec::with_capacity(alloc, shards)?,
        rests: Vec::with_capacity(alloc, shards)?,
        histories: Vec::with_capacity(alloc, shards)?,
    })
}

/// Ends the table: one pass learns what all passes had seen and meets each shard, so it has then seen everything. `None`
/// if a shard was lost.
fn end<T: KeyTable + Drop>(
    book: &Book,
    shards: Vec<Shard<T>>,
    wanted: Wanted,
    mut passes: Vec<Pass>,
    rests: Vec<Rest>,
) -> Option<Rests>
    requires some { 0 < length passes.items }
    requires passes { All (λ p. p.of ≡ book.now) passes.items }
    requires many { length shards.items ≡ book.now.shards }
    requires placed { ArePlaced book.now wanted.max_steps shards.items }
    requires counted { AreCounted wanted passes.items shards.items book.now.shards }
    requires keeping { wanted.keeping ≡ book.now.keeping }
    requires empty { rests.items ≡ [] }
    requires room { length shards.items ≤ vec_capacity rests }
    ensures closed { IfSome result (λ r. IsClosedRest book.now passes.items r.shards.items r.draws) }
    ensures whole { IfSome result (λ r. wanted.whole ≡ true → AreWhole book.now r.shards.items) }
    ensures limit { IfSome result (λ r. All (λ t. length t.entries.items ≤ wanted.max_steps) r.shards.items) }
{
    let Some(mut last) = passes.pop() else {
        unreachable!()
    };
    learn_all(&mut last, &passes);
    abandon_all(passes);
    let Some(shards) = end_shards(book, shards, wanted.max_steps, &mut last, rests) else {
        last.abandon();
        return None;
    };
    let draws = book.drawn(&mut last);
    last.legal();
    last.abandon();
    Some(Rests { shards, draws })
}

/// The table with its passes and guards, which come back because of this error.
fn refusal<T: KeyTable, M: EmptyTables<T>, W: Waker>(
    table: TryTable<T, M, W>,
    passes: Vec<Pass>,
    guards: Vec<Guard>,
    error: CloseError,
) -> TryCloseRefused<T, M, W>
    requires { IsUnclosed error (length passes.items + length guards.items) table.config }
    ensures back { IsGivenBack table.config passes.items guards.items result.error result.table.config result.passes.items result.guards.items }
    ensures book { result.table.of ≡ table.of }
{
    TryCloseRefused {
        table,
        passes,
        guards,
        error,
    }
}

impl<T: KeyTable + Drop, M: EmptyTables<T> + Drop, W: Waker + Drop> TryTable<T, M, W> {
    /// Closes a table whose passes are back, in this room. With `only_whole`, refuses it if steps are gone.
    fn close_in(
        self,
        alloc: Global,
        only_whole: bool,
        passes: Vec<Pass>,
        guards: Vec<Guard>,
        room: EndingRoom<T>,
    ) -> Result<Result<ClosedTable, TryCloseRefused<T, M, W>>, TryError>
        requires passes { All (λ p. p.of ≡ self.of) passes.items }
        requires guards { All (λ g. g.pass.of ≡ self.of) guards.items }
        requires back { self.config.passes ≤ length passes.items + length guards.items }
        requires shards { IsRoomFor self.config.shards room.shards }
        requires rests { IsRoomFor self.config.shards room.rests }
        requires histories { IsRoomFor self.config.shards room.histories }
        requires all { length passes.items + length guards.items ≤ vec_capacity passes }
        ensures closed { IfOk result (λ r. IfOk r (λ e. AreRestsOf self.of passes.items guards.items e.rests)) }
        ensures whole { IfOk result (λ r. IfOk r (λ e. only_whole ≡ true → AreWhole self.of e.rests.shards.items)) }
        ensures limit { IfOk result (λ r. IfOk r (λ e. All (λ t. length t.entries.items ≤ self.config.max_steps) e.rests.shards.items)) }
        ensures room { IfOk result (λ r. IfOk r (λ e. IsRoomFor (length e.rests.shards.items) e.histories)) }
        ensures back { IfOk result (λ r. IfErr r (λ e. IsGivenBack self.config passes.items guards.items e.error e.table.config e.passes.items e.guards.items)) }
        ensures book { IfOk result (λ r. IfErr r (λ e. e.table.of ≡ self.of)) }
        ensures lost { IfErr result (λ e. e ≡ TryError.Lost) }
    {
        let TryTable {
            config,
            book,
            slots,
            tables,
            waker,
        } = self;
        let max_steps = config.max_steps;
        let Some(shards) = shards_of(alloc, &book, &tables, &slots, max_steps, room.shards) else {
            abandon_all(passes);
            abandon_guards(guards);
            return Err(TryError::Lost);
        };
        let wanted = Wanted {
            whole: only_whole,
            max_steps: config.max_steps,
            keeping: book.keeping(),
        };
        if let Some(error) = count_fault(&book, &shards, wanted, &passes, &guards) {
            if !put_back(&book, &slots, max_steps, shards) {
                abandon_all(passes);
                abandon_guards(guards);
                return Err(TryError::Lost);
            }
            let table = TryTable {
                config,
                book,
                slots,
                tables,
                waker,
            };
            return Ok(Err(refusal(table, passes, guards, error)));
        }
        let passes = all_passes(passes, guards);
        let Some(rests) = end(&book, shards, wanted, passes, room.rests) else {
            return Err(TryError::Lost);
        };
        Ok(Ok(ClosedTable {
            rests,
            histories: room.histories,
        }))
    }

    /// Closes the table if all passes are back. With `only_whole`, refuses it if steps are gone.
    fn close_as(
        self,
        alloc: Global,
        only_whole: bool,
        mut passes: Vec<Pass>,
        guards: Vec<Guard>,
    ) -> Result<Result<ClosedTable, TryCloseRefused<T, M, W>>, TryError>
        requires passes { All (λ p. p.of ≡ self.of) passes.items }
        requires guards { All (λ g. g.pass.of ≡ self.of) guards.items }
        ensures closed { IfOk result (λ r. IfOk r (λ e. AreRestsOf self.of passes.items guards.items e.rests)) }
        ensures whole { IfOk result (λ r. IfOk r (λ e. only_whole ≡ true → AreWhole self.of e.rests.shards.items)) }
        ensures limit { IfOk result (λ r. IfOk r (λ e. All (λ t. length t.entries.items ≤ self.config.max_steps) e.rests.shards.items)) }
        ensures room { IfOk result (λ r. IfOk r (λ e. IsRoomFor (length e.rests.shards.items) e.histories)) }
        ensures enough { IfOk result (λ r. OnOk r (self.config.passes ≤ length passes.items + length guards.items)) }
        ensures back { IfOk result (λ r. IfErr r (λ e. IsGivenBack self.config passes.items guards.items e.error e.table.config e.passes.items e.guards.items)) }
        ensures book { IfOk result (λ r. IfErr r (λ e. e.table.of ≡ self.of)) }
        ensures lost { IfErr result (λ e. e ≡ TryError.Lost) }
    {
        let handed = passes.len() + guards.len();
        if handed < self.config.passes {
            let error = CloseError::PassesOut(self.config.passes - handed);
            return Ok(Err(refusal(self, passes, guards, error)));
        }
        match take_room(alloc, self.slots.len(), &mut passes, guards.len()) {
            Ok(room) => self.close_in(alloc, only_whole, passes, guards, room),
            Err(error) => Ok(Err(refusal(self, passes, guards, error))),
        }
    }

    /// Closes the table if all of its passes are back, alone or in a guard, and gives one history for each shard
    /// and the number of draws. A guard may be closed without leaving. Its queue entries and reservations then stay
    /// in the records, which end here.
    ///
    /// If steps of the table are gone, there are no such histories: the close is refused with `Counts`, and
    /// [`TryTable::close_rest`] closes the table. No step of a whole table is ever gone. A refusal gives everything
    /// back.
    ///
    /// The outer `Err` is `Lost`: the table is given up, with its passes and its guards. No table that was opened
    /// answers so ([`TryError::Lost`]).
    pub fn close(
        self,
        alloc: Global,
        passes: Vec<Pass>,
        guards: Vec<Guard>,
    ) -> Result<Result<Histories, TryCloseRefused<T, M, W>>, TryError>
        requires passes { All (λ p. p.of ≡ self.of) passes.items }
        requires guards { All (λ g. g.pass.of ≡ self.of) guards.items }
        ensures closed { IfOk result (λ r. IfOk r (λ h. IsClosed self.of (passes_of passes.items guards.items) h.shards.items h.draws)) }
        ensures limit { IfOk result (λ r. IfOk r (λ h. All (λ es. length es.items ≤ self.config.max_steps) h.shards.items)) }
        ensures enough { IfOk result (λ r. OnOk r (self.config.passes ≤ length passes.items + length guards.items)) }
        ensures refused { IfOk result (λ r. IfErr r (λ e. IsUnclosed e.error (length passes.items + length guards.items) self.config)) }
        ensures table { IfOk result (λ r. IfErr r (λ e. (e.table.config ≡ self.config) × (e.table.of ≡ self.of))) }
        ensures passes { IfOk result (λ r. IfErr r (λ e. e.passes.items ≡ passes.items)) }
        ensures guards { IfOk result (λ r. IfErr r (λ e. e.guards.items ≡ guards.items)) }
        ensures lost { IfErr result (λ e. e ≡ TryError.Lost) }
    {
        match self.close_as(alloc, true, passes, guards)? {
            Ok(ended) => Ok(Ok(into_histories(ended))),
            Err(refused) => Ok(Err(refused)),
        }
    }

    /// [`TryTable::close`] for a table that may have given steps away or stored none. Gives for each shard the steps
    /// that are left, and how many steps were made before them.
    pub fn close_rest(
        self,
        alloc: Global,
        passes: Vec<Pass>,
        guards: Vec<Guard>,
    ) -> Result<Result<Rests, TryCloseRefused<T, M, W>>, TryError>
        requires passes { All (λ p. p.of ≡ self.of) passes.items }
        requires guards { All (λ g. g.pass.of ≡ self.of) guards.items }
        ensures closed { IfOk result (λ r. IfOk r (λ rests. AreRestsOf self.of passes.items guards.items rests)) }
        ensures limit { IfOk result (λ r. IfOk r (λ rests. All (λ t. length t.entries.items ≤ self.config.max_steps) rests.shards.items)) }
        ensures enough { IfOk result (λ r. OnOk r (self.config.passes ≤ length passes.items + length guards.items)) }
        ensures refused { IfOk result (λ r. IfErr r (λ e. IsUnclosed e.error (length passes.items + length guards.items) self.config)) }
        ensures table { IfOk result (λ r. IfErr r (λ e. (e.table.config ≡ self.config) × (e.table.of ≡ self.of))) }
        ensures passes { IfOk result (λ r. IfErr r (λ e. e.passes.items ≡ passes.items)) }
        ensures guards { IfOk result (λ r. IfErr r (λ e. e.guards.items ≡ guards.items)) }
        ensures lost { IfErr result (λ e. e ≡ TryError.Lost) }
    {
        match self.close_as(alloc, false, passes, guards)? {
            Ok(ended) => Ok(Ok(ended.rests)),
            Err(refused) => Ok(Err(refused)),
        }
    }
}
