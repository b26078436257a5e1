//! What does a caller hold? A pass: its number, its seen prefix, how many steps it made at each shard, how many stored
//! steps it took out of each, and the lets of its latest step whose callers it has still to wake.
//!
//! Read next `src/book.rt`, the calls that a pass makes, and `PassState` in `specs/Row.antt`, what contracts see of
//! a pass.
ghost use Rattle.std.specs.Prelude.{◌≡◌, ◌+◌, ◌<◌, ◌≤◌, ◌∷◌, ◌++◌, [], length, slice_index, IfOk, IfSome, IfNone, OnOk, OnErr, Some, None, replicate, slice_get, slice_set};
ghost use mathlib.Core.List.{IsPrefix};
ghost use Rattle.lt_ids.specs.declared.limits.TheConstants.{MAX_PASS};
ghost use Rattle.lt_words.specs.History.{part, IsLegalHistory};
ghost use Rattle.lt_words.specs.Shown.{AreLet};
ghost use Rattle.lt_words.specs.Takes.{taken_of};
ghost use Rattle.lt_words.specs.Row.{SeesMore, NotesLet, NoneLeft, fresh};

use crate::front::Front;
use crate::parking::Sleeper;
use crate::sleepers::Sleepers;
use crate::untold::Untold;
use crate::waker::OwedLet;
use lt_ids::{Access, Key, Through};
use std::alloc::{AllocError, Global};
use std::marker::Model;
use std::mem;

/// A caller's token: its number (from 1), what it has seen of its book's table history, how many steps it made at each
/// shard, and how many stored steps it took out of each. Only `Book` hands out passes, and one pass serves one caller at a time.
///
/// A pass is not `Drop`: its owner passes it on, or gives it up by name ([`Pass::abandon`]).
pub struct Pass {
    pub(crate) number: u32,
    pub(crate) seen: Front,
    pub(crate) rest: Box<PassRest>,
}

/// What a pass has besides its number and its seen prefix. It is allocated with the book, so that a pass is small: a
/// request's guard moves its pass several times.
pub(crate) struct PassRest {
    /// How many steps the pass made at each shard.
    pub counts: Vec<u64>,
    /// How many stored steps the pass took out of each shard.
    pub taken: Vec<u64>,
    /// The passes whose callers `Book::wake` wakes once no lock is held.
    pub sleepers: Sleepers,
    /// The lets of the pass's latest step, as far as there is room. There is none, unless a waker is to be called for each.
    pub noted: Vec<OwedLet>,
    /// The lets that the pass's caller has to be told. There is none, unless the pass keeps them for its caller.
    pub untold: Untold,
    /// The key list of the latest request, emptied: room for that of the next one.
    pub list: Vec<(Key, Access)>,
}

impl PassRest {
    /// Gives it up, with the lets for which no waker was called.
    fn end(self) {
        let PassRest {
            counts: _,
            taken: _,
            sleepers: _,
            mut noted,
            untold: _,
            list: _,
        } = self;
        while let Some(owed) = noted.pop() {
            owed.end();
        }
        noted.destroy_empty();
    }
}

impl Model for Pass {
    ghost use Rattle.std.specs.Prelude.{vec_capacity};
    ghost use Rattle.lt_words.specs.Row.{PassState, IsPass, pass_state, wake_ups};

    ghost Value = { PassState };

    ghost view = { λ p. pass_state p.number p.seen p.rest.value.counts.items p.rest.value.taken.items
        (wake_ups (vec_capacity p.rest.value.noted) p.rest.value.noted.items p.rest.value.sleepers.many p.rest.value.untold.tickets.items) };

    ghost invariant = { λ p. IsPass (pass_state p.number p.seen p.rest.value.counts.items p.rest.value.taken.items
        (wake_ups (vec_capacity p.rest.value.noted) p.rest.value.noted.items p.rest.value.sleepers.many p.rest.value.untold.tickets.items)) };
}

impl Pass {
    /// The pass at an index, from 0, of a book that was just opened. Its number is one more than the index.
    pub(crate) fn fresh(
        alloc: Global,
        start: &Front,
        shards: usize,
        index: usize,
    ) -> Result<Pass, AllocError>
        requires start { start.now.seen ≡ [] }
        requires shown { start.now.shown ≡ [] }
        requires takes { start.now.takes ≡ [] }
        requires shards { shards ≡ start.now.of.shards }
        requires index { index < start.now.of.passes }
        requires few { start.now.of.passes ≤ 1024 }
        ensures { IfOk result (λ p. p ≡ fresh start.now.of (index + 1)) }
    {
        let counts = vec![in alloc; 0; shards]?;
        let taken = vec![in alloc; 0; shards]?;
        let rest = PassRest {
            counts,
            taken,
            sleepers: Sleepers::none(),
            noted: Vec::new(alloc),
            untold: Untold::none(alloc),
            list: Vec::new(alloc),
        };
        match Box::new(alloc, rest) {
            Ok(rest) => Ok(Pass {
                number: index as u32 + 1,
                seen: start.again(),
                rest,
            }),
            Err(failed) => {
                failed.value.end();
                Err(AllocError)
            }
        }
    }

    /// The pass's number: 1 to the number of the book's passes, which is at most 1024.
    pub fn number(&self) -> u32
        ensures number { result ≡ self.now.number }
        ensures low { 0 < result }
        ensures high { result ≤ self.now.of.passes }
        ensures few { result ≤ 1024 }
        // The pass has its counts for each shard.
        ensures counts { length self.now.counts ≡ self.now.of.shards }
        ensures taken { length self.now.taken ≡ self.now.of.shards }
    {
        self.number
    }

    /// How many steps the pass made at a shard. It has seen at least as many steps of that shard.
    pub fn count(&self, shard: usize) -> u64
        requires { shard < self.now.of.shards }
        ensures count { result ≡ slice_index self.now.counts shard }
        ensures within { result ≤ length (part shard self.now.seen) }
    {
        self.rest.counts[shard]
    }

    /// How many stored steps the pass took out of a shard. It has seen at least as many of that shard taken out.
    pub fn taken(&self, shard: usize) -> u64
        requires { shard < self.now.of.shards }
        ensures taken { result ≡ slice_index self.now.taken shard }
        ensures within { result ≤ taken_of shard self.now.takes }
    {
        self.rest.taken[shard]
    }

    /// What the pass has seen.
    pub fn seen(&self) -> Front
        ensures of { result.of ≡ self.now.of }
        ensures seen { result.seen ≡ self.now.seen }
        ensures shown { result.shown ≡ self.now.shown }
        ensures takes { result.takes ≡ self.now.takes }
    {
        self.seen.again()
    }

    /// Extends the pass's seen prefix: afterwards the pass has also seen what the front has.
    pub fn learn(&mut self, front: &Front)
        requires { front.now.of ≡ self.old.of }
        ensures more { SeesMore self.old self.new }
        ensures that { IsPrefix front.now.seen self.new.seen }
        ensures shown { IsPrefix front.now.shown self.new.shown }
        ensures takes { IsPrefix front.now.takes self.new.takes }
    {
        self.seen.learn(front);
    }

    /// From now on the pass notes each let of its steps for a [`Waker`](crate::Waker). Allocates room for `room`
    /// lets of one step. As many as there are passes are enough: a pass has one request, which is queued at a key
    /// at most once.
    pub fn note_each_let(&mut self, room: usize) -> Result<(), AllocError>
        ensures room { OnOk result (length self.old.wakes.lets + room ≤ self.new.wakes.room) }
        ensures same { self.new ≡ record self.old { wakes = record self.old.wakes { room = self.new.wakes.room } } }
        ensures err { OnErr result (self.new ≡ self.old) }
    {
        self.rest.noted.reserve(room)
    }

    /// From now on the pass keeps the lets of its steps for its caller, who takes them out with [`Pass::next_untold`] and
    /// wakes whom they name. `passes` is the number of the book's passes.
    pub fn keep_lets(&mut self, alloc: Global, passes: usize) -> Result<(), AllocError>
        requires passes { passes ≡ self.old.of.passes }
        requires few { passes ≤ MAX_PASS }
        ensures untold { OnOk result (self.new.wakes.untold ≡ replicate (self.old.of.passes + 1) None) }
        ensures same { self.new ≡ record self.old { wakes = record self.old.wakes { untold = self.new.wakes.untold } } }
        ensures err { OnErr result (self.new ≡ self.old) }
    {
        let untold = Untold::of_passes(alloc, passes)?;
        self.rest.untold = untold;
        Ok(())
    }

    /// Takes out a let that a step of the pass has made, and of which its caller was not told. If a pass was let through
    /// twice meanwhile, only its latest let is left.
    pub fn next_untold(&mut self) -> Option<Through>
        ensures some { IfSome result (λ t. slice_get self.old.wakes.untold t.pass ≡ Some (Some t.ticket)) }
        ensures taken { IfSome result (λ t. self.new.wakes.untold ≡ slice_set self.old.wakes.untold t.pass None) }
        ensures none { IfNone result (NoneLeft self.old.wakes.untold × (self.new ≡ self.old)) }
        ensures same { self.new ≡ record self.old { wakes = record self.old.wakes { untold = self.new.wakes.untold } } }
    {
        self.rest.untold.take()
    }

    /// Takes out the room for the key list of a request: an empty list. It has the room of the list that was put back
    /// last, so a request that names no more keys than that one allocates nothing for its list.
    pub fn take_list(&mut self, alloc: Global) -> Vec<(Key, Access)>
        ensures empty { result.items ≡ [] }
        ensures same { self.new ≡ self.old }
    {
        let mut list = mem::replace(&mut self.rest.list, Vec::new(alloc));
        list.clear();
        list
    }

    /// Keeps the room of a request's key list for [`Pass::take_list`]. The keys are dropped.
    pub fn put_list(&mut self, mut list: Vec<(Key, Access)>)
        ensures same { self.new ≡ self.old }
    {
        list.clear();
        self.rest.list = list;
    }

    /// Notes that this caller has to be woken.
    pub(crate) fn note_sleeper(&mut self, sleeper: Sleeper)
        ensures more { self.old.wakes.sleepers ≤ self.new.wakes.sleepers }
        ensures same { self.new ≡ record self.old { wakes = record self.old.wakes { sleepers = self.new.wakes.sleepers } } }
    {
        self.rest.sleepers.add(sleeper);
    }

    /// Notes a let for the waker, if there is room, and for the pass's caller, if the pass keeps lets. There is no room if no
    /// waker is to be called.
    pub(crate) fn note(&mut self, owed: OwedLet)
        ensures noted { NotesLet self.old.wakes owed self.new.wakes }
        ensures same { self.new ≡ record self.old { wakes = self.new.wakes } }
    {
        let rest = &mut self.rest;
        rest.untold.add(owed.through());
        if rest.noted.len() < rest.noted.capacity() {
            rest.noted.push_reserved(owed);
        } else {
            owed.end();
        }
    }

    /// Forgets the callers that were noted as asleep.
    #[inline(always)]
    pub(crate) fn forget_sleepers(&mut self)
        ensures { self.new ≡ record self.old { wakes = record self.old.wakes { sleepers = 0 } } }
    {
        if !self.rest.sleepers.is_empty() {
            self.rest.sleepers = Sleepers::none();
        }
    }

    /// Takes a let out that was noted for the waker.
    pub(crate) fn next_owed(&mut self) -> Option<OwedLet>
        ensures some { IfSome result (λ o. self.old.wakes.lets ≡ self.new.wakes.lets ++ o ∷ []) }
        ensures none { IfNone result ((self.old.wakes.lets ≡ []) × (self.new ≡ self.old)) }
        ensures same { self.new ≡ record self.old { wakes = record self.old.wakes { lets = self.new.wakes.lets } } }
    {
        self.rest.noted.pop()
    }

    /// Ghost call: tells the prover that what the pass has seen is legal, and that each let that was shown had been
    /// let through.
    pub fn legal(&self)
        ensures legal { IsLegalHistory self.now.of.shards self.now.seen }
        ensures let_through { AreLet self.now.seen self.now.shown }
    {
        self.seen.legal()
    }

    /// Gives the pass up. Its number is not handed out again, and a table that needs all of its passes to close can
    /// never be closed.
    pub fn abandon(self) {
        let Pass {
            number: _,
            seen: _,
            rest,
        } = self;
        let rest = Box::into_inner(rest);
        rest.end();
    }
}

/// Gives up each of the passes.
pub fn abandon_all(mut passes: Vec<Pass>) {
    while let Some(pass) = passes.pop() {
        pass.abandon();
    }
    passes.destroy_empty();
}
