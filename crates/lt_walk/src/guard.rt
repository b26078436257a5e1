//! What does a caller hold while its request is in the table? A guard: the pass that makes the request's calls, and
//! how far the request is in its key list.
//!
//! Read next `src/scan_and_poll.rt` and `src/leaving.rt`, the calls that a guard makes, and `GuardState` in
//! `specs/Reported.antt`, what contracts see of it.
ghost use Rattle.std.specs.Prelude.{◌≡◌, Some, None, IfSome, IfNone, slice_get, slice_set};
ghost use Rattle.std.specs.Fn.{FnOnceTakesAtMut, FnOnceReturnsAtMut};
ghost use mathlib.Core.List.{IsPrefix};
ghost use Rattle.lt_ids.specs.Ids.{IsNumber};
ghost use Rattle.lt_words.specs.History.{IsLegalHistory};
ghost use Rattle.lt_words.specs.Row.{SeesMore, NoneLeft, PassState};
ghost use Rattle.lt_walk.specs.Reported.{SeesLet, IsSamePass};

use crate::walk::Walk;
use crate::walk_progress::Mode;
use lt_ids::{Access, Key, Through};
use lt_shard::Answer;
use lt_words::{Front, Pass};
use std::marker::Model;

/// A request on its way through its keys, with the pass that makes its calls.
///
/// A guard is not `Drop`. It leaves (`Table::leave`), is closed with its table, or is given up by name
/// ([`Guard::abandon`]).
pub struct Guard {
    pub(crate) pass: Pass,
    pub(crate) walk: Walk,
}

impl Model for Guard {
    ghost use Rattle.std.specs.Prelude.{◌≡◌};
    ghost use Rattle.lt_walk.specs.declared.walk_progress.Mode.TheVariants.{Let};
    ghost use Rattle.lt_walk.specs.Reported.{GuardState, SeesLet};

    ghost Value = { GuardState };

    ghost view = { λ g. record { pass = g.pass; walk = g.walk } };

    ghost invariant = { λ g. g.walk.progress.mode ≡ Let → SeesLet g.pass g.walk };
}

impl Guard {
    /// The keys of the request in the order in which they are visited, each once: first those to write, in byte
    /// order, and then those only to read, in byte order.
    pub fn keys(&self) -> &[(Key, Access)]
        ensures { result.now ≡ self.now.walk.asked.keys }
    {
        self.walk.keys()
    }

    /// The request's number: 1 to 2^40 - 1.
    pub fn number(&self) -> u64
        ensures number { result ≡ self.now.walk.asked.number }
        ensures range { IsNumber result }
    {
        self.walk.number()
    }

    /// The number of the guard's pass. `Table::interrupt` takes it.
    pub fn pass_number(&self) -> u32
        ensures number { result ≡ self.now.pass.number }
    {
        self.pass.number()
    }

    /// The answers of the latest scan, also if the scan was refused partway. On a guard that is leaving, the
    /// answers of its leave steps so far.
    pub fn answers(&self) -> &[Answer]
        ensures { result.now ≡ self.now.walk.answers }
    {
        self.walk.answers()
    }

    /// Ghost call: tells the prover that what the guard's pass has seen is legal.
    pub fn legal(&self)
        ensures { IsLegalHistory self.now.pass.of.shards self.now.pass.seen }
    {
        self.pass.legal();
    }

    /// Ghost call: tells the prover that a request in mode `Let` was let through in what its pass has seen.
    pub fn let_through(&self)
        ensures { self.now.walk.progress.mode ≡ Mode.Let → SeesLet self.now.pass self.now.walk }
    {
        let _ = &self.pass;
    }

    /// What the guard's pass has seen, for another pass to learn.
    pub fn seen(&self) -> Front
        ensures of { result.of ≡ self.now.pass.of }
        ensures seen { result.seen ≡ self.now.pass.seen }
        ensures shown { result.shown ≡ self.now.pass.shown }
        ensures takes { result.takes ≡ self.now.pass.takes }
    {
        self.pass.seen()
    }

    /// Extends the seen prefix of the guard's pass: afterwards the pass has also seen what the front has.
    pub fn learn(&mut self, front: &Front)
        requires { front.now.of ≡ self.old.pass.of }
        ensures more { SeesMore self.old.pass self.new.pass }
        ensures seen { IsPrefix front.now.seen self.new.pass.seen }
        ensures shown { IsPrefix front.now.shown self.new.pass.shown }
        ensures takes { IsPrefix front.now.takes self.new.pass.takes }
        ensures walk { self.new.walk ≡ self.old.walk }
    {
        self.pass.learn(front);
    }

    /// Lends the guard's pass to `call`, which may make steps through it and has to leave the same pass there. The request
    /// stays as it is.
    #[inline(always)]
    pub fn with_pass<A, F: FnOnce(&mut Pass) -> A>(&mut self, call: F) -> A
        requires callable { FnOnceTakesAtMut F.FnOnce call self.old.pass }
        requires same { (a : A) (p : PassState) → FnOnceReturnsAtMut F.FnOnce call self.old.pass a p → IsSamePass self.old.pass p }
        ensures called { FnOnceReturnsAtMut F.FnOnce call self.old.pass result self.new.pass }
        ensures walk { self.new.walk ≡ self.old.walk }
    {
        call(&mut self.pass)
    }

    /// Takes out a let that a step of the guard's pass has made, and of which its caller was not told ([`Pass::next_untold`]).
    pub fn next_untold(&mut self) -> Option<Through>
        ensures some { IfSome result (λ t. slice_get self.old.pass.wakes.untold t.pass ≡ Some (Some t.ticket)) }
        ensures taken { IfSome result (λ t. self.new.pass.wakes.untold ≡ slice_set self.old.pass.wakes.untold t.pass None) }
        ensures none { IfNone result (NoneLeft self.old.pass.wakes.untold × (self.new ≡ self.old)) }
        ensures same { self.new.pass ≡ record self.old.pass { wakes = record self.old.pass.wakes { untold = self.new.pass.wakes.untold } } }
        ensures walk { self.new.walk ≡ self.old.walk }
    {
        self.pass.next_untold()
    }

    pub(crate) fn into_pass(self) -> Pass
        ensures { result ≡ self.pass }
    {
        let Guard { pass, walk: _ } = self;
        pass
    }

    /// Gives up the request and its pass. The request's queue entries and reservations stay in the records of its
    /// keys: the requests queued after it wait forever.
    pub fn abandon(self) {
        self.into_pass().abandon();
    }
}

/// The guard of a request that does not wait.
#[inline(always)]
pub(crate) fn guard_of(pass: Pass, walk: Walk) -> Guard
    requires { walk.progress.mode ≡ Mode.Free }
    ensures { result ≡ record { pass = pass; walk = walk } }
{
    Guard { pass, walk }
}

/// The pass of a guard.
pub fn pass_of(guard: &Guard) -> &Pass
    ensures { result.now ≡ guard.now.pass }
{
    &guard.pass
}
