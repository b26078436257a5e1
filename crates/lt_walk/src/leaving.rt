//! How does a request leave? It makes one leave step at each key of its list.
ghost use Rattle.std.specs.Prelude.{◌≡◌, IfErr, OnOk, OnErr, IsSome, None};
ghost use Rattle.lt_rules.specs.declared.call.Call.TheVariants.{Leave};
ghost use Rattle.lt_walk.specs.Machine.{next_leave, leaving};
ghost use Rattle.lt_walk.specs.Reported.{IsLeavingFrom, AllLeft, StoppedLeaving, GuardStays};

use crate::guard::Guard;
use crate::key_steps::KeySteps;
use crate::walk::WalkParts;
use crate::walk_progress::Mode;
use lt_shard::{Answer, StepError};
use lt_words::Pass;
use std::alloc::Global;

/// A request that has left every key: its pass, and an answer for each key, in the guard's order.
pub struct Left {
    pub pass: Pass,
    pub answers: Vec<Answer>,
}

impl Left {
    /// A pass through which no request has left.
    #[inline(always)]
    pub fn of(alloc: Global, pass: Pass) -> Left
        ensures { result.pass ≡ pass }
    {
        let answers = Vec::new(alloc);
        Left { pass, answers }
    }
}

/// A leave that was refused. The guard is leaving and stays at the refused key; another leave continues there.
pub struct LeaveStopped<E = StepError> {
    pub guard: Guard,
    pub error: E,
}

impl Guard {
    /// Begins the request's leave, or continues it.
    fn begin_leave(&mut self)
        ensures { self.new ≡ record self.old { walk = leaving self.old.walk } }
    {
        self.walk.begin_leave();
    }
}

#[inline(always)]
fn leave_each<S: KeySteps>(table: &S, guard: &mut Guard) -> Result<(), S::Refusal>
    requires pass { guard.old.pass.of ≡ S.of table.now }
    requires leaving { guard.old.walk.progress.mode ≡ Mode.Leaving }
    ensures leave { IsLeavingFrom guard.old guard.new }
    ensures ok { OnOk result (next_leave guard.new.walk.asked guard.new.walk.progress ≡ None) }
    ensures err { OnErr result (IsSome (next_leave guard.new.walk.asked guard.new.walk.progress)) }
    ensures refused { IfErr result (λ e. S.may_refuse table.now (Leave guard.old.walk.asked.number) e) }
{
    let leave = guard.walk.leave_call();
    while guard.walk.has_leave() {
        let answer = table.step(&mut guard.pass, guard.walk.key(), &leave)?;
        guard.walk.leave_one(answer);
    }
    Ok(())
}

/// Gives up the request's queue entries and reservations, with one leave step for each key in the guard's order. A
/// guard that is already leaving continues at the key whose leave was refused.
#[inline(always)]
pub fn leave_on<S: KeySteps>(table: &S, guard: &mut Guard) -> Result<(), S::Refusal>
    requires pass { guard.old.pass.of ≡ S.of table.now }
    ensures left { OnOk result (AllLeft guard.old guard.new.pass guard.new.walk.answers) }
    ensures stopped { OnErr result (StoppedLeaving guard.old guard.new) }
    ensures stays { GuardStays guard.old guard.new }
    ensures refused { IfErr result (λ e. S.may_refuse table.now (Leave guard.old.walk.asked.number) e) }
{
    guard.begin_leave();
    leave_each(table, guard)
}

/// The pass of a request that has left every key, and its answers.
#[inline(always)]
pub fn into_left(guard: Guard) -> Left
    ensures pass { result.pass ≡ guard.pass }
    ensures answers { result.answers.items ≡ guard.walk.answers }
{
    let Guard { mut pass, walk } = guard;
    let WalkParts { keys, answers } = walk.into_parts();
    pass.put_list(keys);
    Left { pass, answers }
}
