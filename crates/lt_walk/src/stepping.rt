//! How are other steps made through the pass of a guard, and how does a request look at what it waits for?
ghost use Rattle.std.specs.Prelude.{◌≡◌, ◌<◌, IfOk, IfErr, OnErr, length};
ghost use Rattle.lt_rules.specs.declared.call.Call.TheVariants.{Look};
ghost use Rattle.lt_entry.specs.Ranges.{NamesNumber};
ghost use Rattle.lt_walk.specs.Reported.{ReportsCall, ReportsLook};

use crate::guard::Guard;
use crate::key_steps::KeySteps;
use lt_ids::Key;
use lt_rules::Call;
use lt_shard::Answer;

/// Makes the call at the key through the guard's pass. The request stays as it is.
#[inline(always)]
pub fn step_in<S: KeySteps>(
    table: &S,
    guard: &mut Guard,
    key: &Key,
    call: &Call,
) -> Result<Answer, S::Refusal>
    requires pass { guard.old.pass.of ≡ S.of table.now }
    requires number { NamesNumber call.now }
    ensures ok { IfOk result (λ a. ReportsCall guard.old.pass guard.new.pass key.now call.now a) }
    ensures err { OnErr result (guard.new ≡ guard.old) }
    ensures refused { IfErr result (λ e. S.may_refuse table.now call.now e) }
    ensures walk { guard.new.walk ≡ guard.old.walk }
{
    table.step(&mut guard.pass, key, call)
}

/// What the request finds at the key with this index in its list, from 0. A look is a key step too; it changes no
/// record.
#[inline(always)]
pub fn look_on<S: KeySteps>(
    table: &S,
    guard: &mut Guard,
    index: usize,
) -> Result<Answer, S::Refusal>
    requires pass { guard.old.pass.of ≡ S.of table.now }
    requires index { index < length guard.old.walk.asked.keys }
    ensures ok { IfOk result (λ a. ReportsLook guard.old guard.new index a) }
    ensures err { OnErr result (guard.new ≡ guard.old) }
    ensures refused { IfErr result (λ e. S.may_refuse table.now (Look guard.old.walk.asked.number) e) }
    ensures walk { guard.new.walk ≡ guard.old.walk }
{
    let number = guard.walk.number();
    table.step(
        &mut guard.pass,
        guard.walk.key_at(index),
        &Call::Look { number },
    )
}
