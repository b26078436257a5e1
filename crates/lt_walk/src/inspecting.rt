//! How does a request's caller look at the record of a key? Through the pass of the guard, which has then seen more.
ghost use Rattle.std.specs.Prelude.{◌≡◌, IfOk, IfErr, OnErr};
ghost use Rattle.lt_words.specs.Row.{Opening, SeesMore};
ghost use Rattle.lt_walk.specs.Inspected.{seen_record};

use crate::guard::Guard;
use lt_ids::Key;
use lt_shard::KeyState;
use lt_words::Pass;

/// A table that many callers share, and that shows them the record of a key.
pub trait KeyStates {
    /// Why a look is refused.
    type Refusal;

    /// The book with the table's words.
    ghost of: { Self → Opening };

    /// A look may be refused so.
    ghost may_refuse_look: { Self → Self.Refusal → Type 0 };

    /// The record of the key after the steps of the key's shard that the pass has then seen.
    fn inspect(&self, pass: &mut Pass, key: &Key) -> Result<KeyState, Self::Refusal>
        requires pass { pass.old.of ≡ of self.now }
        ensures state { IfOk result (λ state. state ≡ seen_record key.now (of self.now).shards pass.new.seen) }
        ensures more { SeesMore pass.old pass.new }
        ensures err { OnErr result (pass.new ≡ pass.old) }
        ensures refused { IfErr result (λ e. may_refuse_look self.now e) };
}

/// The record of the key, through the pass of a guard. The request stays as it is.
pub fn inspect_in<S: KeyStates>(
    table: &S,
    guard: &mut Guard,
    key: &Key,
) -> Result<KeyState, S::Refusal>
    requires pass { guard.old.pass.of ≡ S.of table.now }
    ensures state { IfOk result (λ state. state ≡ seen_record key.now (S.of table.now).shards guard.new.pass.seen) }
    ensures more { SeesMore guard.old.pass guard.new.pass }
    ensures walk { guard.new.walk ≡ guard.old.walk }
    ensures err { OnErr result (guard.new ≡ guard.old) }
    ensures refused { IfErr result (λ e. S.may_refuse_look table.now e) }
{
    table.inspect(&mut guard.pass, key)
}
