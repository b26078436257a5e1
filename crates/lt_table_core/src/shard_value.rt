//! What does a value owe that a client keeps beside a shard, behind the shard's lock? Read next `src/named.rt`.
ghost use Rattle.std.specs.Prelude.{◌≢◌, true, OnOk, OnErr};
ghost use Rattle.lt_rules.specs.Memory.{gives_up};

use lt_ids::Key;
use lt_rules::Call;
use lt_shard::Answer;
use std::alloc::AllocError;

/// A value that a client keeps beside a shard, behind the shard's lock. It is told of each step of the shard, so it can
/// know the shard's steps exactly. `()` is told nothing and knows nothing.
pub trait ShardValue {
    ghost use Rattle.std.specs.Prelude.{ℕ, List};
    ghost use Rattle.lt_rules.specs.declared.call.Call.{Call};
    ghost use Rattle.lt_entry.specs.declared.entry.Entry.{Entry};
    ghost use Rattle.lt_table_core.specs.Values.{FollowsStep};

    /// What the value says of the shard's steps: all that were made, and no other.
    ghost fits: { List Entry → Self → Type 0 };

    /// The value has room for this call at this key.
    ghost has_room: { Self → List ℕ → Call → Type 0 };

    /// Takes the memory that `follow` needs for this call. It is called before the step is made, under the shard's lock.
    /// If it fails, the step is not made. It may be called for a step that is then refused.
    fn reserve(&mut self, key: &Key, call: &Call) -> Result<(), AllocError>
        ensures room { OnOk result (has_room self.new key.now call.now) }
        ensures keeps { (es : List Entry) → fits es self.old → fits es self.new }
        // Nothing that gives something up is refused.
        ensures gives_up { OnErr result (gives_up call.now ≢ true) };

    /// The shard has made this step. `follow` is called once for each step, under the shard's lock. It cannot fail.
    fn follow(&mut self, pass: u32, key: &Key, call: &Call, answer: &Answer)
        requires { has_room self.old key.now call.now }
        ensures { FollowsStep fits self.old self.new key.now pass call.now answer.now };
}

impl ShardValue for () {
    ghost fits = { λ es v. Unit {0} };

    ghost has_room = { λ v key call. Unit {0} };

    #[inline(always)]
    fn reserve(&mut self, _key: &Key, _call: &Call) -> Result<(), AllocError> {
        Ok(())
    }

    #[inline(always)]
    fn follow(&mut self, _pass: u32, _key: &Key, _call: &Call, _answer: &Answer) {}
}
