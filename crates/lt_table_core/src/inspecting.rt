//! What can a caller ask a running table? The record of a key, and which keys of a shard have one.
ghost use Rattle.std.specs.Prelude.{◌≡◌, ◌<◌, IfOk, OnErr};
ghost use Rattle.std.specs.Option.{option_copied};
ghost use Rattle.lt_words.specs.History.{part};
ghost use Rattle.lt_words.specs.Row.{SeesMore};
ghost use Rattle.lt_shard.specs.Shards.{AreLockedKeys, AreLockedKeysAfter};
ghost use Rattle.lt_walk.specs.Inspected.{seen_record};

use crate::key_steps::Blocking;
use crate::shard_value::ShardValue;
use crate::table::Table;
use lt_ids::Key;
use lt_rules::KeyTable;
use lt_shard::KeyState;
use lt_walk::{Guard, inspect_in};
use lt_words::{Name, Pass, Waker};
use std::alloc::AllocError;
use std::sync::Wait;

impl<N: Name, T: KeyTable, W: Waker, V: ShardValue> Table<N, T, W, V> {
    /// The record of the key: the holder of its lock, the request that holds the reservation, the queued requests
    /// in order, and the distinguished waiter. It is the record after the steps of the key's shard that the pass
    /// has then seen. Waits for the shard's lock, copies the record while holding it, and changes nothing. Fails if
    /// an allocation fails.
    pub fn inspect<R: Wait>(
        &self,
        rt: &R,
        pass: &mut Pass,
        key: &Key,
    ) -> Result<KeyState, AllocError>
        requires pass { pass.old.of ≡ N.of }
        ensures state { IfOk result (λ state. state ≡ seen_record key.now N.of.shards pass.new.seen) }
        ensures more { SeesMore pass.old pass.new }
        ensures err { OnErr result (pass.new ≡ pass.old) }
    {
        let index = self.shard_of(key);
        let lock = &self.shards[index].lock;
        for _ in rt.forever() {
            let mut locked = lock.lock(rt);
            let inside = &mut *locked;
            if inside.shard.index() == index {
                return inside.shard.inspect(rt, &self.book, pass, key);
            }
        }
        unreachable!()
    }

    /// [`Table::inspect`] through the pass of a guard. The request stays as it is.
    pub fn inspect_in<R: Wait>(
        &self,
        rt: &R,
        guard: &mut Guard,
        key: &Key,
    ) -> Result<KeyState, AllocError>
        requires pass { guard.old.pass.of ≡ N.of }
        ensures state { IfOk result (λ state. state ≡ seen_record key.now N.of.shards guard.new.pass.seen) }
        ensures more { SeesMore guard.old.pass guard.new.pass }
        ensures walk { guard.new.walk ≡ guard.old.walk }
        ensures err { OnErr result (guard.new ≡ guard.old) }
    {
        inspect_in(&Blocking { rt, table: self }, guard, key)
    }

    /// The keys of the shard that are locked, reserved or waited for: each once, in byte order, after the steps of
    /// the shard that the pass has then seen. Waits for the shard's lock, copies the keys while holding it, and
    /// changes nothing. Fails if an allocation fails.
    ///
    /// Each shard has a lock of its own, so the keys of different shards are given as of different moments.
    pub fn locked_keys<R: Wait>(
        &self,
        rt: &R,
        pass: &mut Pass,
        shard: usize,
    ) -> Result<Vec<Key>, AllocError>
        requires pass { pass.old.of ≡ N.of }
        requires shard { shard < N.of.shards }
        ensures keys { IfOk result (λ all. AreLockedKeys (part shard pass.new.seen) all.items) }
        ensures more { SeesMore pass.old pass.new }
        ensures err { OnErr result (pass.new ≡ pass.old) }
    {
        let lock = &self.shards[shard].lock;
        for _ in rt.forever() {
            let mut locked = lock.lock(rt);
            let inside = &mut *locked;
            if inside.shard.index() == shard {
                return inside.shard.locked_keys(rt, &self.book, pass);
            }
        }
        unreachable!()
    }

    /// The first of these keys that come after the key `after`, or after none: at most `at_most` of them, each once, in
    /// byte order. `after` need not be locked. A list shorter than `at_most` is the last: no locked key comes after its
    /// keys. Waits for the shard's lock, looks at every lock of the shard once while holding it, copies no more than
    /// `at_most` keys into the list, and changes nothing. Fails if an allocation fails.
    ///
    /// The next part begins after the last key of this one. Each part is as of a moment of its own: a key that is
    /// locked from before the first part until after the last is in exactly one of them.
    pub fn locked_keys_after<R: Wait>(
        &self,
        rt: &R,
        pass: &mut Pass,
        shard: usize,
        after: Option<&Key>,
        at_most: usize,
    ) -> Result<Vec<Key>, AllocError>
        requires pass { pass.old.of ≡ N.of }
        requires shard { shard < N.of.shards }
        ensures keys { IfOk result (λ first. AreLockedKeysAfter (part shard pass.new.seen)
            (option_copied after.entry) at_most first.items) }
        ensures more { SeesMore pass.old pass.new }
        ensures err { OnErr result (pass.new ≡ pass.old) }
    {
        let lock = &self.shards[shard].lock;
        for _ in rt.forever() {
            let mut locked = lock.lock(rt);
            let inside = &mut *locked;
            if shard == inside.shard.index() {
                return inside
                    .shard
                    .locked_keys_after(rt, &self.book, pass, after, at_most);
            }
        }
        unreachable!()
    }
}
