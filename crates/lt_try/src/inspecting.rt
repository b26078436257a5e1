//! What can a caller ask a running table? The record of a key, and which keys of a shard have one.
ghost use Rattle.std.specs.Prelude.{◌≡◌, ◌≢◌, ◌<◌, Err, IfOk, OnErr};
ghost use Rattle.std.specs.Option.{option_copied};
ghost use Rattle.lt_words.specs.History.{part};
ghost use Rattle.lt_words.specs.Row.{SeesMore};
ghost use Rattle.lt_shard.specs.Shards.{AreLockedKeys, AreLockedKeysAfter};
ghost use Rattle.lt_walk.specs.Inspected.{seen_record};

use crate::error::TryError;
use crate::table::TryTable;
use lt_ids::Key;
use lt_rules::KeyTable;
use lt_shard::{EmptyTables, KeyState};
use lt_walk::{Guard, KeyStates, inspect_in};
use lt_words::{Pass, Waker};

impl<T: KeyTable + Drop, M: EmptyTables<T>, W: Waker> TryTable<T, M, W> {
    /// The record of the key: the holder of its lock, the request that holds the reservation, the queued requests
    /// in order, and the distinguished waiter. It is the record after the steps of the key's shard that the pass
    /// has then seen. Copies the record, and changes nothing.
    pub fn inspect(&self, pass: &mut Pass, key: &Key) -> Result<KeyState, TryError>
        requires pass { pass.old.of ≡ self.now.of }
        ensures state { IfOk result (λ state. state ≡ seen_record key.now self.now.of.shards pass.new.seen) }
        ensures more { SeesMore pass.old pass.new }
        ensures err { OnErr result (pass.new ≡ pass.old) }
        ensures never_full { result ≢ Err TryError.HistoryFull }
    {
        let index = self.shard_of(key);
        let Some(mut inside) = self.enter_shard(index) else {
            return Err(TryError::Busy);
        };
        let slot = inside.slot;
        let entered = inside.seat.slot_mut(&slot.place.shared, 0);
        let found = entered.inspect_once(&self.book, pass, key);
        inside.leave();
        Ok(found?)
    }

    /// [`TryTable::inspect`] through the pass of a guard. The request stays as it is.
    pub fn inspect_in(&self, guard: &mut Guard, key: &Key) -> Result<KeyState, TryError>
        requires pass { guard.old.pass.of ≡ self.now.of }
        ensures state { IfOk result (λ state. state ≡ seen_record key.now self.now.of.shards guard.new.pass.seen) }
        ensures more { SeesMore guard.old.pass guard.new.pass }
        ensures walk { guard.new.walk ≡ guard.old.walk }
        ensures err { OnErr result (guard.new ≡ guard.old) }
        ensures never_full { result ≢ Err TryError.HistoryFull }
    {
        inspect_in(self, guard, key)
    }

    /// The keys of the shard that are locked, reserved or waited for: each once, in byte order, after the steps of
    /// the shard that the pass has then seen. Copies the keys, and changes nothing. The keys of different shards are
    /// given as of different moments.
    pub fn locked_keys(&self, pass: &mut Pass, shard: usize) -> Result<Vec<Key>, TryError>
        requires pass { pass.old.of ≡ self.now.of }
        requires shard { shard < self.now.of.shards }
        ensures keys { IfOk result (λ all. AreLockedKeys (part shard pass.new.seen) all.items) }
        ensures more { SeesMore pass.old pass.new }
        ensures err { OnErr result (pass.new ≡ pass.old) }
        ensures never_full { result ≢ Err TryError.HistoryFull }
    {
        let Some(mut inside) = self.enter_shard(shard) else {
            return Err(TryError::Busy);
        };
        let slot = inside.slot;
        let entered = inside.seat.slot_mut(&slot.place.shared, 0);
        let all = entered.locked_keys_once(&self.book, pass);
        inside.leave();
        Ok(all?)
    }

    /// The first of these keys that come after the key `after`, or after none: at most `at_most` of them, each once, in
    /// byte order. `after` need not be locked. A list shorter than `at_most` is the last: no locked key comes after its
    /// keys. Copies no more than `at_most` keys into the list, and changes nothing.
    ///
    /// The next part begins after the last key of this one. Each part is as of a moment of its own: a key that is
    /// locked from before the first part until after the last is in exactly one of them.
    pub fn locked_keys_after(
        &self,
        pass: &mut Pass,
        shard: usize,
        after: Option<&Key>,
        at_most: usize,
    ) -> Result<Vec<Key>, TryError>
        requires pass { pass.old.of ≡ self.now.of }
        requires shard { shard < self.now.of.shards }
        ensures keys { IfOk result (λ first. AreLockedKeysAfter (part shard pass.new.seen)
            (option_copied after.entry) at_most first.items) }
        ensures more { SeesMore pass.old pass.new }
        ensures err { OnErr result (pass.new ≡ pass.old) }
        ensures never_full { result ≢ Err TryError.HistoryFull }
    {
        let Some(mut inside) = self.enter_shard(shard) else {
            return Err(TryError::Busy);
        };
        let slot = inside.slot;
        let entered = inside.seat.slot_mut(&slot.place.shared, 0);
        let first = entered.locked_keys_after_once(&self.book, pass, after, at_most);
        inside.leave();
        Ok(first?)
    }
}

impl<T: KeyTable + Drop, M: EmptyTables<T>, W: Waker> KeyStates for TryTable<T, M, W> {
    type Refusal = TryError;

    ghost of = { λ t. t.of };

    ghost use Rattle.std.specs.Prelude.{◌≢◌};
    ghost use Rattle.lt_try.specs.declared.error.TryError.TheVariants.{HistoryFull};

    // A look makes no step, so it finds no full history.
    ghost may_refuse_look = { λ _ e. e ≢ HistoryFull };

    fn inspect(&self, pass: &mut Pass, key: &Key) -> Result<KeyState, TryError> {
        TryTable::inspect(self, pass, key)
    }
}
