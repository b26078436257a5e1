//! How does a call make one key step in a table whose callers wait for each other? Under the lock of the key's shard,
//! with the permission to wait for it. Read next `src/scan_and_poll.rt`.
ghost use Rattle.std.specs.Prelude.{◌≡◌, ◌≢◌, true, ⊤};
ghost use Rattle.lt_rules.specs.Memory.{gives_up};
ghost use Rattle.lt_words.specs.declared.keeping.Keeping.TheVariants.{Unrecorded};
ghost use Rattle.lt_shard.specs.declared.answer.StepError.TheVariants.{HistoryFull};

use crate::shard_value::ShardValue;
use crate::table::Table;
use lt_ids::Key;
use lt_rules::{Call, KeyTable};
use lt_shard::{Answer, KeyState, StepError};
use lt_walk::{KeyStates, KeySteps};
use lt_words::{Book, Name, Pass, Waker};
use std::alloc::AllocError;
use std::sync::Wait;

/// A table, and the permission to wait for its locks.
#[derive(Drop)]
pub(crate) struct Blocking<'a, R: Wait, N: Name, T: KeyTable, W: Waker, V: ShardValue> {
    pub rt: &'a R,
    pub table: &'a Table<N, T, W, V>,
}

impl<'a, R: Wait, N: Name, T: KeyTable, W: Waker, V: ShardValue> KeySteps
    for Blocking<'a, R, N, T, W, V> {
    type Refusal = StepError;

    ghost of = { λ _. N.of };

    // Unrecorded tables are never full, and whoever gives something up is never refused there.
    ghost may_refuse = { λ _ call e. N.of.keeping ≡ Unrecorded → (e ≢ HistoryFull) × (gives_up call ≢ true) };

    #[inline(always)]
    fn book(&self) -> &Book {
        let table: &Table<N, T, W, V> = self.table;
        &table.book
    }

    /// Makes the call at the key under the lock of the key's shard. The type of a lock does not tell which shard it
    /// holds. If it is another one, which never happens in a table that was opened, the call locks again.
    #[inline(always)]
    fn step(&self, pass: &mut Pass, key: &Key, call: &Call) -> Result<Answer, StepError> {
        let table: &Table<N, T, W, V> = self.table;
        let rt: &R = self.rt;
        let index = table.shard_of(key);
        let lock = &table.shards[index].lock;
        for _ in rt.forever() {
            let mut locked = lock.lock(rt);
            let inside = &mut *locked;
            if inside.shard.index() == index {
                let answer = inside.step(rt, &table.book, pass, key, call)?;
                // Release the lock first, so that the threads that are woken do not run into it.
                drop(locked);
                table.book.wake(pass, &table.waker);
                return Ok(answer);
            }
        }
        unreachable!()
    }
}

impl<'a, R: Wait, N: Name, T: KeyTable, W: Waker, V: ShardValue> KeyStates
    for Blocking<'a, R, N, T, W, V> {
    type Refusal = AllocError;

    ghost of = { λ _. N.of };

    // A look needs memory for its copy, and that is the one error that it has.
    ghost may_refuse_look = { λ _ _. ⊤ };

    fn inspect(&self, pass: &mut Pass, key: &Key) -> Result<KeyState, AllocError> {
        self.table.inspect(self.rt, pass, key)
    }
}
