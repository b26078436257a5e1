//! What is a table? Read next `src/key_steps.rt`: how a call makes one key step.
ghost use Rattle.std.specs.Prelude.{◌≡◌, ◌<◌, []};
ghost use Rattle.lt_words.specs.History.{shard_of};
ghost use Rattle.lt_shard.specs.Shards.{new_shard};

use crate::named::Named;
use crate::shard_value::ShardValue;
use lt_ids::Key;
use lt_rules::KeyTable;
use lt_shard::Shard;
use lt_walk::Config;
use lt_words::{Book, Name, Waker, shard_of};
use std::marker::Model;
use std::sync::Mutex;

/// Which shard a slot was opened with: its index in the book, and how many steps it may hold.
#[derive(Clone, Copy, Debug)]
pub(crate) struct Label {
    pub index: usize,
    pub max_steps: u64,
}

/// A shard behind its lock. The padding keeps the lock and the hot fields of the next shard on other cache lines.
///
/// No contract says what a lock guards. So contracts follow a shard to its slot and no further, and `label` keeps
/// what they knew of it there.
#[derive(Drop)]
pub(crate) struct Slot<N: Name, T: KeyTable, V: ShardValue> {
    pub lock: Mutex<Named<N, T, V>>,
    pub label: Label,
    _rest: [u64; 6],
}

impl<N: Name, T: KeyTable, V: ShardValue> Slot<N, T, V> {
    /// Puts a new shard, which is as the label says, behind its lock, and beside it a value that fits no steps.
    pub fn new(shard: Shard<T>, value: V, label: Label) -> Slot<N, T, V>
        requires new { shard ≡ new_shard N.of label.index label.max_steps }
        requires fits { V.fits [] value }
        ensures label { result.label ≡ label }
    {
        Slot::back(Named::new(shard, value), label)
    }

    /// Puts a shard that came out of the slot with this label back behind a lock.
    pub fn back(shard: Named<N, T, V>, label: Label) -> Slot<N, T, V>
        ensures label { result.label ≡ label }
    {
        Slot {
            lock: Mutex::new(shard),
            label,
            _rest: [0; 6],
        }
    }

    pub fn into_shard(self) -> Named<N, T, V> {
        let Slot { lock, .. } = self;
        lock.into_inner()
    }
}

/// A lock table that threads share. `N` names the book with the table's words, `T` keeps the records of a shard's
/// keys, `W` is called for each let, and a `V` stands beside each shard, behind the shard's lock.
#[derive(Drop)]
pub struct Table<N: Name, T: KeyTable, W: Waker = (), V: ShardValue = ()> {
    pub(crate) config: Config,
    pub(crate) book: Book,
    pub(crate) shards: Vec<Slot<N, T, V>>,
    pub(crate) waker: W,
}

impl<N: Name, T: KeyTable, W: Waker, V: ShardValue> Model for Table<N, T, W, V> {
    ghost use Rattle.std.specs.Prelude.{◌≡◌, length, map};
    ghost use Rattle.lt_walk.specs.declared.config.Config.{Config};
    ghost use Rattle.lt_walk.specs.Configs.{IsOpened};
    ghost use Rattle.lt_table_core.specs.Slots.{AreInPlace};

    ghost Value = { Config };

    ghost view = { λ t. t.config };

    ghost invariant = { λ t.
        IsOpened t.config N.of × (t.book ≡ N.of) × (length t.shards.items ≡ N.of.shards)
        × AreInPlace t.config.max_steps (map (λ s. s.label) t.shards.items) };
}

impl<N: Name, T: KeyTable, W: Waker, V: ShardValue> Table<N, T, W, V> {
    /// The shard of a key, from 0: the sum of the key's bytes modulo the number of shards.
    pub fn shard_of(&self, key: &Key) -> usize
        ensures shard { result ≡ shard_of key.now N.of.shards }
        ensures below { result < N.of.shards }
    {
        shard_of(key, self.shards.len())
    }
}
