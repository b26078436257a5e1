//! How does a test keep a thread inside a shard, or inside a waker? A [`Stop`] holds it there until another thread
//! sets a flag.
//!
//! [`Watched`] is a shard's table whose acquire of one key stops, while the shard's lock is held. [`Stopping`] is
//! a waker that stops. [`crate::beside`] runs another thread during each stop.
use crate::flag::Flag;
use lt_ids::{Key, Through, Ticket};
use lt_plain::PlainTable;
use lt_rules::{Call, KeyState, KeyTable, QueueLengths, Reply};
use lt_table_core::Waker;
use std::alloc::{AllocError, Global};

/// The point at which the acquire of one key stops, or a waker.
#[derive(Drop)]
pub struct Stop {
    /// The single byte of the key.
    pub key: u8,
    /// The acquire or the waker has reached the stop.
    pub come: Flag,
    /// It may proceed.
    pub go: Flag,
    /// It proceeded because `go` was set, and not because its turns ran out.
    pub gone: Flag,
}

impl Stop {
    pub fn at(key: u8) -> Self {
        Stop {
            key,
            come: Flag::new(),
            go: Flag::new(),
            gone: Flag::new(),
        }
    }

    /// Reports its arrival, and waits until it may proceed, or its turns run out.
    fn meet(&self) {
        self.come.set();
        if self.go.wait() {
            self.gone.set();
        }
    }

    /// An acquire of `key` starts. It stops here if the key is the stop's.
    fn pass(&self, key: &Key) {
        if key.as_bytes() == [self.key].as_slice() {
            self.meet();
        }
    }
}

/// A waker that stops.
#[derive(Drop)]
pub struct Stopping<'a> {
    pub stop: &'a Stop,
}

impl<'a> Waker for Stopping<'a> {
    fn wake(&self, _pass: u32, _ticket: Ticket) {
        self.stop.meet();
    }
}

/// A plain table whose acquires of one key stop.
#[derive(Drop)]
pub struct Watched<'a> {
    table: PlainTable,
    stop: &'a Stop,
}

impl<'a> Watched<'a> {
    ghost use Rattle.std.specs.Prelude.{◌≡◌};
    ghost use Rattle.std.specs.FinMap as finmap;

    pub fn new(alloc: Global, stop: &'a Stop) -> Self
        ensures { result.table ≡ finmap.empty }
    {
        Watched {
            table: PlainTable::new(alloc),
            stop,
        }
    }
}

impl<'a> KeyTable for Watched<'a> {
    ghost records = { λ t. t.table };

    fn step(
        &mut self,
        key: &Key,
        pass: u32,
        call: &Call,
        lets: &mut Vec<Through>,
    ) -> Result<Reply, AllocError> {
        if matches!(call, Call::Acquire { .. }) {
            self.stop.pass(key);
        }
        self.table.step(key, pass, call, lets)
    }

    fn look(&self, key: &Key, number: u64) -> Reply {
        self.table.look(key, number)
    }

    fn lengths(&self, key: &Key) -> QueueLengths {
        self.table.lengths(key)
    }

    fn state(&self, alloc: Global, key: &Key) -> Result<KeyState, AllocError> {
        self.table.state(alloc, key)
    }

    fn keys(&self, alloc: Global) -> Result<Vec<Key>, AllocError> {
        self.table.keys(alloc)
    }

    fn keys_after(
        &self,
        alloc: Global,
        after: Option<&Key>,
        at_most: usize,
    ) -> Result<Vec<Key>, AllocError> {
        self.table.keys_after(alloc, after, at_most)
    }
}
