ghost use Rattle.std.specs.Prelude.{◌≡◌};
ghost use Rattle.lt_rules.specs.Rules.{Record, empty};

use crate::{Holder, QueuedRequest, QueuedWriter};
use std::alloc::Global;
use std::marker::Model;

/// The state of a key: a copy of its record, with all queued requests. In a contract, it is a `Record`.
#[derive(Debug, Drop)]
pub struct KeyState {
    /// The transaction that holds the lock, and the timestamp of its lock.
    pub holder: Option<Holder>,
    /// The request that holds the reservation.
    pub reservation: Option<QueuedRequest>,
    /// The requests queued to write, ordered by number. An inactive one lost its reservation and is not waiting.
    pub writers: Vec<QueuedWriter>,
    /// The requests queued to read, the latest first.
    pub readers: Vec<QueuedRequest>,
    /// The number of the distinguished waiter, which is responsible for pushing the lock's holder.
    pub distinguished: Option<u64>,
}

impl Model for KeyState {
    ghost use Rattle.lt_rules.specs.Rules.{Record, record_with};

    ghost Value = { Record };

    ghost view = { λ s. record_with s.holder s.reservation s.writers.items s.readers.items s.distinguished };
}

impl KeyState {
    /// The state of a key without a holder, a reservation or queued requests.
    pub fn empty(alloc: Global) -> KeyState
        ensures { result ≡ empty }
    {
        KeyState {
            holder: None,
            reservation: None,
            writers: Vec::new(alloc),
            readers: Vec::new(alloc),
            distinguished: None,
        }
    }
}
