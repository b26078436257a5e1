ghost use Rattle.std.specs.Prelude.{◌≡◌};

use lt_ids::{Request, Through, Ticket, Timestamp, TxnId};

/// The transaction that holds a lock, and the timestamp of the lock.
#[derive(Clone, Copy, Debug, PartialEq, Eq)]
pub struct Holder {
    pub txn: TxnId,
    pub ts: Timestamp,
}

/// A request that is queued at a key or holds its reservation, with the ticket of the visit that brought it there.
/// Only a request with a transaction can hold a reservation.
#[derive(Clone, Copy, Debug, PartialEq, Eq)]
pub struct QueuedRequest {
    pub ticket: Ticket,
    pub txn: Option<TxnId>,
    pub ts: Timestamp,
    pub pass: u32,
}

/// A request among the writers. An inactive one held the reservation and lost it, and is not waiting.
#[derive(Clone, Copy, Debug, PartialEq, Eq)]
pub struct QueuedWriter {
    pub request: QueuedRequest,
    pub active: bool,
}

impl QueuedRequest {
    ghost use Rattle.lt_rules.specs.Rules.{number_of, through_of, is_txn, is_same_txn};

    /// The number of the request.
    pub fn number(&self) -> u64
        ensures { result ≡ number_of self.now }
    {
        self.ticket.number()
    }

    /// The let that ends this wait.
    pub fn through(&self) -> Through
        ensures { result ≡ through_of self.now }
    {
        Through {
            pass: self.pass,
            ticket: self.ticket,
        }
    }

    /// Whether the request belongs to this transaction.
    pub fn is_of(&self, txn: TxnId) -> bool
        ensures { result ≡ is_txn self.now.txn txn }
    {
        match self.txn {
            None => false,
            Some(own) => own == txn,
        }
    }

    /// Whether both requests belong to the same transaction.
    pub fn is_same_txn(&self, other: &QueuedRequest) -> bool
        ensures { result ≡ is_same_txn self.now.txn other.now.txn }
    {
        match other.txn {
            None => false,
            Some(txn) => self.is_of(txn),
        }
    }
}

impl QueuedWriter {
    ghost use Rattle.std.specs.Prelude.{◌≡◌};
    ghost use Rattle.lt_rules.specs.Rules.{writer_number, is_eligible, has_txn};

    /// The number of the request.
    pub fn number(&self) -> u64
        ensures { result ≡ writer_number self.now }
    {
        self.request.number()
    }

    /// Whether the request has a transaction.
    pub fn has_txn(&self) -> bool
        ensures { result ≡ has_txn self.now }
    {
        self.request.txn.is_some()
    }

    /// Whether this writer is eligible as the distinguished waiter.
    pub fn is_eligible(&self, reservation: &Option<QueuedRequest>) -> bool
        ensures { result ≡ is_eligible reservation.now self.now }
    {
        match reservation {
            None => self.active,
            Some(reservation) => self.active && !self.request.is_same_txn(reservation),
        }
    }
}
