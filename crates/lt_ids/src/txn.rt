ghost use Rattle.std.specs.Prelude.{◌≡◌, ◌<◌, ◌↔◌, IsSome, IfSome};

use std::marker::Model;

/// A transaction, named by a number from 1. In a contract, a transaction is that number.
#[derive(Clone, Copy, Debug, PartialEq, Eq)]
pub struct TxnId {
    number: u64,
}

impl Model for TxnId {
    ghost use Rattle.std.specs.Prelude.{ℕ, ◌<◌};

    ghost Value = { ℕ };

    ghost view = { λ t. t.number };

    ghost invariant = { λ t. 0 < t.number };

    ghost inverse = { λ n. record { number = n } };
}

impl TxnId {
    /// The transaction with this number, or `None` for 0.
    pub fn new(number: u64) -> Option<TxnId>
        ensures some { IsSome result ↔ (0 < number) }
        ensures value { IfSome result (λ txn. txn ≡ number) }
    {
        if number == 0 {
            return None;
        }
        Some(TxnId { number })
    }

    pub fn number(self) -> u64
        ensures value { result ≡ self }
        ensures positive { 0 < result }
    {
        self.number
    }
}
