ghost use Rattle.std.specs.Prelude.{◌≡◌, ◌<◌, ◌↔◌, IsSome, IfSome};
ghost use Rattle.std.specs.Cmp.{partial_equiv_from_equiv};
ghost use Rattle.lt_ids.specs.Ids.{value_of, same_wait, same_wait_equiv, IsNumber, IsWaitNumber, IsOnlyWaitOf};

use crate::limits::{MAX_REQUEST, MAX_WAIT};
use std::fmt::{self, Debug, Formatter, Write};
use std::marker::Model;

/// Names one wait: the number of the request, and the number of the wait among that request's waits, from 1. It is
/// stored as a single word, its value.
#[derive(Clone, Copy)]
pub struct Ticket {
    value: u64,
}

impl Model for Ticket {
    ghost use Rattle.lt_ids.specs.Ids.{Wait, IsNumber, IsWaitNumber, value_of, wait_of};

    ghost Value = { Wait };

    ghost view = { λ t. wait_of t.value };

    ghost invariant = { λ t. IsNumber (wait_of t.value).number × IsWaitNumber (wait_of t.value).wait };

    ghost inverse = { λ w. record { value = value_of w } };
}

impl Ticket {
    /// The ticket of one wait of one request, or `None` unless the request's number is 1 to [`MAX_REQUEST`] and the
    /// wait number is 1 to [`MAX_WAIT`].
    pub fn new(number: u64, wait: u32) -> Option<Ticket>
        ensures some { IsSome result ↔ (IsNumber number × IsWaitNumber wait) }
        ensures value { IfSome result (λ t. t ≡ record { number = number; wait = wait }) }
    {
        if number == 0 || number > MAX_REQUEST || wait == 0 || wait > MAX_WAIT {
            return None;
        }
        Some(Ticket {
            value: (1 << 24) * number + wait as u64,
        })
    }

    /// The number of the request.
    pub fn number(self) -> u64
        ensures value { result ≡ self.number }
        ensures range { IsNumber result }
    {
        self.value >> 24
    }

    /// The wait number, counted from 1 within the request.
    pub fn wait(self) -> u32
        ensures value { result ≡ self.wait }
        ensures range { IsWaitNumber result }
    {
        (self.value & 0xFF_FFFF) as u32
    }

    /// The ticket as one word, `number * 2^24 + wait`. It is never 0, and different tickets have different values.
    pub fn value(self) -> u64
        ensures value { result ≡ value_of self }
        ensures positive { 0 < result }
        // No other ticket has this value.
        ensures alone { IsOnlyWaitOf result self }
    {
        self.value
    }
}

impl PartialEq for Ticket {
    ghost eq = { same_wait };

    ghost laws = { partial_equiv_from_equiv same_wait_equiv };

    fn eq(&self, other: &Ticket) -> bool {
        self.value == other.value
    }
}

impl Eq for Ticket {
    ghost laws = { same_wait_equiv };
}

impl Debug for Ticket {
    fn fmt<W: Write>(&self, f: &mut Formatter<W>) -> fmt::Result {
        write!(f, "{}.{}", self.number(), self.wait())
    }
}

/// Ends one wait: the pass that waits, and the ticket of the wait.
#[derive(Clone, Copy, Debug, PartialEq, Eq)]
pub struct Through {
    pub pass: u32,
    pub ticket: Ticket,
}
