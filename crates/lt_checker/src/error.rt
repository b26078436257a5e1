//! The faults of a line of a history.
ghost use Rattle.std.specs.Prelude.{◌≡◌, Some};
ghost use Rattle.lt_checker.specs.Fault.{fault_name};
ghost use Rattle.lt_checker.specs.declared.error.HistoryLineError.TheVariants.{Memory};

use std::alloc::{AllocError, AllocFailed};
use std::fmt::{self, Display, Formatter, Write};

/// What is wrong with a line. The variants are in the order in which the check looks for them; `specs/Text.antt`
/// defines each.
#[derive(Clone, Copy, Debug, PartialEq, Eq)]
pub enum Fault {
    /// The first line is neither `locks 1` nor `locks 2` with its line end.
    Header,
    /// The line has no line end or is not the line of a step, its reply does not belong to its call, or a number is
    /// out of its range.
    Shape,
    /// The key precedes the key of the previous line.
    KeyOrder,
    /// The first line of a key does not have index 1, or a later line does not have the index after the previous
    /// line's.
    Index,
    /// The rules give another reply.
    WrongReply,
    /// The rules give this reply, but let other requests through, or the same ones in another order.
    WrongLets,
}

impl Fault {
    /// The name of the fault, as a program prints it.
    pub fn name(self) -> &'static str
        ensures { result.now ≡ fault_name self }
    {
        match self {
            Fault::Header => "Header",
            Fault::Shape => "Shape",
            Fault::KeyOrder => "KeyOrder",
            Fault::Index => "Index",
            Fault::WrongReply => "WrongReply",
            Fault::WrongLets => "WrongLets",
        }
    }
}

impl Display for Fault {
    ghost output = { λ f. Some (fault_name f) };

    fn fmt<W: Write>(&self, f: &mut Formatter<W>) -> fmt::Result {
        f.write_str(self.name())
    }
}

/// Why a line is refused: it has this fault, or memory ran out before that was known.
#[derive(Clone, Copy, Debug, PartialEq, Eq)]
pub enum HistoryLineError {
    Memory,
    Fault(Fault),
}

impl From<AllocError> for HistoryLineError {
    ghost from_gives = { λ _ e. e ≡ Memory };

    fn from(_e: AllocError) -> HistoryLineError {
        HistoryLineError::Memory
    }
}

impl<T: Drop> From<AllocFailed<T>> for HistoryLineError {
    ghost from_gives = { λ _ e. e ≡ Memory };

    fn from(_e: AllocFailed<T>) -> HistoryLineError {
        HistoryLineError::Memory
    }
}
