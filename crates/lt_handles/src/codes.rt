//! What does a call answer? Each call answers one of these codes. `specs/Codes.antt` has the same numbers as
//! definitions, for the contracts.
ghost use Rattle.std.specs.Prelude.{◌≡◌, ◌≤◌};
ghost use Rattle.lt_handles.specs.Codes.{reply_code, reply_txn, key_code, fault_code, txn_number};

use lt_checker::Fault;
use lt_ids::{IdError, TxnId};
use lt_rules::Reply;

/// The call did what it was asked, and has no reply of the rules to give.
pub const DONE: u32 = 0;

/// The handle holds no table.
pub const CLOSED: u32 = 1;

/// An allocation failed.
pub const MEMORY: u32 = 2;

/// The handle holds a table already.
pub const OPEN_ALREADY: u32 = 3;

/// Lets of an earlier step have not been taken: call `lt_table_lets` first.
pub const LETS_LEFT: u32 = 4;

/// The key has no bytes.
pub const BAD_KEY_EMPTY: u32 = 5;

/// The key has more than 64 bytes.
pub const BAD_KEY_LONG: u32 = 6;

/// The key has a byte that is no printable ASCII character, or is a space.
pub const BAD_KEY_BYTE: u32 = 7;

/// The transaction is 0.
pub const BAD_TXN: u32 = 8;

/// The number of the request is not 1 to 2^40 - 1.
pub const BAD_NUMBER: u32 = 9;

/// The wait number is not 1 to 2^24 - 1.
pub const BAD_WAIT: u32 = 10;

/// The pass is not 1 to 1024.
pub const BAD_PASS: u32 = 11;

/// The first line of a text of histories is neither `locks 1` nor `locks 2` with its line end.
pub const FAULT_HEADER: u32 = 16;

/// The line is not the line of a step.
pub const FAULT_SHAPE: u32 = 17;

/// The key precedes the key of the previous line.
pub const FAULT_KEY_ORDER: u32 = 18;

/// The index does not follow the index of the previous line.
pub const FAULT_INDEX: u32 = 19;

/// The rules give another reply.
pub const FAULT_REPLY: u32 = 20;

/// The rules let other requests through, or the same ones in another order.
pub const FAULT_LETS: u32 = 21;

/// The smallest code of a reply. A smaller code is a refusal, or `DONE`.
pub const FIRST_REPLY: u32 = 32;

/// The code of a reply.
pub fn reply_code(reply: &Reply) -> u32
    ensures code { result ≡ reply_code reply.now }
    ensures above { FIRST_REPLY ≤ result }
{
    match reply {
        Reply::Passed => 32,
        Reply::MustWait => 33,
        Reply::TooLong => 34,
        Reply::Taken => 35,
        Reply::Kept => 36,
        Reply::Raised => 37,
        Reply::Other => 38,
        Reply::Freed => 39,
        Reply::Left => 40,
        Reply::Absent => 41,
        Reply::Nothing => 42,
        Reply::Reserved => 43,
        Reply::Idle => 44,
        Reply::WaitFor(_, true) => 45,
        Reply::WaitFor(_, false) => 46,
        Reply::WaitFirst(_, true) => 47,
        Reply::WaitFirst(_, false) => 48,
        Reply::WaitOwn(_) => 49,
    }
}

/// The transaction that a reply names, or 0.
pub fn reply_txn(reply: &Reply) -> u64
    ensures { result ≡ reply_txn reply.now }
{
    match reply {
        Reply::WaitFor(txn, _) | Reply::WaitFirst(txn, _) | Reply::WaitOwn(txn) => txn.number(),
        _ => 0,
    }
}

/// The code of the fault of a key.
pub fn key_code(error: &IdError) -> u32
    ensures { result ≡ key_code error.now }
{
    match error {
        IdError::KeyEmpty => BAD_KEY_EMPTY,
        IdError::KeyTooLong => BAD_KEY_LONG,
        IdError::KeyByte(_) => BAD_KEY_BYTE,
        IdError::Memory => MEMORY,
    }
}

/// The code of the fault of a line.
pub fn fault_code(fault: Fault) -> u32
    ensures { result ≡ fault_code fault }
{
    match fault {
        Fault::Header => FAULT_HEADER,
        Fault::Shape => FAULT_SHAPE,
        Fault::KeyOrder => FAULT_KEY_ORDER,
        Fault::Index => FAULT_INDEX,
        Fault::WrongReply => FAULT_REPLY,
        Fault::WrongLets => FAULT_LETS,
    }
}

/// A transaction as C sees it: its number, or 0 for none.
pub fn txn_number(txn: Option<TxnId>) -> u64
    ensures { result ≡ txn_number txn }
{
    match txn {
        None => 0,
        Some(txn) => txn.number(),
    }
}
