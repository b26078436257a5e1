//! How are numbers, calls and replies written?
//!
//! Each function appends words to a byte vector. `specs/Fields.antt`, `specs/Calls.antt` and `specs/Replies.antt` define
//! the words. A function fails only if an allocation fails, and may then have appended some of its bytes. Read next:
//! `field.rt`, `call.rt` and `reply.rt`, which read the same words.
ghost use Rattle.std.specs.Prelude.{◌≡◌, ◌<◌, ◌+◌, ◌++◌, ◌∷◌, [], OnOk, decimal};
ghost use Rattle.lt_text.specs.Replies.{held_word, reply_words};
ghost use Rattle.lt_text.specs.Fields.{pair_word, access_word, owner_word, bound_words};
ghost use Rattle.lt_text.specs.Calls.{call_words};
ghost use Rattle.lt_text.specs.Compose.{spaced};

use crate::reply::name;
use itoa::Buffer;
use lt_ids::{Access, Ticket, Timestamp, TxnId};
use lt_rules::{Call, Reply};
use std::alloc::AllocError;

/// Appends the digit.
fn put_digit(out: &mut Vec<u8>, digit: u8) -> Result<(), AllocError>
    requires { digit < 10 }
    ensures { OnOk result (out.new.items ≡ out.old.items ++ (48 + digit) ∷ []) }
{
    out.push(b'0' + digit)?;
    Ok(())
}

/// Appends the number, digit by digit. It stays out of line, so that a number of one digit is a few instructions.
#[inline(never)]
fn put_digits(out: &mut Vec<u8>, n: u64) -> Result<(), AllocError>
    ensures { OnOk result (out.new.items ≡ out.old.items ++ decimal n) }
{
    let mut buffer = Buffer::new();
    out.extend_from_slice(buffer.format(n).as_bytes())
}

/// Appends the number. About half of the numbers of a text have one digit.
#[inline]
#[tactic(auto, using(crate::proofs::Numbers::one_digit))]
pub fn put_number(out: &mut Vec<u8>, n: u64) -> Result<(), AllocError>
    ensures { OnOk result (out.new.items ≡ out.old.items ++ decimal n) }
{
    if n < 10 {
        return put_digit(out, n as u8);
    }
    put_digits(out, n)
}

/// Appends two numbers with a dot between them.
pub fn put_pair(out: &mut Vec<u8>, first: u64, second: u64) -> Result<(), AllocError>
    ensures { OnOk result (out.new.items ≡ out.old.items ++ pair_word first second) }
{
    put_number(out, first)?;
    out.push(b'.')?;
    put_number(out, second)
}

/// Appends a space and the word. It is inlined, so that a constant word costs a test for room and a few stores.
#[inline(always)]
pub fn put_word(out: &mut Vec<u8>, word: &[u8]) -> Result<(), AllocError>
    ensures { OnOk result (out.new.items ≡ out.old.items ++ 32 ∷ word.now) }
{
    out.push(b' ')?;
    out.extend_from_slice(word)
}

/// Appends a space and the number.
pub fn put_number_word(out: &mut Vec<u8>, n: u64) -> Result<(), AllocError>
    ensures { OnOk result (out.new.items ≡ out.old.items ++ 32 ∷ decimal n) }
{
    out.push(b' ')?;
    put_number(out, n)
}

/// Appends a space and two numbers with a dot between them.
pub fn put_pair_word(out: &mut Vec<u8>, first: u64, second: u64) -> Result<(), AllocError>
    ensures { OnOk result (out.new.items ≡ out.old.items ++ 32 ∷ pair_word first second) }
{
    out.push(b' ')?;
    put_pair(out, first, second)
}

/// Appends a space and the timestamp.
pub fn put_time(out: &mut Vec<u8>, ts: Timestamp) -> Result<(), AllocError>
    ensures { OnOk result (out.new.items ≡ out.old.items ++ 32 ∷ pair_word ts.wall ts.logical) }
{
    put_pair_word(out, ts.wall, ts.logical as u64)
}

/// Appends a space and the ticket.
pub fn put_ticket(out: &mut Vec<u8>, ticket: Ticket) -> Result<(), AllocError>
    ensures { OnOk result (out.new.items ≡ out.old.items ++ 32 ∷ pair_word ticket.number ticket.wait) }
{
    put_pair_word(out, ticket.number(), ticket.wait() as u64)
}

/// Appends a space and the transaction, or `-` if there is none.
pub fn put_owner(out: &mut Vec<u8>, txn: Option<TxnId>) -> Result<(), AllocError>
    ensures { OnOk result (out.new.items ≡ out.old.items ++ 32 ∷ owner_word txn) }
{
    match txn {
        None => put_word(out, b"-"),
        Some(txn) => put_number_word(out, txn.number()),
    }
}

/// Appends a space and the bound. Appends nothing for 0, which means no bound.
pub fn put_bound(out: &mut Vec<u8>, longest: u32) -> Result<(), AllocError>
    ensures { OnOk result (out.new.items ≡ out.old.items ++ spaced (bound_words longest)) }
{
    if longest == 0 {
        return Ok(());
    }
    put_word(out, b"max=")?;
    put_number(out, longest as u64)
}

/// The word of the access.
fn access_name(access: Access) -> &'static [u8]
    ensures { result.now ≡ access_word access }
{
    match access {
        Access::Read => b"r",
        Access::Write => b"w",
    }
}

/// Appends the words of the call, with a space before each.
pub fn put_call(out: &mut Vec<u8>, call: Call) -> Result<(), AllocError>
    ensures { OnOk result (out.new.items ≡ out.old.items ++ spaced (call_words call)) }
{
    match call {
        Call::Visit {
            ticket,
            txn,
            ts,
            access,
            longest,
        } => {
            put_word(out, b"visit")?;
            put_ticket(out, ticket)?;
            put_owner(out, txn)?;
            put_time(out, ts)?;
            put_word(out, access_name(access))?;
            put_bound(out, longest)
        }
        Call::Acquire { txn, ts } => {
            put_word(out, b"acquire")?;
            put_number_word(out, txn.number())?;
            put_time(out, ts)
        }
        Call::Update { txn, ts } => {
            put_word(out, b"update")?;
            put_number_word(out, txn.number())?;
            put_time(out, ts)
        }
        Call::Finish { txn } => {
            put_word(out, b"finish")?;
            put_number_word(out, txn.number())
        }
        Call::Leave { number } => {
            put_word(out, b"leave")?;
            put_number_word(out, number)
        }
        Call::Look { number } => {
            put_word(out, b"look")?;
            put_number_word(out, number)
        }
    }
}

/// The word that says whether a lock is held or reserved.
fn held_name(is_held: bool) -> &'static [u8]
    ensures { result.now ≡ held_word is_held }
{
    if is_held { b"held" } else { b"reserved" }
}

/// Appends the words of a reply that tells what a request waits for.
fn put_waits(out: &mut Vec<u8>, name: &[u8], txn: TxnId, is_held: bool) -> Result<(), AllocError>
    ensures { OnOk result (out.new.items ≡ out.old.items ++ spaced (name.now ∷ decimal txn ∷ held_word is_held ∷ [])) }
{
    put_word(out, name)?;
    put_number_word(out, txn.number())?;
    put_word(out, held_name(is_held))
}

/// Appends the words of the reply, with a space before each.
pub fn put_reply(out: &mut Vec<u8>, reply: Reply) -> Result<(), AllocError>
    ensures { OnOk result (out.new.items ≡ out.old.items ++ spaced (reply_words reply)) }
{
    match reply {
        Reply::WaitFor(txn, is_held) => put_waits(out, b"for", txn, is_held),
        Reply::WaitFirst(txn, is_held) => put_waits(out, b"first", txn, is_held),
        Reply::WaitOwn(txn) => {
            put_word(out, b"own")?;
            put_number_word(out, txn.number())
        }
        reply => put_word(out, name(reply)),
    }
}
