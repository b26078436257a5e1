//! Reads the words inside a line: transactions, tickets, timestamps, accesses and bounds. Each function returns
//! `None` if the word spells no such value.
ghost use Rattle.std.specs.Prelude.{◌≡◌, ◌^◌};
ghost use Rattle.lt_text.specs.Fields.{number_within, pair_of, ticket_of, time_of, access_of, owner_of, is_bound, bound_of};

use crate::number::number;
use crate::words::{cut, is_name};
use lt_ids::{Access, Ticket, Timestamp, TxnId};

/// The transaction that the word names, from 1 to 2^64 - 1.
pub fn txn(word: &[u8]) -> Option<TxnId>
    ensures { result ≡ number_within 1 (2 ^ 64) word.now }
{
    TxnId::new(number(word)?)
}

/// The transaction that the word names, or no transaction if the word is `-`.
#[tactic(auto, unfolding(crate::specs::Fields::owner_of))]
pub fn owner(word: &[u8]) -> Option<Option<TxnId>>
    ensures { result ≡ owner_of word.now }
{
    if is_name(word, b"-") {
        return Some(None);
    }
    Some(Some(txn(word)?))
}

/// The two numbers before and after a dot.
fn pair(word: &[u8]) -> Option<(u64, u64)>
    ensures { result ≡ pair_of word.now }
{
    let (first, second) = cut(word, b'.')?;
    Some((number(first)?, number(second)?))
}

/// The ticket that the word spells: a number from 1 to 2^40 - 1, a dot, and a wait number from 1 to 2^24 - 1.
#[tactic(auto, unfolding(crate::specs::Fields::ticket_of))]
pub fn ticket(word: &[u8]) -> Option<Ticket>
    ensures { result ≡ ticket_of word.now }
{
    let (number, wait) = pair(word)?;
    Ticket::new(number, u32::try_from(wait).ok()?)
}

/// The timestamp that the word spells: a number below 2^64, a dot, and a number below 2^32.
#[tactic(auto, unfolding(crate::specs::Fields::time_of))]
pub fn timestamp(word: &[u8]) -> Option<Timestamp>
    ensures { result ≡ time_of word.now }
{
    let (wall, logical) = pair(word)?;
    let logical = u32::try_from(logical).ok()?;
    Some(Timestamp { wall, logical })
}

/// The access that the word spells, `r` or `w`.
#[tactic(auto, unfolding(crate::specs::Fields::access_of))]
pub fn access(word: &[u8]) -> Option<Access>
    ensures { result ≡ access_of word.now }
{
    if is_name(word, b"r") {
        return Some(Access::Read);
    }
    if is_name(word, b"w") {
        return Some(Access::Write);
    }
    None
}

/// Whether the word begins as a bound does, with `max=`.
#[tactic(auto, using(crate::proofs::Names::too_short))]
pub fn is_bound(word: &[u8]) -> bool
    ensures { result ≡ is_bound word.now }
{
    word.len() >= 4 && is_name(&word[..4], b"max=")
}

/// The bound that the word spells: `max=` and a number from 1 to 2^32 - 1.
#[tactic(auto, unfolding(crate::specs::Fields::bound_of))]
pub fn bound(word: &[u8]) -> Option<u32>
    ensures { result ≡ bound_of word.now }
{
    let n = number(word.strip_prefix(b"max=")?)?;
    if n == 0 {
        return None;
    }
    u32::try_from(n).ok()
}
