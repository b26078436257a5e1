//! How is a call read from the words of a line? [`call`] reads the name of the call and then its arguments, each
//! with a function of `field.rt`. `specs/Calls.antt` defines what is read; `put.rt` writes calls.
ghost use Rattle.std.specs.Prelude.{◌≡◌, ◌^◌};
ghost use Rattle.lt_text.specs.Fields.{number_within};
ghost use Rattle.lt_text.specs.Calls.{Gives, bound_at, visit_at, acquire_at, update_at, finish_at, leave_at, look_at, call_in_words, call_at};

use crate::field::{access, bound, is_bound, owner, ticket, timestamp, txn};
use crate::number::number;
use crate::words::{Words, is_name};
use lt_ids::MAX_REQUEST;
use lt_rules::Call;

/// The bound at the start of the remaining words, or 0 if the next word does not begin as a bound does.
#[tactic(auto, unfolding(crate::specs::Calls::bound_at))]
fn longest(words: &mut Words) -> Option<u32>
    ensures { Gives result words.new (bound_at words.old) }
{
    let Some(word) = words.peek() else {
        return Some(0);
    };
    if !is_bound(word) {
        return Some(0);
    }
    let _ = words.next();
    bound(word)
}

#[tactic(auto, unfolding(crate::specs::Calls::visit_at))]
fn visit(words: &mut Words) -> Option<Call>
    ensures { Gives result words.new (visit_at words.old) }
{
    let ticket = ticket(words.next()?)?;
    let txn = owner(words.next()?)?;
    let ts = timestamp(words.next()?)?;
    let access = access(words.next()?)?;
    let longest = longest(words)?;
    Some(Call::Visit {
        ticket,
        txn,
        ts,
        access,
        longest,
    })
}

#[tactic(auto, unfolding(crate::specs::Calls::acquire_at))]
fn acquire(words: &mut Words) -> Option<Call>
    ensures { Gives result words.new (acquire_at words.old) }
{
    let txn = txn(words.next()?)?;
    let ts = timestamp(words.next()?)?;
    Some(Call::Acquire { txn, ts })
}

#[tactic(auto, unfolding(crate::specs::Calls::update_at))]
fn update(words: &mut Words) -> Option<Call>
    ensures { Gives result words.new (update_at words.old) }
{
    let txn = txn(words.next()?)?;
    let ts = timestamp(words.next()?)?;
    Some(Call::Update { txn, ts })
}

/// The request number that the word spells, from 1 to 2^40 - 1.
pub fn request_number(word: &[u8]) -> Option<u64>
    ensures { result ≡ number_within 1 (2 ^ 40) word.now }
{
    let n = number(word)?;
    if n == 0 || n > MAX_REQUEST {
        return None;
    }
    Some(n)
}

#[tactic(auto, unfolding(crate::specs::Calls::finish_at))]
fn finish(words: &mut Words) -> Option<Call>
    ensures { Gives result words.new (finish_at words.old) }
{
    let txn = txn(words.next()?)?;
    Some(Call::Finish { txn })
}

#[tactic(auto, unfolding(crate::specs::Calls::leave_at))]
fn leave(words: &mut Words) -> Option<Call>
    ensures { Gives result words.new (leave_at words.old) }
{
    let number = request_number(words.next()?)?;
    Some(Call::Leave { number })
}

#[tactic(auto, unfolding(crate::specs::Calls::look_at))]
fn look(words: &mut Words) -> Option<Call>
    ensures { Gives result words.new (look_at words.old) }
{
    let number = request_number(words.next()?)?;
    Some(Call::Look { number })
}

#[inline(always)]
#[tactic(auto, unfolding(crate::specs::Calls::call_in_words))]
fn call_named(name: &[u8], words: &mut Words) -> Option<Call>
    ensures { Gives result words.new (call_in_words name.now words.old) }
{
    if is_name(name, b"visit") {
        return visit(words);
    }
    if is_name(name, b"acquire") {
        return acquire(words);
    }
    if is_name(name, b"update") {
        return update(words);
    }
    if is_name(name, b"finish") {
        return finish(words);
    }
    if is_name(name, b"leave") {
        return leave(words);
    }
    if is_name(name, b"look") {
        return look(words);
    }
    None
}

/// The call that the next words spell, its name first. `None` if they spell no call, or if a number is out of its
/// range. The words after the call remain.
#[inline(always)]
pub fn call(words: &mut Words) -> Option<Call>
    ensures { Gives result words.new (call_at words.old) }
{
    let name = words.next()?;
    call_named(name, words)
}
