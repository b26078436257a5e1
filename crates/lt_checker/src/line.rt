//! What does one line of a history say?
//!
//! `read_line` parses a line, given without its line end, into a key, a step and the tickets that were let
//! through. It refuses with the fault `Shape`. Read next: `specs/Lines.antt`, which defines how a line is written
//! and read.
ghost use Rattle.std.specs.Prelude.{◌≡◌, ◌^◌, suc, ◌++◌, ◌∷◌, [], IfOk, IfErr};
ghost use Rattle.lt_text.specs.Fields.{number_within};
ghost use Rattle.lt_text.specs.Calls.{Gives};
ghost use Rattle.lt_checker.specs.Lines.{IsReadAs, key_if_legal, key_at, index_at, step_in, tickets_of, lets_in_words, parts_of, parts_at, IsLine, line_text, IsShapeless};

use crate::error::{Fault, HistoryLineError};
use lt_ids::{IdError, Key, MAX_PASS, Ticket};
use lt_rules::{Call, Reply};
use lt_text::call::call;
use lt_text::field::ticket;
use lt_text::number::number;
use lt_text::reply::{is_reply_of, reply};
use lt_text::words::{Words, is_name};
use std::alloc::Global;

/// The parts of a line between its key and its lets.
#[derive(Debug, Drop)]
pub struct LineStep {
    pub index: u64,
    pub pass: u32,
    pub call: Call,
    pub reply: Reply,
}

#[derive(Debug, Drop)]
pub struct Line {
    pub key: Key,
    pub step: LineStep,
    pub tickets: Vec<Ticket>,
}

/// The key that the word spells.
pub(crate) fn key_of(alloc: Global, word: &[u8]) -> Result<Key, HistoryLineError>
    ensures { IsReadAs (λ key. key) result (key_if_legal word.now) }
{
    match Key::from_bytes(alloc, word) {
        Ok(key) => Ok(key),
        Err(IdError::Memory) => Err(HistoryLineError::Memory),
        Err(_) => Err(HistoryLineError::Fault(Fault::Shape)),
    }
}

fn key(alloc: Global, words: &mut Words) -> Result<Key, HistoryLineError>
    ensures { IsReadAs (λ key. (key, words.new)) result (key_at words.old) }
{
    let Some(word) = words.next() else {
        return Err(HistoryLineError::Fault(Fault::Shape));
    };
    key_of(alloc, word)
}

fn index(word: &[u8]) -> Option<u64>
    ensures { result ≡ number_within 1 (2 ^ 64) word.now }
{
    let n = number(word)?;
    if n == 0 {
        return None;
    }
    Some(n)
}

fn pass(word: &[u8]) -> Option<u32>
    ensures { result ≡ number_within 1 (suc MAX_PASS) word.now }
{
    let n = number(word)?;
    if n == 0 || n > u64::from(MAX_PASS) {
        return None;
    }
    Some(n as u32)
}

/// Parses the index, if there has to be one. Otherwise it is 1, and no word is read.
#[inline(always)]
fn read_index(words: &mut Words, is_numbered: bool) -> Option<u64>
    ensures { Gives result words.new (index_at is_numbered words.old) }
{
    if !is_numbered {
        return Some(1);
    }
    index(words.next()?)
}

/// Parses the parts between the key and the lets. The step of a trace is not numbered: it has no index, and everything
/// else of a step. The call is inlined, because reading them is most of what a line costs.
#[inline(always)]
#[tactic(auto, unfolding(crate::specs::Lines::step_in, crate::specs::Lines::equals_of))]
pub fn read_step(words: &mut Words, is_numbered: bool) -> Option<LineStep>
    ensures { Gives result words.new (step_in is_numbered words.old) }
{
    let index = read_index(words, is_numbered)?;
    let pass = pass(words.next()?)?;
    let call = call(words)?;
    let equals = words.next()?;
    if !is_name(equals, b"=") {
        return None;
    }
    let reply = reply(words)?;
    if !is_reply_of(call, reply) {
        return None;
    }
    Some(LineStep {
        index,
        pass,
        call,
        reply,
    })
}

/// Parses all remaining words as tickets.
fn tickets(alloc: Global, words: &mut Words) -> Result<Vec<Ticket>, HistoryLineError>
    ensures { IsReadAs (λ v. v.items) result (tickets_of words.old) }
{
    let mut list = Vec::new(alloc);
    while let Some(word) = words.next() {
        let Some(t) = ticket(word) else {
            return Err(HistoryLineError::Fault(Fault::Shape));
        };
        list.push(t)?;
    }
    Ok(list)
}

/// Parses the tickets after `let`, of which there must be at least one. The list is empty if no word remains.
#[inline(always)]
#[tactic(auto, unfolding(crate::specs::Lines::lets_in_words))]
pub fn read_lets(alloc: Global, words: &mut Words) -> Result<Vec<Ticket>, HistoryLineError>
    ensures { IsReadAs (λ v. v.items) result (lets_in_words words.old) }
{
    let Some(word) = words.next() else {
        return Ok(Vec::new(alloc));
    };
    if !is_name(word, b"let") {
        return Err(HistoryLineError::Fault(Fault::Shape));
    }
    let list = tickets(alloc, words)?;
    if list.is_empty() {
        return Err(HistoryLineError::Fault(Fault::Shape));
    }
    Ok(list)
}

#[tactic(auto, unfolding(crate::specs::Lines::parts_at))]
fn read_parts(alloc: Global, words: &mut Words) -> Result<Line, HistoryLineError>
    ensures { IsReadAs parts_of result (parts_at words.old) }
{
    let key = key(alloc, words)?;
    let Some(step) = read_step(words, true) else {
        return Err(HistoryLineError::Fault(Fault::Shape));
    };
    let tickets = read_lets(alloc, words)?;
    Ok(Line { key, step, tickets })
}

/// Parses a line, given without its line end.
#[tactic(auto, using(crate::proofs::LineLaws::read_is_line, crate::proofs::LineLaws::read_is_text, crate::proofs::LineLaws::unread))]
pub fn read_line(alloc: Global, bytes: &[u8]) -> Result<Line, HistoryLineError>
    // What was parsed is a line, and this is its text.
    ensures line { IfOk result (λ l. IsLine (parts_of l)) }
    ensures text { IfOk result (λ l. line_text (parts_of l) ≡ bytes.now ++ 10 ∷ []) }
    // If the bytes are refused for their shape, they are not the text of any line.
    ensures shape { IfErr result (λ e. IsShapeless e bytes.now) }
{
    read_parts(alloc, &mut Words::new(bytes))
}
