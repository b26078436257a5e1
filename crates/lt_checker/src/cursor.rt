//! Does this line follow the lines before it?
//!
//! A `Cursor` remembers the key and the index of the latest line and replays that key's calls on a record of its
//! own. `follow` checks, in this order, that the next line has its key in order, the right index, the reply of
//! the rules and their lets. Read next: `specs/Text.antt` for these four conditions, and `lt_rules` for the rules.
ghost use Rattle.std.specs.Prelude.{◌≡◌, ◌<◌, ◌≤◌, ◌↔◌, [], Some, IfOk, IfErr, IsTrue, map, length};
ghost use Rattle.lt_rules.specs.Rules.{IsOutcome, empty};
ghost use Rattle.lt_rules.specs.Step.{step};
ghost use Rattle.lt_checker.specs.Lines.{IsLine, IsReadStep, parts_of, parts_with};
ghost use Rattle.lt_checker.specs.Text.{Follows, IsWrongOr, MayNotComeNext, start, spot_after};
ghost use Rattle.lt_checker.specs.Cursor.{record_in, spot, IsAtNewKey, IsNoFirst, IsNext, IsNoNext, FollowsRules, IsNotMade, IsGiven, is_latest, GoesOnAtKey, DoesNotGoOnAtKey, IsNoNextWord, IsNoKeyOrWrong};
ghost use Rattle.lt_ids.specs.Key.{IsKey};
ghost use Rattle.lt_ids.specs.declared.limits.TheConstants.{MAX_PASS};

use crate::error::{Fault, HistoryLineError};
use crate::line::{Line, LineStep, key_of};
use lt_ids::{Key, Through, Ticket};
use lt_row::LinkedRecord;
use lt_rules::{Call, Reply};
use lt_text::words::is_name;
use std::alloc::{AllocError, Global};
use std::cmp::Ordering;

/// The position of the check: the key of the latest line, its index, and the record of that key. Before the first
/// line there is no key. An empty record may be `None`.
#[derive(Drop)]
pub(crate) struct Cursor {
    pub key: Option<Key>,
    pub index: u64,
    pub linked: Option<LinkedRecord>,
}

/// The cursor before the first line.
pub(crate) fn start() -> Cursor
    ensures { spot result ≡ start }
{
    Cursor {
        key: None,
        index: 0,
        linked: None,
    }
}

/// Makes the record empty. Its links are kept for the next key, unless a request is still in their queues.
fn clear(linked: &mut Option<LinkedRecord>)
    ensures { record_in linked.new ≡ empty }
{
    let Some(own) = linked else {
        return;
    };
    if !own.clear() {
        *linked = None;
    }
}

/// Moves to the first line of a new key.
fn go_to_first(cursor: &mut Cursor, key: &Key, index: u64) -> Result<(), HistoryLineError>
    ensures ok { IfOk result (λ _. IsAtNewKey key.now index cursor.new) }
    ensures err { IfErr result (λ e. IsNoFirst index e) }
{
    if index != 1 {
        return Err(HistoryLineError::Fault(Fault::Index));
    }
    cursor.key = Some(key.copy()?);
    cursor.index = index;
    clear(&mut cursor.linked);
    Ok(())
}

/// Moves to the next line of the latest key, before its call is made.
fn go_on(cursor: &mut Cursor, index: u64) -> Result<(), HistoryLineError>
    requires { 1 ≤ index }
    ensures ok { IfOk result (λ _. GoesOnAtKey cursor.old index cursor.new) }
    ensures err { IfErr result (λ e. DoesNotGoOnAtKey cursor.old index e) }
{
    if index - 1 != cursor.index {
        return Err(HistoryLineError::Fault(Fault::Index));
    }
    cursor.index = index;
    Ok(())
}

/// Moves to the line of this key and index, before its call is made.
#[tactic(auto, using(crate::proofs::Places::first_is_next, crate::proofs::Places::first_is_not_next, crate::proofs::Places::at_start, crate::proofs::Places::later_key))]
fn go_to(cursor: &mut Cursor, key: &Key, index: u64) -> Result<(), HistoryLineError>
    requires key { 0 < length key.now }
    requires index { 1 ≤ index }
    ensures ok { IfOk result (λ _. IsNext (spot cursor.old) key.now index cursor.new) }
    ensures err { IfErr result (λ e. IsNoNext (spot cursor.old) key.now index e) }
{
    let Some(latest) = &cursor.key else {
        return go_to_first(cursor, key, index);
    };
    match key.cmp(latest) {
        Ordering::Less => Err(HistoryLineError::Fault(Fault::KeyOrder)),
        Ordering::Greater => go_to_first(cursor, key, index),
        Ordering::Equal => { go_on(cursor, index) }
    }
}

/// Whether the word is the key of the latest line.
fn is_latest(latest: &Option<Key>, word: &[u8]) -> bool
    ensures same { result ≡ is_latest latest.now word.now }
    ensures is_key { IsTrue result → IsKey word.now }
{
    let Some(latest) = latest else {
        return false;
    };
    is_name(word, latest.as_bytes())
}

/// Moves to the line of this key and index, before its call is made. Most lines have the key of the line before them.
/// Then the bytes only need to be compared.
fn go_to_word(
    alloc: Global,
    cursor: &mut Cursor,
    word: &[u8],
    index: u64,
) -> Result<(), HistoryLineError>
    requires { 1 ≤ index }
    ensures key { IfOk result (λ _. IsKey word.now) }
    ensures next { IfOk result (λ _. IsNext (spot cursor.old) word.now index cursor.new) }
    ensures err { IfErr result (λ e. IsNoNextWord (spot cursor.old) word.now index e) }
{
    if is_latest(&cursor.key, word) {
        return go_on(cursor, index);
    }
    let key = key_of(alloc, word)?;
    go_to(cursor, &key, index)
}

fn tickets_of(alloc: Global, lets: &[Through]) -> Result<Vec<Ticket>, AllocError>
    ensures { IfOk result (λ tickets. tickets.items ≡ map (λ t. t.ticket) lets.now) }
{
    lets.iter().map(|t| t.ticket).collect(alloc)
}

fn are_same(tickets: &[Ticket], expected: &[Ticket]) -> bool
    ensures { IsTrue result ↔ (tickets.now ≡ expected.now) }
{
    tickets == expected
}

/// Whether these are the tickets that are let through. Most steps let nobody through, and then no list is made.
fn are_let(alloc: Global, tickets: &[Ticket], lets: &[Through]) -> Result<bool, AllocError>
    ensures { IfOk result (λ same. IsTrue same ↔ (tickets.now ≡ map (λ t. t.ticket) lets.now)) }
{
    if lets.is_empty() {
        return Ok(tickets.is_empty());
    }
    let expected = tickets_of(alloc, lets)?;
    Ok(are_same(tickets, &expected))
}

fn is_same_reply(reply: Reply, expected: Reply) -> bool
    ensures { IsTrue result ↔ (reply ≡ expected) }
{
    reply == expected
}

/// What the rules give for the call of a line: the reply, and the tickets that are let through, in their order.
#[derive(Debug, Drop)]
pub struct Expected {
    pub reply: Reply,
    pub tickets: Vec<Ticket>,
}

/// Makes the call on a record that has no queues yet.
fn make_first(
    linked: &mut Option<LinkedRecord>,
    pass: u32,
    call: &Call,
    lets: &mut Vec<Through>,
) -> Result<Reply, AllocError>
    requires lets { lets.old.items ≡ [] }
    requires pass_low { 1 ≤ pass }
    requires pass_high { pass ≤ MAX_PASS }
    ensures { IfOk result (λ reply. IsOutcome (step empty pass call.now) (record_in linked.new) reply lets.new.items) }
{
    let mut own = LinkedRecord::new(*lets.allocator())?;
    let reply = own.make(pass, call, lets)?;
    *linked = Some(own);
    Ok(reply)
}

/// Makes the call on the record.
#[inline(always)]
fn make(
    linked: &mut Option<LinkedRecord>,
    pass: u32,
    call: &Call,
    lets: &mut Vec<Through>,
) -> Result<Reply, AllocError>
    requires lets { lets.old.items ≡ [] }
    requires pass_low { 1 ≤ pass }
    requires pass_high { pass ≤ MAX_PASS }
    ensures { IfOk result (λ reply. IsOutcome (step (record_in linked.old) pass call.now) (record_in linked.new)
        reply lets.new.items) }
{
    match linked {
        None => make_first(linked, pass, call, lets),
        Some(own) => own.make(pass, call, lets),
    }
}

/// Makes the line's call and compares the reply and the lets with those of the line.
fn make_step(
    alloc: Global,
    linked: &mut Option<LinkedRecord>,
    step: &LineStep,
    tickets: &[Ticket],
) -> Result<(), HistoryLineError>
    requires pass_low { 1 ≤ step.now.pass }
    requires pass_high { step.now.pass ≤ MAX_PASS }
    ensures ok { IfOk result (λ _. FollowsRules (record_in linked.old) step.now tickets.now (record_in linked.new)) }
    ensures err { IfErr result (λ e. IsNotMade (record_in linked.old) step.now tickets.now e) }
{
    let mut lets = Vec::new(alloc);
    let reply = make(linked, step.pass, &step.call, &mut lets)?;
    if !is_same_reply(step.reply, reply) {
        return Err(HistoryLineError::Fault(Fault::WrongReply));
    }
    if !are_let(alloc, tickets, &lets)? {
        return Err(HistoryLineError::Fault(Fault::WrongLets));
    }
    Ok(())
}

/// Moves over the line that has this key, this step and these tickets, if it follows the lines before it.
pub(crate) fn follow(
    alloc: Global,
    cursor: &mut Cursor,
    key: &[u8],
    step: &LineStep,
    tickets: &[Ticket],
) -> Result<(), HistoryLineError>
    requires { IsReadStep step.now }
    ensures key { IfOk result (λ _. IsKey key.now) }
    ensures latest { IfOk result (λ _. cursor.new.key ≡ Some key.now) }
    ensures follows { IfOk result (λ _. Follows (spot cursor.old) (parts_with key.now step.now tickets.now)) }
    ensures leads { IfOk result (λ _. spot cursor.new ≡
        spot_after (spot cursor.old) (parts_with key.now step.now tickets.now)) }
    ensures err { IfErr result (λ e. IsNoKeyOrWrong (spot cursor.old) (parts_with key.now step.now tickets.now) e) }
{
    go_to_word(alloc, cursor, key, step.index)?;
    make_step(alloc, &mut cursor.linked, step, tickets)
}

/// What the rules give for the line's call, if the line may come next. Its reply and its tickets are not looked at.
#[tactic(auto, using(crate::proofs::Places::no_next_line))]
pub(crate) fn expect(
    alloc: Global,
    cursor: &mut Cursor,
    line: &Line,
) -> Result<Expected, HistoryLineError>
    requires { IsLine (parts_of line.now) }
    ensures ok { IfOk result (λ x. IsGiven (spot cursor.old) (parts_of line.now) x) }
    ensures err { IfErr result (λ e. IsWrongOr (spot cursor.old) (parts_of line.now) e) }
    ensures next { IfErr result (MayNotComeNext (spot cursor.old) (parts_of line.now)) }
{
    go_to(cursor, &line.key, line.step.index)?;
    let mut lets = Vec::new(alloc);
    let reply = make(
        &mut cursor.linked,
        line.step.pass,
        &line.step.call,
        &mut lets,
    )?;
    let tickets = tickets_of(alloc, &lets)?;
    Ok(Expected { reply, tickets })
}
