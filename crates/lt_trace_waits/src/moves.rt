//! What does a line of the trace say of requests? [`read_moves`] reads it. A line of a step has the form of a line of
//! `locktrace sort`: it is read as the line of a history with an index after its key. The other lines are those of the
//! waiting layer: `PASS asked TICKET`, `PASS told TICKET` and `PASS gave-up TICKET`. Read next: `judge.rt`.
ghost use Rattle.std.specs.Prelude.{◌≡◌, ◌++◌, ◌∷◌, [], suc, map, IfOk, OnOk};
ghost use Rattle.lt_ids.specs.declared.limits.TheConstants.{MAX_PASS};
ghost use Rattle.lt_text.specs.Fields.{number_within};
ghost use Rattle.lt_checker.specs.Lines.{parts_of};
ghost use Rattle.lt_trace_waits.specs.Moves.{numbered, kind_of, ticket_move, layer_move, visit_kind, call_move, step_moves, SaysOfStep, SaysMoves};
ghost use Rattle.lt_trace_waits.specs.declared.open_wait.MoveKind.TheVariants.{Lets};

use crate::open_wait::{MoveKind, WaitMove};
use lt_checker::{HistoryLineError, Line, read_line};
use lt_ids::{MAX_PASS, Ticket};
use lt_rules::{Call, Reply};
use lt_text::field::ticket;
use lt_text::number::number;
use lt_text::words::cut;
use std::alloc::{AllocError, Global};

/// Whether the word is the number of a pass.
fn pass(word: &[u8]) -> Option<u64>
    ensures { result ≡ number_within 1 (suc MAX_PASS) word.now }
{
    let n = number(word)?;
    if n == 0 || n > u64::from(MAX_PASS) {
        return None;
    }
    Some(n)
}

/// The kind of move that the word of the waiting layer names.
#[tactic(auto, unfolding(crate::specs::Moves::kind_of))]
fn kind_of(word: &[u8]) -> Option<MoveKind>
    ensures { result ≡ kind_of word.now }
{
    if word == b"asked".as_slice() {
        return Some(MoveKind::Asks);
    }
    if word == b"told".as_slice() {
        return Some(MoveKind::IsTold);
    }
    if word == b"gave-up".as_slice() {
        return Some(MoveKind::GivesUp);
    }
    None
}

/// The move of this kind with this ticket.
fn ticket_move(kind: MoveKind, ticket: &Ticket) -> WaitMove
    ensures { result ≡ ticket_move kind ticket.now }
{
    WaitMove {
        kind,
        number: ticket.number(),
        wait: ticket.wait(),
    }
}

/// The move of a line of the waiting layer.
#[tactic(auto, unfolding(crate::specs::Moves::layer_move))]
fn layer_move(bytes: &[u8]) -> Option<WaitMove>
    ensures { result ≡ layer_move bytes.now }
{
    let (first, rest) = cut(bytes, b' ')?;
    let (verb, word) = cut(rest, b' ')?;
    pass(first)?;
    let kind = kind_of(verb)?;
    let ticket = ticket(word)?;
    Some(ticket_move(kind, &ticket))
}

/// The line of a step with the index 1 after its key.
fn numbered(alloc: Global, key: &[u8], step: &[u8]) -> Result<Vec<u8>, AllocError>
    ensures { IfOk result (λ line. line.items ≡ numbered key.now step.now) }
{
    let mut line = Vec::from_slice(alloc, key)?;
    line.extend_from_slice(b" 1 ")?;
    line.extend_from_slice(step)?;
    Ok(line)
}

/// The kind of a visit with this reply.
fn visit_kind(reply: &Reply) -> MoveKind
    ensures { result ≡ visit_kind reply.now }
{
    match reply {
        Reply::MustWait => MoveKind::Waits,
        _ => MoveKind::Passes,
    }
}

/// The move of the request that makes the call, if it is a visit or a leave.
fn call_move(call: &Call, reply: &Reply) -> Option<WaitMove>
    ensures { result ≡ call_move call.now reply.now }
{
    match call {
        Call::Visit { ticket, .. } => Some(ticket_move(visit_kind(reply), ticket)),
        Call::Leave { number } => Some(WaitMove {
            kind: MoveKind::Leaves,
            number: *number,
            wait: 0,
        }),
        _ => None,
    }
}

/// Appends the lets of these tickets.
fn put_lets(moves: &mut Vec<WaitMove>, tickets: &[Ticket]) -> Result<(), AllocError>
    ensures { OnOk result (moves.new.items ≡ moves.old.items ++ map (ticket_move Lets) tickets.now) }
{
    for ticket in tickets {
        moves.push(ticket_move(MoveKind::Lets, ticket))?;
    }
    Ok(())
}

/// The moves of a step: that of its request, and then its lets.
fn step_moves(alloc: Global, line: &Line) -> Result<Vec<WaitMove>, AllocError>
    ensures { IfOk result (λ moves. moves.items ≡ step_moves (parts_of line.now)) }
{
    let mut moves = Vec::new(alloc);
    if let Some(step) = call_move(&line.step.call, &line.step.reply) {
        moves.push(step)?;
    }
    put_lets(&mut moves, &line.tickets)?;
    Ok(moves)
}

/// The moves of the line of a step. `None` if the bytes are no such line.
fn read_step(alloc: Global, bytes: &[u8]) -> Result<Option<Vec<WaitMove>>, AllocError>
    ensures { IfOk result (SaysOfStep bytes.now) }
{
    let Some((key, step)) = cut(bytes, b' ') else {
        return Ok(None);
    };
    let text = numbered(alloc, key, step)?;
    match read_line(alloc, &text) {
        Ok(line) => Ok(Some(step_moves(alloc, &line)?)),
        Err(HistoryLineError::Memory) => Err(AllocError),
        Err(HistoryLineError::Fault(_)) => Ok(None),
    }
}

/// The moves of a line, given without its line end. `None` if the bytes are no line of a trace.
pub(crate) fn read_moves(alloc: Global, bytes: &[u8]) -> Result<Option<Vec<WaitMove>>, AllocError>
    ensures { IfOk result (SaysMoves bytes.now) }
{
    match layer_move(bytes) {
        Some(step) => Ok(Some(Vec::from_slice(alloc, &[step])?)),
        None => read_step(alloc, bytes),
    }
}
