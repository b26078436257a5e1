//! Which step does a JSON object spell? [`read_object`] reads one line, given without its line end. Its members have
//! the words of a line in the word form: `specs/Json.antt` defines which line that is.
ghost use Rattle.std.specs.Prelude.{◌≡◌, IfOk, IfErr};
ghost use Rattle.std.specs.Option.{option_map};
ghost use Rattle.serde_json.specs.View.{view, items_view};
ghost use Rattle.lt_trace.specs.Json.{text_member, number_member, ticket_member, member_count, step_member_count, json_step_of, is_whole_reply, ticket_bytes, let_bytes, json_step_text, ticket_text, json_parts_line, IsReadFromJson, AppendsIfAny, IsLineOfObject, IsRefusalOf};
ghost use Rattle.lt_trace.specs.Trace.{parts_of_line};
ghost use Rattle.lt_trace.specs.Members.{json_parts};

use crate::error::{TraceFault, TraceLineError};
use crate::line::TraceLine;
use lt_text::field::ticket;
use lt_text::put::{put_number, put_word};
use lt_text::reply::reply;
use lt_text::words::Words;
use serde_json::Value;
use std::alloc::{AllocError, Global};

/// The members of an object that spells a step.
#[derive(Clone, Copy)]
struct JsonStep<'a> {
    key: &'a str,
    pass: u64,
    call: &'a str,
    reply: &'a str,
    tickets: &'a [Value],
}

fn text_member<'a>(value: &'a Value, name: &str) -> Option<&'a str>
    ensures { option_map (λ s. s.now) result ≡ text_member name.now (view value.now) }
{
    value.get(name)?.as_str()
}

fn number_member(value: &Value, name: &str) -> Option<u64>
    ensures { result ≡ number_member name.now (view value.now) }
{
    value.get(name)?.as_u64()
}

/// The list of tickets, which is empty if there is none.
fn ticket_member(value: &Value) -> Option<&[Value]>
    ensures { option_map (λ v. items_view v.now) result ≡ ticket_member (view value.now) }
{
    match value.get("let") {
        None => Some(&[]),
        Some(list) => Some(list.as_array()?),
    }
}

#[tactic(auto, using(crate::proofs::JsonLaws::count_is))]
fn member_count(value: &Value) -> usize
    ensures { result ≡ member_count (view value.now) }
{
    match value.as_object() {
        None => 0,
        Some(members) => members.len(),
    }
}

fn step_member_count(value: &Value) -> usize
    ensures { result ≡ step_member_count (view value.now) }
{
    if value.get("let").is_some() { 5 } else { 4 }
}

/// The members of the value, if it is an object that has those of a step and no others.
#[tactic(auto, unfolding(crate::specs::Json::json_step_of))]
fn members(value: &Value) -> Option<JsonStep<'_>>
    ensures { option_map json_parts result ≡ json_step_of (view value.now) }
{
    let key = text_member(value, "key")?;
    let pass = number_member(value, "pass")?;
    let call = text_member(value, "call")?;
    let reply = text_member(value, "reply")?;
    let tickets = ticket_member(value)?;
    if member_count(value) != step_member_count(value) {
        return None;
    }
    Some(JsonStep {
        key,
        pass,
        call,
        reply,
        tickets,
    })
}

/// Whether the text is that of a reply, and no more.
fn is_whole_reply(text: &[u8]) -> bool
    ensures { result ≡ is_whole_reply text.now }
{
    let mut words = Words::new(text);
    reply(&mut words).is_some() && words.peek().is_none()
}

/// The text of the value, if it is that of a ticket.
fn ticket_text(value: &Value) -> Option<&str>
    ensures { option_map (λ s. s.now) result ≡ ticket_text (view value.now) }
{
    let text = value.as_str()?;
    ticket(text.as_bytes())?;
    Some(text)
}

/// Appends the tickets, with a space before each. Returns false if one of them is not a ticket.
fn put_tickets(out: &mut Vec<u8>, tickets: &[Value]) -> Result<bool, AllocError>
    ensures { IfOk result (AppendsIfAny out.old.items out.new.items (ticket_bytes (items_view tickets.now))) }
{
    for value in tickets {
        let Some(text) = ticket_text(value) else {
            return Ok(false);
        };
        put_word(out, text.as_bytes())?;
    }
    Ok(true)
}

/// Appends `let` and the tickets, with a space before each word. Appends nothing if there are none.
fn put_lets(out: &mut Vec<u8>, tickets: &[Value]) -> Result<bool, AllocError>
    ensures { IfOk result (AppendsIfAny out.old.items out.new.items (let_bytes (items_view tickets.now))) }
{
    if tickets.is_empty() {
        return Ok(true);
    }
    put_word(out, b"let")?;
    put_tickets(out, tickets)
}

/// The bytes of the step after its key, or `None` if its reply or a ticket is none.
#[tactic(auto, unfolding(crate::specs::Json::json_step_text))]
fn step_text(alloc: Global, step: JsonStep) -> Result<Option<Vec<u8>>, AllocError>
    ensures { IfOk result (λ o. option_map (λ v. v.items) o ≡ json_step_text (json_parts step.entry)) }
{
    if !is_whole_reply(step.reply.as_bytes()) {
        return Ok(None);
    }
    let mut out = Vec::new(alloc);
    put_number(&mut out, step.pass)?;
    put_word(&mut out, step.call.as_bytes())?;
    put_word(&mut out, b"=")?;
    put_word(&mut out, step.reply.as_bytes())?;
    if !put_lets(&mut out, step.tickets)? {
        return Ok(None);
    }
    Ok(Some(out))
}

/// The line with these members, or `None` if they spell none.
fn line_of(alloc: Global, step: JsonStep) -> Result<Option<TraceLine>, AllocError>
    ensures { IfOk result (λ o. option_map parts_of_line o ≡ json_parts_line (json_parts step.entry)) }
{
    match step_text(alloc, step)? {
        None => Ok(None),
        Some(text) => TraceLine::from_parts(alloc, step.key.as_bytes(), &text),
    }
}

/// Reads the line that the value spells.
fn read_value(alloc: Global, value: &Value) -> Result<TraceLine, TraceLineError>
    ensures { IsReadFromJson (view value.now) result }
{
    let Some(step) = members(value) else {
        return Err(TraceLineError::Fault(TraceFault::Json));
    };
    match line_of(alloc, step)? {
        None => Err(TraceLineError::Fault(TraceFault::Shape)),
        Some(line) => Ok(line),
    }
}

/// Reads a line in the form of JSON, given without its line end.
pub(crate) fn read_object(alloc: Global, bytes: &[u8]) -> Result<TraceLine, TraceLineError>
    // What was read is the line that the object spells.
    ensures line { IfOk result (IsLineOfObject bytes.now) }
    // If the bytes are refused, they are not those of an object that spells a line, and the fault says what they lack.
    ensures fault { IfErr result (IsRefusalOf bytes.now) }
{
    match Value::from_slice(alloc, bytes) {
        Ok(value) => read_value(alloc, &value),
        Err(e) if e.is_memory() => Err(TraceLineError::Memory),
        Err(_) => Err(TraceLineError::Fault(TraceFault::Json)),
    }
}
