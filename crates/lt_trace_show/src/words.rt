//! What does each cell of the table say? Each function appends the words of a cell, with a space before each word. The
//! page of HTML has the same cells. Each fails only when an allocation fails, and may then have appended a part.
use crate::drawn::DrawnStep;
use crate::step::ShownStep;
use lt_ids::Ticket;
use lt_rules::{Holder, KeyState, QueuedRequest, QueuedWriter};
use lt_text::lets::{put_lets, put_tickets};
use lt_text::put::{put_call, put_number, put_number_word, put_reply, put_time, put_word};
use std::alloc::AllocError;

/// Appends `TXN at TIMESTAMP`, or `-` if nobody holds the lock.
fn put_holder(out: &mut Vec<u8>, holder: Option<Holder>) -> Result<(), AllocError> {
    match holder {
        None => put_word(out, b"-"),
        Some(holder) => {
            put_number_word(out, holder.txn.number())?;
            put_word(out, b"at")?;
            put_time(out, holder.ts)
        }
    }
}

/// Appends the number of the request that has the reservation, or `-` if none has it.
fn put_reservation(
    out: &mut Vec<u8>,
    reservation: Option<QueuedRequest>,
) -> Result<(), AllocError> {
    match reservation {
        None => put_word(out, b"-"),
        Some(request) => put_number_word(out, request.ticket.number()),
    }
}

/// Appends the number of a request, with `*` if it is the distinguished waiter.
fn put_waiter(
    out: &mut Vec<u8>,
    number: u64,
    distinguished: Option<u64>,
) -> Result<(), AllocError> {
    put_number(out, number)?;
    if distinguished == Some(number) {
        out.push(b'*')?;
    }
    Ok(())
}

/// Appends the number of a writer. Parentheses mark one that is inactive: it does not wait.
fn put_writer(
    out: &mut Vec<u8>,
    writer: &QueuedWriter,
    distinguished: Option<u64>,
) -> Result<(), AllocError> {
    let number = writer.request.ticket.number();
    if writer.active {
        out.push(b' ')?;
        return put_waiter(out, number, distinguished);
    }
    out.extend_from_slice(b" (")?;
    put_number(out, number)?;
    out.push(b')')?;
    Ok(())
}

/// Appends the writers in order, or `-` if there are none.
fn put_writers(out: &mut Vec<u8>, state: &KeyState) -> Result<(), AllocError> {
    if state.writers.is_empty() {
        return put_word(out, b"-");
    }
    for writer in &state.writers {
        put_writer(out, writer, state.distinguished)?;
    }
    Ok(())
}

/// Appends the readers, the latest first, or `-` if there are none.
fn put_readers(out: &mut Vec<u8>, state: &KeyState) -> Result<(), AllocError> {
    if state.readers.is_empty() {
        return put_word(out, b"-");
    }
    for reader in &state.readers {
        out.push(b' ')?;
        put_waiter(out, reader.ticket.number(), state.distinguished)?;
    }
    Ok(())
}

/// Appends the tickets of the waits that the step ended, or `-` if it ended none.
fn put_tickets_or_none(out: &mut Vec<u8>, tickets: &[Ticket]) -> Result<(), AllocError> {
    if tickets.is_empty() {
        return put_word(out, b"-");
    }
    put_tickets(out, tickets)
}

/// Appends the state of a key in words, with a space before each: `holder`, `reserved`, `writers` and `readers`, and
/// after each who that is. `-` stands for nobody, `*` marks the distinguished waiter, and parentheses a writer that is
/// inactive. If memory runs out, it may have appended a part.
pub fn put_state(out: &mut Vec<u8>, state: &KeyState) -> Result<(), AllocError> {
    put_word(out, b"holder")?;
    put_holder(out, state.holder)?;
    put_word(out, b"reserved")?;
    put_reservation(out, state.reservation)?;
    put_word(out, b"writers")?;
    put_writers(out, state)?;
    put_word(out, b"readers")?;
    put_readers(out, state)
}

/// Appends the heading of a column. Columns count from 0; an index past the last one is taken for the last.
pub fn put_column_name(out: &mut Vec<u8>, column: usize) -> Result<(), AllocError> {
    match column {
        0 => put_word(out, b"step"),
        1 => put_word(out, b"pass"),
        2 => put_word(out, b"call"),
        3 => put_word(out, b"reply"),
        4 => put_word(out, b"holder"),
        5 => put_word(out, b"reserved"),
        6 => put_word(out, b"writers"),
        7 => put_word(out, b"readers"),
        _ => put_word(out, b"let"),
    }
}

/// Appends what the step has in a column. The columns are those of [`put_column_name`].
pub fn put_column(out: &mut Vec<u8>, step: &ShownStep, column: usize) -> Result<(), AllocError> {
    match column {
        0 => put_number_word(out, step.index),
        1 => put_number_word(out, step.pass as u64),
        2 => put_call(out, step.call),
        3 => put_reply(out, step.reply),
        4 => put_holder(out, step.state.holder),
        5 => put_reservation(out, step.state.reservation),
        6 => put_writers(out, &step.state),
        7 => put_readers(out, &step.state),
        _ => put_tickets_or_none(out, &step.tickets),
    }
}

/// Appends what the row of the state before the first step has in a column. The columns are those of
/// [`put_column_name`].
pub fn put_column_before(
    out: &mut Vec<u8>,
    state: &KeyState,
    column: usize,
) -> Result<(), AllocError> {
    match column {
        0 => put_word(out, b"before"),
        4 => put_holder(out, state.holder),
        5 => put_reservation(out, state.reservation),
        6 => put_writers(out, state),
        7 => put_readers(out, state),
        _ => put_word(out, b"-"),
    }
}

/// Appends the step as a line of a history has it, without the key: index, pass, call, reply and the tickets of its
/// lets.
pub fn put_step_words(out: &mut Vec<u8>, step: &DrawnStep) -> Result<(), AllocError> {
    put_number(out, step.index)?;
    put_number_word(out, step.pass as u64)?;
    put_call(out, step.call)?;
    put_word(out, b"=")?;
    put_reply(out, step.reply)?;
    put_lets(out, &step.tickets)
}
