//! Which requests wait at a key, since which step, and which of their waits is the longest?
//!
//! A wait begins with a visit that is answered `wait`. It is open until a step lets its ticket through, or until its
//! request visits the key again or leaves. So each request has at most one open wait at a key, which a map finds by the
//! request's number: a step costs the same however many wait.
ghost use Rattle.std.specs.Prelude.{◌≡◌, ◌-◌, OnOk, fold, ◌∷◌, [], List};
ghost use Rattle.lt_trace_statistics.specs.Findings.{is_must_wait, wait_count, mover_of, without_mover, without_ended, wait_len, with_ended, with_wait};
ghost use Rattle.lt_trace_statistics.specs.declared.waits.OpenWait.{OpenWait};
ghost use Rattle.lt_trace_statistics.specs.OpenWaits.{HasWaits, ChangesWaits, BeginsWait, since_at};

use crate::summary::LongestWait;
use lt_checker::LineStep;
use lt_ids::{Key, Ticket};
use lt_rules::{Call, Reply};
use std::alloc::AllocError;
use std::collections::BTreeMap;

/// An open wait.
#[derive(Drop)]
pub(crate) struct OpenWait {
    pub(crate) ticket: Ticket,
    /// The index of the visit that began it.
    pub(crate) since: u64,
}

/// The open waits at a key, each by the number of its request.
pub(crate) type Pending = BTreeMap<u64, OpenWait>;

/// Whether a request has to wait.
fn is_must_wait(reply: &Reply) -> bool
    ensures { result ≡ is_must_wait reply.now }
{
    match reply {
        Reply::MustWait => true,
        _ => false,
    }
}

/// 1 for a step with this reply if it is `wait`, and 0 otherwise.
pub(crate) fn wait_count(reply: &Reply) -> u64
    ensures { result ≡ wait_count reply.now }
{
    if is_must_wait(reply) { 1 } else { 0 }
}

/// The number of the request that visits or leaves.
fn mover_of(call: &Call) -> Option<u64>
    ensures { result ≡ mover_of call.now }
{
    match call {
        Call::Visit { ticket, .. } => Some(ticket.number()),
        Call::Leave { number } => Some(*number),
        _ => None,
    }
}

/// Closes the wait of the request that visits or leaves.
pub(crate) fn drop_mover(pending: &mut Pending, call: &Call)
    ensures { ChangesWaits (without_mover (mover_of call.now)) pending.old pending.new }
{
    if let Some(number) = mover_of(call) {
        pending.remove(&number);
    }
}

/// The index of the visit that began the open wait with this ticket.
fn since_of(pending: &Pending, ticket: &Ticket) -> Option<u64>
    ensures { result ≡ since_at pending.now ticket.now }
{
    let wait = pending.get(&ticket.number())?;
    if wait.ticket == *ticket {
        Some(wait.since)
    } else {
        None
    }
}

/// Closes the wait with this ticket.
fn drop_ticket(pending: &mut Pending, ticket: &Ticket)
    ensures { ChangesWaits (without_ended (ticket.now ∷ [])) pending.old pending.new }
{
    if since_of(pending, ticket).is_some() {
        pending.remove(&ticket.number());
    }
}

/// Closes the waits with these tickets.
pub(crate) fn drop_ended(pending: &mut Pending, tickets: &[Ticket])
    ensures { ChangesWaits (without_ended tickets.now) pending.old pending.new }
{
    for ticket in tickets {
        drop_ticket(pending, ticket);
    }
}

/// Opens the wait that the step begins, if it begins one.
pub(crate) fn begin_wait(pending: &mut Pending, step: &LineStep) -> Result<(), AllocError>
    ensures { OnOk result (BeginsWait step.now pending.old pending.new) }
{
    if let Call::Visit { ticket, .. } = &step.call
        && is_must_wait(&step.reply)
    {
        let wait = OpenWait {
            ticket: *ticket,
            since: step.index,
        };
        pending.insert(ticket.number(), wait)?;
    }
    Ok(())
}

/// How many steps the longest wait took so far.
fn wait_len(longest: &Option<LongestWait>) -> u64
    ensures { result ≡ wait_len longest.now }
{
    match longest {
        Some(longest) => longest.to.saturating_sub(longest.from),
        None => 0,
    }
}

/// Notes a wait that ended, if it is longer.
fn note_wait(
    longest: &mut Option<LongestWait>,
    key: &Key,
    ticket: &Ticket,
    from: u64,
    to: u64,
) -> Result<(), AllocError>
    ensures { OnOk result (longest.new ≡ with_wait longest.old
        (record { key = key.now; ticket = ticket.now; from = from; to = to })) }
{
    if wait_len(longest) < to.saturating_sub(from) {
        *longest = Some(LongestWait {
            key: key.copy()?,
            ticket: *ticket,
            from,
            to,
        });
    }
    Ok(())
}

/// Notes the open wait with this ticket, which the step with this index ended.
fn note_ticket(
    longest: &mut Option<LongestWait>,
    pending: &Pending,
    key: &Key,
    index: u64,
    ticket: &Ticket,
) -> Result<(), AllocError>
    ensures { OnOk result ((waits : List OpenWait) → HasWaits pending.now waits →
        longest.new ≡ with_ended waits key.now index longest.old ticket.now) }
{
    if let Some(since) = since_of(pending, ticket) {
        note_wait(longest, key, ticket, since, index)?;
    }
    Ok(())
}

/// Notes the open waits with these tickets, which the step with this index ended.
pub(crate) fn note_ended(
    longest: &mut Option<LongestWait>,
    pending: &Pending,
    key: &Key,
    index: u64,
    tickets: &[Ticket],
) -> Result<(), AllocError>
    ensures { OnOk result ((waits : List OpenWait) → HasWaits pending.now waits →
        longest.new ≡ fold (with_ended waits key.now index) longest.old tickets.now) }
{
    for ticket in tickets {
        note_ticket(longest, pending, key, index, ticket)?;
    }
    Ok(())
}
