//! Which row of docs/RULES.md applies to a call? [`rule_of`] names it in the words of that page: what the record is,
//! and for a visit what the access is. Read next: docs/RULES.md, "A visit" and "The other calls".
use lt_ids::{Access, Timestamp, TxnId};
use lt_rules::{Call, Holder, KeyState, QueuedRequest};

/// A row of docs/RULES.md.
#[derive(Clone, Copy)]
pub struct Rule {
    /// The heading of the section.
    pub section: &'static str,
    /// The words of the row's first columns.
    pub row: &'static str,
}

/// A visit, without its wait.
#[derive(Clone, Copy)]
struct RuleVisit {
    number: u64,
    txn: Option<TxnId>,
    ts: Timestamp,
    access: Access,
    longest: u32,
}

/// Whether the request with this number is among the writers.
fn is_writer(state: &KeyState, number: u64) -> bool {
    state
        .writers
        .iter()
        .any(|writer| writer.request.ticket.number() == number)
}

/// Whether the request with this number is among the active writers.
fn is_active_writer(state: &KeyState, number: u64) -> bool {
    state.writers.iter().any(|writer| writer.active && writer.request.ticket.number() == number)
}

/// Whether the request with this number is among the readers.
fn is_reader(state: &KeyState, number: u64) -> bool {
    state
        .readers
        .iter()
        .any(|reader| reader.ticket.number() == number)
}

/// Whether the writers are too many for the visit.
fn are_too_many(state: &KeyState, visit: &RuleVisit) -> bool {
    visit.longest > 0 && state.writers.len() >= visit.longest as usize
}

/// The row of a visit of a key that is held.
fn held_row(state: &KeyState, holder: &Holder, visit: &RuleVisit) -> &'static str {
    if visit.txn == Some(holder.txn) {
        return "held by the request's own transaction";
    }
    match visit.access {
        Access::Read if visit.ts < holder.ts => {
            "held by another, at a later timestamp than the request's | read"
        }
        Access::Read => "held by another, at the request's timestamp or an earlier one | read",
        Access::Write if is_writer(state, visit.number) => {
            "held by another | write, if the request is among the writers"
        }
        Access::Write if are_too_many(state, visit) => {
            "held by another | write, if the writers are too many for the request"
        }
        Access::Write => "held by another | write",
    }
}

/// The row of a visit of a key that is reserved.
fn reserved_row(reservation: &QueuedRequest, visit: &RuleVisit) -> &'static str {
    let first = reservation.ticket.number();
    match visit.access {
        Access::Read => "reserved | read",
        Access::Write if first == visit.number => "reserved for this very request | write",
        Access::Write if first < visit.number => "reserved for a smaller number | write",
        Access::Write if visit.txn.is_none() => {
            "reserved for a greater number | write, if the request has no transaction"
        }
        Access::Write => "reserved for a greater number | write",
    }
}

/// The row of a visit.
fn visit_row(state: &KeyState, visit: &RuleVisit) -> &'static str {
    match (&state.holder, &state.reservation) {
        (Some(holder), _) => held_row(state, holder, visit),
        (None, Some(reservation)) => reserved_row(reservation, visit),
        (None, None) => "free",
    }
}

/// The row of an acquire.
fn acquire_row(state: &KeyState, txn: TxnId, ts: Timestamp) -> &'static str {
    match &state.holder {
        None => "acquire | not held",
        Some(holder) if holder.txn != txn => "acquire | held by another",
        Some(holder) if holder.ts < ts => {
            "acquire | held by this transaction, at an earlier timestamp"
        }
        Some(_) => "acquire | held by this transaction otherwise",
    }
}

/// Whether the transaction holds the lock.
fn is_held_by(state: &KeyState, txn: TxnId) -> bool {
    match &state.holder {
        Some(holder) => holder.txn == txn,
        None => false,
    }
}

/// Whether the request with this number has the reservation.
fn has_reservation(state: &KeyState, number: u64) -> bool {
    match &state.reservation {
        Some(reservation) => reservation.ticket.number() == number,
        None => false,
    }
}

/// The row of a leave.
fn leave_row(state: &KeyState, number: u64) -> &'static str {
    if has_reservation(state, number) {
        return "leave | this number has the reservation";
    }
    if is_writer(state, number) || is_reader(state, number) {
        return "leave | this number is queued";
    }
    "leave | otherwise"
}

/// The transaction for which the lock is reserved.
fn reserved_txn(state: &KeyState) -> Option<TxnId> {
    match &state.reservation {
        Some(reservation) => reservation.txn,
        None => None,
    }
}

/// Whether the writer with this number waits for its own transaction.
fn waits_for_itself(state: &KeyState, number: u64) -> bool {
    let Some(txn) = reserved_txn(state) else {
        return false;
    };
    state.writers.iter().any(|writer| writer.request.ticket.number() == number
        && writer.request.txn == Some(txn))
}

/// The row of a look.
fn look_row(state: &KeyState, number: u64) -> &'static str {
    if has_reservation(state, number) {
        return "has the reservation";
    }
    let is_active = is_active_writer(state, number);
    if is_writer(state, number) && !is_active {
        return "is an inactive writer";
    }
    if is_active && waits_for_itself(state, number) {
        return "is an active writer, and the lock is reserved for its own transaction T";
    }
    if state.distinguished == Some(number) {
        return "is the distinguished waiter";
    }
    if is_active || is_reader(state, number) {
        return "is any other active writer, or a reader";
    }
    "is not queued"
}

/// The row of docs/RULES.md that applies to this call, if this is the key's record before it.
pub fn rule_of(state: &KeyState, call: &Call) -> Rule {
    let row = match *call {
        Call::Visit {
            ticket,
            txn,
            ts,
            access,
            longest,
        } => {
            let visit = RuleVisit {
                number: ticket.number(),
                txn,
                ts,
                access,
                longest,
            };
            return Rule {
                section: "A visit",
                row: visit_row(state, &visit),
            };
        }
        Call::Acquire { txn, ts } => acquire_row(state, txn, ts),
        Call::Update { txn, .. } if is_held_by(state, txn) => "update | held by this transaction",
        Call::Update { .. } => "update | otherwise",
        Call::Finish { txn } if is_held_by(state, txn) => "finish | held by this transaction",
        Call::Finish { .. } => "finish | otherwise",
        Call::Leave { number } => leave_row(state, number),
        Call::Look { number } => look_row(state, number),
    };
    Rule {
        section: "The other calls",
        row,
    }
}
