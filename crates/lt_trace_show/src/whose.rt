//! Whose is a request? [`owners_of`] finds the pass and the transaction of each lane's request, in the state before the
//! first step and in the calls of the steps.
use crate::drawn::{DrawnStep, ShownRange};
use crate::timeline::Lane;
use lt_ids::TxnId;
use lt_rules::{Call, KeyState, QueuedRequest};
use std::alloc::{AllocError, Global};

/// The owner of a request. Of several claims of one request, the least one counts: a call that does not name a transaction
/// tells the pass alone.
#[derive(Clone, Copy, PartialEq, Eq, PartialOrd, Ord)]
pub struct Claim {
    /// The number of the request.
    pub number: u64,
    /// Whether the transaction is not known.
    pub is_partial: bool,
    pub pass: u64,
    /// The number of the transaction, or 0 if the request has none.
    pub txn: u64,
}

/// The number of the transaction, or 0 if there is none.
fn txn_number(txn: Option<TxnId>) -> u64 {
    match txn {
        Some(txn) => txn.number(),
        None => 0,
    }
}

/// Appends the claim of a request that is at the key.
fn push_queued(claims: &mut Vec<Claim>, request: &QueuedRequest) -> Result<(), AllocError> {
    claims.push(Claim {
        number: request.ticket.number(),
        is_partial: false,
        pass: request.pass as u64,
        txn: txn_number(request.txn),
    })?;
    Ok(())
}

/// Appends the claims of all that are in this state of the key.
fn push_state(claims: &mut Vec<Claim>, state: &KeyState) -> Result<(), AllocError> {
    if let Some(request) = &state.reservation {
        push_queued(claims, request)?;
    }
    for writer in &state.writers {
        push_queued(claims, &writer.request)?;
    }
    for reader in &state.readers {
        push_queued(claims, reader)?;
    }
    Ok(())
}

/// Appends the claim of the request that makes the call, if one does.
fn push_call(claims: &mut Vec<Claim>, step: &DrawnStep) -> Result<(), AllocError> {
    let (number, is_partial, txn) = match step.call {
        Call::Visit { ticket, txn, .. } => (ticket.number(), false, txn_number(txn)),
        Call::Leave { number } | Call::Look { number } => (number, true, 0),
        _ => return Ok(()),
    };
    claims.push(Claim {
        number,
        is_partial,
        pass: step.pass as u64,
        txn,
    })?;
    Ok(())
}

/// The claims of the range, in order.
fn claims_of(alloc: Global, range: &ShownRange) -> Result<Vec<Claim>, AllocError> {
    let mut claims = Vec::new(alloc);
    push_state(&mut claims, &range.before)?;
    for step in &range.steps {
        push_call(&mut claims, step)?;
    }
    claims.sort_unstable();
    Ok(claims)
}

/// The first claim of the request with this number, among claims in order. It looks from this index on and moves it there,
/// so that rising numbers take one walk.
fn first_claim(claims: &[Claim], at: &mut usize, number: u64) -> Option<Claim> {
    while *at < claims.len() && claims[*at].number < number {
        *at += 1;
    }
    match claims.get(*at) {
        Some(claim) if claim.number == number => Some(*claim),
        _ => None,
    }
}

/// The owner of each lane's request, if the lanes are in order. A lane of a transaction has none.
pub fn owners_of(
    alloc: Global,
    lanes: &[Lane],
    range: &ShownRange,
) -> Result<Vec<Option<Claim>>, AllocError> {
    let claims = claims_of(alloc, range)?;
    let mut owners = Vec::new(alloc);
    let mut at = 0;
    for lane in lanes {
        owners.push(match lane {
            Lane::Txn(_) => None,
            Lane::Request(number) => first_claim(&claims, &mut at, *number),
        })?;
    }
    Ok(owners)
}
