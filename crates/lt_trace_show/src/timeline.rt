//! In which phase is a request or a transaction before the first step, and after each? [`first_phases`] finds the
//! phases before the first step, and [`timeline`] follows what the steps change. [`run_end`] finds where a phase ends.
//! `specs/Phases.antt` defines the phases, and `specs/Drawn.antt` says how the steps that are drawn stand for those of
//! the key.
ghost use Rattle.std.specs.Prelude.{ℕ, ◌≡◌, ◌≢◌, ◌≤◌, ◌<◌, IfOk, OnOk, length, map, nat_eq, slice_get};
ghost use Rattle.std.specs.List.{find};
ghost use Rattle.lt_rules.specs.Rules.{number_of, writer_number};
ghost use Rattle.lt_trace_show.specs.Phases.{holder_phase, queued_phase, request_phase, phase_of, number_of_lane, is_out, caller_of};
ghost use Rattle.lt_trace_show.specs.Drawn.{HasPhaseAfter, LeadsPhase, IsTimeline};

use crate::drawn::DrawnStep;
use crate::phase_map::phases_of;
use lt_rules::{Call, Holder, KeyState, QueuedRequest, QueuedWriter};
use std::alloc::{AllocError, Global};

/// Whose life a row of the picture shows.
#[derive(Clone, Copy, Debug, PartialEq, Eq, PartialOrd, Ord)]
pub enum Lane {
    /// The transaction with this number: its calls, and its hold on the lock.
    Txn(u64),
    /// The request with this number: its calls, its waits and its reservation.
    Request(u64),
}

/// Where a request or a transaction stands at the key.
#[derive(Clone, Copy, Debug, PartialEq, Eq)]
pub enum Phase {
    /// The key's state does not mention it.
    Out,
    /// The request waits, with this wait number.
    Waits(u32),
    /// The request is an inactive writer: it lost its reservation and does not wait.
    Idle,
    /// The lock is reserved for the request.
    Reserved,
    /// The transaction holds the lock.
    Holds,
}

/// Whether the phase is `Out`.
pub(crate) fn is_out(phase: Phase) -> bool
    ensures { result ≡ is_out phase }
{
    matches!(phase, Phase::Out)
}

/// The lane of the request or the transaction that makes a call.
pub fn lane_of(call: Call) -> Lane
    ensures { result ≡ caller_of call }
{
    match call {
        Call::Visit { ticket, .. } => Lane::Request(ticket.number()),
        Call::Acquire { txn, .. } => Lane::Txn(txn.number()),
        Call::Update { txn, .. } => Lane::Txn(txn.number()),
        Call::Finish { txn } => Lane::Txn(txn.number()),
        Call::Leave { number } => Lane::Request(number),
        Call::Look { number } => Lane::Request(number),
    }
}

/// The phase of the transaction with this number.
fn holder_phase(number: u64, holder: Option<Holder>) -> Phase
    ensures { result ≡ holder_phase number holder }
{
    match holder {
        Some(holder) if holder.txn.number() == number => Phase::Holds,
        _ => Phase::Out,
    }
}

/// Whether the request has this number.
fn has_number(request: &QueuedRequest, number: u64) -> bool
    ensures { result ≡ nat_eq (number_of request.now) number }
{
    request.ticket.number() == number
}

/// The reader with this number.
fn reader(readers: &[QueuedRequest], number: u64) -> Option<QueuedRequest>
    ensures { result ≡ find (λ q. nat_eq (number_of q) number) readers.now }
{
    readers.iter().copied().find(|q| has_number(q, number))
}

/// The writer with this number.
fn writer(writers: &[QueuedWriter], number: u64) -> Option<QueuedWriter>
    ensures { result ≡ find (λ w. nat_eq (writer_number w) number) writers.now }
{
    writers
        .iter()
        .copied()
        .find(|w| has_number(&w.request, number))
}

/// The phase of the request with this number, if it is queued.
fn queued_phase(number: u64, writers: &[QueuedWriter], readers: &[QueuedRequest]) -> Phase
    ensures { result ≡ queued_phase number writers.now readers.now }
{
    match (writer(writers, number), reader(readers, number)) {
        (Some(writer), _) if writer.active => Phase::Waits(writer.request.ticket.wait()),
        (Some(_), _) => Phase::Idle,
        (None, Some(reader)) => Phase::Waits(reader.ticket.wait()),
        (None, None) => Phase::Out,
    }
}

/// The phase of the request with this number.
pub(crate) fn request_phase(number: u64, state: &KeyState) -> Phase
    ensures { result ≡ request_phase number state.now }
{
    match state.reservation {
        Some(request) if request.ticket.number() == number => Phase::Reserved,
        _ => queued_phase(number, &state.writers, &state.readers),
    }
}

/// The number of the request or the transaction.
fn number_of_lane(lane: Lane) -> u64
    ensures { result ≡ number_of_lane lane }
{
    match lane {
        Lane::Txn(number) => number,
        Lane::Request(number) => number,
    }
}

/// The numbers of the lanes.
fn numbers_of(alloc: Global, lanes: &[Lane]) -> Result<Vec<u64>, AllocError>
    ensures { IfOk result (λ numbers. numbers.items ≡ map number_of_lane lanes.now) }
{
    let mut numbers = Vec::new(alloc);
    for lane in lanes {
        numbers.push(number_of_lane(*lane))?;
    }
    Ok(numbers)
}

/// The phase at an index, if there is one.
fn phase_at(phases: &[Phase], index: usize) -> Option<Phase>
    ensures { result ≡ slice_get phases.now index }
{
    if index < phases.len() {
        Some(phases[index])
    } else {
        None
    }
}

/// The phase that the step gives the request with this number, if it names it.
fn changed_phase(step: &DrawnStep, number: u64) -> Option<Phase>
    ensures { HasPhaseAfter step.now number result }
{
    match step.changed.binary_search(&number) {
        Ok(index) => phase_at(&step.phases, index),
        Err(_) => None,
    }
}

/// The lane's phase after a step, if this is its phase before it.
fn phase_after(lane: Lane, before: Phase, step: &DrawnStep) -> Phase
    ensures { LeadsPhase lane before step.now result }
{
    match lane {
        Lane::Txn(number) => holder_phase(number, step.holder),
        Lane::Request(number) => changed_phase(step, number).unwrap_or(before),
    }
}

/// Makes the list of the lane's phases: the one in the state before the first step, which is given, and then the one
/// after each step. So the index of a phase is the number of its step, from 1.
pub(crate) fn timeline(
    phases: &mut Vec<Phase>,
    lane: Lane,
    first: Phase,
    steps: &[DrawnStep],
) -> Result<(), AllocError>
    ensures { OnOk result (IsTimeline lane first steps.now phases.new.items) }
{
    phases.clear();
    phases.push(first)?;
    let mut latest = first;
    for step in steps {
        latest = phase_after(lane, latest, step);
        phases.push(latest)?;
    }
    Ok(())
}

/// The lane's phase in this state of the key, if this is the phase of the request with its number.
fn first_phase(lane: Lane, request: Phase, state: &KeyState) -> Phase
    requires { request ≡ request_phase (number_of_lane lane) state.now }
    ensures { result ≡ phase_of lane state.now }
{
    match lane {
        Lane::Txn(number) => holder_phase(number, state.holder),
        Lane::Request(_) => request,
    }
}

/// The lanes' phases in this state of the key, if these are the phases of the requests with their numbers.
fn each_first_phase(
    alloc: Global,
    lanes: &[Lane],
    requests: &[Phase],
    state: &KeyState,
) -> Result<Vec<Phase>, AllocError>
    requires { requests.now ≡ map (λ n. request_phase n state.now) (map number_of_lane lanes.now) }
    ensures { IfOk result (λ phases. phases.items ≡ map (λ l. phase_of l state.now) lanes.now) }
{
    let mut phases = Vec::new(alloc);
    for index in 0..lanes.len() {
        phases.push(first_phase(lanes[index], requests[index], state))?;
    }
    Ok(phases)
}

/// The phases of the lanes in this state of the key.
pub(crate) fn first_phases(
    alloc: Global,
    lanes: &[Lane],
    state: &KeyState,
) -> Result<Vec<Phase>, AllocError>
    ensures { IfOk result (λ phases. phases.items ≡ map (λ l. phase_of l state.now) lanes.now) }
{
    let numbers = numbers_of(alloc, lanes)?;
    let requests = phases_of(alloc, &numbers, state)?;
    each_first_phase(alloc, lanes, &requests, state)
}

/// The first index after `from` at which the phase is another, or the number of phases if it lasts to the end.
pub(crate) fn run_end(phases: &[Phase], from: usize) -> usize
    requires { from < length phases.now }
    ensures after { from < result }
    ensures within { result ≤ length phases.now }
    ensures same { (k : ℕ) → from ≤ k → k < result → slice_get phases.now k ≡ slice_get phases.now from }
    ensures other { slice_get phases.now result ≢ slice_get phases.now from }
{
    let phase = phases[from];
    let mut end = from + 1;
    while end < phases.len() && phases[end] == phase {
        end += 1;
    }
    end
}
