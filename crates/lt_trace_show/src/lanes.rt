//! What does the picture show? [`lanes_of`] gives each request and each transaction of the steps its lane, finds the
//! bars of each lane, and the arrows between the lanes. Nothing here knows how it is drawn. `timeline.rt` has the
//! phases that become bars; `specs/Bars.antt` says which bars those are, and `specs/Owners.antt` who has a lane.
ghost use Rattle.std.specs.Prelude.{List, ◌≡◌, ◌≤◌, ◌<◌, ◌+◌, ◌++◌, ◌↔◌, Err, OnOk, IfOk, IfSome, Some, All, Contains, length, map, slice_get, vec_len};
ghost use Rattle.lt_trace_show.specs.Bars.{IsRunIn, IsBarOf, IsArrowWithin, KeepsArrowsWithin, AreShownBelow, ShowLanesBelow, with_run};
ghost use Rattle.lt_rules.specs.Rules.{Record};
ghost use Rattle.lt_trace_show.specs.Drawn.{AreDrawnSteps};
ghost use Rattle.lt_trace_show.specs.Phases.{phase_of};
ghost use Rattle.lt_trace_show.specs.declared.step.ShownStep.{ShownStep};
ghost use Rattle.lt_trace_show.specs.declared.timeline.Lane.TheVariants.{Request};
ghost use Rattle.lt_trace_show.specs.Owners.{holder_lanes, reservation_lanes, writer_lane, request_lane, ticket_lane, lanes_in, drawn_lanes, named_lanes, everybody, KeepsLanes, HaveLanes, HaveLanesOf};

use crate::drawn::DrawnStep;
use crate::error::PictureError;
use crate::timeline::{Lane, Phase, first_phases, is_out, lane_of, run_end, timeline};
use lt_ids::Ticket;
use lt_rules::{Holder, KeyState, QueuedRequest, QueuedWriter};
use std::alloc::{AllocError, Global};

/// How many steps a picture has at most.
pub const MOST_STEPS: usize = 400;

/// A stretch of steps during which a lane is in one phase.
#[derive(Clone, Copy, Debug, PartialEq, Eq)]
pub struct Bar {
    /// The index of the lane.
    pub lane: usize,
    pub phase: Phase,
    /// The number of the step that began the phase, from 1. It is 0 if the phase was there before the first step.
    pub first: usize,
    /// The number of the step that ended the phase, or the number of steps and 1 if no step ended it.
    pub end: usize,
}

/// A step of one lane that ended a wait of another.
#[derive(Clone, Copy, Debug, PartialEq, Eq)]
pub struct Arrow {
    /// The number of the step, from 1.
    pub step: usize,
    /// The index of the lane whose call it was.
    pub from: usize,
    /// The index of the lane whose wait it ended.
    pub to: usize,
}

/// The layout of a picture.
#[derive(Drop)]
pub struct Lanes {
    /// The transactions by number, and then the requests by number.
    pub lanes: Vec<Lane>,
    /// The bars of the lanes, lane after lane, each lane's in the order of the steps.
    pub bars: Vec<Bar>,
    /// The arrows in the order of the steps.
    pub arrows: Vec<Arrow>,
}

/// The index of the lane, among lanes in order.
pub fn index_of(lanes: &[Lane], lane: Lane) -> Option<usize>
    ensures within { IfSome result (λ i. i < length lanes.now) }
    ensures is { IfSome result (λ i. slice_get lanes.now i ≡ Some lane) }
{
    lanes.binary_search(&lane).ok()
}

/// Appends the lane of the transaction that holds the lock.
fn push_holder(lanes: &mut Vec<Lane>, holder: Option<Holder>) -> Result<(), AllocError>
    ensures { OnOk result (lanes.new.items ≡ lanes.old.items ++ holder_lanes holder) }
{
    match holder {
        None => Ok(()),
        Some(holder) => {
            lanes.push(Lane::Txn(holder.txn.number()))?;
            Ok(())
        }
    }
}

/// Appends the lane of the request that has the reservation.
fn push_reservation(
    lanes: &mut Vec<Lane>,
    reservation: Option<QueuedRequest>,
) -> Result<(), AllocError>
    ensures { OnOk result (lanes.new.items ≡ lanes.old.items ++ reservation_lanes reservation) }
{
    match reservation {
        None => Ok(()),
        Some(request) => {
            lanes.push(Lane::Request(request.ticket.number()))?;
            Ok(())
        }
    }
}

/// Appends the lanes of these writers.
fn push_writers(lanes: &mut Vec<Lane>, writers: &[QueuedWriter]) -> Result<(), AllocError>
    ensures { OnOk result (lanes.new.items ≡ lanes.old.items ++ map writer_lane writers.now) }
{
    for writer in writers {
        lanes.push(Lane::Request(writer.request.ticket.number()))?;
    }
    Ok(())
}

/// Appends the lanes of these readers.
fn push_readers(lanes: &mut Vec<Lane>, readers: &[QueuedRequest]) -> Result<(), AllocError>
    ensures { OnOk result (lanes.new.items ≡ lanes.old.items ++ map request_lane readers.now) }
{
    for reader in readers {
        lanes.push(Lane::Request(reader.ticket.number()))?;
    }
    Ok(())
}

/// Appends the lanes of the requests whose waits these tickets name.
fn push_tickets(lanes: &mut Vec<Lane>, tickets: &[Ticket]) -> Result<(), AllocError>
    ensures { OnOk result (lanes.new.items ≡ lanes.old.items ++ map ticket_lane tickets.now) }
{
    for ticket in tickets {
        lanes.push(Lane::Request(ticket.number()))?;
    }
    Ok(())
}

/// Appends the lanes of all that are in this state of the key.
fn push_state(lanes: &mut Vec<Lane>, state: &KeyState) -> Result<(), AllocError>
    ensures { OnOk result (lanes.new.items ≡ lanes.old.items ++ lanes_in state.now) }
{
    push_holder(lanes, state.holder)?;
    push_reservation(lanes, state.reservation)?;
    push_writers(lanes, &state.writers)?;
    push_readers(lanes, &state.readers)
}

/// Appends the lanes of the requests with these numbers.
fn push_numbers(lanes: &mut Vec<Lane>, numbers: &[u64]) -> Result<(), AllocError>
    ensures { OnOk result (lanes.new.items ≡ lanes.old.items ++ map Request numbers.now) }
{
    for number in numbers {
        lanes.push(Lane::Request(*number))?;
    }
    Ok(())
}

/// Appends the lanes of all that the step names, and of those whose phases it may have changed.
fn push_step(lanes: &mut Vec<Lane>, step: &DrawnStep) -> Result<(), AllocError>
    ensures { OnOk result (lanes.new.items ≡ lanes.old.items ++ drawn_lanes step.now) }
{
    lanes.push(lane_of(step.call))?;
    push_tickets(lanes, &step.tickets)?;
    push_holder(lanes, step.holder)?;
    push_numbers(lanes, &step.changed)
}

/// The lanes of all that are at the key before the first step, that a step names, or whose phases it may have changed. So
/// all that are there after a step are among them. A lane may be there several times.
fn everybody(alloc: Global, before: &KeyState, steps: &[DrawnStep]) -> Result<Vec<Lane>, AllocError>
    ensures { IfOk result (λ lanes. lanes.items ≡ named_lanes before.now steps.now) }
{
    let mut lanes = Vec::new(alloc);
    push_state(&mut lanes, before)?;
    for step in steps {
        push_step(&mut lanes, step)?;
    }
    Ok(lanes)
}

/// The last index, if the lane is there.
fn index_of_last(lanes: &[Lane], lane: Lane) -> Option<usize>
    ensures within { IfSome result (λ i. i < length lanes.now) }
    ensures is { IfSome result (λ i. slice_get lanes.now i ≡ Some lane) }
{
    if lanes.is_empty() {
        return None;
    }
    let last = lanes.len() - 1;
    if lanes[last] == lane {
        Some(last)
    } else {
        None
    }
}

/// Appends the lane unless it is the last one.
fn push_other(lanes: &mut Vec<Lane>, lane: Lane) -> Result<(), AllocError>
    ensures added { OnOk result (Contains lanes.new.items lane) }
    ensures kept { OnOk result (KeepsLanes lanes.old.items lanes.new.items) }
{
    if index_of_last(lanes, lane).is_some() {
        return Ok(());
    }
    lanes.push(lane)?;
    Ok(())
}

/// These lanes, and of equal ones that follow one another the first.
fn without_repeats(alloc: Global, lanes: &[Lane]) -> Result<Vec<Lane>, AllocError>
    ensures { IfOk result (λ own. HaveLanes own.items lanes.now (length lanes.now)) }
{
    let mut own = Vec::new(alloc);
    for index in 0..lanes.len() {
        push_other(&mut own, lanes[index])?;
    }
    Ok(own)
}

/// The lanes of everybody, in order.
fn owners(alloc: Global, before: &KeyState, steps: &[DrawnStep]) -> Result<Vec<Lane>, AllocError>
    ensures { IfOk result (λ lanes. HaveLanesOf lanes.items (named_lanes before.now steps.now)) }
{
    let mut lanes = everybody(alloc, before, steps)?;
    lanes.sort_unstable();
    without_repeats(alloc, &lanes)
}

/// Appends the bar unless its phase is `Out`.
fn push_run(bars: &mut Vec<Bar>, bar: Bar) -> Result<(), AllocError>
    ensures { OnOk result (bars.new.items ≡ with_run bars.old.items bar) }
{
    if is_out(bar.phase) {
        return Ok(());
    }
    bars.push(bar)?;
    Ok(())
}

/// Makes the list of the bars of a lane with these phases, in order: the longest runs of one phase other than `Out`.
fn bars_in(bars: &mut Vec<Bar>, lane: usize, phases: &[Phase]) -> Result<(), AllocError>
    ensures runs { OnOk result (All (IsRunIn lane phases.now) bars.new.items) }
    ensures all { OnOk result (AreShownBelow lane phases.now bars.new.items (length phases.now)) }
{
    bars.clear();
    let mut from = 0;
    while from < phases.len() {
        let end = run_end(phases, from);
        let bar = Bar {
            lane,
            phase: phases[from],
            first: from,
            end,
        };
        push_run(bars, bar)?;
        from = end;
    }
    Ok(())
}

/// The bars of all lanes, if these are the lanes' phases before the first step.
fn bars_from(
    alloc: Global,
    lanes: &[Lane],
    first: &[Phase],
    steps: &[DrawnStep],
) -> Result<Vec<Bar>, AllocError>
    requires { length first.now ≡ length lanes.now }
    ensures bars { IfOk result (λ bars. (before : Record) (shown : List ShownStep) → AreDrawnSteps before shown steps.now →
        first.now ≡ map (λ l. phase_of l before) lanes.now → All (IsBarOf lanes.now before shown) bars.items) }
    ensures all { IfOk result (λ bars. (before : Record) (shown : List ShownStep) → AreDrawnSteps before shown steps.now →
        first.now ≡ map (λ l. phase_of l before) lanes.now →
        ShowLanesBelow lanes.now before shown bars.items (length lanes.now)) }
{
    let mut bars = Vec::new(alloc);
    let mut phases = Vec::new(alloc);
    let mut own = Vec::new(alloc);
    for lane in 0..lanes.len() {
        timeline(&mut phases, lanes[lane], first[lane], steps)?;
        bars_in(&mut own, lane, &phases)?;
        bars.extend_from_slice(&own)?;
    }
    Ok(bars)
}

/// The bars of all lanes.
fn bars_of(
    alloc: Global,
    lanes: &[Lane],
    before: &KeyState,
    steps: &[DrawnStep],
) -> Result<Vec<Bar>, AllocError>
    ensures bars { IfOk result (λ bars. (shown : List ShownStep) → AreDrawnSteps before.now shown steps.now →
        All (IsBarOf lanes.now before.now shown) bars.items) }
    ensures all { IfOk result (λ bars. (shown : List ShownStep) → AreDrawnSteps before.now shown steps.now →
        ShowLanesBelow lanes.now before.now shown bars.items (length lanes.now)) }
{
    let first = first_phases(alloc, lanes, before)?;
    let bars = bars_from(alloc, lanes, &first, steps)?;
    Ok(bars)
}

/// Appends the arrow of a let: to the lane of the request with this number, if it has one.
fn push_arrow(
    arrows: &mut Vec<Arrow>,
    lanes: &[Lane],
    step: usize,
    from: usize,
    request: u64,
) -> Result<(), AllocError>
    requires first { 1 ≤ step }
    requires from { from < length lanes.now }
    ensures { OnOk result (KeepsArrowsWithin (length lanes.now) step arrows.old.items arrows.new.items) }
{
    let Some(to) = index_of(lanes, Lane::Request(request)) else {
        return Ok(());
    };
    arrows.push(Arrow { step, from, to })?;
    Ok(())
}

/// Appends the arrows of the step with this number: one from the caller's lane to the lane of each wait that it ended.
fn push_arrows(
    arrows: &mut Vec<Arrow>,
    lanes: &[Lane],
    number: usize,
    step: &DrawnStep,
) -> Result<(), AllocError>
    requires { 1 ≤ number }
    ensures { OnOk result (KeepsArrowsWithin (length lanes.now) number arrows.old.items arrows.new.items) }
{
    let Some(from) = index_of(lanes, lane_of(step.call)) else {
        return Ok(());
    };
    for ticket in &step.tickets {
        push_arrow(arrows, lanes, number, from, ticket.number())?;
    }
    Ok(())
}

/// The arrows of all steps.
fn arrows_of(alloc: Global, lanes: &[Lane], steps: &[DrawnStep]) -> Result<Vec<Arrow>, AllocError>
    ensures { IfOk result (λ arrows. All (IsArrowWithin (length steps.now) (length lanes.now)) arrows.items) }
{
    let mut arrows = Vec::new(alloc);
    for index in 0..steps.len() {
        push_arrows(&mut arrows, lanes, index + 1, &steps[index])?;
    }
    Ok(arrows)
}

/// The layout of a picture of these steps, if this is the state of the key before the first of them. Everybody who is at
/// the key has a lane, and there is a bar for each phase of it and no other: whichever steps were given to the range, if
/// these are what it keeps of them. It fails with `TooManySteps` exactly for more than 400 steps, and otherwise only when
/// an allocation fails.
pub fn lanes_of(
    alloc: Global,
    before: &KeyState,
    steps: &[DrawnStep],
) -> Result<Lanes, PictureError>
    ensures too_many { (result ≡ Err PictureError.TooManySteps) ↔ (400 < length steps.now) }
    ensures everybody { IfOk result (λ p. (shown : List ShownStep) → AreDrawnSteps before.now shown steps.now →
        HaveLanesOf p.lanes.items (everybody before.now shown)) }
    ensures bars { IfOk result (λ p. (shown : List ShownStep) → AreDrawnSteps before.now shown steps.now →
        All (IsBarOf p.lanes.items before.now shown) p.bars.items) }
    ensures all { IfOk result (λ p. (shown : List ShownStep) → AreDrawnSteps before.now shown steps.now →
        ShowLanesBelow p.lanes.items before.now shown p.bars.items (vec_len p.lanes)) }
    ensures arrows { IfOk result (λ p. All (IsArrowWithin (length steps.now) (vec_len p.lanes)) p.arrows.items) }
{
    if MOST_STEPS < steps.len() {
        return Err(PictureError::TooManySteps);
    }
    let lanes = owners(alloc, before, steps)?;
    let bars = bars_of(alloc, &lanes, before, steps)?;
    let arrows = arrows_of(alloc, &lanes, steps)?;
    Ok(Lanes {
        lanes,
        bars,
        arrows,
    })
}
