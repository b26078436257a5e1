//! In which phases are many requests at once? [`phases_of`] searches the queues for each of a few requests. For more,
//! it makes a map of the queues first, so that its time is in proportion to the queues and the requests.
ghost use Rattle.std.specs.Prelude.{ℕ, ◌≡◌, OnOk, IfOk, map, nat_eq, cond, find, Some, None};
ghost use Rattle.std.specs.BTreeMap.{get};
ghost use Rattle.std.specs.Ordering.{nat_cmp};
ghost use Rattle.std.specs.Option.{option_or, option_map};
ghost use Rattle.lt_rules.specs.Rules.{number_of, writer_number};
ghost use Rattle.lt_trace_show.specs.Phases.{writer_phase, reader_phase, request_phase};
ghost use Rattle.lt_trace_show.specs.PhaseMap.{IsPhaseMap};

use crate::timeline::{Phase, request_phase};
use lt_rules::{KeyState, QueuedRequest, QueuedWriter};
use std::alloc::{AllocError, Global};
use std::collections::BTreeMap;

/// The phases of the requests in the queues, by number.
type PhaseMap = BTreeMap<u64, Phase>;

/// For so many requests, each is searched for in the queues.
const FEW: usize = 8;

/// The phase of a writer.
fn writer_phase(writer: &QueuedWriter) -> Phase
    ensures { result ≡ writer_phase writer.now }
{
    if writer.active {
        Phase::Waits(writer.request.ticket.wait())
    } else {
        Phase::Idle
    }
}

/// Puts the phase of the request with this number, in place of the one that the map has.
fn put_phase(phases: &mut PhaseMap, number: u64, phase: Phase) -> Result<(), AllocError>
    ensures { OnOk result ((n : ℕ) → get nat_cmp phases.new n ≡
        option_or (cond (nat_eq number n) (Some phase) None) (get nat_cmp phases.old n)) }
{
    phases.insert(number, phase)?;
    Ok(())
}

/// Puts the phases of the writers, in place of those that the map has. It begins with the last one. So the first one of a
/// number stays, and numbers that rise along the queue come in falling order, for which the map finds the place at once.
fn put_writers(phases: &mut PhaseMap, writers: &[QueuedWriter]) -> Result<(), AllocError>
    ensures { OnOk result ((n : ℕ) → get nat_cmp phases.new n ≡
        option_or (option_map writer_phase (find (λ w. nat_eq (writer_number w) n) writers.now)) (get nat_cmp phases.old n)) }
{
    let mut left = writers.len();
    while 0 < left {
        left -= 1;
        let writer = &writers[left];
        put_phase(phases, writer.request.ticket.number(), writer_phase(writer))?;
    }
    Ok(())
}

/// The phase of a reader.
fn reader_phase(reader: &QueuedRequest) -> Phase
    ensures { result ≡ reader_phase reader.now }
{
    Phase::Waits(reader.ticket.wait())
}

/// Puts the phases of the readers, as [`put_writers`] does.
fn put_readers(phases: &mut PhaseMap, readers: &[QueuedRequest]) -> Result<(), AllocError>
    ensures { OnOk result ((n : ℕ) → get nat_cmp phases.new n ≡
        option_or (option_map reader_phase (find (λ q. nat_eq (number_of q) n) readers.now)) (get nat_cmp phases.old n)) }
{
    let mut left = readers.len();
    while 0 < left {
        left -= 1;
        let reader = &readers[left];
        put_phase(phases, reader.ticket.number(), reader_phase(reader))?;
    }
    Ok(())
}

/// The phases of all that are queued in this state of the key.
fn map_of(alloc: Global, state: &KeyState) -> Result<PhaseMap, AllocError>
    ensures { IfOk result (λ phases. IsPhaseMap phases state.now) }
{
    let mut phases = BTreeMap::new(alloc);
    put_readers(&mut phases, &state.readers)?;
    put_writers(&mut phases, &state.writers)?;
    Ok(phases)
}

/// The phase of the request with this number, by the map of the state.
fn phase_in(phases: &PhaseMap, number: u64, state: &KeyState) -> Phase
    requires { IsPhaseMap phases.now state.now }
    ensures { result ≡ request_phase number state.now }
{
    match state.reservation {
        Some(request) if request.ticket.number() == number => Phase::Reserved,
        _ => phases.get(&number).copied().unwrap_or(Phase::Out),
    }
}

/// The phases of a few requests.
fn searched_phases(
    alloc: Global,
    numbers: &[u64],
    state: &KeyState,
) -> Result<Vec<Phase>, AllocError>
    ensures { IfOk result (λ phases. phases.items ≡ map (λ n. request_phase n state.now) numbers.now) }
{
    let mut phases = Vec::new(alloc);
    for number in numbers {
        phases.push(request_phase(*number, state))?;
    }
    Ok(phases)
}

/// The phases of many requests.
fn mapped_phases(alloc: Global, numbers: &[u64], state: &KeyState) -> Result<Vec<Phase>, AllocError>
    ensures { IfOk result (λ phases. phases.items ≡ map (λ n. request_phase n state.now) numbers.now) }
{
    let queued = map_of(alloc, state)?;
    let mut phases = Vec::new(alloc);
    for number in numbers {
        phases.push(phase_in(&queued, *number, state))?;
    }
    Ok(phases)
}

/// The phases of the requests with these numbers in this state of the key.
pub(crate) fn phases_of(
    alloc: Global,
    numbers: &[u64],
    state: &KeyState,
) -> Result<Vec<Phase>, AllocError>
    ensures { IfOk result (λ phases. phases.items ≡ map (λ n. request_phase n state.now) numbers.now) }
{
    if numbers.len() <= FEW {
        searched_phases(alloc, numbers, state)
    } else {
        mapped_phases(alloc, numbers, state)
    }
}
