//! What does a step change? [`change_of`] compares two states of a key, and finds the requests whose phases may differ:
//! of each queue, what stands between a common front and a common back. `specs/Change.antt` says what it promises.
ghost use Rattle.std.specs.Prelude.{ℕ, ◌≡◌, ◌≤◌, ◌<◌, ◌+◌, ◌-◌, ◌++◌, OnOk, IfOk, map, length, take, drop};
ghost use Rattle.lt_rules.specs.Rules.{number_of, writer_number};
ghost use Rattle.lt_trace_show.specs.Change.{KeepsNumbers, NamesWriters, NamesReaders, NamesAll, NeverFall, reservation_numbers, IsChange};

use crate::phase_map::phases_of;
use crate::timeline::Phase;
use lt_rules::{KeyState, QueuedRequest, QueuedWriter};
use std::alloc::{AllocError, Global};

/// The requests whose phases may differ between two states of a key, in the order of their numbers. A request may be
/// named several times.
#[derive(Drop)]
pub(crate) struct Change {
    pub numbers: Vec<u64>,
    /// The phase of each of them in the later state.
    pub phases: Vec<Phase>,
}

/// How many writers at the front are the same.
fn writers_front(before: &[QueuedWriter], after: &[QueuedWriter]) -> usize
    ensures before { result ≤ length before.now }
    ensures after { result ≤ length after.now }
    ensures same { take result before.now ≡ take result after.now }
{
    let mut front = 0;
    while front < before.len() && front < after.len() && before[front] == after[front] {
        front += 1;
    }
    front
}

/// How many writers at the back are the same, besides so many at the front.
fn writers_back(before: &[QueuedWriter], after: &[QueuedWriter], front: usize) -> usize
    requires before { front ≤ length before.now }
    requires after { front ≤ length after.now }
    ensures before { front + result ≤ length before.now }
    ensures after { front + result ≤ length after.now }
    ensures same { drop (length before.now - result) before.now ≡ drop (length after.now - result) after.now }
{
    let most = (before.len() - front).min(after.len() - front);
    let mut back = 0;
    while back < most && before[before.len() - back - 1] == after[after.len() - back - 1] {
        back += 1;
    }
    back
}

/// How many readers at the front are the same.
fn readers_front(before: &[QueuedRequest], after: &[QueuedRequest]) -> usize
    ensures before { result ≤ length before.now }
    ensures after { result ≤ length after.now }
    ensures same { take result before.now ≡ take result after.now }
{
    let mut front = 0;
    while front < before.len() && front < after.len() && before[front] == after[front] {
        front += 1;
    }
    front
}

/// How many readers at the back are the same, besides so many at the front.
fn readers_back(before: &[QueuedRequest], after: &[QueuedRequest], front: usize) -> usize
    requires before { front ≤ length before.now }
    requires after { front ≤ length after.now }
    ensures before { front + result ≤ length before.now }
    ensures after { front + result ≤ length after.now }
    ensures same { drop (length before.now - result) before.now ≡ drop (length after.now - result) after.now }
{
    let most = (before.len() - front).min(after.len() - front);
    let mut back = 0;
    while back < most && before[before.len() - back - 1] == after[after.len() - back - 1] {
        back += 1;
    }
    back
}

/// Appends the numbers of these writers.
fn push_writers(numbers: &mut Vec<u64>, writers: &[QueuedWriter]) -> Result<(), AllocError>
    ensures { OnOk result (numbers.new.items ≡ numbers.old.items ++ map writer_number writers.now) }
{
    for writer in writers {
        numbers.push(writer.request.ticket.number())?;
    }
    Ok(())
}

/// Appends the numbers of these readers.
fn push_readers(numbers: &mut Vec<u64>, readers: &[QueuedRequest]) -> Result<(), AllocError>
    ensures { OnOk result (numbers.new.items ≡ numbers.old.items ++ map number_of readers.now) }
{
    for reader in readers {
        numbers.push(reader.ticket.number())?;
    }
    Ok(())
}

/// Appends the number of the request that has the reservation.
fn push_reservation(
    numbers: &mut Vec<u64>,
    reservation: Option<QueuedRequest>,
) -> Result<(), AllocError>
    ensures { OnOk result (numbers.new.items ≡ numbers.old.items ++ reservation_numbers reservation) }
{
    match reservation {
        None => Ok(()),
        Some(request) => {
            numbers.push(request.ticket.number())?;
            Ok(())
        }
    }
}

/// Appends the number of the request that has the reservation in this state.
fn push_reserved(numbers: &mut Vec<u64>, state: &KeyState) -> Result<(), AllocError>
    ensures { OnOk result (numbers.new.items ≡ numbers.old.items ++ reservation_numbers state.now.reservation) }
{
    push_reservation(numbers, state.reservation)
}

/// Appends the numbers of the writers that may differ.
fn push_changed_writers(
    numbers: &mut Vec<u64>,
    before: &[QueuedWriter],
    after: &[QueuedWriter],
) -> Result<(), AllocError>
    ensures kept { OnOk result (KeepsNumbers numbers.old.items numbers.new.items) }
    ensures named { OnOk result (NamesWriters before.now after.now numbers.new.items) }
{
    let front = writers_front(before, after);
    let back = writers_back(before, after, front);
    push_writers(numbers, &before[front..before.len() - back])?;
    push_writers(numbers, &after[front..after.len() - back])?;
    Ok(())
}

/// Appends the numbers of the readers that may differ.
fn push_changed_readers(
    numbers: &mut Vec<u64>,
    before: &[QueuedRequest],
    after: &[QueuedRequest],
) -> Result<(), AllocError>
    ensures kept { OnOk result (KeepsNumbers numbers.old.items numbers.new.items) }
    ensures named { OnOk result (NamesReaders before.now after.now numbers.new.items) }
{
    let front = readers_front(before, after);
    let back = readers_back(before, after, front);
    push_readers(numbers, &before[front..before.len() - back])?;
    push_readers(numbers, &after[front..after.len() - back])?;
    Ok(())
}

/// Appends the numbers of the writers that may differ between these states.
fn push_writers_between(
    numbers: &mut Vec<u64>,
    before: &KeyState,
    after: &KeyState,
) -> Result<(), AllocError>
    ensures kept { OnOk result (KeepsNumbers numbers.old.items numbers.new.items) }
    ensures named { OnOk result (NamesWriters before.now.writers after.now.writers numbers.new.items) }
{
    push_changed_writers(numbers, &before.writers, &after.writers)
}

/// Appends the numbers of the readers that may differ between these states.
fn push_readers_between(
    numbers: &mut Vec<u64>,
    before: &KeyState,
    after: &KeyState,
) -> Result<(), AllocError>
    ensures kept { OnOk result (KeepsNumbers numbers.old.items numbers.new.items) }
    ensures named { OnOk result (NamesReaders before.now.readers after.now.readers numbers.new.items) }
{
    push_changed_readers(numbers, &before.readers, &after.readers)
}

/// The numbers of the requests whose phases may differ.
fn changed_numbers(
    alloc: Global,
    before: &KeyState,
    after: &KeyState,
) -> Result<Vec<u64>, AllocError>
    ensures { IfOk result (λ numbers. NamesAll before.now after.now numbers.items) }
{
    let mut numbers = Vec::new(alloc);
    push_reserved(&mut numbers, before)?;
    push_reserved(&mut numbers, after)?;
    push_writers_between(&mut numbers, before, after)?;
    push_readers_between(&mut numbers, before, after)?;
    Ok(numbers)
}

/// The same numbers, in order.
fn in_order(numbers: Vec<u64>) -> Vec<u64>
    ensures kept { KeepsNumbers numbers.items result.items }
    ensures rises { NeverFall result.items }
{
    let mut numbers = numbers;
    numbers.sort_unstable();
    numbers
}

/// What changes between these states of a key.
pub(crate) fn change_of(
    alloc: Global,
    before: &KeyState,
    after: &KeyState,
) -> Result<Change, AllocError>
    ensures { IfOk result (λ c. IsChange before.now after.now c.numbers.items c.phases.items) }
{
    let numbers = in_order(changed_numbers(alloc, before, after)?);
    let phases = phases_of(alloc, &numbers, after)?;
    Ok(Change { numbers, phases })
}
