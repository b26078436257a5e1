//! How is the state of one key copied out of the linked queues? [`front`] walks the key's queues and copies the first
//! entries of each, for a caller that shows a key whose queues may be long, and [`state`] copies all of them, for a caller
//! that inspects a key. `specs/Row.antt` has the record that the copy must equal.
ghost use Rattle.std.specs.Prelude.{◌≡◌, ◌++◌, ◌∷◌, [], true, map, take, IfOk, OnOk};
ghost use Rattle.std.specs.List.{AllByRecursion};
ghost use Rattle.lt_links.specs.Maps.{has_record};
ghost use Rattle.lt_row.specs.Front.{front_of};
ghost use Rattle.lt_row.specs.Row.{line, record_of, request_of, writer_of, IsNamed, HasQueues};

use crate::row::{Row, lengths, queue};
use crate::settle::reserved;
use lt_ids::Ticket;
use lt_links::{Links, Queue, QueueKind, Stand};
use lt_rules::{KeyState, QueueLengths, QueuedRequest, QueuedWriter};
use std::alloc::{AllocError, Global};

fn request_of(stand: &Stand) -> QueuedRequest
    requires { IsNamed stand.now }
    ensures { result ≡ request_of stand.now }
{
    QueuedRequest {
        ticket: Ticket::new(stand.number, stand.wait).unwrap(),
        txn: stand.txn,
        ts: stand.ts,
        pass: stand.pass,
    }
}

/// Appends a copy of the queue entry, as a request.
fn put_request(stand: &Stand, all: &mut Vec<QueuedRequest>) -> Result<(), AllocError>
    requires { IsNamed stand.now }
    ensures { OnOk result (all.new.items ≡ all.old.items ++ request_of stand.now ∷ []) }
{
    // The parts name their types, which is necessary when a whole request is passed on.
    let QueuedRequest {
        ticket,
        txn,
        ts,
        pass,
    } = request_of(stand);
    all.push(QueuedRequest {
        ticket,
        txn,
        ts,
        pass,
    })?;
    Ok(())
}

/// The first requests of a queue, in order.
fn first_requests(
    links: &Links,
    alloc: Global,
    queue: &Queue,
    most: usize,
) -> Result<Vec<QueuedRequest>, AllocError>
    requires there { has_record links.now queue.now.id ≡ true }
    requires named { AllByRecursion IsNamed (line links.now queue.now) }
    ensures { IfOk result (λ all. all.items ≡ take most (map request_of (line links.now queue.now))) }
{
    let mut all = Vec::new(alloc);
    let mut at = links.first(*queue);
    while let Some(node) = at {
        if all.len() == most {
            return Ok(all);
        }
        let stand = links.stand(node);
        put_request(&stand, &mut all)?;
        at = links.next(node);
    }
    Ok(all)
}

/// Appends a copy of the queue entry, as a writer.
fn put_writer(stand: &Stand, all: &mut Vec<QueuedWriter>) -> Result<(), AllocError>
    requires { IsNamed stand.now }
    ensures { OnOk result (all.new.items ≡ all.old.items ++ writer_of stand.now ∷ []) }
{
    // The parts name their types, which is necessary when a whole request is passed on.
    let QueuedRequest {
        ticket,
        txn,
        ts,
        pass,
    } = request_of(stand);
    all.push(QueuedWriter {
        request: QueuedRequest {
            ticket,
            txn,
            ts,
            pass,
        },
        active: stand.active,
    })?;
    Ok(())
}

/// The first writers of a queue, in order.
fn first_writers(
    links: &Links,
    alloc: Global,
    queue: &Queue,
    most: usize,
) -> Result<Vec<QueuedWriter>, AllocError>
    requires there { has_record links.now queue.now.id ≡ true }
    requires named { AllByRecursion IsNamed (line links.now queue.now) }
    ensures { IfOk result (λ all. all.items ≡ take most (map writer_of (line links.now queue.now))) }
{
    let mut all = Vec::new(alloc);
    let mut at = links.first(*queue);
    while let Some(node) = at {
        if all.len() == most {
            return Ok(all);
        }
        let stand = links.stand(node);
        put_writer(&stand, &mut all)?;
        at = links.next(node);
    }
    Ok(all)
}

/// The request that holds the reservation.
fn reservation(links: &Links, row: &Row) -> Option<QueuedRequest>
    requires { HasQueues links.now row.now.id }
    ensures { result ≡ (record_of links.now row.now).reservation }
{
    match reserved(links, row) {
        None => None,
        Some(stand) => Some(request_of(&stand)),
    }
}

/// A copy of the row, and of at most so many entries of each of its queues, from the front. The only error is that
/// memory ran out.
pub(crate) fn front(
    links: &Links,
    alloc: Global,
    row: &Row,
    most: usize,
) -> Result<KeyState, AllocError>
    requires { HasQueues links.now row.now.id }
    ensures { IfOk result (λ state. state ≡ front_of most (record_of links.now row.now)) }
{
    Ok(KeyState {
        holder: row.holder,
        reservation: reservation(links, row),
        writers: first_writers(links, alloc, &queue(row, QueueKind::Writers), most)?,
        readers: first_requests(links, alloc, &queue(row, QueueKind::Readers), most)?,
        distinguished: row.distinguished,
    })
}

/// A copy of the row and of its queues. The only error is that memory ran out.
pub fn state(links: &Links, alloc: Global, row: &Row) -> Result<KeyState, AllocError>
    requires { HasQueues links.now row.now.id }
    ensures { IfOk result (λ state. state ≡ record_of links.now row.now) }
{
    let QueueLengths { writers, readers } = lengths(links, row);
    front(links, alloc, row, writers.max(readers))
}
