//! What does a visit do to a row and its queues? The functions follow the definitions of the same names in
//! `lt_rules/specs/Visit.antt`, case by case. `docs/RULES.md` has these cases as a table; the other calls are in
//! `row.rt`.
ghost use Rattle.std.specs.Prelude.{ℕ, ◌≡◌, ◌≢◌, ◌<◌, ◌≤◌, ◌++◌, [], true, map, slice_get, vec_capacity, None, Some, IfSome, IfOk, OnOk, OnErr, IsOk};
ghost use Rattle.std.specs.List.{AllByRecursion};
ghost use Rattle.lt_links.specs.declared.ids.QueueKind.TheVariants.{Reservation};
ghost use Rattle.lt_ids.specs.declared.request.Access.TheVariants.{Read, Write};
ghost use Rattle.lt_rules.specs.Rules.{stop_reading};
ghost use Rattle.lt_rules.specs.Memory.{how_many};
ghost use Rattle.lt_rules.specs.Lawful.{Rises};
ghost use Rattle.lt_rules.specs.Visit.{pass, is_queued, is_too_long, join_writers, wait_to_read, displace, visit_case};
ghost use Rattle.lt_links.specs.Maps.{has_record, IsSound};
ghost use Rattle.lt_row.specs.Row.{line, queue_at, record_of, request_of, writer_of, HasQueues, IsNamed};
ghost use Rattle.lt_row.specs.Found.{Finds, PutsWriter};
ghost use Rattle.lt_row.specs.RowStepped.{IsRow, IsRewritten, UpdatesRow, RowUsesNoMemory, VisitsRow, RowVisitUsesNoMemory, MakesRoom, taken_over, visit_by};

use crate::find::{Found, find_front};
use crate::queue_edit::{insert_first, move_to_front, renew_stand, replace_stand, take_out};
use crate::queue_walk::{has_at_least, position_of};
use crate::row::{Row, queue};
use crate::settle::{reserved, settle};
use crate::txn::is_of;
use lt_ids::{Access, Through, Ticket, Timestamp, TxnId};
use lt_links::{Links, Queue, QueueKind, Stand};
use lt_rules::Reply;
use std::alloc::AllocError;
use std::cmp::Ordering;

/// The queue entry with which a request visits a key.
pub(crate) fn stand_of(pass: u32, ticket: Ticket, txn: Option<TxnId>, ts: Timestamp) -> Stand
    ensures request { request_of result ≡ record { ticket = ticket; txn = txn; ts = ts; pass = pass } }
    ensures active { result.active ≡ true }
    ensures named { IsNamed result }
{
    Stand {
        number: ticket.number(),
        txn,
        ts,
        pass,
        wait: ticket.wait(),
        active: true,
    }
}

/// How many nodes the three queues of a row have. `None` if that is more than a `usize` can count.
fn count(links: &Links, row: &Row) -> Option<usize>
    requires { HasQueues links.now row.now.id }
    ensures { IfSome result (λ n. how_many (record_of links.now row.now) ≤ n) }
{
    let writers = links.len(queue(row, QueueKind::Writers));
    let readers = links.len(queue(row, QueueKind::Readers));
    let reserved = links.len(queue(row, QueueKind::Reservation));
    writers.checked_add(readers)?.checked_add(reserved)
}

/// Gives `lets` room for a let of each request at the key, and for one more.
fn make_room(links: &Links, row: &Row, lets: &mut Vec<Through>) -> Result<(), AllocError>
    requires linked { HasQueues links.now row.now.id }
    requires lets { lets.old.items ≡ [] }
    ensures lets { lets.new.items ≡ [] }
    ensures room { OnOk result (how_many (record_of links.now row.now) < vec_capacity lets.new) }
    ensures kept { vec_capacity lets.old ≤ vec_capacity lets.new }
{
    let Some(requests) = count(links, row) else {
        return Err(AllocError);
    };
    let Some(most) = requests.checked_add(1) else {
        return Err(AllocError);
    };
    lets.reserve(most)
}

/// Inserts a new request at its position among the writers.
fn put_writer(links: &mut Links, to: &Queue, stand: &Stand) -> Result<(), AllocError>
    requires there { has_record links.old to.now.id ≡ true }
    requires sound { IsSound links.old }
    requires rises { Rises (map writer_of (line links.old to.now)) }
    requires missing { AllByRecursion (λ s. s.number ≢ stand.now.number) (line links.old to.now) }
    requires active { stand.now.active ≡ true }
    requires named { IsNamed stand.now }
    ensures ok { OnOk result (PutsWriter links.old links.new to.now stand.now) }
    ensures err { OnErr result (links.new ≡ links.old) }
{
    match position_of(links, to, stand.number) {
        None => insert_first(links, to, stand),
        Some(node) => {
            links.insert_after(node, *stand)?;
            Ok(())
        }
    }
}

/// Removes the request from the readers, if it was waiting to read.
fn stop_reading(links: &mut Links, row: &Row, found: &Option<Found>, stand: &Stand)
    requires row { IsRow links.old row.now }
    requires found { Finds links.old row.now.id stand.now.number found.now }
    ensures { IsRewritten links.old links.new row.now (stop_reading (record_of links.old row.now) stand.now.number) }
{
    let Some(found) = found else {
        return;
    };
    if found.kind != QueueKind::Readers {
        return;
    }
    take_out(links, found.node);
}

/// The request passes.
fn pass(links: &mut Links, row: &Row, found: &Option<Found>, stand: &Stand) -> Reply
    requires row { IsRow links.old row.now }
    requires found { Finds links.old row.now.id stand.now.number found.now }
    ensures { VisitsRow links.old links.new row.now stand.now (λ r q. pass r) result }
{
    stop_reading(links, row, found, stand);
    Reply::Passed
}

/// Whether the request is among the writers.
fn is_queued(links: &Links, row: &Row, found: &Option<Found>, number: u64) -> bool
    requires row { IsRow links.now row.now }
    requires found { Finds links.now row.now.id number found.now }
    ensures { result ≡ is_queued (record_of links.now row.now).writers number }
{
    let Some(found) = found else {
        return false;
    };
    match found.kind {
        QueueKind::Writers => true,
        QueueKind::Readers => false,
        QueueKind::Reservation => false,
    }
}

/// Whether the writers are too many for the request: it has a bound, they are at least that many, and it is not
/// among them.
fn is_too_long(links: &Links, row: &Row, found: &Option<Found>, stand: &Stand, longest: u32) -> bool
    requires row { IsRow links.now row.now }
    requires found { Finds links.now row.now.id stand.now.number found.now }
    ensures { result ≡ is_too_long (record_of links.now row.now).writers (request_of stand.now) longest }
{
    0 < longest
        && !is_queued(links, row, found, stand.number)
        && has_at_least(links, &queue(row, QueueKind::Writers), longest)
}

/// The request waits at its position among the writers, unless they are too many for it. If it is there already, this
/// visit replaces its entry.
fn join_writers(
    links: &mut Links,
    row: &Row,
    found: &Option<Found>,
    stand: &Stand,
    longest: u32,
    lets: &mut Vec<Through>,
) -> Result<Reply, AllocError>
    requires row { IsRow links.old row.now }
    requires found { Finds links.old row.now.id stand.now.number found.now }
    requires active { stand.now.active ≡ true }
    requires named { IsNamed stand.now }
    requires lets { lets.old.items ≡ [] }
    ensures ok { IfOk result (VisitsRow links.old links.new row.now stand.now (λ r q. join_writers r q longest)) }
    ensures err { OnErr result (links.new ≡ links.old) }
    ensures no_memory { RowVisitUsesNoMemory links.old row.now stand.now
        (λ r q. join_writers r q longest) → IsOk result }
    ensures lets { lets.new.items ≡ [] }
    ensures kept { vec_capacity lets.old ≤ vec_capacity lets.new }
    ensures room { OnOk result (MakesRoom links.old links.new row.now (vec_capacity lets.new)) }
{
    if is_too_long(links, row, found, stand, longest) {
        stop_reading(links, row, found, stand);
        return Ok(Reply::TooLong);
    }
    make_room(links, row, lets)?;
    let writers = queue(row, QueueKind::Writers);
    let Some(found) = found else {
        put_writer(links, &writers, stand)?;
        return Ok(Reply::MustWait);
    };
    if found.kind == QueueKind::Writers {
        renew_stand(links, found.node, stand)?;
        return Ok(Reply::MustWait);
    }
    put_writer(links, &writers, stand)?;
    // Each case answers for itself, as in the definition, so that its proof speaks of this case alone.
    if found.kind == QueueKind::Readers {
        take_out(links, found.node);
        return Ok(Reply::MustWait);
    }
    Ok(Reply::MustWait)
}

/// The request waits at the front of the readers. If it is among the writers already, it waits there.
fn wait_to_read(
    links: &mut Links,
    row: &Row,
    found: &Option<Found>,
    stand: &Stand,
) -> Result<Reply, AllocError>
    requires row { IsRow links.old row.now }
    requires found { Finds links.old row.now.id stand.now.number found.now }
    requires active { stand.now.active ≡ true }
    requires named { IsNamed stand.now }
    ensures ok { IfOk result (VisitsRow links.old links.new row.now stand.now (λ r q. wait_to_read r q)) }
    ensures err { OnErr result (links.new ≡ links.old) }
{
    let readers = queue(row, QueueKind::Readers);
    let Some(found) = found else {
        insert_first(links, &readers, stand)?;
        return Ok(Reply::MustWait);
    };
    // A key that is locked has no reservation, so this case does not arise. It stands because the definition has it, and the
    // contract does not ask whether the key is locked.
    if found.kind == QueueKind::Reservation {
        insert_first(links, &readers, stand)?;
        return Ok(Reply::MustWait);
    }
    renew_stand(links, found.node, stand)?;
    // Each case answers for itself, as in the definition, so that its proof speaks of this case alone.
    if found.kind == QueueKind::Readers {
        move_to_front(links, found.node, &readers);
        return Ok(Reply::MustWait);
    }
    Ok(Reply::MustWait)
}

/// The request takes over the reservation. The request that held it becomes the first writer, inactive.
fn take_reservation(
    links: &mut Links,
    row: &Row,
    reservation: &Stand,
    stand: &Stand,
) -> Result<Reply, AllocError>
    requires row { IsRow links.old row.now }
    requires unheld { row.now.holder ≡ None }
    requires reserved { slice_get (line links.old (queue_at row.now.id Reservation)) 0 ≡ Some reservation.now }
    requires named { IsNamed stand.now }
    ensures ok { IfOk result (VisitsRow links.old links.new row.now stand.now
        (taken_over (request_of reservation.now))) }
    ensures err { OnErr result (links.new ≡ links.old) }
{
    let reserved = queue(row, QueueKind::Reservation);
    insert_first(links, &reserved, stand)?;
    if let Some(node) = links.last(reserved) {
        let mut back = links.stand(node);
        back.active = false;
        replace_stand(links, node, &back);
        move_to_front(links, node, &queue(row, QueueKind::Writers));
    }
    Ok(Reply::Passed)
}

/// A request with a smaller number takes over the reservation. A request without a transaction passes instead, and
/// the reservation stays.
fn displace(
    links: &mut Links,
    row: &Row,
    reservation: &Stand,
    found: &Option<Found>,
    stand: &Stand,
    lets: &mut Vec<Through>,
) -> Result<Reply, AllocError>
    requires row { IsRow links.old row.now }
    requires unheld { row.now.holder ≡ None }
    requires reserved { slice_get (line links.old (queue_at row.now.id Reservation)) 0 ≡ Some reservation.now }
    requires less { stand.now.number < reservation.now.number }
    requires found { Finds links.old row.now.id stand.now.number found.now }
    requires named { IsNamed stand.now }
    requires lets { lets.old.items ≡ [] }
    ensures ok { IfOk result (VisitsRow links.old links.new row.now stand.now
        (λ r q. displace q.txn r (request_of reservation.now) q)) }
    ensures err { OnErr result (links.new ≡ links.old) }
    ensures no_memory { RowVisitUsesNoMemory links.old row.now stand.now
        (λ r q. displace q.txn r (request_of reservation.now) q) → IsOk result }
    ensures lets { lets.new.items ≡ [] }
    ensures kept { vec_capacity lets.old ≤ vec_capacity lets.new }
    ensures room { OnOk result (MakesRoom links.old links.new row.now (vec_capacity lets.new)) }
{
    match stand.txn {
        None => Ok(pass(links, row, found, stand)),
        Some(_) => {
            make_room(links, row, lets)?;
            take_reservation(links, row, reservation, stand)
        }
    }
}

/// A visit to read. Only a lock that another transaction holds, at the request's timestamp or below, makes the
/// request wait.
fn visit_to_read(
    links: &mut Links,
    row: &Row,
    found: &Option<Found>,
    stand: &Stand,
    lets: &mut Vec<Through>,
) -> Result<Reply, AllocError>
    requires row { IsRow links.old row.now }
    requires found { Finds links.old row.now.id stand.now.number found.now }
    requires active { stand.now.active ≡ true }
    requires named { IsNamed stand.now }
    requires lets { lets.old.items ≡ [] }
    ensures ok { (longest : ℕ) → IfOk result (VisitsRow links.old links.new row.now stand.now
        (λ r q. visit_case r q longest Read)) }
    ensures err { OnErr result (links.new ≡ links.old) }
    ensures no_memory { (longest : ℕ) → RowVisitUsesNoMemory links.old row.now stand.now
        (λ r q. visit_case r q longest Read) → IsOk result }
    ensures lets { lets.new.items ≡ [] }
    ensures kept { vec_capacity lets.old ≤ vec_capacity lets.new }
    ensures room { OnOk result (MakesRoom links.old links.new row.now (vec_capacity lets.new)) }
{
    let Some(holder) = &row.holder else {
        return Ok(pass(links, row, found, stand));
    };
    if is_of(stand, holder.txn) {
        return Ok(pass(links, row, found, stand));
    }
    if stand.ts < holder.ts {
        return Ok(pass(links, row, found, stand));
    }
    make_room(links, row, lets)?;
    wait_to_read(links, row, found, stand)
}

/// A visit to write.
fn visit_to_write(
    links: &mut Links,
    row: &Row,
    found: &Option<Found>,
    stand: &Stand,
    longest: u32,
    lets: &mut Vec<Through>,
) -> Result<Reply, AllocError>
    requires row { IsRow links.old row.now }
    requires found { Finds links.old row.now.id stand.now.number found.now }
    requires active { stand.now.active ≡ true }
    requires named { IsNamed stand.now }
    requires lets { lets.old.items ≡ [] }
    ensures ok { IfOk result (VisitsRow links.old links.new row.now stand.now
        (λ r q. visit_case r q longest Write)) }
    ensures err { OnErr result (links.new ≡ links.old) }
    ensures no_memory { RowVisitUsesNoMemory links.old row.now stand.now
        (λ r q. visit_case r q longest Write) → IsOk result }
    ensures lets { lets.new.items ≡ [] }
    ensures kept { vec_capacity lets.old ≤ vec_capacity lets.new }
    ensures room { OnOk result (MakesRoom links.old links.new row.now (vec_capacity lets.new)) }
{
    if let Some(holder) = &row.holder {
        if is_of(stand, holder.txn) {
            return Ok(pass(links, row, found, stand));
        }
        return join_writers(links, row, found, stand, longest, lets);
    }
    let Some(reservation) = reserved(links, row) else {
        return Ok(pass(links, row, found, stand));
    };
    match stand.number.cmp(&reservation.number) {
        Ordering::Less => displace(links, row, &reservation, found, stand, lets),
        Ordering::Equal => Ok(pass(links, row, found, stand)),
        Ordering::Greater => join_writers(links, row, found, stand, longest, lets),
    }
}

/// A request visits the key, with the queue entry that it gets if it has to wait. It joins the writers only if they
/// are fewer than `longest`; 0 means no bound. If memory runs out, nothing has changed.
///
/// If one more request is at the key afterwards, `lets` has room for a let of each.
pub(crate) fn visit(
    links: &mut Links,
    row: &mut Row,
    stand: &Stand,
    longest: u32,
    access: Access,
    lets: &mut Vec<Through>,
) -> Result<Reply, AllocError>
    requires row { IsRow links.old row.old }
    requires active { stand.now.active ≡ true }
    requires named { IsNamed stand.now }
    requires lets { lets.old.items ≡ [] }
    ensures ok { IfOk result (UpdatesRow links.old links.new row.old row.new (visit_by stand.now longest access) []) }
    ensures err { OnErr result ((links.new ≡ links.old) × (row.new ≡ row.old)) }
    ensures no_memory { RowUsesNoMemory links.old row.old (visit_by stand.now longest access) → IsOk result }
    ensures lets { lets.new.items ≡ [] }
    ensures kept { vec_capacity lets.old ≤ vec_capacity lets.new }
    ensures room { how_many (record_of links.old row.old) ≤ vec_capacity lets.old →
        how_many (record_of links.new row.new) ≤ vec_capacity lets.new }
{
    let found = find_front(links, row.id, stand.number);
    let reply = match access {
        Access::Read => visit_to_read(links, row, &found, stand, lets)?,
        Access::Write => visit_to_write(links, row, &found, stand, longest, lets)?,
    };
    settle(links, row);
    Ok(reply)
}
