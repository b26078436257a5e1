//! What is kept for one key beside its queues, and how do acquire, update, finish, leave and look work there? A
//! [`Row`] has the holder, the distinguished waiter and the id of the key's queues. The contracts cite the
//! definitions of the same names in `lt_rules/specs/Rules.antt` and `Step.antt`. Visits are in `visit.rt`.
//!
//! The only error of a call is that memory ran out. A call makes all its allocations, lets included, before it
//! changes the row or the links. So after an error, nothing has changed.
ghost use Rattle.std.specs.Prelude.{◌≡◌, ◌<◌, ◌≤◌, [], length, vec_capacity, IfOk, OnOk, OnErr, IsOk, None, Some};
ghost use Rattle.lt_rules.specs.declared.call.Reply.TheVariants.{Freed};
ghost use Rattle.lt_rules.specs.Rules.{is_empty, free, free_with, raise, raise_to, take_lock, acquire, update, finish, leave};
ghost use Rattle.lt_rules.specs.Step.{look, look_waiter, reserved_txn};
ghost use Rattle.lt_rules.specs.Lawful.{IsLawful};
ghost use Rattle.lt_links.specs.declared.ids.QueueKind.TheVariants.{Writers};
ghost use Rattle.lt_row.specs.declared.queue_walk.Selection.TheVariants.{Of};
ghost use Rattle.lt_row.specs.Found.{selected_lets, without_selected, WritesQueue};
ghost use Rattle.lt_row.specs.Row.{line, queue_at, record_of, writer_of, HasQueues};
ghost use Rattle.lt_row.specs.RowStepped.{IsRow, IsRewritten, UpdatesRow, RowUsesNoMemory, with_first_reserved, with_next_reserved, with_set_back, has_nobody};

use crate::find::find;
use crate::queue_edit::{move_to_front, replace_stand, take_out};
use crate::queue_walk::{
    Selection, collect_front_lets, collect_selected, drop_leading, drop_where,
};
use crate::same_txn::has_none;
use crate::settle::{reserved, settle};
use crate::txn::is_of;
use lt_ids::{Through, Timestamp, TxnId};
use lt_links::{Links, Queue, QueueKind, RecordId, Stand};
use lt_rules::look::{look_reader, look_writer};
use lt_rules::{Holder, QueueLengths, Reply};
use std::alloc::AllocError;

/// What is kept for one key. The key's queued requests are in the links.
#[derive(Clone, Copy, Debug, PartialEq, Eq)]
pub struct Row {
    pub id: RecordId,
    pub holder: Option<Holder>,
    pub distinguished: Option<u64>,
}

/// A queue of a row.
pub(crate) fn queue(row: &Row, kind: QueueKind) -> Queue
    ensures { result ≡ queue_at row.now.id kind }
{
    Queue { id: row.id, kind }
}

/// Collects the lets of a lock that comes free: those of the readers, and of the waiting writers that leave.
fn collect_lets(links: &Links, row: &Row, lets: &mut Vec<Through>) -> Result<(), AllocError>
    requires linked { HasQueues links.now row.now.id }
    requires lets { lets.old.items ≡ [] }
    ensures ok { OnOk result (lets.new.items ≡ (free (record_of links.now row.now) Freed).lets) }
    ensures err { OnErr result (lets.new.items ≡ []) }
    ensures full { OnErr result (vec_capacity lets.old < length (free (record_of links.now row.now) Freed).lets) }
    ensures kept { vec_capacity lets.old ≤ vec_capacity lets.new }
{
    collect_selected(
        links,
        &queue(row, QueueKind::Readers),
        &Selection::All,
        lets,
    )?;
    collect_front_lets(links, &queue(row, QueueKind::Writers), lets)
}

/// Gives the reservation to the first writer, if there is one.
fn reserve_first(links: &mut Links, row: &Row)
    requires linked { HasQueues links.old row.now.id }
    requires none { (record_of links.old row.now).reservation ≡ None }
    ensures { IsRewritten links.old links.new row.now (with_first_reserved (record_of links.old row.now)) }
{
    if let Some(node) = links.first(queue(row, QueueKind::Writers)) {
        move_to_front(links, node, &queue(row, QueueKind::Reservation));
    }
}

/// Removes the readers, and the writers without a transaction before the first with one. Gives the reservation to
/// that one, if there is one.
fn release_to_next(links: &mut Links, row: &Row)
    requires { HasQueues links.old row.now.id }
    ensures { IsRewritten links.old links.new row.now (with_next_reserved (record_of links.old row.now)) }
{
    drop_where(links, &queue(row, QueueKind::Readers), &Selection::All);
    drop_where(links, &queue(row, QueueKind::Reservation), &Selection::All);
    drop_leading(links, &queue(row, QueueKind::Writers));
    reserve_first(links, row);
}

/// Whether nobody is queued at the key or has its reservation.
pub(crate) fn has_nobody(links: &Links, row: &Row) -> bool
    requires { HasQueues links.now row.now.id }
    ensures { result ≡ has_nobody (record_of links.now row.now) }
{
    links.first(queue(row, QueueKind::Reservation)).is_none()
        && links.first(queue(row, QueueKind::Writers)).is_none()
        && links.first(queue(row, QueueKind::Readers)).is_none()
}

/// [`free`], if somebody is queued at the key or has its reservation.
fn free_to_next(
    links: &mut Links,
    row: &mut Row,
    holder: Option<Holder>,
    lets: &mut Vec<Through>,
) -> Result<(), AllocError>
    requires linked { HasQueues links.old row.old.id }
    requires lawful { IsLawful (free_with (record_of links.old row.old) holder).after }
    requires lets { lets.old.items ≡ [] }
    ensures ok { OnOk result (UpdatesRow links.old links.new row.old row.new
        (λ r. free_with r holder) lets.new.items Freed) }
    ensures err { OnErr result ((links.new ≡ links.old) × (row.new ≡ row.old) × (lets.new.items ≡ [])) }
    ensures full { OnErr result (vec_capacity lets.old < length (free_with (record_of links.old row.old) holder).lets) }
    ensures kept { vec_capacity lets.old ≤ vec_capacity lets.new }
{
    collect_lets(links, row, lets)?;
    release_to_next(links, row);
    row.holder = holder;
    settle(links, row);
    Ok(())
}

/// Sets the holder, and releases the lock to the requests that are next. The lock has just lost its previous
/// holder or its reservation.
fn free(
    links: &mut Links,
    row: &mut Row,
    holder: Option<Holder>,
    lets: &mut Vec<Through>,
) -> Result<(), AllocError>
    requires linked { HasQueues links.old row.old.id }
    requires lawful { IsLawful (free_with (record_of links.old row.old) holder).after }
    requires lets { lets.old.items ≡ [] }
    ensures ok { OnOk result (UpdatesRow links.old links.new row.old row.new
        (λ r. free_with r holder) lets.new.items Freed) }
    ensures err { OnErr result ((links.new ≡ links.old) × (row.new ≡ row.old) × (lets.new.items ≡ [])) }
    ensures full { OnErr result (vec_capacity lets.old < length (free_with (record_of links.old row.old) holder).lets) }
    ensures kept { vec_capacity lets.old ≤ vec_capacity lets.new }
{
    if !has_nobody(links, row) {
        return free_to_next(links, row, holder, lets);
    }
    row.holder = holder;
    row.distinguished = None;
    Ok(())
}

fn raise_to(
    links: &mut Links,
    row: &mut Row,
    holder: &Holder,
    ts: Timestamp,
    lets: &mut Vec<Through>,
) -> Result<Reply, AllocError>
    requires linked { HasQueues links.old row.old.id }
    requires lawful { IsLawful (raise_to (record_of links.old row.old) holder.now ts).after }
    requires lets { lets.old.items ≡ [] }
    ensures ok { IfOk result (UpdatesRow links.old links.new row.old row.new
        (λ r. raise_to r holder.now ts) lets.new.items) }
    ensures err { OnErr result ((links.new ≡ links.old) × (row.new ≡ row.old) × (lets.new.items ≡ [])) }
    ensures full { OnErr result (vec_capacity lets.old < length (raise_to (record_of links.old row.old) holder.now ts).lets) }
    ensures kept { vec_capacity lets.old ≤ vec_capacity lets.new }
{
    let readers = queue(row, QueueKind::Readers);
    collect_selected(links, &readers, &Selection::Below(ts), lets)?;
    drop_where(links, &readers, &Selection::Below(ts));
    row.holder = Some(Holder {
        txn: holder.txn,
        ts,
    });
    settle(links, row);
    Ok(Reply::Raised)
}

/// Raises the holder's timestamp, unless it is already that high.
fn raise(
    links: &mut Links,
    row: &mut Row,
    holder: &Holder,
    ts: Timestamp,
    lets: &mut Vec<Through>,
) -> Result<Reply, AllocError>
    requires linked { HasQueues links.old row.old.id }
    requires lawful { IsLawful (raise (record_of links.old row.old) holder.now ts).after }
    requires lets { lets.old.items ≡ [] }
    ensures ok { IfOk result (UpdatesRow links.old links.new row.old row.new
        (λ r. raise r holder.now ts) lets.new.items) }
    ensures err { OnErr result ((links.new ≡ links.old) × (row.new ≡ row.old) × (lets.new.items ≡ [])) }
    ensures full { OnErr result (vec_capacity lets.old < length (raise (record_of links.old row.old) holder.now ts).lets) }
    ensures kept { vec_capacity lets.old ≤ vec_capacity lets.new }
    ensures no_memory { RowUsesNoMemory links.old row.old (λ r. raise r holder.now ts) → IsOk result }
{
    if holder.ts < ts {
        raise_to(links, row, holder, ts, lets)
    } else {
        Ok(Reply::Kept)
    }
}

/// Drops a reservation of this transaction. Moves a reservation of another transaction to the front of the
/// writers, inactive.
fn set_back(links: &mut Links, row: &Row, txn: TxnId)
    requires { HasQueues links.old row.now.id }
    ensures { IsRewritten links.old links.new row.now (with_set_back txn (record_of links.old row.now)) }
{
    let Some(node) = links.first(queue(row, QueueKind::Reservation)) else {
        return;
    };
    let mut stand = links.stand(node);
    if is_of(&stand, txn) {
        take_out(links, node);
        return;
    }
    stand.active = false;
    replace_stand(links, node, &stand);
    move_to_front(links, node, &queue(row, QueueKind::Writers));
}

/// Removes the writers of this transaction, and collects the lets of those that are waiting. The queue is walked only
/// if there may be one.
fn release_own(
    links: &mut Links,
    row: &Row,
    txn: TxnId,
    lets: &mut Vec<Through>,
) -> Result<(), AllocError>
    requires row { IsRow links.old row.now }
    requires lets { lets.old.items ≡ [] }
    ensures lets { OnOk result (lets.new.items ≡ selected_lets (Of txn) (line links.old (queue_at row.now.id Writers))) }
    ensures writes { OnOk result (WritesQueue links.old links.new (queue_at row.now.id Writers)
        (without_selected (Of txn) (line links.old (queue_at row.now.id Writers)))) }
    ensures err { OnErr result ((links.new ≡ links.old) × (lets.new.items ≡ [])) }
    ensures full { OnErr result (vec_capacity lets.old < length (selected_lets (Of txn) (line links.old (queue_at row.now.id Writers)))) }
    ensures kept { vec_capacity lets.old ≤ vec_capacity lets.new }
{
    if has_none(links, row, txn) {
        return Ok(());
    }
    let writers = queue(row, QueueKind::Writers);
    collect_selected(links, &writers, &Selection::Of(txn), lets)?;
    drop_where(links, &writers, &Selection::Of(txn));
    Ok(())
}

/// [`take_lock`], if somebody is queued at the key or has its reservation.
fn take_among_others(
    links: &mut Links,
    row: &mut Row,
    holder: &Holder,
    lets: &mut Vec<Through>,
) -> Result<Reply, AllocError>
    requires row { IsRow links.old row.old }
    requires lawful { IsLawful (take_lock (record_of links.old row.old) holder.now).after }
    requires lets { lets.old.items ≡ [] }
    ensures ok { IfOk result (UpdatesRow links.old links.new row.old row.new
        (λ r. take_lock r holder.now) lets.new.items) }
    ensures err { OnErr result ((links.new ≡ links.old) × (row.new ≡ row.old) × (lets.new.items ≡ [])) }
    ensures full { OnErr result (vec_capacity lets.old < length (take_lock (record_of links.old row.old) holder.now).lets) }
    ensures kept { vec_capacity lets.old ≤ vec_capacity lets.new }
{
    release_own(links, row, holder.txn, lets)?;
    set_back(links, row, holder.txn);
    row.holder = Some(*holder);
    settle(links, row);
    Ok(Reply::Taken)
}

/// Gives a lock that has no holder this one.
fn take_lock(
    links: &mut Links,
    row: &mut Row,
    holder: &Holder,
    lets: &mut Vec<Through>,
) -> Result<Reply, AllocError>
    requires row { IsRow links.old row.old }
    requires lawful { IsLawful (take_lock (record_of links.old row.old) holder.now).after }
    requires lets { lets.old.items ≡ [] }
    ensures ok { IfOk result (UpdatesRow links.old links.new row.old row.new
        (λ r. take_lock r holder.now) lets.new.items) }
    ensures err { OnErr result ((links.new ≡ links.old) × (row.new ≡ row.old) × (lets.new.items ≡ [])) }
    ensures full { OnErr result (vec_capacity lets.old < length (take_lock (record_of links.old row.old) holder.now).lets) }
    ensures kept { vec_capacity lets.old ≤ vec_capacity lets.new }
{
    if !has_nobody(links, row) {
        return take_among_others(links, row, holder, lets);
    }
    row.holder = Some(*holder);
    row.distinguished = None;
    Ok(Reply::Taken)
}

/// A transaction takes the lock, or raises the timestamp of the lock that it holds.
pub fn acquire(
    links: &mut Links,
    row: &mut Row,
    txn: TxnId,
    ts: Timestamp,
    lets: &mut Vec<Through>,
) -> Result<Reply, AllocError>
    requires row { IsRow links.old row.old }
    requires lets { lets.old.items ≡ [] }
    ensures ok { IfOk result (UpdatesRow links.old links.new row.old row.new (λ r. acquire r txn ts) lets.new.items) }
    ensures err { OnErr result ((links.new ≡ links.old) × (row.new ≡ row.old) × (lets.new.items ≡ [])) }
    ensures full { OnErr result (vec_capacity lets.old < length (acquire (record_of links.old row.old) txn ts).lets) }
    ensures kept { vec_capacity lets.old ≤ vec_capacity lets.new }
    ensures no_memory { RowUsesNoMemory links.old row.old (λ r. acquire r txn ts) → IsOk result }
{
    let held_by = row.holder;
    match &held_by {
        None => take_lock(links, row, &Holder { txn, ts }, lets),
        Some(holder) if holder.txn == txn => raise(links, row, holder, ts, lets),
        Some(_) => Ok(Reply::Other),
    }
}

/// The holder raises its timestamp.
pub(crate) fn update(
    links: &mut Links,
    row: &mut Row,
    txn: TxnId,
    ts: Timestamp,
    lets: &mut Vec<Through>,
) -> Result<Reply, AllocError>
    requires row { IsRow links.old row.old }
    requires lets { lets.old.items ≡ [] }
    ensures ok { IfOk result (UpdatesRow links.old links.new row.old row.new (λ r. update r txn ts) lets.new.items) }
    ensures err { OnErr result ((links.new ≡ links.old) × (row.new ≡ row.old) × (lets.new.items ≡ [])) }
    ensures full { OnErr result (vec_capacity lets.old < length (update (record_of links.old row.old) txn ts).lets) }
    ensures kept { vec_capacity lets.old ≤ vec_capacity lets.new }
    ensures no_memory { RowUsesNoMemory links.old row.old (λ r. update r txn ts) → IsOk result }
{
    let held_by = row.holder;
    match &held_by {
        Some(holder) if holder.txn == txn => raise(links, row, holder, ts, lets),
        _ => Ok(Reply::Other),
    }
}

/// The holder releases the lock.
pub(crate) fn finish(
    links: &mut Links,
    row: &mut Row,
    txn: TxnId,
    lets: &mut Vec<Through>,
) -> Result<Reply, AllocError>
    requires row { IsRow links.old row.old }
    requires lets { lets.old.items ≡ [] }
    ensures ok { IfOk result (UpdatesRow links.old links.new row.old row.new (λ r. finish r txn) lets.new.items) }
    ensures err { OnErr result ((links.new ≡ links.old) × (row.new ≡ row.old) × (lets.new.items ≡ [])) }
    ensures full { OnErr result (vec_capacity lets.old < length (finish (record_of links.old row.old) txn).lets) }
    ensures kept { vec_capacity lets.old ≤ vec_capacity lets.new }
    ensures no_memory { RowUsesNoMemory links.old row.old (λ r. finish r txn) → IsOk result }
{
    let held_by = row.holder;
    match &held_by {
        Some(holder) if holder.txn == txn => {
            free(links, row, None, lets)?;
            Ok(Reply::Freed)
        }
        _ => Ok(Reply::Other),
    }
}

/// A request stops waiting, or gives up its reservation.
pub(crate) fn leave(
    links: &mut Links,
    row: &mut Row,
    number: u64,
    lets: &mut Vec<Through>,
) -> Result<Reply, AllocError>
    requires row { IsRow links.old row.old }
    requires lets { lets.old.items ≡ [] }
    ensures ok { IfOk result (UpdatesRow links.old links.new row.old row.new (λ r. leave r number) lets.new.items) }
    ensures err { OnErr result ((links.new ≡ links.old) × (row.new ≡ row.old) × (lets.new.items ≡ [])) }
    ensures full { OnErr result (vec_capacity lets.old < length (leave (record_of links.old row.old) number).lets) }
    ensures kept { vec_capacity lets.old ≤ vec_capacity lets.new }
    ensures no_memory { RowUsesNoMemory links.old row.old (λ r. leave r number) → IsOk result }
{
    let Some(found) = find(links, row.id, number) else {
        return Ok(Reply::Absent);
    };
    if found.kind == QueueKind::Reservation {
        let holder = row.holder;
        free(links, row, holder, lets)?;
        return Ok(Reply::Left);
    }
    take_out(links, found.node);
    settle(links, row);
    Ok(Reply::Left)
}

/// The transaction for which the lock is reserved, if no transaction holds it. The reservation of a lock with a
/// holder is not looked up.
fn reserved_txn(links: &Links, row: &Row) -> Option<TxnId>
    requires { HasQueues links.now row.now.id }
    ensures { result ≡ reserved_txn row.now.holder (record_of links.now row.now).reservation }
{
    match row.holder {
        Some(_) => None,
        None => reserved(links, row)?.txn,
    }
}

/// What a request among the writers finds at the key.
fn look_waiting(links: &Links, row: &Row, stand: &Stand) -> Reply
    requires { HasQueues links.now row.now.id }
    ensures { result ≡ look_waiter (record_of links.now row.now) stand.now.number (Some (writer_of stand.now)) }
{
    if stand.active {
        look_writer(
            row.distinguished,
            stand.number,
            stand.txn,
            row.holder,
            reserved_txn(links, row),
        )
    } else {
        Reply::Idle
    }
}

/// What the request with this number finds at the key.
pub fn look(links: &Links, row: &Row, number: u64) -> Reply
    requires { IsRow links.now row.now }
    ensures { result ≡ look (record_of links.now row.now) number }
{
    let Some(found) = find(links, row.id, number) else {
        return Reply::Nothing;
    };
    match found.kind {
        QueueKind::Reservation => Reply::Reserved,
        QueueKind::Readers => look_reader(
            row.distinguished,
            number,
            row.holder,
            reserved_txn(links, row),
        ),
        QueueKind::Writers => look_waiting(links, row, &links.stand(found.node)),
    }
}

/// How many requests are queued at the key.
pub fn lengths(links: &Links, row: &Row) -> QueueLengths
    requires { HasQueues links.now row.now.id }
    ensures writers { result.writers ≡ length (record_of links.now row.now).writers }
    ensures readers { result.readers ≡ length (record_of links.now row.now).readers }
{
    QueueLengths {
        writers: links.len(queue(row, QueueKind::Writers)),
        readers: links.len(queue(row, QueueKind::Readers)),
    }
}

/// Whether the key has no holder, no reservation and no queued requests.
pub fn is_empty(links: &Links, row: &Row) -> bool
    requires { HasQueues links.now row.now.id }
    ensures { result ≡ is_empty (record_of links.now row.now) }
{
    row.holder.is_none() && has_nobody(links, row) && row.distinguished.is_none()
}
