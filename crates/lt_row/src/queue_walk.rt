//! What must look at the entries of a queue one by one? These functions collect lets, drop entries that leave, and
//! search a queue in order. `row.rt` uses them when a lock comes free, is raised or is taken, `settle.rt` to elect
//! the distinguished waiter, and `visit.rt` to insert a writer.
ghost use Rattle.std.specs.Prelude.{◌≡◌, ◌∷◌, ◌++◌, ◌<◌, ◌≤◌, [], true, length, nat_le, OnOk, OnErr, vec_capacity};
ghost use Rattle.std.specs.List.{AllByRecursion};
ghost use Rattle.std.specs.Option.{option_map};
ghost use Rattle.lt_links.specs.Maps.{has_record, IsSound};
ghost use Rattle.lt_rules.specs.Rules.{through_of, is_eligible};
ghost use Rattle.lt_row.specs.Row.{line, request_of, writer_of, IsNamed};
ghost use Rattle.lt_row.specs.Found.{leaves, goes_on, waiting_lets, selected_lets, leading_lets, without_selected, first_eligible_number, from_txn, WritesQueue, IsPosition};

use crate::txn::{is_of, is_same_txn};
use lt_ids::{Through, Ticket, Timestamp, TxnId};
use lt_links::{Links, NodeId, Queue, Stand};
use std::alloc::AllocError;

/// The entries that leave a queue: all, the readers below a timestamp, or the writers of a transaction.
#[derive(Clone, Copy, Debug, PartialEq, Eq)]
pub(crate) enum Selection {
    All,
    Below(Timestamp),
    Of(TxnId),
}

fn leaves(who: &Selection, stand: &Stand) -> bool
    ensures { result ≡ leaves who.now stand.now }
{
    match who {
        Selection::All => true,
        Selection::Below(ts) => stand.ts < *ts,
        Selection::Of(txn) => is_of(stand, *txn),
    }
}

/// Whether the request is let through when it leaves. An inactive writer is not: it is not waiting.
fn goes_on(who: &Selection, stand: &Stand) -> bool
    ensures { result ≡ goes_on who.now stand.now }
{
    match who {
        Selection::Of(_) => stand.active && leaves(who, stand),
        _ => leaves(who, stand),
    }
}

/// The let that ends the wait of a queue entry.
fn through(stand: &Stand) -> Through
    requires { IsNamed stand.now }
    ensures { result ≡ through_of (request_of stand.now) }
{
    Through {
        pass: stand.pass,
        ticket: Ticket::new(stand.number, stand.wait).unwrap(),
    }
}

/// Appends to `lets` a let for each entry that leaves and is waiting. After an error, some of them may be there.
fn push_selected(
    links: &Links,
    queue: &Queue,
    who: &Selection,
    lets: &mut Vec<Through>,
) -> Result<(), AllocError>
    requires there { has_record links.now queue.now.id ≡ true }
    requires named { AllByRecursion IsNamed (line links.now queue.now) }
    ensures ok { OnOk result (lets.new.items ≡ lets.old.items ++ selected_lets who.now (line links.now queue.now)) }
    ensures full { OnErr result (vec_capacity lets.old < length (lets.old.items ++ selected_lets who.now (line links.now queue.now))) }
    ensures kept { vec_capacity lets.old ≤ vec_capacity lets.new }
{
    let mut at = links.first(*queue);
    while let Some(node) = at {
        let stand = links.stand(node);
        if goes_on(who, &stand) {
            lets.push(through(&stand))?;
        }
        at = links.next(node);
    }
    Ok(())
}

/// Appends to `lets` a let for each entry that leaves and is waiting. After an error, `lets` is empty.
pub(crate) fn collect_selected(
    links: &Links,
    queue: &Queue,
    who: &Selection,
    lets: &mut Vec<Through>,
) -> Result<(), AllocError>
    requires there { has_record links.now queue.now.id ≡ true }
    requires named { AllByRecursion IsNamed (line links.now queue.now) }
    ensures ok { OnOk result (lets.new.items ≡ lets.old.items ++ selected_lets who.now (line links.now queue.now)) }
    ensures err { OnErr result (lets.new.items ≡ []) }
    ensures full { OnErr result (vec_capacity lets.old < length (lets.old.items ++ selected_lets who.now (line links.now queue.now))) }
    ensures kept { vec_capacity lets.old ≤ vec_capacity lets.new }
{
    let done = push_selected(links, queue, who, lets);
    if done.is_err() {
        lets.clear();
    }
    done
}

/// Appends to `lets` the let of a queue entry, if it is waiting.
fn push_let(stand: &Stand, lets: &mut Vec<Through>) -> Result<(), AllocError>
    requires { IsNamed stand.now }
    ensures ok { OnOk result (lets.new.items ≡ lets.old.items ++ waiting_lets (stand.now ∷ [])) }
    ensures full { OnErr result (vec_capacity lets.old < length (lets.old.items ++ waiting_lets (stand.now ∷ []))) }
    ensures kept { vec_capacity lets.old ≤ vec_capacity lets.new }
{
    if stand.active {
        lets.push(through(stand))?;
    }
    Ok(())
}

/// Appends to `lets` a let for each waiting writer among those that leave when the lock comes free: the writers
/// without a transaction before the first with one, and that one. After an error, some of the lets may be there.
fn push_front_lets(links: &Links, queue: &Queue, lets: &mut Vec<Through>) -> Result<(), AllocError>
    requires there { has_record links.now queue.now.id ≡ true }
    requires named { AllByRecursion IsNamed (line links.now queue.now) }
    ensures ok { OnOk result (lets.new.items ≡ lets.old.items ++ leading_lets (line links.now queue.now)) }
    ensures full { OnErr result (vec_capacity lets.old < length (lets.old.items ++ leading_lets (line links.now queue.now))) }
    ensures kept { vec_capacity lets.old ≤ vec_capacity lets.new }
{
    let mut at = links.first(*queue);
    while let Some(node) = at {
        let stand = links.stand(node);
        push_let(&stand, lets)?;
        if stand.txn.is_some() {
            return Ok(());
        }
        at = links.next(node);
    }
    Ok(())
}

/// Appends to `lets` a let for each waiting writer among those that leave when the lock comes free. After an
/// error, `lets` is empty.
pub(crate) fn collect_front_lets(
    links: &Links,
    queue: &Queue,
    lets: &mut Vec<Through>,
) -> Result<(), AllocError>
    requires there { has_record links.now queue.now.id ≡ true }
    requires named { AllByRecursion IsNamed (line links.now queue.now) }
    ensures ok { OnOk result (lets.new.items ≡ lets.old.items ++ leading_lets (line links.now queue.now)) }
    ensures err { OnErr result (lets.new.items ≡ []) }
    ensures full { OnErr result (vec_capacity lets.old < length (lets.old.items ++ leading_lets (line links.now queue.now))) }
    ensures kept { vec_capacity lets.old ≤ vec_capacity lets.new }
{
    let done = push_front_lets(links, queue, lets);
    if done.is_err() {
        lets.clear();
    }
    done
}

/// Removes the writers without a transaction before the first writer with one.
pub(crate) fn drop_leading(links: &mut Links, queue: &Queue)
    requires there { has_record links.old queue.now.id ≡ true }
    requires sound { IsSound links.old }
    ensures { WritesQueue links.old links.new queue.now (from_txn (line links.old queue.now)) }
{
    let mut at = links.first(*queue);
    while let Some(node) = at {
        if links.stand(node).txn.is_some() {
            return;
        }
        links.remove(node);
        at = links.first(*queue);
    }
}

/// Removes the entries that leave.
pub(crate) fn drop_where(links: &mut Links, queue: &Queue, who: &Selection)
    requires there { has_record links.old queue.now.id ≡ true }
    requires sound { IsSound links.old }
    ensures { WritesQueue links.old links.new queue.now (without_selected who.now (line links.old queue.now)) }
{
    let mut at = links.first(*queue);
    while let Some(node) = at {
        let next = links.next(node);
        if leaves(who, &links.stand(node)) {
            links.remove(node);
        }
        at = next;
    }
}

pub(crate) fn is_eligible(stand: &Stand, reserved: &Option<Stand>) -> bool
    ensures { result ≡ is_eligible (option_map request_of reserved.now) (writer_of stand.now) }
{
    match reserved {
        None => stand.active,
        Some(reserved) => stand.active && !is_same_txn(stand, reserved),
    }
}

/// The number of the first writer that is eligible as the distinguished waiter.
pub(crate) fn first_eligible(links: &Links, queue: &Queue, reserved: &Option<Stand>) -> Option<u64>
    requires there { has_record links.now queue.now.id ≡ true }
    ensures { result ≡ first_eligible_number reserved.now (line links.now queue.now) }
{
    let mut at = links.first(*queue);
    while let Some(node) = at {
        let stand = links.stand(node);
        if is_eligible(&stand, reserved) {
            return Some(stand.number);
        }
        at = links.next(node);
    }
    None
}

/// The node after which a number belongs among the writers, or `None` for the front. The search starts at the
/// end of the queue, where a new request usually belongs.
pub(crate) fn position_of(links: &Links, queue: &Queue, number: u64) -> Option<NodeId>
    requires there { has_record links.now queue.now.id ≡ true }
    ensures position { IsPosition links.now queue.now number result }
    ensures sound { IsSound links.now }
{
    let mut at = links.last(*queue);
    while let Some(node) = at {
        if links.stand(node).number < number {
            return Some(node);
        }
        at = links.prev(node);
    }
    None
}

/// Whether the queue has at least this many entries.
pub(crate) fn has_at_least(links: &Links, queue: &Queue, count: u32) -> bool
    requires there { has_record links.now queue.now.id ≡ true }
    ensures { result ≡ nat_le count (length (line links.now queue.now)) }
{
    count as usize <= links.len(*queue)
}
