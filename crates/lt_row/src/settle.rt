//! Elects the distinguished waiter, which is responsible for pushing the lock's holder.
ghost use Rattle.std.specs.Prelude.{◌≡◌, ◌&&◌, nat_eq, map, slice_get};
ghost use Rattle.std.specs.List.{list_any, IsDistinct};
ghost use Rattle.std.specs.Option.{option_map};
ghost use Rattle.lt_links.specs.Maps.{IsSound};
ghost use Rattle.lt_links.specs.declared.ids.QueueKind.TheVariants.{Reservation, Writers};
ghost use Rattle.lt_rules.specs.Rules.{distinguished_of, settle};
ghost use Rattle.lt_rules.specs.Lawful.{numbers};
ghost use Rattle.lt_row.specs.Row.{line, queue_at, record_of, request_of, eligible_at, HasQueues};
ghost use Rattle.lt_row.specs.Found.{first_eligible_number};

use crate::find::find_front;
use crate::queue_walk::{first_eligible, is_eligible};
use crate::row::{Row, queue};
use lt_links::{Links, QueueKind, Stand};

/// The queue entry of the request that holds the reservation.
pub(crate) fn reserved(links: &Links, row: &Row) -> Option<Stand>
    requires { HasQueues links.now row.now.id }
    ensures stand { result ≡ slice_get (line links.now (queue_at row.now.id Reservation)) 0 }
{
    let node = links.first(queue(row, QueueKind::Reservation))?;
    Some(links.stand(node))
}

/// Whether the queued request with this number is eligible as the distinguished waiter.
fn is_among_eligible(links: &Links, row: &Row, number: u64) -> bool
    requires linked { HasQueues links.now row.now.id }
    requires distinct { IsDistinct nat_eq (numbers (record_of links.now row.now)) }
    ensures { result ≡ list_any (λ m. nat_eq m number) (eligible_at links.now row.now) }
{
    let Some(found) = find_front(links, row.id, number) else {
        return false;
    };
    match found.kind {
        QueueKind::Reservation => false,
        QueueKind::Readers => true,
        QueueKind::Writers => is_eligible(&links.stand(found.node), &reserved(links, row)),
    }
}

/// The number of the first writer that is eligible as the distinguished waiter. If nobody is queued to write, the
/// reservation is not looked up.
fn first_writer(links: &Links, row: &Row) -> Option<u64>
    requires { HasQueues links.now row.now.id }
    ensures { result ≡ first_eligible_number (slice_get (line links.now (queue_at row.now.id Reservation)) 0)
        (line links.now (queue_at row.now.id Writers)) }
{
    let writers = queue(row, QueueKind::Writers);
    if links.len(writers) == 0 {
        return None;
    }
    first_eligible(links, &writers, &reserved(links, row))
}

/// The number of the first queued request that is eligible as the distinguished waiter.
fn first_waiter(links: &Links, row: &Row) -> Option<u64>
    requires { HasQueues links.now row.now.id }
    ensures { result ≡ slice_get (eligible_at links.now row.now) 0 }
{
    match links.first(queue(row, QueueKind::Readers)) {
        Some(node) => Some(links.stand(node).number),
        None => first_writer(links, row),
    }
}

fn distinguished_of(links: &Links, row: &Row) -> Option<u64>
    requires linked { HasQueues links.now row.now.id }
    requires distinct { IsDistinct nat_eq (numbers (record_of links.now row.now)) }
    ensures { result ≡ distinguished_of row.now.distinguished (eligible_at links.now row.now) }
{
    match row.distinguished {
        Some(number) if is_among_eligible(links, row, number) => Some(number),
        _ => first_waiter(links, row),
    }
}

/// Elects the distinguished waiter: the current one while it is eligible, else the first eligible one.
pub(crate) fn settle(links: &Links, row: &mut Row)
    requires linked { HasQueues links.now row.old.id }
    requires distinct { IsDistinct nat_eq (numbers (record_of links.now row.old)) }
    ensures id { row.new.id ≡ row.old.id }
    ensures record { record_of links.now row.new ≡ settle (record_of links.now row.old) }
{
    row.distinguished = distinguished_of(links, row);
}
