//! How does a row make a call that is given as a value? Read `row.rt` and `visit.rt` next, which have the calls.
ghost use Rattle.std.specs.Prelude.{◌≡◌, ◌≤◌, [], vec_capacity, IfOk, OnErr, IsOk};
ghost use Rattle.lt_rules.specs.Step.{step};
ghost use Rattle.lt_rules.specs.Memory.{MayLack, how_many};
ghost use Rattle.lt_row.specs.Row.{record_of};
ghost use Rattle.lt_row.specs.RowStepped.{IsRow, UpdatesRow, RowUsesNoMemory};
ghost use Rattle.lt_ids.specs.declared.limits.TheConstants.{MAX_PASS};

use crate::row::{self, Row};
use crate::visit::{stand_of, visit};
use lt_ids::Through;
use lt_links::Links;
use lt_rules::{Call, Reply};
use std::alloc::AllocError;

/// Makes the call on a row, for the pass with this number, which is 1 to 1024. Puts the lets into `lets`, in order.
/// The only error is that memory ran out, and then nothing has changed.
///
/// Only a visit can fail while `lets` has room for a let of each request at the key. A step keeps it so.
#[inline]
pub fn step(
    links: &mut Links,
    row: &mut Row,
    pass: u32,
    call: &Call,
    lets: &mut Vec<Through>,
) -> Result<Reply, AllocError>
    requires row { IsRow links.old row.old }
    requires lets { lets.old.items ≡ [] }
    requires low { 1 ≤ pass }
    requires high { pass ≤ MAX_PASS }
    ensures ok { IfOk result (UpdatesRow links.old links.new row.old row.new
        (λ r. step r pass call.now) lets.new.items) }
    ensures err { OnErr result ((links.new ≡ links.old) × (row.new ≡ row.old) × (lets.new.items ≡ [])) }
    ensures no_memory { RowUsesNoMemory links.old row.old (λ r. step r pass call.now) → IsOk result }
    ensures full { OnErr result (MayLack (record_of links.old row.old) call.now (vec_capacity lets.old)) }
    ensures kept { vec_capacity lets.old ≤ vec_capacity lets.new }
    ensures room { how_many (record_of links.old row.old) ≤ vec_capacity lets.old →
        how_many (record_of links.new row.new) ≤ vec_capacity lets.new }
{
    match *call {
        Call::Visit {
            ticket,
            txn,
            ts,
            access,
            longest,
        } => visit(
            links,
            row,
            &stand_of(pass, ticket, txn, ts),
            longest,
            access,
            lets,
        ),
        Call::Acquire { txn, ts } => row::acquire(links, row, txn, ts, lets),
        Call::Update { txn, ts } => row::update(links, row, txn, ts, lets),
        Call::Finish { txn } => row::finish(links, row, txn, lets),
        Call::Leave { number } => row::leave(links, row, number, lets),
        Call::Look { number } => Ok(row::look(links, row, number)),
    }
}
