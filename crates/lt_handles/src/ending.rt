//! What do the handles of a shared table hold as its passes come back, it ends, and its last steps are taken out?
//!
//! A pass comes back through its own handle, which shares the table with the table's handle. So no call compares two tables.
ghost use Rattle.std.specs.Prelude.{◌≡◌, ◌≢◌, ◌<◌, Some, length};
ghost use Rattle.std.specs.Arc.{arc_value};
ghost use Rattle.lt_handles.specs.Codes.{IsDoneUnless};
ghost use Rattle.lt_handles.specs.Content.{ended_in};
ghost use Rattle.lt_handles.specs.Ending.{IsBackUnless, EndsHere, IsEndedUnless, StaysOpen, GivesRest, GivesRestFrom, table_to_end, rest_refusal};

use crate::codes::{CLOSED, DONE, MEMORY};
use crate::content::Content;
use crate::handle::Handle;
use crate::held_ending::told;
use crate::held_shared::HeldShared;
use crate::shapes::LtEnd;
use crate::shared_codes::{BAD_SHARD, LOST, PASSES_OUT};
use lt_shard::Rest;
use lt_try::{CloseError, Rests};
use std::alloc::Global;
use std::mem;

/// Leaves the pass in its seat, if the content is one. Nothing is then left of the content.
pub fn back(content: Content) -> (Content, u32)
    ensures refused { IsBackUnless (Some content) result.1 }
    ensures kept { result.1 ≢ DONE → result.0 ≡ content }
{
    match content {
        Content::Pass(held) => match held.go_back() {
            Ok(()) => (Content::Nothing, DONE),
            Err(held) => (Content::Pass(held), LOST),
        },
        content => (content, CLOSED),
    }
}

/// How many of the table's passes were given out and are not in their seats.
fn passes_out(held: &HeldShared) -> usize {
    let back = held
        .passes
        .len()
        .saturating_add(held.table.seats.are_taken());
    held.table.shared.passes().saturating_sub(back)
}

/// Ends the table, if its passes are back and no other handle knows it.
fn end_shared(alloc: Global, held: HeldShared, out: &mut LtEnd) -> (Content, u32)
    ensures ended { result.1 ≡ DONE → EndsHere (Some (arc_value held.table)) (Some result.0) out.new.draws }
    ensures refused { IsEndedUnless (Some (arc_value held.table)) result.1 }
    ensures kept { result.1 ≢ DONE → result.1 ≢ LOST → StaysOpen (Some (Content.Shared held)) (Some result.0) }
    ensures lost { result.1 ≡ LOST → result.0 ≡ Content.Nothing }
{
    let missing = passes_out(&held);
    if missing > 0 {
        *out = told(CloseError::PassesOut(missing));
        return (Content::Shared(held), PASSES_OUT);
    }
    match held.alone(alloc) {
        Ok(ending) => ending.end(alloc, out),
        Err((held, code)) => (Content::Shared(held), code),
    }
}

/// Ends the table that the content is.
pub fn end(alloc: Global, content: Content, out: &mut LtEnd) -> (Content, u32)
    ensures ended { result.1 ≡ DONE → EndsHere (table_to_end (Some content)) (Some result.0) out.new.draws }
    ensures refused { IsEndedUnless (table_to_end (Some content)) result.1 }
    ensures kept { result.1 ≢ DONE → result.1 ≢ LOST → StaysOpen (Some content) (Some result.0) }
    ensures lost { result.1 ≡ LOST → result.0 ≡ Content.Nothing }
{
    match content {
        Content::Shared(held) => end_shared(alloc, held, out),
        Content::Ending(held) => held.end(alloc, out),
        content => (content, CLOSED),
    }
}

/// Takes out what is left of the shard with this index. Nothing of it is left then.
fn take_rest(rests: &mut Rests, alloc: Global, shard: usize) -> Rest
    requires { shard < length rests.old.shards.items }
    ensures { GivesRest shard result rests.old rests.new }
{
    let from = rests.shards[shard].from;
    let none = Rest {
        from,
        entries: Vec::new(alloc),
    };
    mem::replace(&mut rests.shards[shard], none)
}

/// The same, into a closed handle.
fn give_rest(rests: &mut Rests, alloc: Global, shard: usize, out: &mut Handle) -> u32
    ensures given { result ≡ DONE → GivesRestFrom shard (Some (Content.Ended rests.old)) (Some (Content.Ended rests.new)) out.new.slot.held }
    ensures refused { IsDoneUnless (rest_refusal (Some rests.old) shard) result }
    ensures kept { result ≢ DONE → (rests.new ≡ rests.old) × (out.new.slot.held ≡ out.old.slot.held) }
{
    if shard >= rests.shards.len() {
        return BAD_SHARD;
    }
    let Ok(mut given) = Box::new(alloc, Content::Nothing) else {
        return MEMORY;
    };
    *given = Content::Steps(take_rest(rests, alloc, shard));
    out.put(given);
    DONE
}

/// The same, if the content is what is left of a table.
pub fn rest_from(content: &mut Content, alloc: Global, shard: usize, out: &mut Handle) -> u32
    ensures given { result ≡ DONE → GivesRestFrom shard (Some content.old) (Some content.new) out.new.slot.held }
    ensures refused { IsDoneUnless (rest_refusal (ended_in (Some content.old)) shard) result }
    ensures kept { result ≢ DONE → (content.new ≡ content.old) × (out.new.slot.held ≡ out.old.slot.held) }
{
    match content {
        Content::Ended(rests) => give_rest(rests, alloc, shard, out),
        _ => CLOSED,
    }
}
