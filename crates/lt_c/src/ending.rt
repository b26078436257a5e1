//! How does a shared table end? Its passes come back to their seats, whoever has the table's handle ends it, and takes what is
//! left of each shard out.
ghost use Rattle.std.specs.Prelude.{◌≡◌, ◌≢◌, Some, None, IsSome, IsNone};
ghost use Rattle.lt_handles.specs.Codes.{IsDoneUnless};
ghost use Rattle.lt_handles.specs.Content.{ended_in};
ghost use Rattle.lt_handles.specs.Ending.{IsBackUnless, EndsHere, IsEndedUnless, StaysOpen, GivesRestFrom, table_to_end, rest_refusal};

use lt_handles::codes::{CLOSED, DONE, OPEN_ALREADY};
use lt_handles::content::Content;
use lt_handles::ending::{back, end, rest_from};
use lt_handles::handle::Handle;
use lt_handles::shapes::LtEnd;
use lt_handles::shared_codes::LOST;
use std::alloc::Global;
use std::mem;

/// Gives the pass of the handle back to its table, and closes the handle.
#[unsafe(no_mangle)]
pub extern "C" fn lt_pass_back(alloc: Global, handle: &mut Handle) -> u32
    ensures refused { IsSome handle.old.slot.held → IsBackUnless handle.old.slot.held result }
    ensures closed { IsNone handle.old.slot.held → result ≡ CLOSED }
    ensures done { result ≡ DONE → handle.new.slot.held ≡ None }
    ensures kept { result ≢ DONE → handle.new.slot.held ≡ handle.old.slot.held }
{
    let Some(mut content) = handle.take(alloc) else {
        return CLOSED;
    };
    let before = mem::replace(&mut *content, Content::Nothing);
    let (after, code) = back(before);
    *content = after;
    if code == DONE {
        drop(content);
        return DONE;
    }
    handle.put(content);
    code
}

/// Ends the table, once all of its passes are back. The handle then holds what is left of it.
#[unsafe(no_mangle)]
pub extern "C" fn lt_shared_end(alloc: Global, handle: &mut Handle, out: &mut LtEnd) -> u32
    ensures ended { result ≡ DONE → EndsHere (table_to_end handle.old.slot.held) handle.new.slot.held out.new.draws }
    ensures refused { IsEndedUnless (table_to_end handle.old.slot.held) result }
    ensures kept { result ≢ DONE → result ≢ LOST → StaysOpen handle.old.slot.held handle.new.slot.held }
    ensures lost { result ≡ LOST → handle.new.slot.held ≡ None }
{
    let Some(mut content) = handle.take(alloc) else {
        return CLOSED;
    };
    let before = mem::replace(&mut *content, Content::Nothing);
    let (after, code) = end(alloc, before, out);
    *content = after;
    if code == LOST {
        drop(content);
        return LOST;
    }
    handle.put(content);
    code
}

/// Gives what the end left of the shard with this index, to a handle of its own. A later call for the same shard gives no step.
#[unsafe(no_mangle)]
pub extern "C" fn lt_shared_rest(
    alloc: Global,
    handle: &mut Handle,
    shard: usize,
    out: &mut Handle,
) -> u32
    ensures open_already { IsSome out.old.slot.held → result ≡ OPEN_ALREADY }
    ensures refused { IsNone out.old.slot.held → IsDoneUnless (rest_refusal (ended_in handle.old.slot.held) shard) result }
    ensures given { result ≡ DONE → GivesRestFrom shard handle.old.slot.held handle.new.slot.held out.new.slot.held }
    ensures kept { result ≢ DONE → (handle.new.slot.held ≡ handle.old.slot.held) × (out.new.slot.held ≡ out.old.slot.held) }
{
    if out.is_open() {
        return OPEN_ALREADY;
    }
    let Some(mut content) = handle.take(alloc) else {
        return CLOSED;
    };
    let code = rest_from(&mut content, alloc, shard, out);
    handle.put(content);
    code
}
