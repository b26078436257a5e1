//! How does C make a request of a shared table? Its pass names the keys, enters, scans, polls and leaves, all through one
//! handle: `lt_pass_enter` makes a request of the pass, and `lt_pass_leave` gives the pass back.
ghost use Rattle.std.specs.Prelude.{◌≡◌, ◌≢◌, Some, IsSome, IsNone};
ghost use Rattle.lt_handles.specs.Calls.{optional_txn};
ghost use Rattle.lt_handles.specs.Content.{pass_in, guard_in};
ghost use Rattle.lt_handles.specs.Looks.{bytes_refusal};
ghost use Rattle.lt_handles.specs.Codes.{IsDoneUnless};
ghost use Rattle.lt_handles.specs.Shared.{WantsMore, KeepsHandle, OnPasses, OnGuards, Enters, ScanTells, PollTells, LeaveTells, SeesLegal};

use lt_handles::codes::{CLOSED, DONE};
use lt_handles::handle::Handle;
use lt_handles::held_shared::Entering;
use lt_handles::requests::{enter, leave, poll_at, scan_at, want_at};
use lt_handles::shapes::LtTerms;
use lt_ids::{Timestamp, TxnId};
use lt_walk::Terms;
use std::alloc::Global;

/// Adds a key to those that the pass's next request asks for.
#[unsafe(no_mangle)]
pub extern "C" fn lt_pass_want(alloc: Global, handle: &mut Handle, key: &[u8], writes: bool) -> u32
    ensures closed { IsNone (pass_in handle.old.slot.held) → result ≡ CLOSED }
    ensures refused { IsSome (pass_in handle.old.slot.held) → IsDoneUnless (bytes_refusal key.now) result }
    ensures wanted { result ≡ DONE → OnPasses (WantsMore key.now writes) (pass_in handle.old.slot.held) (pass_in handle.new.slot.held) }
    ensures kept { result ≢ DONE → KeepsHandle handle.old.slot.held handle.new.slot.held }
{
    let Some(mut content) = handle.take(alloc) else {
        return CLOSED;
    };
    let code = want_at(&mut content, alloc, key, writes);
    handle.put(content);
    code
}

/// The pass's request enters with the keys that were named. The handle then holds the request.
#[unsafe(no_mangle)]
pub extern "C" fn lt_pass_enter(alloc: Global, handle: &mut Handle, terms: &LtTerms) -> u32
    ensures entered { result ≢ CLOSED →
        Enters (optional_txn terms.now.txn) (record { wall = terms.now.wall; logical = terms.now.logical }) terms.now.longest
        result handle.old.slot.held handle.new.slot.held }
    ensures kept { result ≡ CLOSED → handle.new.slot.held ≡ handle.old.slot.held }
    ensures opened { IsSome (pass_in handle.old.slot.held) → result ≢ CLOSED }
    ensures legal { SeesLegal handle.new.slot.held }
{
    let Some(mut content) = handle.take(alloc) else {
        return CLOSED;
    };
    let terms = Terms {
        txn: TxnId::new(terms.txn),
        ts: Timestamp {
            wall: terms.wall,
            logical: terms.logical,
        },
        longest: terms.longest,
    };
    let by = Entering { alloc, terms };
    let code = enter(&mut content, &by);
    content.legal();
    handle.put(content);
    code
}

/// Visits the request's keys in order. `index` is set to the index of the key at which the scan ended, or to 0.
#[unsafe(no_mangle)]
pub extern "C" fn lt_pass_scan(alloc: Global, handle: &mut Handle, index: &mut usize) -> u32
    ensures scanned { result ≢ CLOSED → OnGuards (ScanTells result index.new) (guard_in handle.old.slot.held) (guard_in handle.new.slot.held) }
    ensures kept { result ≡ CLOSED → handle.new.slot.held ≡ handle.old.slot.held }
    ensures out_kept { result ≡ CLOSED → index.new ≡ index.old }
    ensures opened { IsSome (guard_in handle.old.slot.held) → result ≢ CLOSED }
    ensures legal { SeesLegal handle.new.slot.held }
{
    let Some(mut content) = handle.take(alloc) else {
        return CLOSED;
    };
    let code = scan_at(&mut content, index);
    content.legal();
    handle.put(content);
    code
}

/// Whether the request was let through. Enters no shard.
#[unsafe(no_mangle)]
pub extern "C" fn lt_pass_poll(alloc: Global, handle: &mut Handle) -> u32
    ensures polled { result ≢ CLOSED → OnGuards (PollTells result) (guard_in handle.old.slot.held) (guard_in handle.new.slot.held) }
    ensures kept { result ≡ CLOSED → handle.new.slot.held ≡ handle.old.slot.held }
    ensures opened { IsSome (guard_in handle.old.slot.held) → result ≢ CLOSED }
    ensures legal { SeesLegal handle.new.slot.held }
{
    let Some(mut content) = handle.take(alloc) else {
        return CLOSED;
    };
    let code = poll_at(&mut content);
    content.legal();
    handle.put(content);
    code
}

/// The request leaves. The handle then holds its pass again. After `BUSY` the same call goes on from where it was.
#[unsafe(no_mangle)]
pub extern "C" fn lt_pass_leave(alloc: Global, handle: &mut Handle) -> u32
    ensures left { result ≢ CLOSED → LeaveTells result handle.old.slot.held handle.new.slot.held }
    ensures kept { result ≡ CLOSED → handle.new.slot.held ≡ handle.old.slot.held }
    ensures opened { IsSome (guard_in handle.old.slot.held) → result ≢ CLOSED }
    ensures legal { SeesLegal handle.new.slot.held }
{
    let Some(mut content) = handle.take(alloc) else {
        return CLOSED;
    };
    let code = leave(&mut content);
    content.legal();
    handle.put(content);
    code
}
