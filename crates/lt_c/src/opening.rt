//! How does C open a table that threads share, and give each of them a pass?
ghost use Rattle.std.specs.Prelude.{◌≡◌, ◌≢◌, true, false, Some, None, IsSome, IsNone};
ghost use Rattle.lt_handles.specs.Shared.{IsOpenedAs, GivesPassFrom, OnShared, config_of, keeping_of, open_refusal, give_refusal, is_of_shared};
ghost use Rattle.lt_handles.specs.Content.{shared_in};
ghost use Rattle.lt_handles.specs.Codes.{IsDoneUnless};

use lt_handles::codes::{CLOSED, DONE, OPEN_ALREADY};
use lt_handles::handle::Handle;
use lt_handles::opening::{close, config_of, keeping_of, open_closed, pass_from};
use lt_handles::shapes::{LtConfig, LtKeeping};
use lt_handles::shared_codes::BAD_KEEPING;
use lt_ids::MAX_STEPS;
use lt_try::Keeping;
use std::alloc::Global;

/// Opens a table that threads share, and that stores no step. Its keys are hashed from this start: draw it, for each table,
/// where nobody can guess it.
#[unsafe(no_mangle)]
pub extern "C" fn lt_shared_open(
    alloc: Global,
    handle: &mut Handle,
    config: &LtConfig,
    start: u64,
) -> u32
    ensures open_already { IsSome handle.old.slot.held → result ≡ OPEN_ALREADY }
    ensures refused { IsNone handle.old.slot.held → IsDoneUnless (open_refusal config.now MAX_STEPS (Some Keeping.Unrecorded)) result }
    ensures opened { result ≡ DONE → OnShared (IsOpenedAs config.now MAX_STEPS (Some Keeping.Unrecorded)) (shared_in handle.new.slot.held) }
    ensures kept { result ≢ DONE → handle.new.slot.held ≡ handle.old.slot.held }
{
    if handle.is_open() {
        return OPEN_ALREADY;
    }
    let config = config_of(config, MAX_STEPS);
    open_closed(alloc, handle, config, Keeping::Unrecorded, start)
}

/// Opens a table that threads share, and that keeps its steps in the way that C names, at most so many of a shard at a time.
#[unsafe(no_mangle)]
pub extern "C" fn lt_shared_open_keeping(
    alloc: Global,
    handle: &mut Handle,
    config: &LtConfig,
    keeping: &LtKeeping,
    start: u64,
) -> u32
    ensures open_already { IsSome handle.old.slot.held → result ≡ OPEN_ALREADY }
    ensures refused { IsNone handle.old.slot.held → IsDoneUnless (open_refusal config.now keeping.now.max_steps (keeping_of keeping.now.way)) result }
    ensures opened { result ≡ DONE → OnShared (IsOpenedAs config.now keeping.now.max_steps (keeping_of keeping.now.way)) (shared_in handle.new.slot.held) }
    ensures kept { result ≢ DONE → handle.new.slot.held ≡ handle.old.slot.held }
{
    if handle.is_open() {
        return OPEN_ALREADY;
    }
    let Some(way) = keeping_of(keeping.way) else {
        return BAD_KEEPING;
    };
    let config = config_of(config, keeping.max_steps);
    open_closed(alloc, handle, config, way, start)
}

/// Gives the table's next pass out, to a handle of its own.
#[unsafe(no_mangle)]
pub extern "C" fn lt_shared_pass(alloc: Global, handle: &mut Handle, out: &mut Handle) -> u32
    ensures open_already { IsSome out.old.slot.held → result ≡ OPEN_ALREADY }
    ensures refused { IsNone out.old.slot.held → IsDoneUnless (give_refusal handle.old.slot.held) result }
    ensures given { result ≡ DONE → GivesPassFrom handle.old.slot.held handle.new.slot.held out.new.slot.held }
    ensures kept { result ≢ DONE → (handle.new.slot.held ≡ handle.old.slot.held) × (out.new.slot.held ≡ out.old.slot.held) }
{
    if out.is_open() {
        return OPEN_ALREADY;
    }
    let Some(mut content) = handle.take(alloc) else {
        return CLOSED;
    };
    let code = pass_from(alloc, &mut content, out);
    handle.put(content);
    code
}

/// Closes the handle of a shared table. The table is freed with the last of its handles.
#[unsafe(no_mangle)]
pub extern "C" fn lt_shared_close(alloc: Global, handle: &mut Handle) -> u32
    ensures done { is_of_shared handle.old.slot.held ≡ true → (result ≡ DONE) × (handle.new.slot.held ≡ None) }
    ensures closed { is_of_shared handle.old.slot.held ≡ false → (result ≡ CLOSED) × (handle.new.slot.held ≡ handle.old.slot.held) }
{
    close(alloc, handle)
}

/// Closes the handle of a pass or of a request. A request that has not left stays queued at its keys for ever, so it leaves
/// first.
#[unsafe(no_mangle)]
pub extern "C" fn lt_pass_close(alloc: Global, handle: &mut Handle) -> u32
    ensures done { is_of_shared handle.old.slot.held ≡ true → (result ≡ DONE) × (handle.new.slot.held ≡ None) }
    ensures closed { is_of_shared handle.old.slot.held ≡ false → (result ≡ CLOSED) × (handle.new.slot.held ≡ handle.old.slot.held) }
{
    close(alloc, handle)
}
