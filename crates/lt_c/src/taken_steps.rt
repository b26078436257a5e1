//! What does C see of the steps that a handle holds? How many there are, and each by its index. Nothing here changes them.
ghost use Rattle.std.specs.Prelude.{◌≡◌, ◌≢◌, Some, None, IsSome, IsNone, is_some, if◌then◌else◌, unwrap_or};
ghost use Rattle.lt_handles.specs.Content.{steps_in};
ghost use Rattle.lt_handles.specs.Taking.{OnStep, OnSteps, ShowsStep, CountsSteps, place_refusal};

use lt_entry::Entry;
use lt_handles::codes::{CLOSED, DONE};
use lt_handles::content::Content;
use lt_handles::handle::Handle;
use lt_handles::held::write_lets;
use lt_handles::shapes::{LtStep, LtThrough, raw_step};
use lt_handles::shared_codes::BAD_INDEX;
use lt_shard::Rest;
use std::alloc::Global;

/// How many steps the handle holds, and how many steps of their shard were made before them.
fn count(content: &Content, from: &mut u64, many: &mut usize) -> u32
    ensures counted { result ≡ DONE → OnSteps (CountsSteps from.new many.new) (steps_in (Some content.now)) }
    ensures refused { result ≡ (if is_some (steps_in (Some content.now)) then DONE else CLOSED) }
    ensures out_kept { result ≢ DONE → (from.new ≡ from.old) × (many.new ≡ many.old) }
{
    match content {
        Content::Steps(rest) => {
            *from = rest.from;
            *many = rest.entries.len();
            DONE
        }
        _ => CLOSED,
    }
}

/// How many steps the handle holds, and how many steps of their shard were made before them.
#[unsafe(no_mangle)]
pub extern "C" fn lt_steps_count(
    alloc: Global,
    handle: &mut Handle,
    from: &mut u64,
    count: &mut usize,
) -> u32
    ensures counted { result ≡ DONE → OnSteps (CountsSteps from.new count.new) (steps_in handle.old.slot.held) }
    ensures refused { result ≡ (if is_some (steps_in handle.old.slot.held) then DONE else CLOSED) }
    ensures out_kept { result ≢ DONE → (from.new ≡ from.old) × (count.new ≡ count.old) }
    ensures same { handle.new.slot.held ≡ handle.old.slot.held }
{
    let Some(content) = handle.take(alloc) else {
        return CLOSED;
    };
    let code = self::count(&content, from, count);
    handle.put(content);
    code
}

/// What C sees of the step, and of its lets as many of the first as fit.
fn show(entry: &Entry, step: &mut LtStep, lets: &mut [LtThrough])
    ensures { ShowsStep step.new lets.old lets.new entry.now }
{
    *step = raw_step(entry);
    let all = entry.lets();
    let fit = all.len().min(lets.len());
    write_lets(&all[..fit], lets);
}

/// The same of the step with this index.
fn show_at(rest: &Rest, index: usize, step: &mut LtStep, lets: &mut [LtThrough]) -> u32
    ensures shown { result ≡ DONE → OnStep (ShowsStep step.new lets.old lets.new) rest.now index }
    ensures refused { result ≡ unwrap_or (place_refusal (Some rest.now) index) DONE }
    ensures out_kept { result ≢ DONE → (step.new ≡ step.old) × (lets.new ≡ lets.old) }
{
    let Some(entry) = rest.entries.get(index) else {
        return BAD_INDEX;
    };
    show(entry, step, lets);
    DONE
}

/// The same, if the content is steps.
fn show_in(content: &Content, index: usize, step: &mut LtStep, lets: &mut [LtThrough]) -> u32
    ensures shown { result ≡ DONE → OnSteps (λ rest. OnStep (ShowsStep step.new lets.old lets.new) rest index) (steps_in (Some content.now)) }
    ensures refused { result ≡ unwrap_or (place_refusal (steps_in (Some content.now)) index) DONE }
    ensures out_kept { result ≢ DONE → (step.new ≡ step.old) × (lets.new ≡ lets.old) }
{
    match content {
        Content::Steps(rest) => show_at(rest, index, step, lets),
        _ => CLOSED,
    }
}

/// The step with this index, from 0, and of its lets as many of the first as fit into the array. `step` says how many there are.
#[unsafe(no_mangle)]
pub extern "C" fn lt_steps_at(
    alloc: Global,
    handle: &mut Handle,
    index: usize,
    step: &mut LtStep,
    lets: &mut [LtThrough],
) -> u32
    ensures shown { result ≡ DONE → OnSteps (λ rest. OnStep (ShowsStep step.new lets.old lets.new) rest index) (steps_in handle.old.slot.held) }
    ensures refused { result ≡ unwrap_or (place_refusal (steps_in handle.old.slot.held) index) DONE }
    ensures out_kept { result ≢ DONE → (step.new ≡ step.old) × (lets.new ≡ lets.old) }
    ensures same { handle.new.slot.held ≡ handle.old.slot.held }
{
    let Some(content) = handle.take(alloc) else {
        return CLOSED;
    };
    let code = show_in(&content, index, step, lets);
    handle.put(content);
    code
}

/// Whether the content is steps.
fn is_steps(content: &Content) -> bool
    ensures { result ≡ is_some (steps_in (Some content.now)) }
{
    match content {
        Content::Steps(_) => true,
        _ => false,
    }
}

/// Drops the steps that the handle holds.
#[unsafe(no_mangle)]
pub extern "C" fn lt_steps_close(alloc: Global, handle: &mut Handle) -> u32
    ensures done { IsSome (steps_in handle.old.slot.held) → (result ≡ DONE) × (handle.new.slot.held ≡ None) }
    ensures closed { IsNone (steps_in handle.old.slot.held) → (result ≡ CLOSED) × (handle.new.slot.held ≡ handle.old.slot.held) }
{
    let Some(content) = handle.take(alloc) else {
        return CLOSED;
    };
    if !is_steps(&content) {
        handle.put(content);
        return CLOSED;
    }
    drop(content);
    DONE
}
