//! How does C learn whom its steps let through, so that it wakes them? It asks after each call that may let others through.
ghost use Rattle.std.specs.Prelude.{◌≡◌, ◌≢◌, Some, true, false};
ghost use Rattle.lt_handles.specs.Shared.{OnCaller, TellsLet, has_pass, number_in};

use lt_handles::codes::{CLOSED, DONE};
use lt_handles::content::Content;
use lt_handles::handle::Handle;
use lt_handles::held_shared::{HeldGuard, HeldPass};
use lt_handles::shapes::{LtThrough, raw_let};
use lt_handles::shared_codes::NO_LET;
use std::alloc::Global;

/// Takes a let of the pass's steps out, if one is left.
fn next_of_pass(by: &mut HeldPass, through: &mut LtThrough) -> u32
    ensures opened { result ≢ CLOSED }
    ensures tells { TellsLet result through.new by.old.pass by.new.pass }
    ensures wants { by.new.wants ≡ by.old.wants }
    ensures table { by.new.table ≡ by.old.table }
    ensures kept { result ≢ DONE → (by.new ≡ by.old) × (through.new ≡ through.old) }
{
    let Some(next) = by.pass.next_untold() else {
        return NO_LET;
    };
    *through = raw_let(&next);
    DONE
}

/// The same of the pass of a request.
fn next_of_guard(by: &mut HeldGuard, through: &mut LtThrough) -> u32
    ensures opened { result ≢ CLOSED }
    ensures tells { TellsLet result through.new by.old.guard.pass by.new.guard.pass }
    ensures walk { by.new.guard.walk ≡ by.old.guard.walk }
    ensures table { by.new.table ≡ by.old.table }
    ensures kept { result ≢ DONE → (by.new ≡ by.old) × (through.new ≡ through.old) }
{
    let Some(next) = by.guard.next_untold() else {
        return NO_LET;
    };
    *through = raw_let(&next);
    DONE
}

/// The same, if the content is a pass or a request.
fn next_at(content: &mut Content, through: &mut LtThrough) -> u32
    ensures closed { has_pass (Some content.old) ≡ false → result ≡ CLOSED }
    ensures opened { has_pass (Some content.old) ≡ true → result ≢ CLOSED }
    ensures tells { result ≢ CLOSED → OnCaller (TellsLet result through.new) (Some content.old) (Some content.new) }
    ensures kept { result ≢ DONE → (content.new ≡ content.old) × (through.new ≡ through.old) }
{
    match content {
        Content::Pass(by) => next_of_pass(by, through),
        Content::Guard(by) => next_of_guard(by, through),
        _ => CLOSED,
    }
}

/// Takes out a let of the pass's steps of which its caller was not told yet, if one is left. Of each pass that was let
/// through it is the latest let.
#[unsafe(no_mangle)]
pub extern "C" fn lt_pass_let(alloc: Global, handle: &mut Handle, through: &mut LtThrough) -> u32
    ensures closed { has_pass handle.old.slot.held ≡ false → result ≡ CLOSED }
    ensures opened { has_pass handle.old.slot.held ≡ true → result ≢ CLOSED }
    ensures tells { result ≢ CLOSED → OnCaller (TellsLet result through.new) handle.old.slot.held handle.new.slot.held }
    ensures kept { result ≢ DONE → (handle.new.slot.held ≡ handle.old.slot.held) × (through.new ≡ through.old) }
{
    let Some(mut content) = handle.take(alloc) else {
        return CLOSED;
    };
    let code = next_at(&mut content, through);
    handle.put(content);
    code
}

/// The number of the pass, or 0.
fn number_of(content: &Content) -> u32
    ensures { result ≡ number_in (Some content.now) }
{
    match content {
        Content::Pass(by) => by.pass.number(),
        Content::Guard(by) => by.guard.pass_number(),
        _ => 0,
    }
}

/// The number of the pass that the handle holds, or whose request it holds; 0 if it holds neither. A let names it.
#[unsafe(no_mangle)]
pub extern "C" fn lt_pass_number(alloc: Global, handle: &mut Handle) -> u32
    ensures number { result ≡ number_in handle.old.slot.held }
    ensures same { handle.new.slot.held ≡ handle.old.slot.held }
{
    let Some(content) = handle.take(alloc) else {
        return 0;
    };
    let number = number_of(&content);
    handle.put(content);
    number
}
