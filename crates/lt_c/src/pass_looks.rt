//! What does C see of a key of a shared table? The record after the steps that its pass has then seen.
ghost use Rattle.std.specs.Prelude.{◌≡◌, ◌≢◌, ◌<◌, Some, None, IfOk, IfErr, OnOk, OnErr};
ghost use Rattle.lt_handles.specs.Shared.{OnCaller, SeesLegal, SeesRecord, IsSeenUnless, caller_refusal};
ghost use Rattle.lt_handles.specs.PassLooks.{ShowsRecord};
ghost use Rattle.lt_handles.specs.Looks.{bytes_refusal};

use crate::lists::{write_readers, write_writers};
use lt_handles::codes::{CLOSED, DONE, FIRST_REPLY, key_code};
use lt_handles::content::Content;
use lt_handles::handle::Handle;
use lt_handles::held_shared::{HeldGuard, HeldPass};
use lt_handles::shapes::{LtKey, LtQueued, raw_key};
use lt_handles::shared_codes::try_code;
use lt_ids::Key;
use lt_rules::KeyState;
use std::alloc::Global;

/// The record of the key with these bytes, through a pass, or the code of what went wrong.
fn record_by_pass(by: &mut HeldPass, alloc: Global, key: &[u8]) -> Result<KeyState, u32>
    ensures seen { IfOk result (λ state. SeesRecord key.now state by.old.pass by.new.pass) }
    ensures wants { by.new.wants ≡ by.old.wants }
    ensures table { by.new.table ≡ by.old.table }
    ensures kept { OnErr result (by.new ≡ by.old) }
    ensures refused { IfErr result (λ code. IsSeenUnless (bytes_refusal key.now) code × (code < FIRST_REPLY) × (code ≢ DONE)) }
{
    let key = match Key::from_bytes(alloc, key) {
        Ok(key) => key,
        Err(error) => return Err(key_code(&error)),
    };
    match by.table.shared.inspect(&mut by.pass, &key) {
        Ok(state) => Ok(state),
        Err(error) => Err(try_code(error)),
    }
}

/// The same through the pass of a request.
fn record_by_guard(by: &mut HeldGuard, alloc: Global, key: &[u8]) -> Result<KeyState, u32>
    ensures seen { IfOk result (λ state. SeesRecord key.now state by.old.guard.pass by.new.guard.pass) }
    ensures walk { by.new.guard.walk ≡ by.old.guard.walk }
    ensures table { by.new.table ≡ by.old.table }
    ensures kept { OnErr result (by.new ≡ by.old) }
    ensures refused { IfErr result (λ code. IsSeenUnless (bytes_refusal key.now) code × (code < FIRST_REPLY) × (code ≢ DONE)) }
{
    let key = match Key::from_bytes(alloc, key) {
        Ok(key) => key,
        Err(error) => return Err(key_code(&error)),
    };
    match by.table.shared.inspect_in(&mut by.guard, &key) {
        Ok(state) => Ok(state),
        Err(error) => Err(try_code(error)),
    }
}

/// The same, if the content is a pass or a request.
fn record_by(content: &mut Content, alloc: Global, key: &[u8]) -> Result<KeyState, u32>
    ensures seen { IfOk result (λ state. OnCaller (SeesRecord key.now state) (Some content.old) (Some content.new)) }
    ensures kept { OnErr result (content.new ≡ content.old) }
    ensures refused { IfErr result (λ code. IsSeenUnless (caller_refusal (Some content.old) key.now) code × (code < FIRST_REPLY) × (code ≢ DONE)) }
{
    match content {
        Content::Pass(by) => record_by_pass(by, alloc, key),
        Content::Guard(by) => record_by_guard(by, alloc, key),
        _ => Err(CLOSED),
    }
}

/// The same of what a handle holds.
fn record(alloc: Global, handle: &mut Handle, key: &[u8]) -> Result<KeyState, u32>
    ensures seen { IfOk result (λ state. OnCaller (SeesRecord key.now state) handle.old.slot.held handle.new.slot.held) }
    ensures kept { OnErr result (handle.new.slot.held ≡ handle.old.slot.held) }
    ensures refused { IfErr result (λ code. IsSeenUnless (caller_refusal handle.old.slot.held key.now) code × (code < FIRST_REPLY) × (code ≢ DONE)) }
{
    let Some(mut content) = handle.take(alloc) else {
        return Err(CLOSED);
    };
    let found = record_by(&mut content, alloc, key);
    handle.put(content);
    found
}

/// What the table knows of the key, and of its writers and its readers as many of the first as fit into each array. `out`
/// says how many there are.
#[unsafe(no_mangle)]
pub extern "C" fn lt_pass_inspect(
    alloc: Global,
    handle: &mut Handle,
    key: &[u8],
    out: &mut LtKey,
    writers: &mut [LtQueued],
    readers: &mut [LtQueued],
) -> u32
    ensures shown { result ≡ DONE → OnCaller
        (ShowsRecord key.now out.new writers.old writers.new readers.old readers.new) handle.old.slot.held handle.new.slot.held }
    ensures refused { result ≢ DONE → IsSeenUnless (caller_refusal handle.old.slot.held key.now) result × (result < FIRST_REPLY) }
    ensures kept { result ≢ DONE → handle.new.slot.held ≡ handle.old.slot.held }
    ensures out_kept { result ≢ DONE → (out.new ≡ out.old) × (writers.new ≡ writers.old) × (readers.new ≡ readers.old) }
{
    match record(alloc, handle, key) {
        Ok(state) => {
            let fit = state.writers.len().min(writers.len());
            write_writers(&state.writers[..fit], writers);
            let fit = state.readers.len().min(readers.len());
            write_readers(&state.readers[..fit], readers);
            *out = raw_key(&state);
            DONE
        }
        Err(code) => code,
    }
}
