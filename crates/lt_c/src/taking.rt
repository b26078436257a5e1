//! How does C take a table's steps out while it runs? A pass takes those of a shard, and a handle of their own then holds them.
//! Read next `taken_steps.rt`.
ghost use Rattle.std.specs.Prelude.{◌≡◌, ◌≢◌, Some, None, IsSome, IsNone, IfOk, IfErr, OnErr};
ghost use Rattle.lt_handles.specs.Content.{pass_in};
ghost use Rattle.lt_handles.specs.Shared.{OnPasses};
ghost use Rattle.lt_handles.specs.Taking.{TakesSteps, MakesNothing, OnTake, IsTakenUnless, take_refusal, take_refusal_of, whole_refusal};

use lt_handles::codes::{CLOSED, DONE, MEMORY, OPEN_ALREADY};
use lt_handles::content::Content;
use lt_handles::handle::Handle;
use lt_handles::held_shared::HeldPass;
use lt_handles::shared_codes::{BAD_SHARD, KEPT_WHOLE, LOST, try_code};
use lt_shard::Rest;
use lt_words::Keeping;
use std::alloc::Global;

/// Why a table that keeps its steps so gives none out.
fn whole_refusal(keeping: Keeping) -> Option<u32>
    ensures { result ≡ whole_refusal keeping }
{
    match keeping {
        Keeping::Whole => Some(KEPT_WHOLE),
        Keeping::Streamed | Keeping::Unrecorded => None,
    }
}

/// Why the steps of the shard with this index are not taken through the pass.
fn take_refusal_of(by: &HeldPass, shard: usize) -> Option<u32>
    ensures { result ≡ take_refusal_of by.now shard }
{
    if shard < by.table.shared.shards() {
        whole_refusal(by.table.shared.keeping())
    } else {
        Some(BAD_SHARD)
    }
}

/// The same, if the content is a pass.
fn take_refusal(content: &Content, shard: usize) -> Option<u32>
    ensures { result ≡ take_refusal (Some content.now) shard }
{
    match content {
        Content::Pass(by) => take_refusal_of(by, shard),
        _ => Some(CLOSED),
    }
}

/// Takes the shard's steps out through the pass.
fn take_by(by: &mut HeldPass, alloc: Global, shard: usize) -> Result<Rest, u32>
    requires { take_refusal_of by.old shard ≡ None }
    ensures taken { IfOk result (λ rest. TakesSteps shard rest by.old by.new) }
    ensures kept { IfErr result (λ code. code ≢ LOST → by.new ≡ by.old) }
    ensures lost { OnErr result (MakesNothing by.old by.new) }
    ensures refused { IfErr result (λ code. IsTakenUnless None code × (code ≢ DONE)) }
{
    let mut entries = Vec::new(alloc);
    match by
        .table
        .shared
        .take_history(&mut by.pass, shard, &mut entries)
    {
        Ok(from) => Ok(Rest { from, entries }),
        Err(error) => Err(try_code(error)),
    }
}

/// The same through the content, which is a pass.
fn take_at(content: &mut Content, alloc: Global, shard: usize) -> Result<Rest, u32>
    requires { take_refusal (Some content.old) shard ≡ None }
    ensures taken { IfOk result (λ rest. OnPasses (TakesSteps shard rest) (pass_in (Some content.old)) (pass_in (Some content.new))) }
    ensures kept { IfErr result (λ code. code ≢ LOST → content.new ≡ content.old) }
    ensures lost { OnErr result (OnPasses MakesNothing (pass_in (Some content.old)) (pass_in (Some content.new))) }
    ensures refused { IfErr result (λ code. IsTakenUnless None code × (code ≢ DONE)) }
{
    match content {
        Content::Pass(by) => take_by(by, alloc, shard),
        _ => unreachable!(),
    }
}

/// Takes the shard's steps out, and puts them into a closed handle. Its box is made before, so that no step is lost if there is no
/// memory for it.
fn take_to(content: &mut Content, alloc: Global, shard: usize, out: &mut Handle) -> u32
    ensures taken { result ≡ DONE → OnTake (TakesSteps shard) (Some content.old) (Some content.new) out.new.slot.held }
    ensures kept { result ≢ DONE → result ≢ LOST → content.new ≡ content.old }
    ensures lost { result ≡ LOST → OnPasses MakesNothing (pass_in (Some content.old)) (pass_in (Some content.new)) }
    ensures out_kept { result ≢ DONE → out.new.slot.held ≡ out.old.slot.held }
    ensures refused { IsTakenUnless (take_refusal (Some content.old) shard) result }
{
    if let Some(code) = take_refusal(content, shard) {
        return code;
    }
    let Ok(mut given) = Box::new(alloc, Content::Nothing) else {
        return MEMORY;
    };
    match take_at(content, alloc, shard) {
        Ok(rest) => {
            *given = Content::Steps(rest);
            out.put(given);
            DONE
        }
        Err(code) => code,
    }
}

/// Takes the steps out that the shard with this index holds, and puts them into a handle of their own, which is closed.
#[unsafe(no_mangle)]
pub extern "C" fn lt_pass_take(
    alloc: Global,
    handle: &mut Handle,
    shard: usize,
    out: &mut Handle,
) -> u32
    ensures open_already { IsSome out.old.slot.held → result ≡ OPEN_ALREADY }
    ensures refused { IsNone out.old.slot.held → IsTakenUnless (take_refusal handle.old.slot.held shard) result }
    ensures taken { result ≡ DONE → OnTake (TakesSteps shard) handle.old.slot.held handle.new.slot.held out.new.slot.held }
    ensures kept { result ≢ DONE → result ≢ LOST → handle.new.slot.held ≡ handle.old.slot.held }
    ensures lost { result ≡ LOST → OnPasses MakesNothing (pass_in handle.old.slot.held) (pass_in handle.new.slot.held) }
    ensures out_kept { result ≢ DONE → out.new.slot.held ≡ out.old.slot.held }
{
    if out.is_open() {
        return OPEN_ALREADY;
    }
    let Some(mut content) = handle.take(alloc) else {
        return CLOSED;
    };
    let code = take_to(&mut content, alloc, shard, out);
    handle.put(content);
    code
}
