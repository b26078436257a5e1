//! What does a handle hold once a table that threads share was opened in it, or a pass was given out through it?
ghost use Rattle.std.specs.Prelude.{◌≡◌, ◌≢◌, true, false, Some, None, IfOk};
ghost use Rattle.std.specs.Option.{option_map};
ghost use Rattle.lt_walk.specs.Configs.{fault};
ghost use Rattle.lt_handles.specs.Shared.{IsNewShared, IsOpenedSo, GivesPass, GivesPassFrom, OnShared, OnPass, config_of, keeping_of, none_left, give_refusal, is_of_shared};
ghost use Rattle.lt_handles.specs.SharedCodes.{prepare_code};
ghost use Rattle.lt_handles.specs.Content.{shared_in, pass_in};
ghost use Rattle.lt_handles.specs.Codes.{IsDoneUnless};

use crate::codes::{CLOSED, DONE, MEMORY};
use crate::content::Content;
use crate::handle::Handle;
use crate::held_shared::{HeldPass, HeldShared};
use crate::seated::{SeatedTable, SharedTable};
use crate::shapes::LtConfig;
use crate::shared_codes::{NO_PASS, prepare_code};
use lt_try::{Config, Keeping, LinkedTables, Ready, TryTable, abandon_all, prepare_with};
use std::alloc::{AllocError, Global};
use std::sync::Arc;

/// The numbers with which C opens a table.
pub fn config_of(config: &LtConfig, max_steps: u64) -> Config
    ensures { result ≡ config_of config.now max_steps }
{
    Config {
        shards: config.shards,
        passes: config.passes,
        max_steps,
        max_requests: config.max_requests,
        max_waits: config.max_waits,
    }
}

/// The table with a seat for each pass.
fn seated(alloc: Global, shared: SharedTable) -> Result<SeatedTable, AllocError>
    ensures { IfOk result (λ seated. seated ≡ shared) }
{
    let seats = shared.new_seats(alloc)?;
    Ok(SeatedTable { shared, seats })
}

/// The table that was made ready, with all of its passes.
fn opened(alloc: Global, ready: Ready, start: u64) -> Result<HeldShared, AllocError>
    ensures { IfOk result (λ held. IsNewShared ready.config ready.of held) }
{
    let tables = LinkedTables { alloc, start };
    let (shared, passes) = TryTable::open_telling(alloc, ready, tables)?;
    let Ok(table) = seated(alloc, shared) else {
        abandon_all(passes);
        return Err(AllocError);
    };
    match Arc::new(alloc, table) {
        Ok(table) => Ok(HeldShared { table, passes }),
        Err(_) => {
            abandon_all(passes);
            Err(AllocError)
        }
    }
}

/// The way to keep steps that this word of C names.
pub fn keeping_of(word: u32) -> Option<Keeping>
    ensures { result ≡ keeping_of word }
{
    match word {
        0 => Some(Keeping::Unrecorded),
        1 => Some(Keeping::Streamed),
        2 => Some(Keeping::Whole),
        _ => None,
    }
}

/// Opens a table, in a closed handle.
pub fn open_closed(
    alloc: Global,
    handle: &mut Handle,
    config: Config,
    keeping: Keeping,
    start: u64,
) -> u32
    ensures refused { IsDoneUnless (option_map prepare_code (fault config)) result }
    ensures opened { result ≡ DONE → OnShared (IsOpenedSo config keeping) (shared_in handle.new.slot.held) }
    ensures kept { result ≢ DONE → handle.new.slot.held ≡ handle.old.slot.held }
{
    let ready = match prepare_with(alloc, config, keeping) {
        Ok(ready) => ready,
        Err(error) => return prepare_code(error),
    };
    let Ok(held) = opened(alloc, ready, start) else {
        return MEMORY;
    };
    let Ok(content) = Box::new(alloc, Content::Shared(held)) else {
        return MEMORY;
    };
    handle.put(content);
    DONE
}

/// Gives the next pass out, through a closed handle.
fn next_pass(alloc: Global, held: &mut HeldShared, out: &mut Handle) -> u32
    ensures given { result ≡ DONE → OnPass (GivesPass held.old held.new) (pass_in out.new.slot.held) }
    ensures refused { IsDoneUnless (none_left held.old) result }
    ensures kept { result ≢ DONE → (held.new ≡ held.old) × (out.new.slot.held ≡ out.old.slot.held) }
{
    if held.passes.is_empty() {
        return NO_PASS;
    }
    let Ok(mut given) = Box::new(alloc, Content::Nothing) else {
        return MEMORY;
    };
    let Ok(table) = Arc::try_clone(&held.table) else {
        return MEMORY;
    };
    let pass = held.passes.pop().unwrap();
    let held = HeldPass {
        table,
        pass,
        wants: Vec::new(alloc),
        answers: Vec::new(alloc),
    };
    *given = Content::Pass(held);
    out.put(given);
    DONE
}

/// The same, if the content is a shared table.
pub fn pass_from(alloc: Global, content: &mut Content, out: &mut Handle) -> u32
    ensures given { result ≡ DONE → GivesPassFrom (Some content.old) (Some content.new) out.new.slot.held }
    ensures refused { IsDoneUnless (give_refusal (Some content.old)) result }
    ensures kept { result ≢ DONE → (content.new ≡ content.old) × (out.new.slot.held ≡ out.old.slot.held) }
{
    match content {
        Content::Shared(held) => next_pass(alloc, held, out),
        _ => CLOSED,
    }
}

/// Whether the content is what a caller has of a shared table.
fn is_shared(content: &Content) -> bool
    ensures { result ≡ is_of_shared (Some content.now) }
{
    match content {
        Content::Shared(_) | Content::Pass(_) | Content::Guard(_) => true,
        Content::Ending(_) | Content::Ended(_) => true,
        Content::Table(_) | Content::Check(_) | Content::Steps(_) | Content::Nothing => false,
    }
}

/// Drops what a caller has of a shared table.
pub fn close(alloc: Global, handle: &mut Handle) -> u32
    ensures done { is_of_shared handle.old.slot.held ≡ true → (result ≡ DONE) × (handle.new.slot.held ≡ None) }
    ensures closed { is_of_shared handle.old.slot.held ≡ false → (result ≡ CLOSED) × (handle.new.slot.held ≡ handle.old.slot.held) }
{
    let Some(content) = handle.take(alloc) else {
        return CLOSED;
    };
    if !is_shared(&content) {
        handle.put(content);
        return CLOSED;
    }
    drop(content);
    DONE
}
