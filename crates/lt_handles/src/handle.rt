//! What does C hold? [`Handle`] is a flag and a pointer, all zero at first. Each call takes the content out of the
//! handle, and puts it back before it returns.
ghost use Rattle.std.specs.Prelude.{◌≡◌, ◌≢◌, ◌≤◌, ◌<◌, Some, None, IfSome, IfNone, is_some};
ghost use Rattle.lt_handles.specs.Content.{table_in};
ghost use Rattle.lt_handles.specs.Steps.{step_refusal, OnHandle, OnTable, MakesStep, AllocatesNothing, GivesUp, KeepsOut};
ghost use Rattle.lt_handles.specs.Calls.{act_of};
ghost use Rattle.lt_handles.specs.Codes.{IsReplyUnless};

use crate::codes::{CLOSED, FIRST_REPLY, MEMORY};
use crate::content::Content;
use crate::pass_call::PassCall;
use crate::shapes::LtThrough;
use crate::slot::ContentSlot;
use std::alloc::Global;
use std::mem;

/// `struct lt_table { bool is_open; void *at; }` of C, and each other struct of that form. In a contract, `slot.held` is
/// what the handle holds, or `None` while it is closed.
#[repr(C)]
#[derive(Drop)]
pub struct Handle {
    is_open: bool,
    pub slot: ContentSlot,
    ghost tells: { is_some slot.held ≡ is_open },
}

/// Makes the call at the key with these bytes, if the content is a table, and gives its lets.
fn step_content(
    content: &mut Content,
    alloc: Global,
    key: &[u8],
    by: &PassCall,
    lets: &mut [LtThrough],
    count: &mut usize,
) -> u32
    ensures refused { IsReplyUnless (step_refusal (table_in (Some content.old)) key.now) result }
    ensures stepped { FIRST_REPLY ≤ result → OnHandle
        (MakesStep key.now (act_of by.now) result lets.old lets.new count.new)
        (table_in (Some content.old)) (table_in (Some content.new)) }
    ensures table_kept { result < FIRST_REPLY → content.new ≡ content.old }
    ensures out_kept { result < FIRST_REPLY → KeepsOut lets.old lets.new count.old count.new }
    ensures no_memory { OnTable (AllocatesNothing key.now (act_of by.now)) (table_in (Some content.old)) → result ≢ MEMORY }
    ensures gives_up { OnTable (GivesUp key.now by.now.call) (table_in (Some content.old)) → result ≢ MEMORY }
{
    match content {
        Content::Table(table) => table.step(alloc, key, by, lets, count),
        _ => CLOSED,
    }
}

impl Handle {
    pub fn is_open(&self) -> bool
        ensures { result ≡ is_some self.now.slot.held }
    {
        self.is_open
    }

    /// Takes the content out, if there is any. The handle is then closed.
    pub fn take(&mut self, alloc: Global) -> Option<Box<Content>>
        ensures some { IfSome result (λ content. self.old.slot.held ≡ Some content.value) }
        ensures none { IfNone result (self.old.slot.held ≡ None) }
        ensures closed { self.new.slot.held ≡ None }
    {
        if !self.is_open {
            return None;
        }
        let slot = mem::replace(&mut self.slot, ContentSlot::empty(alloc));
        self.is_open = false;
        Some(slot.into_box())
    }

    /// Puts something into a closed handle.
    pub fn put(&mut self, content: Box<Content>)
        ensures { self.new.slot.held ≡ Some content.value }
    {
        self.slot = ContentSlot::of(content);
        self.is_open = true;
    }

    /// Makes the call at the key with these bytes, and gives its lets.
    pub fn step(
        &mut self,
        alloc: Global,
        key: &[u8],
        by: &PassCall,
        lets: &mut [LtThrough],
        count: &mut usize,
    ) -> u32
        ensures refused { IsReplyUnless (step_refusal (table_in self.old.slot.held) key.now) result }
        ensures stepped { FIRST_REPLY ≤ result → OnHandle
            (MakesStep key.now (act_of by.now) result lets.old lets.new count.new)
            (table_in self.old.slot.held) (table_in self.new.slot.held) }
        ensures table_kept { result < FIRST_REPLY → self.new.slot.held ≡ self.old.slot.held }
        ensures out_kept { result < FIRST_REPLY → KeepsOut lets.old lets.new count.old count.new }
        ensures no_memory { OnTable (AllocatesNothing key.now (act_of by.now)) (table_in self.old.slot.held) → result ≢ MEMORY }
        ensures gives_up { OnTable (GivesUp key.now by.now.call) (table_in self.old.slot.held) → result ≢ MEMORY }
    {
        let Some(mut content) = self.take(alloc) else {
            return CLOSED;
        };
        let code = step_content(&mut content, alloc, key, by, lets, count);
        self.put(content);
        code
    }
}
