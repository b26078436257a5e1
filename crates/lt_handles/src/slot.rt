//! How does C hold a value that it cannot see into? [`ContentSlot`] is one pointer, null or to the block of a box. It owns what
//! the box owned. The code above it takes the box out, calls what it holds, and puts the box back, so that code needs no
//! pointer.
ghost use Rattle.std.specs.Prelude.{◌≡◌, IsSome, Some, None, Option};
ghost use Rattle.lt_handles.specs.Content.{ContentState, content_coded};
ghost use Rattle.lt_handles.specs.Slots.{slot_owns};

mod parts;

use crate::content::Content;
use parts::BoxParts;
use std::alloc::Global;
use std::marker::Model;

/// A boxed [`Content`], or nothing. A drop forgets the box, so only an empty slot may be dropped.
#[repr(C)]
#[derive(Drop)]
pub struct ContentSlot {
    at: *mut u8,
    alloc: Global,
    pub ghost held: { Option ContentState } by { content_coded },
}

impl Model for ContentSlot {
    ghost also_owns = { λ s. slot_owns s.alloc s.at s.held };
}

/// What a slot holds may go from thread to thread. The proof is `proofs/slot/ContentSlot/TheSendSync/Send.antt`.
unsafe impl Send for ContentSlot {}

impl ContentSlot {
    pub fn empty(alloc: Global) -> ContentSlot
        ensures { result.held ≡ None }
    {
        ContentSlot {
            at: std::ptr::null_mut(),
            alloc,
        }
    }

    pub fn of(content: Box<Content>) -> ContentSlot
        ensures { result.held ≡ Some content.value }
    {
        ContentSlot::of_parts(BoxParts::of(content))
    }

    fn of_parts(parts: BoxParts<Content>) -> ContentSlot
        ensures { result.held ≡ Some parts.value }
    {
        let BoxParts { at, alloc } = parts;
        ContentSlot {
            at: at as *mut u8,
            alloc,
        }
    }

    pub fn into_box(self) -> Box<Content>
        requires { IsSome self.held }
        ensures { self.held ≡ Some result.value }
    {
        let ContentSlot { at, alloc } = self;
        unsafe { Box::from_raw(alloc, at as *mut Content) }
    }
}
