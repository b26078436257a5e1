//! What is a box made of? [`BoxParts`] has its pointer and its allocator, and owns what the box owned. Only
//! `slot.rt` takes the two apart.
ghost use Rattle.std.specs.Prelude.{◌≡◌};
ghost use Rattle.lt_handles.specs.Blocks.{owns_block};

use std::alloc::Global;
use std::marker::Model;

pub struct BoxParts<T> {
    pub(super) at: *mut T,
    pub(super) alloc: Global,
    pub ghost value: { T },
}

impl<T> Model for BoxParts<T> {
    ghost also_owns = { λ p. owns_block p.alloc T.row p.at p.value };
}

impl<T: Drop> BoxParts<T> {
    pub fn of(boxed: Box<T>) -> BoxParts<T>
        ensures { result.value ≡ boxed.value }
    {
        let (at, alloc) = Box::into_raw_with_allocator(boxed);
        BoxParts { at, alloc }
    }
}
