//! What keeps two callers out of one shard? A slot that is tried once: a caller who finds its word [`FREE`] is alone in the
//! shard until he leaves it.
//!
//! A step costs one exchange of the word and one store. The shard stays where it is. The slot's tag ([`ShardTag`]) alone says
//! which shard stands there. So whoever is in a shard knows its book and its index, and compares nothing.
ghost use Rattle.std.specs.Prelude.{◌≡◌, IfOk, IfSome};
ghost use Rattle.lt_try.specs.Tags.{IsTagged};
ghost use Rattle.lt_try.specs.Slots.{StandsWhileFree, HoldsShard};

use atomic_table::{Play, Refused, Seat, Table, TableRule};
use lt_rules::KeyTable;
use lt_shard::Shard;
use lt_words::Front;
use std::alloc::{AllocError, Global};
use std::marker::Model;

/// Which shard stands in a slot: its book, its index in the book, and how many steps it may hold.
#[derive(Drop)]
pub(crate) struct ShardTag {
    pub start: Front,
    pub index: usize,
    pub max_steps: u64,
}

// The word of a slot: nobody is in the shard, or one caller is.
const FREE: u64 = 0;

const TAKEN: u64 = 1;

// A slot has more words than the one that it uses, and that one stands in their middle: so the slot has the line of cache around
// it to itself, wherever the heap puts the words. An exchange in another slot does not take this line away.
const WORDS: usize = 16;

const WORD: usize = 8;

/// The rule of a slot: the shard stands there while the word is `FREE`, and only then. It has the slot's tag.
pub(crate) struct OneCaller;

impl<T: KeyTable> TableRule<Shard<T>, ShardTag, ShardTag> for OneCaller {
    ghost holds = { λ tag s. StandsWhileFree tag s };

    ghost first = { λ tag. tag };
}

/// Whoever found the word `FREE` has taken the shard.
struct Enters;

impl<T: KeyTable> Play<Shard<T>, ShardTag> for Enters {
    ghost use Rattle.std.specs.Prelude.{◌≡◌};

    ghost then = { λ _ me found after. found ≡ 0 → HoldsShard (IsTagged me.0) after };
}

/// Whoever writes `FREE` has given the shard back.
struct Leaves;

impl<T: KeyTable> Play<Shard<T>, ShardTag> for Leaves {
    ghost use Rattle.std.specs.Prelude.{◌≡◌, []};

    ghost then = { λ _ _ _ after. after.1 ≡ [] };
}

/// Where a shard stands. In a contract, it is its tag and its identity.
#[derive(Drop)]
pub(crate) struct ShardSlot<T: KeyTable> {
    pub place: Table<Shard<T>, ShardTag, ShardTag, OneCaller, Global>,
}

impl<T: KeyTable> Model for ShardSlot<T> {
    ghost use Rattle.std.specs.Prelude.{◌≡◌};
    ghost use Rattle.lt_try.specs.Tags.{SlotState};

    ghost Value = { SlotState };

    ghost view = { λ s. record { tag = s.place.shared.key; id = s.place.shared.table_id } };

    ghost invariant = { λ s. (s.place.shared.table_id.words ≡ 16) × (s.place.shared.table_id.slots ≡ 1) };
}

/// The shard that a caller is in. `seat` lends it to him. He has to leave it: there is no other way to be rid of this value.
pub(crate) struct Inside<'a, T: KeyTable> {
    pub slot: &'a ShardSlot<T>,
    pub seat: Seat<Shard<T>, ShardTag>,
    ghost of_slot: { seat.table_id ≡ slot.now.id },
}

impl<T: KeyTable + Drop> ShardSlot<T> {
    /// The shard in a new slot, which nobody is in.
    pub(crate) fn new(
        alloc: Global,
        shard: Shard<T>,
        tag: &ShardTag,
    ) -> Result<ShardSlot<T>, AllocError>
        requires { IsTagged tag.now shard }
        ensures { IfOk result (λ slot. slot.tag ≡ tag.now) }
    {
        let mut shards = Vec::with_capacity(alloc, 1)?;
        shards.push_reserved(shard);
        match Table::new(alloc, &[FREE; WORDS], shards, tag) {
            Ok((place, _seat)) => Ok(ShardSlot { place }),
            Err(Refused { slots: _ }) => Err(AllocError),
        }
    }

    /// Goes into the shard, if nobody is in it.
    #[inline(always)]
    pub(crate) fn enter(&self) -> Option<Inside<'_, T>>
        ensures { IfSome result (λ inside. HoldsShard (IsTagged self.now.tag) inside.seat.me × (inside.slot.now ≡ self.now)) }
    {
        let (found, seat) = self.place.shared.swap_new_seat::<Enters>(WORD, TAKEN);
        if found != FREE {
            return None;
        }
        Some(Inside { slot: self, seat })
    }

    /// Puts this shard in the place of the one that stands here, and returns that one. `None`, and the shard is gone, if
    /// somebody is in it.
    pub(crate) fn replace(&self, shard: Shard<T>) -> Option<Shard<T>>
        requires { IsTagged self.now.tag shard }
        ensures { IfSome result (λ was. IsTagged self.now.tag was) }
    {
        let inside = self.enter()?;
        Some(inside.replace(shard))
    }
}

impl<'a, T: KeyTable> Inside<'a, T> {
    /// Leaves this shard in the place of the one that the caller is in, and returns that one.
    fn replace(self, shard: Shard<T>) -> Shard<T>
        requires held { HoldsShard (IsTagged self.slot.now.tag) self.seat.me }
        requires tag { IsTagged self.slot.now.tag shard }
        ensures { HoldsShard (λ v. v ≡ result) self.entry.seat.me }
    {
        let Inside { slot, mut seat } = self;
        let was = slot.place.shared.exchange(&mut seat, 0, shard);
        Inside { slot, seat }.leave();
        was
    }

    /// Leaves the shard, so that others may come.
    #[inline(always)]
    pub(crate) fn leave(self)
        requires { HoldsShard (IsTagged self.slot.now.tag) self.seat.me }
    {
        let Inside { slot, mut seat } = self;
        slot.place.shared.store::<Leaves>(&mut seat, WORD, FREE);
    }
}
