//! Which steps does a shard store?
ghost use Rattle.std.specs.Prelude.{◌≡◌, ◌+◌, ◌<◌, ◌↔◌, ◌^◌, [], false, IsTrue, IsSome, IsOk, OnOk, length, vec_len, vec_capacity};
ghost use Rattle.lt_shard.specs.Shards.{is_recorded, IsCopied, IsSpareFor, Keeps};

use crate::making::MadeStep;
use lt_entry::{Entry, Lets, LetsRoom};
use lt_ids::{Key, Through};
use lt_words::Keeping;
use std::alloc::{AllocError, Global};
use std::mem;

/// What is left of a shard's steps.
#[derive(Drop)]
pub struct Rest {
    /// How many steps were made of the shard before these.
    pub from: u64,
    /// The steps from there on, in order.
    pub entries: Vec<Entry>,
}

/// Whether steps are stored.
pub(crate) fn is_recorded(keeping: Keeping) -> bool
    ensures { result ≡ is_recorded keeping }
{
    match keeping {
        Keeping::Whole | Keeping::Streamed => true,
        Keeping::Unrecorded => false,
    }
}

/// What entries need besides the room in the list of stored steps. Everything is allocated before a step is made.
#[derive(Drop)]
pub(crate) struct Spare {
    alloc: Global,
    /// The copy of a key of more than 22 bytes. A shorter key is copied once the step is made: that needs no memory.
    long: Option<Key>,
    /// Room for the lets of the next step that has any, once a step has been stored.
    room: Option<LetsRoom>,
}

/// Whether a copy of the key may need memory.
#[inline(always)]
fn is_long(key: &Key) -> bool
    ensures { IsTrue result ↔ 22 < length key.now }
{
    key.as_bytes().len() > 22
}

impl Spare {
    pub fn none(alloc: Global) -> Spare {
        Spare {
            alloc,
            long: None,
            room: None,
        }
    }

    /// Copies the key if a copy of it needs memory.
    #[inline(always)]
    fn copy_long(&mut self, key: &Key) -> Result<(), AllocError>
        ensures copy { OnOk result (IsCopied key.now self.new.long) }
        ensures room { self.new.room ≡ self.old.room }
    {
        if is_long(key) {
            self.long = Some(key.copy()?);
        }
        Ok(())
    }

    /// Allocates room for the lets of an entry, unless there is some.
    #[inline(always)]
    fn make_lets_room(&mut self) -> Result<(), AllocError>
        ensures { OnOk result (IsSome self.new.room) }
    {
        if self.room.is_none() {
            self.room = Some(LetsRoom::new(self.alloc)?);
        }
        Ok(())
    }
}

/// A copy of the key, which needs no more memory.
#[inline(always)]
fn copied(key: &Key, long: &mut Option<Key>) -> Key
    requires { IsCopied key.now long.old }
    ensures { result ≡ key.now }
{
    if is_long(key) {
        long.take().unwrap()
    } else {
        key.copy().unwrap()
    }
}

/// Allocates room for one more step and what its entry needs, if steps are recorded.
#[inline(always)]
pub(crate) fn make_room(
    recorded: bool,
    key: &Key,
    held: &mut Vec<Entry>,
    spare: &mut Spare,
) -> Result<(), AllocError>
    ensures items { held.new.items ≡ held.old.items }
    ensures no_memory { recorded ≡ false → IsOk result }
    ensures room { OnOk result (IsTrue recorded → vec_len held.new < vec_capacity held.new) }
    ensures ready { OnOk result (IsTrue recorded → IsSpareFor key.now spare.new) }
{
    if !recorded {
        return Ok(());
    }
    held.reserve(1)?;
    spare.make_lets_room()?;
    spare.copy_long(key)
}

/// The lets as an entry keeps them: a list that is much too long for them is cut.
fn cut(mut lets: Vec<Through>) -> Vec<Through>
    ensures { result.items ≡ lets.items }
{
    if lets.capacity() / 4 > lets.len() {
        lets.shrink_to_fit();
    }
    lets
}

/// Puts the lets into the room. The list is then empty.
#[inline(never)]
fn filled(alloc: Global, lets: &mut Vec<Through>, room: &mut Option<LetsRoom>) -> Lets
    requires { IsSome room.old }
    ensures lets { result ≡ lets.old.items }
    ensures empty { lets.new.items ≡ [] }
{
    let all = mem::replace(lets, Vec::new(alloc));
    room.take().unwrap().fill(cut(all))
}

/// The lets as an entry takes them. The list is then empty.
#[inline(always)]
fn stored(alloc: Global, lets: &mut Vec<Through>, room: &mut Option<LetsRoom>) -> Lets
    requires { IsSome room.old }
    ensures lets { result ≡ lets.old.items }
    ensures empty { lets.new.items ≡ [] }
{
    if lets.is_empty() {
        return Lets::none(alloc);
    }
    filled(alloc, lets, room)
}

/// Stores one more step if steps are recorded. Otherwise counts it among those that are not held.
#[inline(always)]
pub(crate) fn keep(
    recorded: bool,
    before: &mut u64,
    held: &mut Vec<Entry>,
    spare: &mut Spare,
    lets: &mut Vec<Through>,
    step: MadeStep<'_>,
)
    requires room { IsTrue recorded → vec_len held.old < vec_capacity held.old }
    requires ready { IsTrue recorded → IsSpareFor step.key.now spare.old }
    requires lets { lets.old.items ≡ step.entry.lets }
    requires few { before.old + 1 < 2 ^ 64 }
    ensures keeps { Keeps recorded before.old held.old.items step.entry.entry before.new held.new.items }
    ensures empty { lets.new.items ≡ [] }
    // A list whose lets are not stored keeps its room.
    ensures kept { recorded ≡ false → vec_capacity lets.new ≡ vec_capacity lets.old }
{
    if !recorded {
        *before += 1;
        lets.clear();
        return;
    }
    let MadeStep {
        entry,
        key,
        call,
        reply,
        ..
    } = step;
    let key = copied(key, &mut spare.long);
    let lets = stored(spare.alloc, lets, &mut spare.room);
    held.push_reserved(Entry::new(key, entry.pass(), call, reply, lets));
}
