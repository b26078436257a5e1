//! Which keys of a shard of a shared table have a record? A pass asks, and has then seen the steps after which they have one.
ghost use Rattle.std.specs.Prelude.{◌≡◌, ◌≢◌, ◌<◌, Some, None, IfOk, IfErr, OnErr, length};
ghost use Rattle.std.specs.Option.{option_copied};
ghost use Rattle.lt_words.specs.History.{part};
ghost use Rattle.lt_words.specs.Row.{SeesMore};
ghost use Rattle.lt_shard.specs.Shards.{AreLockedKeysAfter};
ghost use Rattle.lt_handles.specs.Content.{pass_in};
ghost use Rattle.lt_handles.specs.Lists.{after_key, after_refusal};
ghost use Rattle.lt_handles.specs.PassLooks.{SeesKeys, ListsShard, keys_refusal_at};
ghost use Rattle.lt_handles.specs.Shared.{OnPasses, IsSeenUnless};

use crate::lists::{after_key, write_keys};
use lt_handles::codes::{CLOSED, DONE, FIRST_REPLY};
use lt_handles::content::Content;
use lt_handles::handle::Handle;
use lt_handles::held_shared::HeldPass;
use lt_handles::shapes::LtKeyName;
use lt_handles::shared_codes::{BAD_SHARD, try_code};
use lt_ids::Key;
use std::alloc::Global;

/// Copies of the first keys of the shard that have a record and come after this key, or after none: at most `at_most`.
fn keys_behind(
    by: &mut HeldPass,
    shard: usize,
    after: Option<&Key>,
    at_most: usize,
) -> Result<Vec<Key>, u32>
    requires { shard < by.old.pass.of.shards }
    ensures keys { IfOk result (λ all. AreLockedKeysAfter (part shard by.new.pass.seen) (option_copied after.entry) at_most all.items) }
    ensures more { SeesMore by.old.pass by.new.pass }
    ensures wants { by.new.wants ≡ by.old.wants }
    ensures table { by.new.table ≡ by.old.table }
    ensures kept { OnErr result (by.new ≡ by.old) }
    ensures refused { IfErr result (λ code. IsSeenUnless None code × (code < FIRST_REPLY) × (code ≢ DONE)) }
{
    match by
        .table
        .shared
        .locked_keys_after(&mut by.pass, shard, after, at_most)
    {
        Ok(keys) => Ok(keys),
        Err(error) => Err(try_code(error)),
    }
}

/// The same after the key with these bytes, or after none if there are no bytes.
fn keys_by(
    by: &mut HeldPass,
    alloc: Global,
    shard: usize,
    after: &[u8],
    at_most: usize,
) -> Result<Vec<Key>, u32>
    ensures keys { IfOk result (λ all. SeesKeys shard after.now at_most all.items by.old by.new) }
    ensures kept { OnErr result (by.new ≡ by.old) }
    ensures refused { IfErr result (λ code. IsSeenUnless (keys_refusal_at (Some by.old) shard after.now) code × (code < FIRST_REPLY) × (code ≢ DONE)) }
{
    if shard >= by.table.shared.shards() {
        return Err(BAD_SHARD);
    }
    match after_key(alloc, after) {
        Ok(key) => keys_behind(by, shard, key.as_ref(), at_most),
        Err(code) => Err(code),
    }
}

/// The same, if the content is a pass.
fn keys_of(
    content: &mut Content,
    alloc: Global,
    shard: usize,
    after: &[u8],
    at_most: usize,
) -> Result<Vec<Key>, u32>
    ensures keys { IfOk result (λ all. OnPasses (SeesKeys shard after.now at_most all.items) (pass_in (Some content.old)) (pass_in (Some content.new))) }
    ensures kept { OnErr result (content.new ≡ content.old) }
    ensures refused { IfErr result (λ code. IsSeenUnless (keys_refusal_at (pass_in (Some content.old)) shard after.now) code × (code < FIRST_REPLY) × (code ≢ DONE)) }
{
    match content {
        Content::Pass(by) => keys_by(by, alloc, shard, after, at_most),
        _ => Err(CLOSED),
    }
}

/// The same, if the handle holds a pass.
fn keys_through(
    alloc: Global,
    handle: &mut Handle,
    shard: usize,
    after: &[u8],
    at_most: usize,
) -> Result<Vec<Key>, u32>
    ensures keys { IfOk result (λ all. OnPasses (SeesKeys shard after.now at_most all.items) (pass_in handle.old.slot.held) (pass_in handle.new.slot.held)) }
    ensures kept { OnErr result (handle.new.slot.held ≡ handle.old.slot.held) }
    ensures refused { IfErr result (λ code. IsSeenUnless (keys_refusal_at (pass_in handle.old.slot.held) shard after.now) code × (code < FIRST_REPLY) × (code ≢ DONE)) }
{
    let Some(mut content) = handle.take(alloc) else {
        return Err(CLOSED);
    };
    let found = keys_of(&mut content, alloc, shard, after, at_most);
    handle.put(content);
    found
}

/// The first keys of the shard with this index that have a record and come after the key with these bytes, or the first of all
/// if there are none: as many as fit into the array, in byte order. `count` is set to how many were written. If the array has
/// room left, no key of the shard comes after them.
#[unsafe(no_mangle)]
pub extern "C" fn lt_pass_keys(
    alloc: Global,
    handle: &mut Handle,
    shard: usize,
    after: &[u8],
    array: &mut [LtKeyName],
    count: &mut usize,
) -> u32
    ensures listed { result ≡ DONE → OnPasses (ListsShard shard after.now array.old array.new count.new) (pass_in handle.old.slot.held) (pass_in handle.new.slot.held) }
    ensures refused { result ≢ DONE → IsSeenUnless (keys_refusal_at (pass_in handle.old.slot.held) shard after.now) result × (result < FIRST_REPLY) }
    ensures kept { result ≢ DONE → handle.new.slot.held ≡ handle.old.slot.held }
    ensures out_kept { result ≢ DONE → (array.new ≡ array.old) × (count.new ≡ count.old) }
{
    match keys_through(alloc, handle, shard, after, array.len()) {
        Ok(keys) => {
            write_keys(&keys, array);
            *count = keys.len();
            DONE
        }
        Err(code) => code,
    }
}
