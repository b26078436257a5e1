//! Which requests are queued at a key, and which keys have a record? Each function here that begins with `lt_table_` is
//! an export. It copies what it lists into an array of the caller, in time in proportion to what there is, and changes
//! nothing in the table.
ghost use Rattle.std.specs.Prelude.{◌≡◌, ◌≢◌, ◌≤◌, ◌++◌, Some, None, IfOk, IfErr, OnOk, length, map, drop};
ghost use Rattle.std.specs.Option.{option_copied};
ghost use Rattle.lt_rules.specs.Table.{record_at, keys_after};
ghost use Rattle.lt_handles.specs.Content.{table_in};
ghost use Rattle.lt_handles.specs.Codes.{IsDoneUnless};
ghost use Rattle.lt_handles.specs.Lists.{ListsFirst, ListsKeys, after_key, after_refusal, keys_refusal};
ghost use Rattle.lt_handles.specs.Looks.{look_refusal};
ghost use Rattle.lt_handles.specs.Shapes.{raw_reader, raw_writer, raw_key_name};
ghost use Rattle.lt_handles.specs.Steps.{OnTable};

use crate::looks::state;
use lt_handles::codes::{CLOSED, DONE, MEMORY, key_code};
use lt_handles::content::Content;
use lt_handles::handle::Handle;
use lt_handles::held::HeldTable;
use lt_handles::shapes::{LtKeyName, LtQueued, raw_key_name, raw_reader, raw_writer};
use lt_ids::Key;
use lt_rules::{QueuedRequest, QueuedWriter};
use std::alloc::Global;

/// Writes these writers to the front of the array, which has room for them.
pub(crate) fn write_writers(writers: &[QueuedWriter], array: &mut [LtQueued])
    requires { length writers.now ≤ length array.old }
    ensures { array.new ≡ map raw_writer writers.now ++ drop (length writers.now) array.old }
{
    for i in 0..writers.len() {
        array[i] = raw_writer(&writers[i]);
    }
}

/// Writes these readers to the front of the array, which has room for them.
pub(crate) fn write_readers(readers: &[QueuedRequest], array: &mut [LtQueued])
    requires { length readers.now ≤ length array.old }
    ensures { array.new ≡ map raw_reader readers.now ++ drop (length readers.now) array.old }
{
    for i in 0..readers.len() {
        array[i] = raw_reader(&readers[i]);
    }
}

/// Writes these keys to the front of the array, which has room for them.
pub(crate) fn write_keys(keys: &[Key], array: &mut [LtKeyName])
    requires { length keys.now ≤ length array.old }
    ensures { array.new ≡ map raw_key_name keys.now ++ drop (length keys.now) array.old }
{
    for i in 0..keys.len() {
        array[i] = raw_key_name(&keys[i]);
    }
}

/// The writers of the key, in the order of the queue: as many of the first as fit into the array. `count` is set to how
/// many there are.
#[unsafe(no_mangle)]
pub extern "C" fn lt_table_writers(
    alloc: Global,
    handle: &mut Handle,
    key: &[u8],
    array: &mut [LtQueued],
    count: &mut usize,
) -> u32
    ensures refused { IsDoneUnless (look_refusal (table_in handle.old.slot.held) key.now) result }
    ensures listed { result ≡ DONE → OnTable (λ h.
        ListsFirst raw_writer (record_at h.records key.now).writers array.old array.new count.new) (table_in handle.old.slot.held) }
    ensures array_kept { result ≢ DONE → array.new ≡ array.old }
    ensures count_kept { result ≢ DONE → count.new ≡ count.old }
    ensures table_kept { handle.new.slot.held ≡ handle.old.slot.held }
{
    match state(alloc, handle, key) {
        Ok(state) => {
            let fit = state.writers.len().min(array.len());
            write_writers(&state.writers[..fit], array);
            *count = state.writers.len();
            DONE
        }
        Err(code) => code,
    }
}

/// The readers of the key, the latest first: as many of these as fit into the array. `count` is set to how many there
/// are.
#[unsafe(no_mangle)]
pub extern "C" fn lt_table_readers(
    alloc: Global,
    handle: &mut Handle,
    key: &[u8],
    array: &mut [LtQueued],
    count: &mut usize,
) -> u32
    ensures refused { IsDoneUnless (look_refusal (table_in handle.old.slot.held) key.now) result }
    ensures listed { result ≡ DONE → OnTable (λ h.
        ListsFirst raw_reader (record_at h.records key.now).readers array.old array.new count.new) (table_in handle.old.slot.held) }
    ensures array_kept { result ≢ DONE → array.new ≡ array.old }
    ensures count_kept { result ≢ DONE → count.new ≡ count.old }
    ensures table_kept { handle.new.slot.held ≡ handle.old.slot.held }
{
    match state(alloc, handle, key) {
        Ok(state) => {
            let fit = state.readers.len().min(array.len());
            write_readers(&state.readers[..fit], array);
            *count = state.readers.len();
            DONE
        }
        Err(code) => code,
    }
}

/// Copies of the first keys of the table that come after this key, or after none: at most `at_most`. It fails only when
/// an allocation fails.
fn keys_behind(
    table: &HeldTable,
    alloc: Global,
    after: Option<&Key>,
    at_most: usize,
) -> Result<Vec<Key>, u32>
    ensures keys { IfOk result (λ all. all.items ≡ keys_after table.now.records (option_copied after.entry) at_most) }
    ensures refused { IfErr result (λ code. code ≡ MEMORY) }
{
    match table.keys_after(alloc, after, at_most) {
        Ok(keys) => Ok(keys),
        Err(_) => Err(MEMORY),
    }
}

/// The key after which keys are listed: the one with these bytes, or none if there are no bytes. Otherwise the code of what
/// is wrong with them.
pub(crate) fn after_key(alloc: Global, bytes: &[u8]) -> Result<Option<Key>, u32>
    ensures key { IfOk result (λ key. key ≡ after_key bytes.now) }
    ensures refused { IfErr result (λ code. IsDoneUnless (after_refusal bytes.now) code × (code ≢ DONE)) }
    ensures sound { OnOk result (after_refusal bytes.now ≡ None) }
{
    if bytes.is_empty() {
        return Ok(None);
    }
    match Key::from_bytes(alloc, bytes) {
        Ok(key) => Ok(Some(key)),
        Err(error) => Err(key_code(&error)),
    }
}

/// Copies of the first keys of the table that come after the key with these bytes, or of its first keys if there are
/// none: at most `at_most`. Otherwise the code of what went wrong.
fn next_keys(
    table: &HeldTable,
    alloc: Global,
    after: &[u8],
    at_most: usize,
) -> Result<Vec<Key>, u32>
    ensures keys { IfOk result (λ all. all.items ≡ keys_after table.now.records (after_key after.now) at_most) }
    ensures refused { IfErr result (λ code. IsDoneUnless (after_refusal after.now) code × (code ≢ DONE)) }
    ensures sound { OnOk result (after_refusal after.now ≡ None) }
{
    match after_key(alloc, after) {
        Ok(key) => keys_behind(table, alloc, key.as_ref(), at_most),
        Err(code) => Err(code),
    }
}

/// The same, if the content is a table.
fn keys_of(content: &Content, alloc: Global, after: &[u8], at_most: usize) -> Result<Vec<Key>, u32>
    ensures keys { IfOk result (λ all. OnTable (λ h. all.items ≡ keys_after h.records (after_key after.now) at_most) (table_in (Some content.now))) }
    ensures refused { IfErr result (λ code.
        IsDoneUnless (keys_refusal (table_in (Some content.now)) after.now) code × (code ≢ DONE)) }
    ensures sound { OnOk result (keys_refusal (table_in (Some content.now)) after.now ≡ None) }
{
    match content {
        Content::Table(table) => next_keys(table, alloc, after, at_most),
        _ => Err(CLOSED),
    }
}

/// The first keys that have a record and come after the key with these bytes, or the first of all if there are none:
/// as many as fit into the array, in byte order. `count` is set to how many were written. If the array has room left, no
/// key comes after them.
#[unsafe(no_mangle)]
pub extern "C" fn lt_table_keys(
    alloc: Global,
    handle: &mut Handle,
    after: &[u8],
    array: &mut [LtKeyName],
    count: &mut usize,
) -> u32
    ensures refused { IsDoneUnless (keys_refusal (table_in handle.old.slot.held) after.now) result }
    ensures listed { result ≡ DONE → OnTable (λ h. ListsKeys h after.now array.old array.new count.new) (table_in handle.old.slot.held) }
    ensures array_kept { result ≢ DONE → array.new ≡ array.old }
    ensures count_kept { result ≢ DONE → count.new ≡ count.old }
    ensures table_kept { handle.new.slot.held ≡ handle.old.slot.held }
{
    let Some(content) = handle.take(alloc) else {
        return CLOSED;
    };
    let found = keys_of(&content, alloc, after, array.len());
    handle.put(content);
    match found {
        Ok(keys) => {
            write_keys(&keys, array);
            *count = keys.len();
            DONE
        }
        Err(code) => code,
    }
}
