//! What does C see of a key? Each function here that begins with `lt_table_` is an export. It looks at one key, and
//! changes nothing in the table. Lets that are left do not keep C from looking. Read next `lists.rt`.
ghost use Rattle.std.specs.Prelude.{◌≡◌, ◌≢◌, ◌≤◌, ◌<◌, Some, None, IfOk, IfErr, OnOk, length};
ghost use Rattle.lt_rules.specs.Table.{record_at};
ghost use Rattle.lt_handles.specs.Content.{table_in};
ghost use Rattle.lt_handles.specs.Codes.{IsReplyUnless, IsDoneUnless};
ghost use Rattle.lt_handles.specs.Looks.{bytes_refusal, look_refusal, Looks, ShowsKey};
ghost use Rattle.lt_handles.specs.Steps.{OnTable};

use lt_handles::codes::{CLOSED, DONE, FIRST_REPLY, MEMORY, key_code, reply_code, reply_txn};
use lt_handles::content::Content;
use lt_handles::handle::Handle;
use lt_handles::held::HeldTable;
use lt_handles::shapes::{LtKey, raw_key};
use lt_ids::Key;
use lt_rules::KeyState;
use std::alloc::Global;

/// What the request with this number finds at the key.
fn look(table: &HeldTable, alloc: Global, key: &[u8], number: u64, txn: &mut u64) -> u32
    ensures refused { IsReplyUnless (bytes_refusal key.now) result }
    ensures looked { FIRST_REPLY ≤ result → Looks key.now number result txn.new table.now }
    ensures out_kept { result < FIRST_REPLY → txn.new ≡ txn.old }
    ensures short_key { length key.now ≤ 22 → result ≢ MEMORY }
{
    match Key::from_bytes(alloc, key) {
        Ok(key) => {
            let reply = table.look(&key, number);
            *txn = reply_txn(&reply);
            reply_code(&reply)
        }
        Err(error) => key_code(&error),
    }
}

/// A copy of the record of the key with these bytes, or the code of what went wrong.
fn copied_state(table: &HeldTable, alloc: Global, key: &[u8]) -> Result<KeyState, u32>
    ensures state { IfOk result (λ state. state ≡ record_at table.now.records key.now) }
    ensures refused { IfErr result (λ code. IsDoneUnless (bytes_refusal key.now) code × (code ≢ DONE)) }
    ensures sound { OnOk result (bytes_refusal key.now ≡ None) }
{
    match Key::from_bytes(alloc, key) {
        Ok(key) => table.state(alloc, &key).map_err(|_| MEMORY),
        Err(error) => Err(key_code(&error)),
    }
}

/// The same, if the content is a table.
fn state_of(content: &Content, alloc: Global, key: &[u8]) -> Result<KeyState, u32>
    ensures state { IfOk result (λ state. OnTable (λ h. state ≡ record_at h.records key.now) (table_in (Some content.now))) }
    ensures refused { IfErr result (λ code.
        IsDoneUnless (look_refusal (table_in (Some content.now)) key.now) code × (code ≢ DONE)) }
    ensures sound { OnOk result (look_refusal (table_in (Some content.now)) key.now ≡ None) }
{
    match content {
        Content::Table(table) => copied_state(table, alloc, key),
        _ => Err(CLOSED),
    }
}

/// The same of what a handle holds.
pub(crate) fn state(alloc: Global, handle: &mut Handle, key: &[u8]) -> Result<KeyState, u32>
    ensures state { IfOk result (λ state. OnTable (λ h. state ≡ record_at h.records key.now) (table_in handle.old.slot.held)) }
    ensures refused { IfErr result (λ code.
        IsDoneUnless (look_refusal (table_in handle.old.slot.held) key.now) code × (code ≢ DONE)) }
    ensures sound { OnOk result (look_refusal (table_in handle.old.slot.held) key.now ≡ None) }
    ensures table_kept { handle.new.slot.held ≡ handle.old.slot.held }
{
    let Some(content) = handle.take(alloc) else {
        return Err(CLOSED);
    };
    let found = state_of(&content, alloc, key);
    handle.put(content);
    found
}

/// The same, if the content is a table.
fn look_in(content: &Content, alloc: Global, key: &[u8], number: u64, txn: &mut u64) -> u32
    ensures refused { IsReplyUnless (look_refusal (table_in (Some content.now)) key.now) result }
    ensures looked { FIRST_REPLY ≤ result → OnTable (Looks key.now number result txn.new) (table_in (Some content.now)) }
    ensures out_kept { result < FIRST_REPLY → txn.new ≡ txn.old }
    ensures short_key { length key.now ≤ 22 → result ≢ MEMORY }
{
    match content {
        Content::Table(table) => look(table, alloc, key, number, txn),
        _ => CLOSED,
    }
}

/// The answer to a look by the request with this number. `txn` is set to the transaction that the answer names, or
/// to 0.
#[unsafe(no_mangle)]
pub extern "C" fn lt_table_look(
    alloc: Global,
    handle: &mut Handle,
    key: &[u8],
    number: u64,
    txn: &mut u64,
) -> u32
    ensures refused { IsReplyUnless (look_refusal (table_in handle.old.slot.held) key.now) result }
    ensures looked { FIRST_REPLY ≤ result → OnTable (Looks key.now number result txn.new) (table_in handle.old.slot.held) }
    ensures out_kept { result < FIRST_REPLY → txn.new ≡ txn.old }
    ensures short_key { length key.now ≤ 22 → result ≢ MEMORY }
    ensures table_kept { handle.new.slot.held ≡ handle.old.slot.held }
{
    let Some(content) = handle.take(alloc) else {
        return CLOSED;
    };
    let code = look_in(&content, alloc, key, number, txn);
    handle.put(content);
    code
}

/// What the table knows of the key.
#[unsafe(no_mangle)]
pub extern "C" fn lt_table_key(
    alloc: Global,
    handle: &mut Handle,
    key: &[u8],
    out: &mut LtKey,
) -> u32
    ensures refused { IsDoneUnless (look_refusal (table_in handle.old.slot.held) key.now) result }
    ensures shown { result ≡ DONE → OnTable (ShowsKey key.now out.new) (table_in handle.old.slot.held) }
    ensures out_kept { result ≢ DONE → out.new ≡ out.old }
    ensures table_kept { handle.new.slot.held ≡ handle.old.slot.held }
{
    match state(alloc, handle, key) {
        Ok(state) => {
            *out = raw_key(&state);
            DONE
        }
        Err(code) => code,
    }
}
