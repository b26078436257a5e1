//! How does C make a step of a transaction in a shared table? Through the handle of a pass, or of a request, which stays as it
//! is. A step is made, or it is refused and nothing has changed.
ghost use Rattle.std.specs.Prelude.{◌≡◌, ◌≢◌, ◌≤◌, ◌<◌, Some, None, true, length};
ghost use Rattle.std.specs.Arc.{arc_value};
ghost use Rattle.lt_rules.specs.Memory.{gives_up};
ghost use Rattle.lt_words.specs.declared.keeping.Keeping.TheVariants.{Unrecorded};
ghost use Rattle.lt_entry.specs.Ranges.{NamesNumber};
ghost use Rattle.lt_rules.specs.declared.call.Call.TheVariants.{Acquire, Update, Finish};
ghost use Rattle.lt_handles.specs.Content.{guard_in};
ghost use Rattle.lt_handles.specs.Shapes.{txn_time};
ghost use Rattle.lt_handles.specs.Shared.{MadeCall, OnCaller, OnGuards, LookTells, SeesLegal, IsTriedUnless, keeping_behind, caller_refusal, caller_txn_refusal, index_refusal};
ghost use Rattle.lt_handles.specs.Looks.{bytes_refusal};

use lt_handles::codes::{BAD_TXN, CLOSED, FIRST_REPLY, MEMORY, key_code, reply_code, reply_txn};
use lt_handles::content::Content;
use lt_handles::handle::Handle;
use lt_handles::held_shared::{HeldGuard, HeldPass};
use lt_handles::shapes::{LtTxn, txn_time};
use lt_handles::shared_codes::{BAD_INDEX, try_code};
use lt_ids::{Key, TxnId};
use lt_rules::Call;
use lt_walk::{KeySteps, step_in};
use std::alloc::Global;

/// Makes the call at the key with these bytes, through a pass.
fn step_of_pass(by: &mut HeldPass, alloc: Global, key: &[u8], call: &Call) -> u32
    requires number { NamesNumber call.now }
    ensures made { FIRST_REPLY ≤ result → MadeCall key.now call.now result by.old.pass by.new.pass }
    ensures wants { by.new.wants ≡ by.old.wants }
    ensures table { by.new.table ≡ by.old.table }
    ensures kept { result < FIRST_REPLY → by.new ≡ by.old }
    ensures refused { IsTriedUnless (arc_value by.old.table).of.keeping (bytes_refusal key.now) result }
    ensures gives_up { (arc_value by.old.table).of.keeping ≡ Unrecorded → length key.now ≤ 22 → gives_up call.now ≡ true → result ≢ MEMORY }
{
    let key = match Key::from_bytes(alloc, key) {
        Ok(key) => key,
        Err(error) => return key_code(&error),
    };
    match by.table.shared.step(&mut by.pass, &key, call) {
        Ok(answer) => reply_code(&answer.reply),
        Err(error) => try_code(error),
    }
}

/// The same through the pass of a request.
fn step_of_guard(by: &mut HeldGuard, alloc: Global, key: &[u8], call: &Call) -> u32
    requires number { NamesNumber call.now }
    ensures made { FIRST_REPLY ≤ result → MadeCall key.now call.now result by.old.guard.pass by.new.guard.pass }
    ensures walk { by.new.guard.walk ≡ by.old.guard.walk }
    ensures table { by.new.table ≡ by.old.table }
    ensures kept { result < FIRST_REPLY → by.new ≡ by.old }
    ensures refused { IsTriedUnless (arc_value by.old.table).of.keeping (bytes_refusal key.now) result }
    ensures gives_up { (arc_value by.old.table).of.keeping ≡ Unrecorded → length key.now ≤ 22 → gives_up call.now ≡ true → result ≢ MEMORY }
{
    let key = match Key::from_bytes(alloc, key) {
        Ok(key) => key,
        Err(error) => return key_code(&error),
    };
    match step_in(&by.table.shared, &mut by.guard, &key, call) {
        Ok(answer) => reply_code(&answer.reply),
        Err(error) => try_code(error),
    }
}

/// The same, if the content is a pass or a request.
fn step_by(content: &mut Content, alloc: Global, key: &[u8], call: &Call) -> u32
    requires number { NamesNumber call.now }
    ensures made { FIRST_REPLY ≤ result → OnCaller (MadeCall key.now call.now result) (Some content.old) (Some content.new) }
    ensures kept { result < FIRST_REPLY → content.new ≡ content.old }
    ensures refused { IsTriedUnless (keeping_behind (Some content.old)) (caller_refusal (Some content.old) key.now) result }
    ensures gives_up { keeping_behind (Some content.old) ≡ Unrecorded → length key.now ≤ 22 → gives_up call.now ≡ true → result ≢ MEMORY }
{
    match content {
        Content::Pass(by) => step_of_pass(by, alloc, key, call),
        Content::Guard(by) => step_of_guard(by, alloc, key, call),
        _ => CLOSED,
    }
}

/// The same, if the handle holds one.
fn step_through(alloc: Global, handle: &mut Handle, key: &[u8], call: &Call) -> u32
    requires number { NamesNumber call.now }
    ensures made { FIRST_REPLY ≤ result → OnCaller (MadeCall key.now call.now result) handle.old.slot.held handle.new.slot.held }
    ensures kept { result < FIRST_REPLY → handle.new.slot.held ≡ handle.old.slot.held }
    ensures refused { IsTriedUnless (keeping_behind handle.old.slot.held) (caller_refusal handle.old.slot.held key.now) result }
    ensures gives_up { keeping_behind handle.old.slot.held ≡ Unrecorded → length key.now ≤ 22 → gives_up call.now ≡ true → result ≢ MEMORY }
    ensures legal { FIRST_REPLY ≤ result → SeesLegal handle.new.slot.held }
{
    let Some(mut content) = handle.take(alloc) else {
        return CLOSED;
    };
    let code = step_by(&mut content, alloc, key, call);
    content.legal();
    handle.put(content);
    code
}

/// The transaction takes the lock, or raises the timestamp of the lock that it holds.
#[unsafe(no_mangle)]
pub extern "C" fn lt_pass_acquire(alloc: Global, handle: &mut Handle, key: &[u8], by: &LtTxn) -> u32
    ensures made { FIRST_REPLY ≤ result →
        OnCaller (MadeCall key.now (Acquire by.now.txn (txn_time by.now)) result) handle.old.slot.held handle.new.slot.held }
    ensures kept { result < FIRST_REPLY → handle.new.slot.held ≡ handle.old.slot.held }
    ensures refused { IsTriedUnless (keeping_behind handle.old.slot.held) (caller_txn_refusal by.now.txn handle.old.slot.held key.now) result }
    ensures legal { FIRST_REPLY ≤ result → SeesLegal handle.new.slot.held }
{
    let Some(txn) = TxnId::new(by.txn) else {
        return BAD_TXN;
    };
    let ts = txn_time(by);
    step_through(alloc, handle, key, &Call::Acquire { txn, ts })
}

/// The holder raises its timestamp.
#[unsafe(no_mangle)]
pub extern "C" fn lt_pass_update(alloc: Global, handle: &mut Handle, key: &[u8], by: &LtTxn) -> u32
    ensures made { FIRST_REPLY ≤ result →
        OnCaller (MadeCall key.now (Update by.now.txn (txn_time by.now)) result) handle.old.slot.held handle.new.slot.held }
    ensures kept { result < FIRST_REPLY → handle.new.slot.held ≡ handle.old.slot.held }
    ensures refused { IsTriedUnless (keeping_behind handle.old.slot.held) (caller_txn_refusal by.now.txn handle.old.slot.held key.now) result }
    ensures gives_up { keeping_behind handle.old.slot.held ≡ Unrecorded → length key.now ≤ 22 → result ≢ MEMORY }
    ensures legal { FIRST_REPLY ≤ result → SeesLegal handle.new.slot.held }
{
    let Some(txn) = TxnId::new(by.txn) else {
        return BAD_TXN;
    };
    let ts = txn_time(by);
    step_through(alloc, handle, key, &Call::Update { txn, ts })
}

/// The holder releases the lock.
#[unsafe(no_mangle)]
pub extern "C" fn lt_pass_finish(alloc: Global, handle: &mut Handle, key: &[u8], txn: u64) -> u32
    ensures made { FIRST_REPLY ≤ result → OnCaller (MadeCall key.now (Finish txn) result) handle.old.slot.held handle.new.slot.held }
    ensures kept { result < FIRST_REPLY → handle.new.slot.held ≡ handle.old.slot.held }
    ensures refused { IsTriedUnless (keeping_behind handle.old.slot.held) (caller_txn_refusal txn handle.old.slot.held key.now) result }
    // In a table that stores no step a lock can always be given up.
    ensures gives_up { keeping_behind handle.old.slot.held ≡ Unrecorded → length key.now ≤ 22 → result ≢ MEMORY }
    ensures legal { FIRST_REPLY ≤ result → SeesLegal handle.new.slot.held }
{
    let Some(txn) = TxnId::new(txn) else {
        return BAD_TXN;
    };
    step_through(alloc, handle, key, &Call::Finish { txn })
}

/// What the request finds at the key with this index in its list.
fn look(held: &mut HeldGuard, index: usize, txn: &mut u64) -> u32
    ensures looked { FIRST_REPLY ≤ result → LookTells index result txn.new held.old held.new }
    ensures kept { result < FIRST_REPLY → (held.new ≡ held.old) × (txn.new ≡ txn.old) }
    ensures refused { IsTriedUnless (arc_value held.old.table).of.keeping (index_refusal (Some held.old) index) result }
    ensures no_memory { (arc_value held.old.table).of.keeping ≡ Unrecorded → result ≢ MEMORY }
{
    if index >= held.guard.keys().len() {
        return BAD_INDEX;
    }
    match held.table.shared.look(&mut held.guard, index) {
        Ok(answer) => {
            *txn = reply_txn(&answer.reply);
            reply_code(&answer.reply)
        }
        Err(error) => try_code(error),
    }
}

/// The same, if the content is a request.
fn look_at(content: &mut Content, index: usize, txn: &mut u64) -> u32
    ensures looked { FIRST_REPLY ≤ result → OnGuards (LookTells index result txn.new) (guard_in (Some content.old)) (guard_in (Some content.new)) }
    ensures kept { result < FIRST_REPLY → (content.new ≡ content.old) × (txn.new ≡ txn.old) }
    ensures refused { IsTriedUnless (keeping_behind (Some content.old)) (index_refusal (guard_in (Some content.old)) index) result }
    ensures no_memory { keeping_behind (Some content.old) ≡ Unrecorded → result ≢ MEMORY }
{
    match content {
        Content::Guard(held) => look(held, index, txn),
        _ => CLOSED,
    }
}

/// What the request finds at the key with this index in its list, from 0. `txn` is set to the transaction that the answer
/// names, or to 0.
#[unsafe(no_mangle)]
pub extern "C" fn lt_pass_look(
    alloc: Global,
    handle: &mut Handle,
    index: usize,
    txn: &mut u64,
) -> u32
    ensures looked { FIRST_REPLY ≤ result → OnGuards (LookTells index result txn.new) (guard_in handle.old.slot.held) (guard_in handle.new.slot.held) }
    ensures kept { result < FIRST_REPLY → (handle.new.slot.held ≡ handle.old.slot.held) × (txn.new ≡ txn.old) }
    ensures refused { IsTriedUnless (keeping_behind handle.old.slot.held) (index_refusal (guard_in handle.old.slot.held) index) result }
    ensures no_memory { keeping_behind handle.old.slot.held ≡ Unrecorded → result ≢ MEMORY }
    ensures legal { FIRST_REPLY ≤ result → SeesLegal handle.new.slot.held }
{
    let Some(mut content) = handle.take(alloc) else {
        return CLOSED;
    };
    let code = look_at(&mut content, index, txn);
    content.legal();
    handle.put(content);
    code
}
