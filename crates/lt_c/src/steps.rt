//! How does C open a table, make its steps and close it? Each function here is an export. It tests every argument,
//! and answers a code. A step writes its lets into the caller's array, and sets `count` to how many it wrote. The
//! handle keeps those that do not fit, and refuses the next step until `lt_table_lets` has given them.
ghost use Rattle.std.specs.Prelude.{◌≡◌, ◌≢◌, ◌≤◌, ◌<◌, length, Some, None, IsSome, IsNone, is_some};
ghost use Rattle.lt_rules.specs.declared.call.Call.TheVariants.{Acquire};
ghost use Rattle.lt_rules.specs.Rules.{acquire, update, finish, leave};
ghost use Rattle.lt_handles.specs.Calls.{visit_act};
ghost use Rattle.lt_handles.specs.Content.{table_in};
ghost use Rattle.lt_handles.specs.Codes.{IsReplyUnless};
ghost use Rattle.lt_handles.specs.OneTable.{new_table};
ghost use Rattle.lt_handles.specs.Shapes.{txn_time};
ghost use Rattle.lt_handles.specs.Steps.{step_refusal, txn_refusal, visit_refusal, OnTable, OnHandle, MakesStep, AllocatesNothing, GivesUp, GivesLets, KeepsOut};

use lt_handles::calls::visit_of;
use lt_handles::codes::{BAD_TXN, CLOSED, DONE, FIRST_REPLY, MEMORY, OPEN_ALREADY};
use lt_handles::content::Content;
use lt_handles::handle::Handle;
use lt_handles::held::HeldTable;
use lt_handles::pass_call::PassCall;
use lt_handles::shapes::{LtRequest, LtThrough, LtTxn, txn_time};
use lt_ids::TxnId;
use lt_rules::Call;
use std::alloc::Global;

/// Opens a table without keys, whose keys are hashed from this start. Draw the start, for each table, where nobody can
/// guess it: whoever chooses the keys and knows the start can make the table slow.
#[unsafe(no_mangle)]
pub extern "C" fn lt_table_open(alloc: Global, handle: &mut Handle, start: u64) -> u32
    ensures open_already { IsSome handle.old.slot.held → result ≡ OPEN_ALREADY }
    ensures memory { IsNone handle.old.slot.held → result ≢ DONE → result ≡ MEMORY }
    ensures opened { result ≡ DONE → table_in handle.new.slot.held ≡ Some new_table }
    ensures kept { result ≢ DONE → handle.new.slot.held ≡ handle.old.slot.held }
{
    if handle.is_open() {
        return OPEN_ALREADY;
    }
    let Ok(table) = Box::new(alloc, HeldTable::new(alloc, start)) else {
        return MEMORY;
    };
    let Ok(content) = Box::new(alloc, Content::Table(table)) else {
        return MEMORY;
    };
    handle.put(content);
    DONE
}

/// Whether the content is a table.
fn is_table(content: &Content) -> bool
    ensures { result ≡ is_some (table_in (Some content.now)) }
{
    match content {
        Content::Table(_) => true,
        _ => false,
    }
}

/// Closes the table and gives its memory back. What it held is gone, lets that are left included.
#[unsafe(no_mangle)]
pub extern "C" fn lt_table_close(alloc: Global, handle: &mut Handle) -> u32
    ensures done { IsSome (table_in handle.old.slot.held) → result ≡ DONE }
    ensures closed_already { IsNone (table_in handle.old.slot.held) → result ≡ CLOSED }
    ensures closed { IsSome (table_in handle.old.slot.held) → handle.new.slot.held ≡ None }
    ensures kept { IsNone (table_in handle.old.slot.held) → handle.new.slot.held ≡ handle.old.slot.held }
{
    let Some(content) = handle.take(alloc) else {
        return CLOSED;
    };
    if !is_table(&content) {
        handle.put(content);
        return CLOSED;
    }
    drop(content);
    DONE
}

/// A request visits the key. Its wait number is the number of the wait that begins if the request has to wait.
#[unsafe(no_mangle)]
pub extern "C" fn lt_table_visit(
    alloc: Global,
    handle: &mut Handle,
    key: &[u8],
    request: &LtRequest,
    lets: &mut [LtThrough],
    count: &mut usize,
) -> u32
    ensures refused { IsReplyUnless (visit_refusal request.now (table_in handle.old.slot.held) key.now) result }
    ensures stepped { FIRST_REPLY ≤ result → OnHandle (MakesStep key.now (visit_act request.now)
        result lets.old lets.new count.new) (table_in handle.old.slot.held) (table_in handle.new.slot.held) }
    ensures table_kept { result < FIRST_REPLY → handle.new.slot.held ≡ handle.old.slot.held }
    ensures out_kept { result < FIRST_REPLY → KeepsOut lets.old lets.new count.old count.new }
    ensures no_memory { OnTable (AllocatesNothing key.now (visit_act request.now))
        (table_in handle.old.slot.held) → result ≢ MEMORY }
{
    match visit_of(request) {
        Ok(by) => handle.step(alloc, key, &by, lets, count),
        Err(code) => code,
    }
}

/// A transaction takes the lock, or raises the timestamp of the lock that it holds.
#[unsafe(no_mangle)]
pub extern "C" fn lt_table_acquire(
    alloc: Global,
    handle: &mut Handle,
    key: &[u8],
    by: &LtTxn,
    lets: &mut [LtThrough],
    count: &mut usize,
) -> u32
    ensures refused { IsReplyUnless (txn_refusal by.now.txn (table_in handle.old.slot.held) key.now) result }
    ensures stepped { FIRST_REPLY ≤ result → OnHandle (MakesStep key.now (λ r. acquire r by.now.txn (txn_time by.now))
        result lets.old lets.new count.new) (table_in handle.old.slot.held) (table_in handle.new.slot.held) }
    ensures table_kept { result < FIRST_REPLY → handle.new.slot.held ≡ handle.old.slot.held }
    ensures out_kept { result < FIRST_REPLY → KeepsOut lets.old lets.new count.old count.new }
    ensures no_memory { OnTable (AllocatesNothing key.now (λ r. acquire r by.now.txn (txn_time by.now)))
        (table_in handle.old.slot.held) → result ≢ MEMORY }
    // An acquire is refused for memory only if its key has no record, or has more than 22 bytes.
    ensures gives_up { OnTable (GivesUp key.now (Acquire by.now.txn (txn_time by.now)))
        (table_in handle.old.slot.held) → result ≢ MEMORY }
{
    let Some(txn) = TxnId::new(by.txn) else {
        return BAD_TXN;
    };
    let ts = txn_time(by);
    let call = PassCall::of(Call::Acquire { txn, ts });
    handle.step(alloc, key, &call, lets, count)
}

/// The holder raises its timestamp.
#[unsafe(no_mangle)]
pub extern "C" fn lt_table_update(
    alloc: Global,
    handle: &mut Handle,
    key: &[u8],
    by: &LtTxn,
    lets: &mut [LtThrough],
    count: &mut usize,
) -> u32
    ensures refused { IsReplyUnless (txn_refusal by.now.txn (table_in handle.old.slot.held) key.now) result }
    ensures stepped { FIRST_REPLY ≤ result → OnHandle (MakesStep key.now (λ r. update r by.now.txn (txn_time by.now))
        result lets.old lets.new count.new) (table_in handle.old.slot.held) (table_in handle.new.slot.held) }
    ensures table_kept { result < FIRST_REPLY → handle.new.slot.held ≡ handle.old.slot.held }
    ensures out_kept { result < FIRST_REPLY → KeepsOut lets.old lets.new count.old count.new }
    ensures no_memory { OnTable (AllocatesNothing key.now (λ r. update r by.now.txn (txn_time by.now)))
        (table_in handle.old.slot.held) → result ≢ MEMORY }
    // A key of up to 22 bytes can always be given up.
    ensures gives_up { length key.now ≤ 22 → result ≢ MEMORY }
{
    let Some(txn) = TxnId::new(by.txn) else {
        return BAD_TXN;
    };
    let ts = txn_time(by);
    let call = PassCall::of(Call::Update { txn, ts });
    handle.step(alloc, key, &call, lets, count)
}

/// The holder releases the lock.
#[unsafe(no_mangle)]
pub extern "C" fn lt_table_finish(
    alloc: Global,
    handle: &mut Handle,
    key: &[u8],
    txn: u64,
    lets: &mut [LtThrough],
    count: &mut usize,
) -> u32
    ensures refused { IsReplyUnless (txn_refusal txn (table_in handle.old.slot.held) key.now) result }
    ensures stepped { FIRST_REPLY ≤ result → OnHandle (MakesStep key.now (λ r. finish r txn)
        result lets.old lets.new count.new) (table_in handle.old.slot.held) (table_in handle.new.slot.held) }
    ensures table_kept { result < FIRST_REPLY → handle.new.slot.held ≡ handle.old.slot.held }
    ensures out_kept { result < FIRST_REPLY → KeepsOut lets.old lets.new count.old count.new }
    ensures no_memory { OnTable (AllocatesNothing key.now (λ r. finish r txn))
        (table_in handle.old.slot.held) → result ≢ MEMORY }
    // A key of up to 22 bytes can always be given up.
    ensures gives_up { length key.now ≤ 22 → result ≢ MEMORY }
{
    let Some(txn) = TxnId::new(txn) else {
        return BAD_TXN;
    };
    let by = PassCall::of(Call::Finish { txn });
    handle.step(alloc, key, &by, lets, count)
}

/// A request stops waiting, or gives up its reservation.
#[unsafe(no_mangle)]
pub extern "C" fn lt_table_leave(
    alloc: Global,
    handle: &mut Handle,
    key: &[u8],
    number: u64,
    lets: &mut [LtThrough],
    count: &mut usize,
) -> u32
    ensures refused { IsReplyUnless (step_refusal (table_in handle.old.slot.held) key.now) result }
    ensures stepped { FIRST_REPLY ≤ result → OnHandle (MakesStep key.now (λ r. leave r number)
        result lets.old lets.new count.new) (table_in handle.old.slot.held) (table_in handle.new.slot.held) }
    ensures table_kept { result < FIRST_REPLY → handle.new.slot.held ≡ handle.old.slot.held }
    ensures out_kept { result < FIRST_REPLY → KeepsOut lets.old lets.new count.old count.new }
    ensures no_memory { OnTable (AllocatesNothing key.now (λ r. leave r number))
        (table_in handle.old.slot.held) → result ≢ MEMORY }
    // A key of up to 22 bytes can always be given up.
    ensures gives_up { length key.now ≤ 22 → result ≢ MEMORY }
{
    let by = PassCall::of(Call::Leave { number });
    handle.step(alloc, key, &by, lets, count)
}

/// Gives the next lets of the last step, if the content is a table.
fn give_lets(content: &mut Content, lets: &mut [LtThrough], count: &mut usize) -> u32
    ensures done { IsSome (table_in (Some content.old)) → result ≡ DONE }
    ensures closed { IsNone (table_in (Some content.old)) → result ≡ CLOSED }
    ensures given { result ≡ DONE → OnHandle (GivesLets lets.old lets.new count.new)
        (table_in (Some content.old)) (table_in (Some content.new)) }
    ensures table_kept { result ≢ DONE → content.new ≡ content.old }
    ensures out_kept { result ≢ DONE → KeepsOut lets.old lets.new count.old count.new }
{
    match content {
        Content::Table(table) => {
            *count = table.give(lets);
            DONE
        }
        _ => CLOSED,
    }
}

/// Gives the next lets of the last step. There are none left if `count` is then below the length of the array.
#[unsafe(no_mangle)]
pub extern "C" fn lt_table_lets(
    alloc: Global,
    handle: &mut Handle,
    lets: &mut [LtThrough],
    count: &mut usize,
) -> u32
    ensures done { IsSome (table_in handle.old.slot.held) → result ≡ DONE }
    ensures closed { IsNone (table_in handle.old.slot.held) → result ≡ CLOSED }
    ensures given { result ≡ DONE → OnHandle (GivesLets lets.old lets.new count.new)
        (table_in handle.old.slot.held) (table_in handle.new.slot.held) }
    ensures table_kept { result ≢ DONE → handle.new.slot.held ≡ handle.old.slot.held }
    ensures out_kept { result ≢ DONE → KeepsOut lets.old lets.new count.old count.new }
{
    let Some(mut content) = handle.take(alloc) else {
        return CLOSED;
    };
    let code = give_lets(&mut content, lets, count);
    handle.put(content);
    code
}
