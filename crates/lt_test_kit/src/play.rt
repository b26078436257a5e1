//! How does a [`TableCommand`] become a public call of a table? [`play`] makes the call on a seat and reports its
//! outcome.
//!
//! A free pass can enter a request or call a lock. A guard can call a lock, scan, poll, look and leave. A command
//! that does not fit what the seat holds makes no call, and its outcome is [`CallOutcome::Nothing`].
//! [`crate::run`] plays whole lists.
ghost use Rattle.std.specs.Prelude.{◌≡◌};

use crate::command::{CallOutcome, TableCommand};
use crate::holds::Holds;
use crate::key::key_of;
use crate::seat::Seat;
use lt_ids::{Access, Key, Timestamp, TxnId};
use lt_rules::{KeyTable, Reply};
use lt_table_core::{Answer, EnterRefused, Guard, LeaveStopped, Left, StepError, Table};
use lt_words::{Name, Pass};
use std::alloc::Global;
use std::sync::Wait;

/// The outcome of a command, and the replies of the request's latest scan or of its leave.
#[derive(Drop)]
pub struct PlayedCommand {
    pub outcome: CallOutcome,
    pub replies: Vec<Reply>,
    /// The index of a single call's step in its shard's history, from 0. None if the call made no step or may make
    /// several.
    pub at: Option<u64>,
}

/// The outcome of a call, and the index of its step in its shard's history, if it made exactly one.
#[derive(Clone, Copy)]
struct CallReport {
    outcome: CallOutcome,
    at: Option<u64>,
}

/// The report of a call that makes no step of its own.
fn reported(outcome: CallOutcome) -> CallReport {
    CallReport { outcome, at: None }
}

fn keys_of(alloc: Global, accesses: &[(u8, Access)]) -> Option<Vec<(Key, Access)>> {
    let mut keys = Vec::new(alloc);
    for (byte, access) in accesses {
        keys.push((key_of(alloc, *byte)?, *access)).ok()?;
    }
    Some(keys)
}

/// Write accesses to the keys `k0`, `k1` and so on, and then to the first `twice` of them again.
fn many_keys(alloc: Global, keys: usize, twice: usize) -> Option<Vec<(Key, Access)>> {
    let mut list = Vec::new(alloc);
    for index in (0..keys).chain(0..twice) {
        let name = format!(in alloc; "k{index}").ok()?;
        let key = Key::from_bytes(alloc, name.as_bytes()).ok()?;
        list.push((key, Access::Write)).ok()?;
    }
    Some(list)
}

fn replies_of(alloc: Global, answers: &[Answer]) -> Option<Vec<Reply>> {
    let mut replies = Vec::new(alloc);
    for answer in answers {
        replies.push(answer.reply).ok()?;
    }
    Some(replies)
}

fn stepped(answered: Result<Answer, StepError>) -> CallReport {
    match answered {
        Ok(answer) => CallReport {
            outcome: CallOutcome::Stepped(answer.reply),
            at: Some(answer.at),
        },
        Err(error) => reported(CallOutcome::NotStepped(error)),
    }
}

/// The kind of a call on a lock.
#[derive(Clone, Copy)]
enum LockCallKind {
    Acquire,
    Update,
    Finish,
}

/// A call on a lock, with the arguments that the table takes. A finish ignores the timestamp.
#[derive(Drop)]
struct LockCall {
    kind: LockCallKind,
    txn: TxnId,
    ts: Timestamp,
    key: Key,
}

fn lock_call(alloc: Global, kind: LockCallKind, txn: u64, wall: u64, key: u8) -> Option<LockCall> {
    Some(LockCall {
        kind,
        txn: TxnId::new(txn)?,
        ts: Timestamp { wall, logical: 0 },
        key: key_of(alloc, key)?,
    })
}

/// The call on a lock that the command asks for. None if an allocation fails or the command is no such call.
fn lock_call_of(alloc: Global, command: &TableCommand) -> Option<LockCall> {
    match command {
        TableCommand::Acquire { txn, wall, key } => {
            lock_call(alloc, LockCallKind::Acquire, *txn, *wall, *key)
        }
        TableCommand::Update { txn, wall, key } => {
            lock_call(alloc, LockCallKind::Update, *txn, *wall, *key)
        }
        TableCommand::Finish { txn, key } => lock_call(alloc, LockCallKind::Finish, *txn, 0, *key),
        _ => None,
    }
}

fn is_lock_call(command: &TableCommand) -> bool {
    match command {
        TableCommand::Acquire { .. } | TableCommand::Update { .. } | TableCommand::Finish { .. } =>
            { true }
        _ => false,
    }
}

/// The arguments with which a request enters.
#[derive(Drop)]
struct EnterArgs {
    txn: Option<u64>,
    wall: u64,
    keys: Vec<(Key, Access)>,
    longest: u32,
}

/// The transaction with this number, or no transaction. The outer None: the number is not that of a transaction.
fn owner(number: Option<u64>) -> Option<Option<TxnId>> {
    match number {
        None => Some(None),
        Some(number) => Some(Some(TxnId::new(number)?)),
    }
}

/// Makes the request enter. None if its transaction number is invalid; the pass is then given up.
fn enter<N: Name, T: KeyTable>(
    alloc: Global,
    table: &Table<N, T>,
    pass: Pass,
    entry: &EnterArgs,
) -> Option<(Seat<N>, CallReport)>
    requires { pass.of ≡ N.of }
{
    let Some(txn) = owner(entry.txn) else {
        pass.abandon();
        return None;
    };
    let ts = Timestamp {
        wall: entry.wall,
        logical: 0,
    };
    match table.enter(alloc, pass, txn, ts, &entry.keys, entry.longest) {
        Ok(guard) => {
            let number = guard.number();
            Some((Seat::open(guard), reported(CallOutcome::Entered(number))))
        }
        Err(EnterRefused { pass, error }) => {
            Some((Seat::free(pass), reported(CallOutcome::NotEntered(error))))
        }
    }
}

/// Makes a call on a lock by a pass outside a guard. None if an allocation outside the call fails.
fn lock_by_pass<N: Name, T: KeyTable, R: Wait>(
    rt: &R,
    alloc: Global,
    table: &Table<N, T>,
    pass: &mut Pass,
    command: &TableCommand,
) -> Option<CallReport>
    requires { pass.old.of ≡ N.of }
    ensures { pass.new.of ≡ N.of }
{
    if !is_lock_call(command) {
        return Some(reported(CallOutcome::Nothing));
    }
    let call = lock_call_of(alloc, command)?;
    Some(stepped(match call.kind {
        LockCallKind::Acquire => table.acquire(rt, pass, &call.key, call.txn, call.ts),
        LockCallKind::Update => table.update(rt, pass, &call.key, call.txn, call.ts),
        LockCallKind::Finish => table.finish(rt, pass, &call.key, call.txn),
    }))
}

/// The arguments with which this command makes a request enter. The outer None: an allocation failed. The inner
/// None: the command is not an enter.
fn entry_of(alloc: Global, command: &TableCommand) -> Option<Option<EnterArgs>> {
    match command {
        TableCommand::Enter {
            txn,
            wall,
            accesses,
            longest,
        } => Some(Some(EnterArgs {
            txn: *txn,
            wall: *wall,
            keys: keys_of(alloc, accesses)?,
            longest: *longest,
        })),
        TableCommand::EnterMany { keys, twice } => Some(Some(EnterArgs {
            txn: Some(1),
            wall: 0,
            keys: many_keys(alloc, *keys, *twice)?,
            longest: 0,
        })),
        _ => Some(None),
    }
}

/// Plays a command by a pass outside a guard.
fn by_pass<N: Name, T: KeyTable, R: Wait>(
    rt: &R,
    alloc: Global,
    table: &Table<N, T>,
    mut pass: Pass,
    command: &TableCommand,
) -> Option<(Seat<N>, CallReport)>
    requires { pass.of ≡ N.of }
{
    match entry_of(alloc, command) {
        Some(Some(entry)) => enter(alloc, table, pass, &entry),
        Some(None) => {
            let said = lock_by_pass(rt, alloc, table, &mut pass, command);
            let seat = Seat::free(pass);
            Some((seat, said?))
        }
        None => {
            pass.abandon();
            None
        }
    }
}

/// Makes a call on a lock through a guard. None if an allocation outside the call fails.
fn lock_by_guard<N: Name, T: KeyTable, R: Wait>(
    rt: &R,
    alloc: Global,
    table: &Table<N, T>,
    guard: &mut Guard,
    command: &TableCommand,
) -> Option<CallReport>
    requires { guard.old.pass.of ≡ N.of }
    ensures { guard.new.pass.of ≡ N.of }
{
    if !is_lock_call(command) {
        return Some(reported(CallOutcome::Nothing));
    }
    let call = lock_call_of(alloc, command)?;
    Some(stepped(match call.kind {
        LockCallKind::Acquire => table.acquire_in(rt, guard, &call.key, call.txn, call.ts),
        LockCallKind::Update => table.update_in(rt, guard, &call.key, call.txn, call.ts),
        LockCallKind::Finish => table.finish_in(rt, guard, &call.key, call.txn),
    }))
}

/// Scans, and reports the outcome.
fn scan<N: Name, T: KeyTable, R: Wait>(rt: &R, table: &Table<N, T>, guard: &mut Guard) -> CallReport
    requires { guard.old.pass.of ≡ N.of }
    ensures { guard.new.pass.of ≡ N.of }
{
    match table.scan(rt, guard) {
        Ok(scan) => reported(CallOutcome::Scanned(scan)),
        Err(error) => reported(CallOutcome::NotScanned(error)),
    }
}

/// Looks at the guard's key with this index, and reports the outcome. Makes no call if there is no such key.
fn look<N: Name, T: KeyTable, R: Wait>(
    rt: &R,
    table: &Table<N, T>,
    guard: &mut Guard,
    index: usize,
) -> CallReport
    requires { guard.old.pass.of ≡ N.of }
    ensures { guard.new.pass.of ≡ N.of }
{
    if index < guard.keys().len() {
        stepped(table.look(rt, guard, index))
    } else {
        reported(CallOutcome::Nothing)
    }
}

/// Plays a command, other than a leave, through a guard.
fn by_guard<N: Name, T: KeyTable, R: Wait>(
    rt: &R,
    alloc: Global,
    table: &Table<N, T>,
    guard: &mut Guard,
    command: &TableCommand,
) -> Option<CallReport>
    requires { guard.old.pass.of ≡ N.of }
    ensures { guard.new.pass.of ≡ N.of }
{
    match command {
        TableCommand::Scan => Some(scan(rt, table, guard)),
        TableCommand::Poll => Some(reported(CallOutcome::Polled(table.poll(guard)))),
        TableCommand::Look { index } => Some(look(rt, table, guard, *index)),
        _ => lock_by_guard(rt, alloc, table, guard, command),
    }
}

/// Leaves through a guard. If the leave stops with an error, the seat keeps the guard.
fn leave<N: Name, T: KeyTable, R: Wait>(
    rt: &R,
    alloc: Global,
    table: &Table<N, T>,
    guard: Guard,
) -> Option<(Seat<N>, PlayedCommand)>
    requires { guard.pass.of ≡ N.of }
{
    let at = None;
    match table.leave(rt, guard) {
        Ok(Left { pass, answers }) => {
            let seat = Seat::free(pass);
            let replies = replies_of(alloc, &answers)?;
            let outcome = CallOutcome::Left;
            Some((
                seat,
                PlayedCommand {
                    outcome,
                    replies,
                    at,
                },
            ))
        }
        Err(LeaveStopped { guard, error }) => {
            let replies = replies_of(alloc, guard.answers());
            let seat = Seat::open(guard);
            let replies = replies?;
            let outcome = CallOutcome::NotLeft(error);
            Some((
                seat,
                PlayedCommand {
                    outcome,
                    replies,
                    at,
                },
            ))
        }
    }
}

/// Plays a command through a guard.
fn in_guard<N: Name, T: KeyTable, R: Wait>(
    rt: &R,
    alloc: Global,
    table: &Table<N, T>,
    mut guard: Guard,
    command: &TableCommand,
) -> Option<(Seat<N>, PlayedCommand)>
    requires { guard.pass.of ≡ N.of }
{
    if let TableCommand::Leave = command {
        return leave(rt, alloc, table, guard);
    }
    let said = by_guard(rt, alloc, table, &mut guard, command);
    let replies = replies_of(alloc, guard.answers());
    let seat = Seat::open(guard);
    let CallReport { outcome, at } = said?;
    let replies = replies?;
    Some((
        seat,
        PlayedCommand {
            outcome,
            replies,
            at,
        },
    ))
}

/// Plays a command on a seat. None if an allocation outside the call fails, or a transaction number is invalid.
pub fn play<N: Name, T: KeyTable, R: Wait>(
    rt: &R,
    alloc: Global,
    table: &Table<N, T>,
    seat: Seat<N>,
    command: &TableCommand,
) -> Option<(Seat<N>, PlayedCommand)> {
    match seat.into_holds() {
        Holds::Free(pass) => {
            let (seat, CallReport { outcome, at }) = by_pass(rt, alloc, table, pass, command)?;
            let replies = Vec::new(alloc);
            Some((
                seat,
                PlayedCommand {
                    outcome,
                    replies,
                    at,
                },
            ))
        }
        Holds::Open(guard) => in_guard(rt, alloc, table, guard, command),
    }
}
