//! What does a single line of a script do?
//!
//! `act` executes a line by a call of the table. There is one function for each kind of line; each turns the
//! result of its call into the answer of the line. The session is changed in its place, because it is large and most
//! lines change little of it. It is moved only where a request begins or ends, into a guard or out of it (`entered` and
//! `left`). Read next: `specs/Machine.antt`, which defines each answer and its steps, and `specs/Execution.antt`.
ghost use Rattle.std.specs.Prelude.{◌≡◌, ◌<◌, ℕ, IfOk, is_some, length, Ok};
ghost use Rattle.lt_rules.specs.declared.call.Call.TheVariants.{Acquire, Update, Finish};
ghost use Rattle.lt_walk.specs.declared.scan_results.Scan.TheVariants.{Waiting, TooLong};
ghost use Rattle.lt_runner.specs.Sessions.{session_pass};
ghost use Rattle.lt_runner.specs.Machine.{IsOpenAnswered, IsScanned, IsScanAnswer, IsAwaited, IsLooked, IsCallAnswered, IsLeaveAnswered, rules_of, let_read, let_gone_on, poll_answer};
ghost use Rattle.lt_runner.specs.Execution.{Does, IsCallAnswer, IsLineAnswer, IsOutOnlyAfter, LineDoes, Polls, no_lets, no_word};

use crate::answer::{LineAnswer, Refusal};
use crate::find::index_of;
use crate::outcome::OutOfMemory;
use crate::plan::Host;
use crate::session::Session;
use core::mem;
use lt_ids::{Access, Key, Timestamp, TxnId};
use lt_rules::KeyTable;
use lt_script::Action;
use lt_table_core::{
    Answer, EnterError, EnterRefused, Guard, LeaveStopped, Left, Poll, Scan, ScanError, StepError,
    Table,
};
use lt_words::{Name, Pass};
use std::sync::Wait;
use std::thread;

/// What a line that opens a request asks for, and of which table.
#[derive(Drop)]
struct Opening<'a, N: Name, T: KeyTable, R: Wait> {
    host: &'a Host<'a, N, T, R>,
    txn: Option<TxnId>,
    ts: Timestamp,
    accesses: &'a [(Key, Access)],
    longest: u32,
}

fn enter<N: Name, T: KeyTable, R: Wait>(
    pass: Pass,
    opening: &Opening<'_, N, T, R>,
) -> (Session, Result<LineAnswer, OutOfMemory>)
    requires { pass.of ≡ N.of }
    ensures does { IfOk result.1 (LineDoes (IsOpenAnswered opening.now.txn opening.now.ts opening.now.accesses.now opening.now.longest)
        no_word no_lets (Session.Free pass) result.0) }
    ensures numbers_out { IfOk result.1 (IsOutOnlyAfter opening.now.host.now.table.now.max_requests result.0) }
{
    let host = opening.host;
    match host.table.enter(
        host.alloc,
        pass,
        opening.txn,
        opening.ts,
        opening.accesses,
        opening.longest,
    ) {
        Ok(guard) => {
            let number = guard.number();
            (Session::Open(guard), Ok(LineAnswer::Request(number)))
        }
        Err(refused) => {
            let EnterRefused { pass, error } = refused;
            let refusal = match error {
                EnterError::NoKeys => Refusal::NoKeys,
                EnterError::TooManyKeys => Refusal::TooManyKeys,
                EnterError::NumbersOut => Refusal::NumbersOut,
                EnterError::Memory => return (Session::Free(pass), Err(OutOfMemory)),
            };
            (Session::Free(pass), Ok(LineAnswer::Refused(refusal)))
        }
    }
}

/// The session after the line, and its answer.
fn entered<N: Name, T: KeyTable, R: Wait>(
    session: Session,
    opening: &Opening<'_, N, T, R>,
) -> (Session, Result<LineAnswer, OutOfMemory>)
    requires { (session_pass session).of ≡ N.of }
    ensures does { IfOk result.1 (LineDoes (IsOpenAnswered opening.now.txn opening.now.ts opening.now.accesses.now opening.now.longest)
        no_word no_lets session result.0) }
    ensures numbers_out { IfOk result.1 (IsOutOnlyAfter opening.now.host.now.table.now.max_requests result.0) }
{
    match session {
        Session::Free(pass) => enter(pass, opening),
        Session::Open(guard) => (Session::Open(guard), Ok(LineAnswer::Busy)),
    }
}

fn open<N: Name, T: KeyTable, R: Wait>(
    session: &mut Session,
    opening: &Opening<'_, N, T, R>,
) -> Result<LineAnswer, OutOfMemory>
    requires { (session_pass session.old).of ≡ N.of }
    ensures does { IfOk result (LineDoes (IsOpenAnswered opening.now.txn opening.now.ts opening.now.accesses.now opening.now.longest)
        no_word no_lets session.old session.new) }
    ensures numbers_out { IfOk result (IsOutOnlyAfter opening.now.host.now.table.now.max_requests session.new) }
{
    mem::replace_with(session, opening, entered::<N, T, R>)
}

fn scan_answer(
    keys: &[(Key, Access)],
    ended: Result<Scan, ScanError>,
) -> Result<LineAnswer, OutOfMemory>
    requires waiting { (index : ℕ) → ended ≡ Ok (Waiting index) → index < length keys.now }
    requires stopped { (index : ℕ) → ended ≡ Ok (TooLong index) → index < length keys.now }
    ensures { IfOk result (λ answer. IsScanAnswer keys.now ended answer) }
{
    match ended {
        Ok(Scan::Proceed) => Ok(LineAnswer::Proceed),
        Ok(Scan::Rescan) => Ok(LineAnswer::Rescan),
        Ok(Scan::Waiting(index)) => match keys[index].0.copy() {
            Ok(key) => Ok(LineAnswer::WaitingAt(key)),
            Err(_) => Err(OutOfMemory),
        },
        Ok(Scan::TooLong(index)) => match keys[index].0.copy() {
            Ok(key) => Ok(LineAnswer::TooLongAt(key)),
            Err(_) => Err(OutOfMemory),
        },
        Err(ScanError::Leaving) => Ok(LineAnswer::Refused(Refusal::Leaving)),
        Err(ScanError::StillWaiting) => Ok(LineAnswer::Refused(Refusal::StillWaiting)),
        Err(ScanError::WaitsOut) => Ok(LineAnswer::Refused(Refusal::WaitsOut)),
        Err(ScanError::HistoryFull) => Ok(LineAnswer::Refused(Refusal::HistoryFull)),
        Err(ScanError::Memory) => Err(OutOfMemory),
    }
}

fn scan_of<N: Name, T: KeyTable, R: Wait>(
    rt: &R,
    table: &Table<N, T>,
    guard: &mut Guard,
) -> Result<LineAnswer, OutOfMemory>
    requires { guard.old.pass.of ≡ N.of }
    ensures { IfOk result (LineDoes (IsScanned table.now.max_waits) is_some let_gone_on
        (Session.Open guard.old) (Session.Open guard.new)) }
{
    let ended = table.scan(rt, guard);
    scan_answer(guard.keys(), ended)
}

fn scan<N: Name, T: KeyTable, R: Wait>(
    rt: &R,
    table: &Table<N, T>,
    session: &mut Session,
) -> Result<LineAnswer, OutOfMemory>
    requires { (session_pass session.old).of ≡ N.of }
    ensures { IfOk result (LineDoes (IsScanned table.now.max_waits) is_some let_gone_on session.old session.new) }
{
    match session {
        Session::Free(_) => Ok(LineAnswer::NoRequest),
        Session::Open(guard) => scan_of(rt, table, guard),
    }
}

/// Polls until the request no longer waits, but at most `polls` times. Yields the processor between two polls.
fn poll_on<N: Name, T: KeyTable>(table: &Table<N, T>, guard: &mut Guard, polls: u64) -> Poll
    requires { guard.old.pass.of ≡ N.of }
    ensures { Polls guard.old result guard.new }
{
    let mut found = table.poll(guard);
    let mut polled = 1;
    while polled < polls && found == Poll::Waiting {
        thread::yield_now();
        found = table.poll(guard);
        polled += 1;
    }
    found
}

fn poll_answer(turns: Option<u64>, found: Poll) -> LineAnswer
    ensures { result ≡ poll_answer turns found }
{
    match found {
        Poll::Through => LineAnswer::Let,
        Poll::Waiting => match turns {
            None => LineAnswer::Waiting,
            Some(_) => LineAnswer::Turns,
        },
        Poll::Idle => LineAnswer::Idle,
    }
}

fn await_of<N: Name, T: KeyTable>(
    table: &Table<N, T>,
    guard: &mut Guard,
    turns: Option<u64>,
) -> LineAnswer
    requires { guard.old.pass.of ≡ N.of }
    ensures { Does (IsAwaited turns) is_some let_read (Session.Open guard.old) result (Session.Open guard.new) }
{
    let found = poll_on(table, guard, turns.unwrap_or(1));
    poll_answer(turns, found)
}

fn await_let<N: Name, T: KeyTable>(
    table: &Table<N, T>,
    session: &mut Session,
    turns: Option<u64>,
) -> LineAnswer
    requires { (session_pass session.old).of ≡ N.of }
    ensures { Does (IsAwaited turns) is_some let_read session.old result session.new }
{
    match session {
        Session::Free(_) => LineAnswer::NoRequest,
        Session::Open(guard) => await_of(table, guard, turns),
    }
}

/// The answer of a line whose call makes one step.
fn told_of(answered: Result<Answer, StepError>) -> Result<LineAnswer, OutOfMemory>
    ensures { IsCallAnswer answered result }
{
    match answered {
        Ok(answer) => Ok(LineAnswer::Replied(answer.reply)),
        Err(StepError::HistoryFull) => Ok(LineAnswer::Refused(Refusal::HistoryFull)),
        Err(StepError::Memory) => Err(OutOfMemory),
    }
}

fn acquire<N: Name, T: KeyTable, R: Wait>(
    rt: &R,
    table: &Table<N, T>,
    session: &mut Session,
    key: &Key,
    txn: TxnId,
    ts: Timestamp,
) -> Result<LineAnswer, OutOfMemory>
    requires { (session_pass session.old).of ≡ N.of }
    ensures { IfOk result (LineDoes (IsCallAnswered key.now (Acquire txn ts)) no_word no_lets session.old session.new) }
{
    match session {
        Session::Free(pass) => {
            let answered = table.acquire(rt, pass, key, txn, ts);
            told_of(answered)
        }
        Session::Open(guard) => {
            let answered = table.acquire_in(rt, guard, key, txn, ts);
            told_of(answered)
        }
    }
}

fn update<N: Name, T: KeyTable, R: Wait>(
    rt: &R,
    table: &Table<N, T>,
    session: &mut Session,
    key: &Key,
    txn: TxnId,
    ts: Timestamp,
) -> Result<LineAnswer, OutOfMemory>
    requires { (session_pass session.old).of ≡ N.of }
    ensures { IfOk result (LineDoes (IsCallAnswered key.now (Update txn ts)) no_word no_lets session.old session.new) }
{
    match session {
        Session::Free(pass) => {
            let answered = table.update(rt, pass, key, txn, ts);
            told_of(answered)
        }
        Session::Open(guard) => {
            let answered = table.update_in(rt, guard, key, txn, ts);
            told_of(answered)
        }
    }
}

fn finish<N: Name, T: KeyTable, R: Wait>(
    rt: &R,
    table: &Table<N, T>,
    session: &mut Session,
    key: &Key,
    txn: TxnId,
) -> Result<LineAnswer, OutOfMemory>
    requires { (session_pass session.old).of ≡ N.of }
    ensures { IfOk result (LineDoes (IsCallAnswered key.now (Finish txn)) no_word no_lets session.old session.new) }
{
    match session {
        Session::Free(pass) => {
            let answered = table.finish(rt, pass, key, txn);
            told_of(answered)
        }
        Session::Open(guard) => {
            let answered = table.finish_in(rt, guard, key, txn);
            told_of(answered)
        }
    }
}

fn look_of<N: Name, T: KeyTable, R: Wait>(
    rt: &R,
    table: &Table<N, T>,
    guard: &mut Guard,
    key: &Key,
) -> Result<LineAnswer, OutOfMemory>
    requires { guard.old.pass.of ≡ N.of }
    ensures { IfOk result (LineDoes (IsLooked key.now) no_word no_lets
        (Session.Open guard.old) (Session.Open guard.new)) }
{
    let Some(index) = index_of(guard.keys(), key) else {
        return Ok(LineAnswer::Stranger);
    };
    let answered = table.look(rt, guard, index);
    told_of(answered)
}

fn look<N: Name, T: KeyTable, R: Wait>(
    rt: &R,
    table: &Table<N, T>,
    session: &mut Session,
    key: &Key,
) -> Result<LineAnswer, OutOfMemory>
    requires { (session_pass session.old).of ≡ N.of }
    ensures { IfOk result (LineDoes (IsLooked key.now) no_word no_lets session.old session.new) }
{
    match session {
        Session::Free(_) => Ok(LineAnswer::NoRequest),
        Session::Open(guard) => look_of(rt, table, guard, key),
    }
}

fn leave_of<N: Name, T: KeyTable, R: Wait>(
    guard: Guard,
    host: &Host<'_, N, T, R>,
) -> (Session, Result<LineAnswer, OutOfMemory>)
    requires { guard.pass.of ≡ N.of }
    ensures { IfOk result.1 (LineDoes IsLeaveAnswered no_word no_lets (Session.Open guard) result.0) }
{
    match host.table.leave(host.rt, guard) {
        Ok(left) => {
            let Left { pass, answers: _ } = left;
            (Session::Free(pass), Ok(LineAnswer::Done))
        }
        Err(stopped) => {
            let LeaveStopped { guard, error } = stopped;
            match error {
                StepError::HistoryFull => (
                    Session::Open(guard),
                    Ok(LineAnswer::Refused(Refusal::HistoryFull)),
                ),
                StepError::Memory => (Session::Open(guard), Err(OutOfMemory)),
            }
        }
    }
}

/// The session after the line, and its answer.
fn left<N: Name, T: KeyTable, R: Wait>(
    session: Session,
    host: &Host<'_, N, T, R>,
) -> (Session, Result<LineAnswer, OutOfMemory>)
    requires { (session_pass session).of ≡ N.of }
    ensures { IfOk result.1 (LineDoes IsLeaveAnswered no_word no_lets session result.0) }
{
    match session {
        Session::Free(pass) => (Session::Free(pass), Ok(LineAnswer::NoRequest)),
        Session::Open(guard) => leave_of(guard, host),
    }
}

fn leave<N: Name, T: KeyTable, R: Wait>(
    session: &mut Session,
    host: &Host<'_, N, T, R>,
) -> Result<LineAnswer, OutOfMemory>
    requires { (session_pass session.old).of ≡ N.of }
    ensures { IfOk result (LineDoes IsLeaveAnswered no_word no_lets session.old session.new) }
{
    mem::replace_with(session, host, left::<N, T, R>)
}

/// Executes the line's action.
pub(crate) fn act<N: Name, T: KeyTable, R: Wait>(
    host: &Host<'_, N, T, R>,
    turns: Option<u64>,
    session: &mut Session,
    action: &Action,
) -> Result<LineAnswer, OutOfMemory>
    requires { (session_pass session.old).of ≡ N.of }
    ensures does { IfOk result (IsLineAnswer (rules_of host.now.table.now turns) action.now session.old session.new) }
    ensures numbers_out { IfOk result (IsOutOnlyAfter host.now.table.now.max_requests session.new) }
{
    match action {
        Action::Open {
            txn,
            ts,
            accesses,
            longest,
        } => {
            let opening = Opening {
                host,
                txn: *txn,
                ts: *ts,
                accesses: accesses.as_slice(),
                longest: *longest,
            };
            open(session, &opening)
        }
        Action::Scan => scan(host.rt, host.table, session),
        Action::Await => Ok(await_let(host.table, session, turns)),
        Action::Look { key } => look(host.rt, host.table, session, key),
        Action::Acquire { txn, ts, key } => acquire(host.rt, host.table, session, key, *txn, *ts),
        Action::Update { txn, ts, key } => update(host.rt, host.table, session, key, *txn, *ts),
        Action::Finish { txn, key } => finish(host.rt, host.table, session, key, *txn),
        Action::Leave => leave(session, host),
    }
}
