//! What do two sessions find that call the store in turn? A test plays rows: a session, a key, a call, and what the call must
//! answer. Then the store is closed, and each session's log has what the session committed. So it is in each way to keep the
//! history.
//!
//! The expected values are found by hand.
//!
//! A call that runs out of memory is made once more. After a call that has taken a lock and then ran out of memory, the
//! second one finds that the transaction holds the lock.
ghost use Rattle.std.specs.Arc.{arc_value};
ghost use Rattle.std.specs.Prelude.{◌≡◌};

use example_cells::CommitLog;
use example_store::{Store, StoreError, StoreSession, sessions_of};
use example_values::{ValueBook, ValueName};
use lt_ids::Key;
use lt_table::{Config, Keeping, Ready, prepare_with};
use lt_test_kit::key::key_of;
use lt_words::Name;
use std::alloc::Global;
use std::marker::Brand;
use std::sync::{Arc, Wait};
use std::test::Fail;
use std::time::Clock;

const LIMITS: Config = Config {
    shards: 1,
    passes: 2,
    max_steps: 100,
    max_requests: 100,
    max_waits: 1,
};

/// A call of a session at a key, and what it must answer: for a read the byte of the value, or none.
#[derive(Clone, Copy, Debug, PartialEq, Eq)]
enum Turn {
    Begin,
    Get(Option<u8>),
    GetForUpdate(Option<u8>),
    Put(u8),
    Delete,
    Commit,
    Abort,
    /// A put without a transaction.
    PutNot(StoreError),
}

/// Which session, which key, and what is called.
type TurnRow = (bool, u8, Turn);

const A: u8 = b'a';

const B: u8 = b'b';

const FIRST: bool = false;

const SECOND: bool = true;

const ROWS: [TurnRow; 33] = [
    // What a transaction has put, only itself reads until it commits.
    (FIRST, A, Turn::PutNot(StoreError::NoTxn)),
    (FIRST, A, Turn::Begin),
    (FIRST, A, Turn::Put(1)),
    (FIRST, A, Turn::Get(Some(1))),
    (SECOND, A, Turn::Get(None)),
    (FIRST, A, Turn::Commit),
    (SECOND, A, Turn::Get(Some(1))),
    // An aborted put is gone.
    (SECOND, A, Turn::Begin),
    (SECOND, A, Turn::GetForUpdate(Some(1))),
    (SECOND, A, Turn::Put(2)),
    (SECOND, A, Turn::GetForUpdate(Some(2))),
    (SECOND, A, Turn::Abort),
    (FIRST, A, Turn::Get(Some(1))),
    // A deleted key has no value, once the delete is committed.
    (FIRST, A, Turn::Begin),
    (FIRST, A, Turn::Delete),
    (FIRST, A, Turn::GetForUpdate(None)),
    (SECOND, A, Turn::Get(Some(1))),
    (FIRST, A, Turn::Commit),
    (SECOND, A, Turn::Get(None)),
    // A delete that is aborted leaves the value; a later put overwrites an earlier one.
    (SECOND, B, Turn::Begin),
    (SECOND, B, Turn::Put(3)),
    (SECOND, B, Turn::Put(4)),
    (SECOND, A, Turn::GetForUpdate(None)),
    (SECOND, B, Turn::Commit),
    (FIRST, B, Turn::Begin),
    (FIRST, B, Turn::Delete),
    (FIRST, B, Turn::Abort),
    (FIRST, B, Turn::Get(Some(4))),
    // Two transactions hold locks of different keys at the same time.
    (FIRST, B, Turn::Begin),
    (FIRST, B, Turn::Put(5)),
    (SECOND, A, Turn::Begin),
    (SECOND, A, Turn::Put(6)),
    (SECOND, A, Turn::Commit),
];

/// The value of one byte.
fn value_of(alloc: Global, byte: u8) -> Result<Vec<u8>, StoreError> {
    let mut bytes = Vec::new(alloc);
    match bytes.push(byte) {
        Ok(()) => Ok(bytes),
        Err(_) => Err(StoreError::Memory),
    }
}

fn first_byte(value: &Option<Vec<u8>>) -> Option<u8> {
    match value {
        None => None,
        Some(bytes) => bytes.first().copied(),
    }
}

/// Makes the call. Whether it answers what it must.
fn call<N: Name + ValueName, R: Wait + Clock>(
    rt: &R,
    alloc: Global,
    store: &Store<N>,
    session: &mut StoreSession<N>,
    key: &Key,
    turn: &Turn,
) -> Result<bool, StoreError> {
    match turn {
        Turn::Begin => store.begin(session).map(|_| true),
        Turn::Get(byte) => Ok(first_byte(&store.get(rt, session, key)?) == *byte),
        Turn::GetForUpdate(byte) => Ok(
            first_byte(&store.get_for_update(rt, session, key)?) == *byte,
        ),
        Turn::Put(byte) => {
            store.put(rt, session, key, value_of(alloc, *byte)?)?;
            Ok(true)
        }
        Turn::Delete => {
            store.delete(rt, session, key)?;
            Ok(true)
        }
        Turn::Commit => {
            store.commit(rt, session)?;
            Ok(true)
        }
        Turn::Abort => {
            store.abort(rt, session)?;
            Ok(true)
        }
        Turn::PutNot(error) => Ok(store.put(rt, session, key, value_of(alloc, 0)?) == Err(*error)),
    }
}

/// Makes the call, and once more if it runs out of memory.
fn call_again<N: Name + ValueName, R: Wait + Clock>(
    rt: &R,
    alloc: Global,
    store: &Store<N>,
    session: &mut StoreSession<N>,
    key: &Key,
    turn: &Turn,
) -> Result<bool, StoreError> {
    match call(rt, alloc, store, session, key, turn) {
        Err(StoreError::Memory) => call(rt, alloc, store, session, key, turn),
        answer => answer,
    }
}

/// How many rows answer what they must. None if an allocation fails outside the calls of the store.
fn count_right<N: Name + ValueName, R: Wait + Clock>(
    rt: &R,
    alloc: Global,
    store: &Store<N>,
    first: &mut StoreSession<N>,
    second: &mut StoreSession<N>,
) -> Option<usize> {
    let mut right = 0usize;
    for (who, name, turn) in &ROWS {
        let key = key_of(alloc, *name)?;
        let answer = if *who {
            call_again(rt, alloc, store, second, &key, turn)
        } else {
            call_again(rt, alloc, store, first, &key, turn)
        };
        if answer == Ok(true) {
            right = right.saturating_add(1);
        }
    }
    Some(right)
}

/// How many rows answer what they must, and how many transactions each session has committed.
#[derive(Clone, Copy, Debug, PartialEq, Eq)]
struct TurnsRun {
    right: usize,
    first: usize,
    second: usize,
}

/// How many transactions the log at this index has.
fn committed<N: Name + ValueName>(logs: &[CommitLog<N>], index: usize) -> Option<usize> {
    Some(logs.get(index)?.commits().len())
}

/// Plays all rows on a new store, and closes it.
fn play<N: Name + ValueName, R: Wait + Clock>(
    rt: &R,
    alloc: Global,
    ready: Ready,
    values: Arc<ValueBook>,
) -> Option<TurnsRun>
    requires named { ready.of ≡ N.of }
    requires values { arc_value values ≡ N.values }
{
    let (store, passes) = Store::<N>::open(alloc, ready, 0, values).ok()?;
    let mut sessions = sessions_of::<N>(alloc, passes).ok()?;
    let mut second = sessions.pop()?;
    let mut first = sessions.pop()?;
    let right = count_right(rt, alloc, &store, &mut first, &mut second)?;
    sessions.push(first).ok()?;
    sessions.push(second).ok()?;
    let closed = store.close(rt, sessions).ok()?;
    Some(TurnsRun {
        right,
        first: committed(&closed.logs, 0)?,
        second: committed(&closed.logs, 1)?,
    })
}

fn run<R: Wait + Clock>(rt: &R, alloc: Global, keeping: Keeping) -> Option<TurnsRun> {
    let values = Arc::new(alloc, ValueBook::open(alloc).ok()?).ok()?;
    let ready = prepare_with(alloc, LIMITS, keeping).ok()?;
    play::<Brand, R>(rt, alloc, ready, values)
}

/// Each row answers what it must, and each session has committed two transactions.
fn wanted() -> TurnsRun {
    TurnsRun {
        right: ROWS.len(),
        first: 2,
        second: 2,
    }
}

#[test]
fn each_session_finds_what_was_committed_and_its_own_puts(rt: HostRuntime) -> Result<(), Fail> {
    for keeping in [Keeping::Whole, Keeping::Streamed, Keeping::Unrecorded] {
        let found = run(&rt, rt.alloc(), keeping).ok_or("the run")?;
        assert_eq!(rt; found, wanted());
    }
    Ok(())
}

/// Fault injection runs this test once for each of its allocations, and refuses that one.
#[test]
fn an_allocation_that_fails_changes_no_answer(rt: HostRuntime) -> Result<(), Fail> {
    for keeping in [Keeping::Whole, Keeping::Streamed, Keeping::Unrecorded] {
        if let Some(found) = run(&rt, rt.alloc(), keeping) {
            assert_eq!(rt; found, wanted());
        }
    }
    Ok(())
}
