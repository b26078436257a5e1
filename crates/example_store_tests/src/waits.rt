//! Does a transaction wait for the lock that another one holds, and does the younger one of a deadlock give way? Two threads
//! have a session each, and a word says how far they are.
ghost use Rattle.std.specs.Arc.{arc_value};
ghost use Rattle.std.specs.Prelude.{◌≡◌};

use example_store::{Store, StoreError, StoreSession, sessions_of};
use example_values::{ValueBook, ValueName};
use lt_ids::Key;
use lt_table::{Config, Keeping, Ready, prepare_with};
use lt_test_kit::key::key_of;
use lt_words::Name;
use std::alloc::Global;
use std::marker::Brand;
use std::sync::atomic::{AtomicU64, Ordering};
use std::sync::{Arc, Wait};
use std::test::Fail;
use std::thread::{self, Threads, join};
use std::time::Clock;

const LIMITS: Config = Config {
    shards: 2,
    passes: 2,
    max_steps: 1,
    max_requests: 100,
    max_waits: 10,
};

/// What the two threads share.
#[derive(Drop)]
struct Shared<N: Name + ValueName> {
    alloc: Global,
    store: Store<N>,
    one: Key,
    other: Key,
    /// How far the threads are. A thread that is done writes `DONE`, also if it stopped before its time.
    stage: AtomicU64,
}

const DONE: u64 = 9;

/// Waits until the word is at or above this stage.
fn reach<N: Name + ValueName, R: Wait>(rt: &R, shared: &Shared<N>, stage: u64) {
    for _ in rt.forever() {
        if shared.stage.load(Ordering::SeqCst) >= stage {
            break;
        }
        thread::yield_now();
    }
}

/// Waits until somebody waits for a lock.
fn reach_wait<N: Name + ValueName, R: Wait>(rt: &R, shared: &Shared<N>) {
    for _ in rt.forever() {
        if shared.store.waits() > 0 || shared.stage.load(Ordering::SeqCst) >= DONE {
            break;
        }
        thread::yield_now();
    }
}

/// Puts a value of one byte at the key.
fn put<N: Name + ValueName, R: Wait + Clock>(
    rt: &R,
    shared: &Shared<N>,
    session: &mut StoreSession<N>,
    key: &Key,
    byte: u8,
) -> Result<(), StoreError> {
    let mut bytes = Vec::new(shared.alloc);
    if bytes.push(byte).is_err() {
        return Err(StoreError::Memory);
    }
    shared.store.put(rt, session, key, bytes)
}

/// The byte of the key's value, once the transaction has the key's lock.
fn get<N: Name + ValueName, R: Wait + Clock>(
    rt: &R,
    shared: &Shared<N>,
    session: &mut StoreSession<N>,
    key: &Key,
) -> Result<Option<u8>, StoreError> {
    match shared.store.get_for_update(rt, session, key)? {
        None => Ok(None),
        Some(bytes) => Ok(bytes.first().copied()),
    }
}

/// Takes a lock, and commits once the other thread waits for it.
fn hold<N: Name + ValueName, R: Wait + Clock>(
    rt: &R,
    shared: &Shared<N>,
    session: &mut StoreSession<N>,
) -> Result<Option<u8>, StoreError> {
    shared.store.begin(session)?;
    put(rt, shared, session, &shared.one, 1)?;
    shared.stage.store(1, Ordering::SeqCst);
    reach_wait(rt, shared);
    shared.store.commit(rt, session)?;
    Ok(Some(1))
}

/// Reads the key that the other thread has locked.
fn wait<N: Name + ValueName, R: Wait + Clock>(
    rt: &R,
    shared: &Shared<N>,
    session: &mut StoreSession<N>,
) -> Result<Option<u8>, StoreError> {
    reach(rt, shared, 1);
    shared.store.begin(session)?;
    let found = get(rt, shared, session, &shared.one)?;
    shared.store.commit(rt, session)?;
    Ok(found)
}

/// Locks one key and then the other, and commits. The elder one of the two transactions.
fn elder<N: Name + ValueName, R: Wait + Clock>(
    rt: &R,
    shared: &Shared<N>,
    session: &mut StoreSession<N>,
) -> Result<Option<u8>, StoreError> {
    shared.store.begin(session)?;
    put(rt, shared, session, &shared.one, 1)?;
    shared.stage.store(1, Ordering::SeqCst);
    reach(rt, shared, 2);
    let found = get(rt, shared, session, &shared.other)?;
    shared.store.commit(rt, session)?;
    Ok(found)
}

/// Locks the other key and then the one. Its transaction is the younger one, so it gives way, and begins again.
fn younger<N: Name + ValueName, R: Wait + Clock>(
    rt: &R,
    shared: &Shared<N>,
    session: &mut StoreSession<N>,
) -> Result<Option<u8>, StoreError> {
    reach(rt, shared, 1);
    let ts = shared.store.begin(session)?;
    put(rt, shared, session, &shared.other, 2)?;
    shared.stage.store(2, Ordering::SeqCst);
    let refused = get(rt, shared, session, &shared.one);
    shared.store.abort(rt, session)?;
    if refused != Err(StoreError::Deadlock) {
        return Ok(None);
    }
    shared.store.begin_again(session, ts)?;
    let found = get(rt, shared, session, &shared.one)?;
    shared.store.commit(rt, session)?;
    Ok(found)
}

/// Which two parts the threads play.
#[derive(Clone, Copy)]
enum Play {
    Wait,
    Deadlock,
}

/// The first thread's part. What it found.
fn first<N: Name + ValueName, R: Wait + Clock>(
    rt: &R,
    shared: &Shared<N>,
    session: StoreSession<N>,
    play: Play,
) -> Result<Option<u8>, StoreError> {
    let mut session = session;
    let found = match play {
        Play::Wait => hold(rt, shared, &mut session),
        Play::Deadlock => elder(rt, shared, &mut session),
    };
    if found.is_err() {
        let _ = shared.store.abort(rt, &mut session);
        shared.stage.store(DONE, Ordering::SeqCst);
    }
    found
}

/// The second thread's part. What it found.
fn second<N: Name + ValueName, R: Wait + Clock>(
    rt: &R,
    shared: &Shared<N>,
    session: StoreSession<N>,
    play: Play,
) -> Result<Option<u8>, StoreError> {
    let mut session = session;
    let found = match play {
        Play::Wait => wait(rt, shared, &mut session),
        Play::Deadlock => younger(rt, shared, &mut session),
    };
    if found.is_err() {
        let _ = shared.store.abort(rt, &mut session);
        shared.stage.store(DONE, Ordering::SeqCst);
    }
    found
}

/// What the two threads found. None if memory ran out.
type BothFound = (
    Result<Option<u8>, StoreError>,
    Result<Option<u8>, StoreError>,
);

fn on_two<N: Name + ValueName + Send + Sync, R: Threads + Wait + Clock + Sync>(
    rt: &R,
    alloc: Global,
    ready: Ready,
    values: Arc<ValueBook>,
    keys: (Key, Key),
    play: Play,
) -> Option<BothFound>
    requires named { ready.of ≡ N.of }
    requires values { arc_value values ≡ N.values }
{
    let (one, other) = keys;
    let (store, passes) = Store::<N>::open(alloc, ready, 0, values).ok()?;
    let mut sessions = sessions_of::<N>(alloc, passes).ok()?;
    let left = sessions.pop()?;
    let right = sessions.pop()?;
    let shared = Shared {
        alloc,
        store,
        one,
        other,
        stage: AtomicU64::new(0),
    };
    let lent = &shared;
    Some(join(
        rt,
        move || first(rt, lent, left, play),
        move || second(rt, lent, right, play),
    ))
}

fn run<R: Threads + Wait + Clock + Sync>(rt: &R, alloc: Global, play: Play) -> Option<BothFound> {
    let keys = (key_of(alloc, b'a')?, key_of(alloc, b'b')?);
    let values = Arc::new(alloc, ValueBook::open(alloc).ok()?).ok()?;
    let ready = prepare_with(alloc, LIMITS, Keeping::Unrecorded).ok()?;
    on_two::<Brand, R>(rt, alloc, ready, values, keys, play)
}

#[test]
fn a_transaction_waits_until_the_lock_is_free(rt: HostRuntime) -> Result<(), Fail> {
    let found = run(&rt, rt.alloc(), Play::Wait).ok_or("memory")?;
    assert_eq!(rt; found, (Ok(Some(1)), Ok(Some(1))));
    Ok(())
}

#[test]
fn the_younger_transaction_of_a_deadlock_gives_way(rt: HostRuntime) -> Result<(), Fail> {
    let found = run(&rt, rt.alloc(), Play::Deadlock).ok_or("memory")?;
    assert_eq!(rt; found, (Ok(None), Ok(Some(1))));
    Ok(())
}
