//! What becomes of a finish that the table refuses, and that would have lent the value beside the key's shard? It says why, and
//! gives the closure back. The finish that is then made with this closure calls it.
//!
//! Fault injection runs the second test once for each of its allocations, and refuses that one.
ghost use Rattle.std.specs.Prelude.{◌≡◌, ◌≢◌};

use crate::playing::config;
use lt_entry::Entry;
use lt_ids::{Key, Timestamp, TxnId};
use lt_rules::KeyTable;
use lt_table::{Config, FinishRefused, Keeping, Ready, StepError, Table, open, prepare_with};
use lt_test_kit::key::key_of;
use lt_test_kit::run::seated;
use lt_words::{Name, Pass};
use std::alloc::Global;
use std::marker::Brand;
use std::sync::Wait;
use std::test::Fail;

const TS: Timestamp = Timestamp {
    wall: 10,
    logical: 0,
};

/// What the closure of the finish returns.
const PUT: u32 = 7;

/// What came of a finish that was made again after it was refused.
#[derive(Clone, Copy, Debug, PartialEq, Eq)]
struct Finished {
    /// Why it was refused the first time, if it was.
    refused: Option<StepError>,
    /// What its closure returned in the end. None if it was refused again, or freed no lock.
    put: Option<u32>,
}

/// Takes out the steps of the key's shard. The shard has then no room for a further step without an allocation.
fn take_out<N: Name, T: KeyTable, R: Wait>(
    rt: &R,
    alloc: Global,
    table: &Table<N, T>,
    pass: &mut Pass,
    key: &Key,
)
    requires of { pass.old.of ≡ N.of }
    requires keeping { N.of.keeping ≢ Keeping.Whole }
    ensures { pass.new.of ≡ N.of }
{
    let mut steps: Vec<Entry> = Vec::new(alloc);
    table.take_history(rt, pass, table.shard_of(key), &mut steps);
}

/// Finishes the transaction at the key, and once more if it is refused. The steps of the key's shard are taken out in between.
fn finish<N: Name, T: KeyTable, R: Wait>(
    rt: &R,
    alloc: Global,
    table: &Table<N, T>,
    pass: &mut Pass,
    key: &Key,
    txn: TxnId,
) -> Finished
    requires of { pass.old.of ≡ N.of }
    requires keeping { N.of.keeping ≢ Keeping.Whole }
{
    let FinishRefused { f, error } = match table.finish_then(
        rt,
        pass,
        key,
        txn,
        |_: &mut ()| -> u32 { PUT },
    ) {
        Ok((_, put)) => return Finished { refused: None, put },
        Err(refused) => refused,
    };
    take_out(rt, alloc, table, pass, key);
    let put = match table.finish_then(rt, pass, key, txn, f) {
        Ok((_, put)) => put,
        Err(_) => None,
    };
    Finished {
        refused: Some(error),
        put,
    }
}

/// A transaction takes a key's lock and finishes. If `is_empty`, the shard's steps are taken out before the finish. None if memory
/// ended before.
fn run_named<N: Name, R: Wait>(
    rt: &R,
    alloc: Global,
    ready: Ready,
    is_empty: bool,
) -> Option<Finished>
    requires of { ready.of ≡ N.of }
    requires keeping { N.of.keeping ≢ Keeping.Whole }
{
    let txn = TxnId::new(9).unwrap();
    let (table, passes) = open::<N>(alloc, ready, 0).ok()?;
    let mut seats = seated::<N>(alloc, passes)?;
    let key = key_of(alloc, b'a')?;
    let mut pass = seats.pop()?.into_pass()?;
    let has_lock = table.acquire(rt, &mut pass, &key, txn, TS).is_ok();
    if is_empty {
        take_out(rt, alloc, &table, &mut pass, &key);
    }
    let finished = finish(rt, alloc, &table, &mut pass, &key, txn);
    pass.abandon();
    if has_lock { Some(finished) } else { None }
}

/// The same for a new table that streams its steps, of which its shard may hold so many.
fn run<R: Wait>(rt: &R, alloc: Global, max_steps: u64, is_empty: bool) -> Option<Finished> {
    let limits = Config {
        max_steps,
        ..config(1, 1)
    };
    let ready = prepare_with(alloc, limits, Keeping::Streamed).ok()?;
    run_named::<Brand, R>(rt, alloc, ready, is_empty)
}

/// The shard may hold one step, and the acquire is one.
#[test]
fn a_finish_at_a_full_shard_gives_its_closure_back(rt: HostRuntime) -> Result<(), Fail> {
    let finished = run(&rt, rt.alloc(), 1, false).ok_or("the run")?;
    let wanted = Finished {
        refused: Some(StepError::HistoryFull),
        put: Some(PUT),
    };
    assert_eq!(rt; finished, wanted);
    Ok(())
}

/// The shard may hold more steps, but its memory was handed out with those before. So the finish is refused only if its own
/// allocation fails.
#[test]
fn a_finish_without_memory_gives_its_closure_back(rt: HostRuntime) -> Result<(), Fail> {
    let Some(finished) = run(&rt, rt.alloc(), 100, true) else {
        return Ok(());
    };
    assert_eq!(rt; finished.put, Some(PUT));
    assert!(rt; matches!(finished.refused, None | Some(StepError::Memory)));
    Ok(())
}
