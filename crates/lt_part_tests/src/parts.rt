//! In which parts does a table give the locked keys of a shard? A test locks some keys. Then each row of it asks for a
//! part, and says which keys the part must have, as found by hand from the order of their bytes.
//!
//! A call that runs out of memory is made a second time, and must give the same part. So the tests end well whichever
//! single allocation of such a call fails.
ghost use Rattle.std.specs.Prelude.{◌≡◌, ◌<◌};

use lt_ids::{Key, Timestamp, TxnId};
use lt_rules::{KeyTable, Reply};
use lt_table::{Config, Keeping, Ready, Table, open, prepare_with};
use lt_test_kit::holds::Holds;
use lt_test_kit::key::{key_length, key_of};
use lt_test_kit::run::seated;
use lt_test_kit::seat::Seat;
use lt_words::{Name, Pass};
use std::alloc::Global;
use std::marker::Brand;
use std::process::Abort;
use std::sync::Wait;
use std::test::Fail;

const LIMITS: Config = Config {
    shards: 1,
    passes: 1,
    max_steps: 1,
    max_requests: 1,
    max_waits: 1,
};

const TS: Timestamp = Timestamp {
    wall: 10,
    logical: 0,
};

/// The keys that a test locks, with the parts that it asks for.
#[derive(Clone, Copy)]
enum Sample {
    Many,
    One,
    Empty,
}

/// The byte that names the key that a part begins after, how many keys the part may have, and the bytes that name
/// those that it has.
type PartRow = (Option<u8>, usize, &'static str);

/// The keys that are locked, not in order. A capital letter names a key that takes an allocation for each copy.
const MANY: &'static str = "dAbfCe";

/// The parts of these keys. B, c and z name keys that are not locked.
const PARTS_OF_MANY: [PartRow; 15] = [
    (None, 10, "ACbdef"),
    (None, 6, "ACbdef"),
    (None, 5, "ACbde"),
    (None, 1, "A"),
    (None, 0, ""),
    // Three parts that join to the whole list, and the one after the last.
    (None, 2, "AC"),
    (Some(b'C'), 2, "bd"),
    (Some(b'd'), 2, "ef"),
    (Some(b'f'), 2, ""),
    (Some(b'A'), 10, "Cbdef"),
    (Some(b'B'), 2, "Cb"),
    (Some(b'c'), 3, "def"),
    (Some(b'e'), 3, "f"),
    (Some(b'z'), 3, ""),
    (Some(b'b'), 0, ""),
];

/// The parts of the single key d.
const PARTS_OF_ONE: [PartRow; 6] = [
    (None, 1, "d"),
    (None, 0, ""),
    (Some(b'c'), 3, "d"),
    (Some(b'd'), 3, ""),
    (Some(b'e'), 3, ""),
    (Some(b'A'), 1, "d"),
];

/// The parts of no key.
const PARTS_OF_NONE: [PartRow; 3] = [(None, 2, ""), (None, 0, ""), (Some(b'd'), 2, "")];

/// Locks the key that each byte names. None if a lock is not taken, or an allocation fails.
fn lock_all<N: Name, T: KeyTable, R: Wait>(
    rt: &R,
    alloc: Global,
    table: &Table<N, T>,
    pass: &mut Pass,
    letters: &str,
) -> Option<()>
    requires { pass.old.of ≡ N.of }
    ensures { pass.new.of ≡ N.of }
{
    let txn = TxnId::new(9).unwrap();
    for letter in letters.as_bytes() {
        let key = key_of(alloc, *letter)?;
        let answer = table.acquire(rt, pass, &key, txn, TS).ok()?;
        if answer.reply != Reply::Taken {
            return None;
        }
    }
    Some(())
}

/// The part of the shard's locked keys. A call that runs out of memory is made a second time.
fn part_of<N: Name, T: KeyTable, R: Wait>(
    rt: &R,
    table: &Table<N, T>,
    pass: &mut Pass,
    shard: usize,
    after: Option<&Key>,
    at_most: usize,
) -> Option<Vec<Key>>
    requires pass { pass.old.of ≡ N.of }
    requires shard { shard < N.of.shards }
    ensures { pass.new.of ≡ N.of }
{
    if let Ok(part) = table.locked_keys_after(rt, pass, shard, after, at_most) {
        return Some(part);
    }
    table
        .locked_keys_after(rt, pass, shard, after, at_most)
        .ok()
}

/// The same after the key that the byte names.
fn part_after<N: Name, T: KeyTable, R: Wait>(
    rt: &R,
    alloc: Global,
    table: &Table<N, T>,
    pass: &mut Pass,
    after: Option<u8>,
    at_most: usize,
) -> Option<Vec<Key>>
    requires { pass.old.of ≡ N.of }
    ensures { pass.new.of ≡ N.of }
{
    let shard = table.shard_of(&key_of(alloc, b'a')?);
    match after {
        None => part_of(rt, table, pass, shard, None, at_most),
        Some(byte) => {
            let key = key_of(alloc, byte)?;
            part_of(rt, table, pass, shard, Some(&key), at_most)
        }
    }
}

/// Whether these are the keys that the bytes name, in this order.
fn are_named(keys: &[Key], letters: &str) -> bool {
    if keys.len() != letters.len() {
        return false;
    }
    for (key, letter) in keys.iter().zip(letters.as_bytes()) {
        let bytes = key.as_bytes();
        if bytes.first() != Some(letter) || bytes.len() != key_length(*letter) {
            return false;
        }
    }
    true
}

/// How many of the rows get the keys that they must.
fn count_parts<N: Name, T: KeyTable, R: Wait>(
    rt: &R,
    alloc: Global,
    table: &Table<N, T>,
    pass: &mut Pass,
    rows: &[PartRow],
) -> Option<usize>
    requires { pass.old.of ≡ N.of }
    ensures { pass.new.of ≡ N.of }
{
    let mut right: usize = 0;
    for (after, at_most, letters) in rows {
        let part = part_after(rt, alloc, table, pass, *after, *at_most)?;
        right = right.saturating_add(usize::from(are_named(&part, letters)));
    }
    Some(right)
}

/// Locks the keys by the pass of the seat, and says how many of the rows get the keys that they must.
fn count_right<N: Name, T: KeyTable, R: Wait>(
    rt: &R,
    alloc: Global,
    table: &Table<N, T>,
    seat: &mut Seat<N>,
    locked: &str,
    rows: &[PartRow],
) -> Option<usize> {
    let Holds::Free(pass) = &mut seat.holds else {
        return None;
    };
    lock_all(rt, alloc, table, pass, locked)?;
    count_parts(rt, alloc, table, pass, rows)
}

fn run_named<N: Name, R: Wait>(rt: &R, alloc: Global, ready: Ready, sample: Sample) -> Option<usize>
    requires { ready.of ≡ N.of }
{
    let (table, passes) = open::<N>(alloc, ready, 0).ok()?;
    let mut seats = seated::<N>(alloc, passes)?;
    let mut seat = seats.pop()?;
    match sample {
        Sample::Many => count_right(rt, alloc, &table, &mut seat, MANY, &PARTS_OF_MANY),
        Sample::One => count_right(rt, alloc, &table, &mut seat, "d", &PARTS_OF_ONE),
        Sample::Empty => count_right(rt, alloc, &table, &mut seat, "", &PARTS_OF_NONE),
    }
}

/// Locks the keys of the sample in a new table that records no steps, and says how many of its rows get the keys that
/// they must. None if an allocation fails outside the calls that the rows make.
fn run<R: Wait>(rt: &R, alloc: Global, sample: Sample) -> Option<usize> {
    let ready = prepare_with(alloc, LIMITS, Keeping::Unrecorded).ok()?;
    run_named::<Brand, R>(rt, alloc, ready, sample)
}

#[test]
fn parts_of_many_keys(rt: HostRuntime) -> Result<(), Fail> {
    let right = run(&rt, rt.alloc(), Sample::Many).ok_or("the run")?;
    assert_eq!(rt; right, PARTS_OF_MANY.len());
    Ok(())
}

#[test]
fn parts_of_one_key(rt: HostRuntime) -> Result<(), Fail> {
    let right = run(&rt, rt.alloc(), Sample::One).ok_or("the run")?;
    assert_eq!(rt; right, PARTS_OF_ONE.len());
    Ok(())
}

#[test]
fn parts_of_no_key(rt: HostRuntime) -> Result<(), Fail> {
    let right = run(&rt, rt.alloc(), Sample::Empty).ok_or("the run")?;
    assert_eq!(rt; right, PARTS_OF_NONE.len());
    Ok(())
}
