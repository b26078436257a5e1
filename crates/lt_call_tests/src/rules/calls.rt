//! How is a table of calls played at one key? [`expect`] makes them in order and compares each reply and its lets.
//!
//! A row ([`ExpectedStep`]) is a call, its reply, and the waits that it lets through, in plain numbers. A call that
//! runs out of memory must change nothing, and is made a second time. `worked` has the rows.
ghost use Rattle.std.specs.Prelude.{◌<◌, ◌≤◌};

use lt_ids::{Access, IdError, Key, Through, Ticket, Timestamp, TxnId};
use lt_plain::PlainTable;
use lt_rules::{Call, KeyTable, Reply};
use std::alloc::Global;
use std::process::Abort;
use std::test::Fail;

/// Request numbers run from 1 to this number, exclusive.
const NUMBERS: u64 = 10;

/// The reply of a look by each request number. Number 0 belongs to no request.
type FoundByLook = [Reply; 10];

fn txn(number: u64) -> Result<TxnId, Fail> {
    Ok(TxnId::new(number).ok_or("a transaction of this number")?)
}

fn at(wall: u64) -> Timestamp {
    Timestamp { wall, logical: 0 }
}

fn ticket(number: u64, wait: u32) -> Result<Ticket, Fail> {
    Ok(Ticket::new(number, wait).ok_or("a ticket")?)
}

/// The key of these bytes. An allocation that fails is tried a second time.
fn key(alloc: Global, bytes: &[u8]) -> Result<Key, IdError> {
    match Key::from_bytes(alloc, bytes) {
        Err(IdError::Memory) => Key::from_bytes(alloc, bytes),
        made => made,
    }
}

/// The looks of all requests. They are in an array, so that looking allocates nothing.
fn looks(table: &PlainTable, key: &Key) -> FoundByLook {
    let mut found = [Reply::Nothing; 10];
    for number in 0..NUMBERS {
        found[number as usize] = table.look(key, number);
    }
    found
}

/// Makes the call for pass 3. If the call runs out of memory, the looks must be the same as before, and the call is
/// made again. At most one call of a test may run out of memory: a single injected failure causes no more, and
/// without an injected failure there is none.
fn make(
    rt: &impl Abort,
    table: &mut PlainTable,
    key: &Key,
    call: &Call,
    lets: &mut Vec<Through>,
    refusals: &mut u64,
) -> Result<Reply, Fail> {
    lets.clear();
    let before = looks(table, key);
    match table.step(key, 3, call, lets) {
        Ok(reply) => Ok(reply),
        Err(_) => {
            *refusals = refusals.wrapping_add(1);
            assert!(rt; *refusals <= 1, "a call was refused without cause");
            assert!(rt; lets.is_empty(), "a refused call let somebody through");
            assert!(rt;
                looks(table, key) == before,
                "a refused call changed what is found"
            );
            match table.step(key, 3, call, lets)? {
                // A call with one of these replies allocates nothing, so it cannot have run out of memory.
                Reply::Other | Reply::Kept | Reply::Absent | Reply::TooLong => {
                    Err(Fail::from("a call that takes no memory was refused"))
                }
                reply => Ok(reply),
            }
        }
    }
}

/// The waits that a call lets through, in order. No call of an example lets more than two through.
#[derive(Clone, Copy)]
pub enum ExpectedLets {
    Nobody,
    /// This wait of this request: its number and its wait number.
    One(u64, u32),
    /// The first wait of each of these requests.
    Two(u64, u64),
}

pub const NOBODY: ExpectedLets = ExpectedLets::Nobody;

/// A call of a row, in plain numbers. [`call_of`] makes it.
#[derive(Clone, Copy)]
pub enum ExpectedCall {
    /// A transaction and a time.
    Acquire(u64, u64),
    /// A transaction and a time.
    Update(u64, u64),
    /// A transaction.
    Finish(u64),
    /// A request's number.
    Leave(u64),
    /// A request's number.
    Look(u64),
    /// A visit, without a bound, of a request whose transaction has the request's number: the number, the time, the
    /// access and the wait number.
    Visit(u64, u64, Access, u32),
    /// A visit to write, at time 1 and without a bound, of a request without a transaction: its number and the wait
    /// number.
    Alone(u64, u32),
    /// A visit to write, at time 1, of a request with a bound: its number, the wait number and the bound.
    Within(u64, u32, u32),
}

/// The reply of a row.
#[derive(Clone, Copy)]
pub enum ExpectedReply {
    Is(Reply),
    /// The request waits for this transaction, whose lock is held if the flag is true: [`Reply::WaitFor`].
    For(u64, bool),
    /// The request waits for this transaction as the first: [`Reply::WaitFirst`].
    First(u64, bool),
}

/// A row: a call, its reply, and the waits that it lets through.
pub type ExpectedStep = (ExpectedCall, ExpectedReply, ExpectedLets);

fn visit(number: u64, wall: u64, access: Access, wait: u32) -> Result<Call, Fail> {
    Ok(Call::Visit {
        ticket: ticket(number, wait)?,
        txn: Some(txn(number)?),
        ts: at(wall),
        access,
        longest: 0,
    })
}

fn visit_alone(number: u64, wait: u32) -> Result<Call, Fail> {
    Ok(Call::Visit {
        ticket: ticket(number, wait)?,
        txn: None,
        ts: at(1),
        access: Access::Write,
        longest: 0,
    })
}

fn visit_within(number: u64, wait: u32, longest: u32) -> Result<Call, Fail> {
    Ok(Call::Visit {
        ticket: ticket(number, wait)?,
        txn: Some(txn(number)?),
        ts: at(1),
        access: Access::Write,
        longest,
    })
}

/// The call of a row.
fn call_of(row: ExpectedCall) -> Result<Call, Fail> {
    Ok(match row {
        ExpectedCall::Acquire(number, wall) => Call::Acquire {
            txn: txn(number)?,
            ts: at(wall),
        },
        ExpectedCall::Update(number, wall) => Call::Update {
            txn: txn(number)?,
            ts: at(wall),
        },
        ExpectedCall::Finish(number) => Call::Finish { txn: txn(number)? },
        ExpectedCall::Leave(number) => Call::Leave { number },
        ExpectedCall::Look(number) => Call::Look { number },
        ExpectedCall::Visit(number, wall, access, wait) => visit(number, wall, access, wait)?,
        ExpectedCall::Alone(number, wait) => visit_alone(number, wait)?,
        ExpectedCall::Within(number, wait, longest) => visit_within(number, wait, longest)?,
    })
}

/// The reply of a row.
fn reply_of(row: ExpectedReply) -> Result<Reply, Fail> {
    Ok(match row {
        ExpectedReply::Is(reply) => reply,
        ExpectedReply::For(number, is_held) => Reply::WaitFor(txn(number)?, is_held),
        ExpectedReply::First(number, is_held) => Reply::WaitFirst(txn(number)?, is_held),
    })
}

/// A wait that pass 3 is told of.
fn through(number: u64, wait: u32) -> Result<Option<Through>, Fail> {
    Ok(Some(Through {
        pass: 3,
        ticket: ticket(number, wait)?,
    }))
}

/// The waits that a row lets through.
fn lets_of(row: ExpectedLets) -> Result<[Option<Through>; 2], Fail> {
    Ok(match row {
        ExpectedLets::Nobody => [None, None],
        ExpectedLets::One(number, wait) => [through(number, wait)?, None],
        ExpectedLets::Two(first, second) => [through(first, 1)?, through(second, 1)?],
    })
}

/// Makes the call of a row at the key, as pass 3, and fails unless it has the row's reply and lets.
fn expect_step(
    rt: &impl Abort,
    alloc: Global,
    table: &mut PlainTable,
    key: &Key,
    step: &ExpectedStep,
    refusals: &mut u64,
) -> Result<(), Fail> {
    let (call, reply, lets) = *step;
    let call = call_of(call)?;
    // Each call gets a new list of lets, so that fault injection reaches the allocation of each list.
    let mut found = Vec::new(alloc);
    assert_eq!(rt;
        make(rt, table, key, &call, &mut found, refusals)?,
        reply_of(reply)?
    );
    assert_eq!(rt;
        [found.get(0).copied(), found.get(1).copied()],
        lets_of(lets)?
    );
    assert!(rt; found.len() <= 2);
    Ok(())
}

/// Makes the calls of the rows on a new table, at the key `a`, as pass 3 and in order. Fails unless each has its
/// reply and its lets.
pub fn expect(rt: &impl Abort, alloc: Global, steps: &[ExpectedStep]) -> Result<(), Fail> {
    let mut table = PlainTable::new(alloc);
    let a = key(alloc, b"a")?;
    let mut refusals = 0;
    for step in steps {
        expect_step(rt, alloc, &mut table, &a, step, &mut refusals)?;
    }
    Ok(())
}
