//! What do the steps of one shard answer and show, on one thread? [`run`] makes three steps at one key;
//! [`let_two`] makes one step that lets two requests of one pass through.
//!
//! In [`run`] transaction 9 takes the lock, a request of another pass waits to write, and the lock is freed. The
//! shard may make three steps, so a fourth is refused. [`crate::shard::tests`] compares the results.
ghost use Rattle.std.specs.Prelude.{◌≡◌, ◌<◌, ◌≤◌, IfSome};
ghost use Rattle.std.specs.FinMap as finmap;
ghost use Rattle.lt_entry.specs.Ranges.{NamesNumber};
ghost use Rattle.lt_words.specs.History.{shard_of};

use lt_ids::{Access, Key, Ticket, Timestamp, TxnId};
use lt_plain::PlainTable;
use lt_rules::{Call, KeyTable};
use lt_shard::{Answer, Shard, StepError};
use lt_words::{Book, Pass, abandon_all, shard_of};
use std::alloc::Global;
use std::sync::Wait;

/// The answer of a step, and whether its first attempt ran out of memory.
#[derive(Drop)]
pub struct StepTried {
    pub answer: Answer,
    pub was_refused: bool,
}

/// The results of [`run`].
#[derive(Drop)]
pub struct ShardRun {
    pub taken: StepTried,
    pub waits: StepTried,
    pub freed: StepTried,
    pub full: Result<Answer, StepError>,
    /// How many steps each of the two passes counts at the shard.
    pub counts: (u64, u64),
    pub shown: u64,
    pub stored: usize,
}

/// The calls of [`run`], in order.
#[derive(Drop)]
pub struct Calls {
    pub acquire: Call,
    pub visit: Call,
    pub finish: Call,
}

/// A visit to read, at time 10. The transaction's number is that of the request.
fn visit(number: u64) -> Option<Call>
    ensures { IfSome result (λ c. NamesNumber c) }
{
    let txn = TxnId::new(number)?;
    let ticket = Ticket::new(number, 1)?;
    let ts = Timestamp {
        wall: 10,
        logical: 0,
    };
    Some(Call::Visit {
        ticket,
        txn: Some(txn),
        ts,
        access: Access::Read,
        longest: 0,
    })
}

fn make_calls() -> Option<Calls>
    ensures { IfSome result (λ c. NamesNumber c.acquire × NamesNumber c.visit × NamesNumber c.finish) }
{
    let holder = TxnId::new(9)?;
    let waiter = TxnId::new(1)?;
    let ticket = Ticket::new(1, 1)?;
    let ts = Timestamp {
        wall: 10,
        logical: 0,
    };
    Some(Calls {
        acquire: Call::Acquire { txn: holder, ts },
        visit: Call::Visit {
            ticket,
            txn: Some(waiter),
            ts,
            access: Access::Write,
            longest: 0,
        },
        finish: Call::Finish { txn: holder },
    })
}

/// Makes a step, and makes it again if it runs out of memory. The failed attempt must have left the history and
/// the pass's count unchanged; otherwise the result is an error.
fn make<T: KeyTable, R: Wait>(
    rt: &R,
    book: &Book,
    shard: &mut Shard<T>,
    pass: &mut Pass,
    key: &Key,
    call: &Call,
) -> Result<StepTried, StepError>
    requires book { book.now ≡ shard.old.front.of }
    requires pass { pass.old.of ≡ book.now }
    requires home { shard.old.index ≡ shard_of key.now book.now.shards }
    requires index { shard.old.index < book.now.shards }
    requires number { NamesNumber call.now }
    ensures pass { pass.new.of ≡ pass.old.of }
    ensures index { shard.new.index ≡ shard.old.index }
    ensures of { shard.new.front.of ≡ shard.old.front.of }
{
    let index = shard.index();
    let stored = shard.history().len();
    let count = pass.count(index);
    match shard.step(rt, book, pass, key, call) {
        Ok(answer) => Ok(StepTried {
            answer,
            was_refused: false,
        }),
        Err(StepError::HistoryFull) => Err(StepError::HistoryFull),
        Err(StepError::Memory) => {
            if shard.history().len() != stored || pass.count(index) != count {
                return Err(StepError::Memory);
            }
            let answer = shard.step(rt, book, pass, key, call)?;
            Ok(StepTried {
                answer,
                was_refused: true,
            })
        }
    }
}

fn run_over<T: KeyTable + Drop, R: Wait>(
    rt: &R,
    alloc: Global,
    book: &Book,
    table: T,
    shards: usize,
    one: &mut Pass,
    two: &mut Pass,
    key: &Key,
    calls: &Calls,
) -> Result<ShardRun, StepError>
    requires shards { book.now.shards ≡ shards }
    requires some { 0 < shards }
    requires empty { T.records table ≡ finmap.empty }
    requires one { one.old.of ≡ book.now }
    requires two { two.old.of ≡ book.now }
    requires calls { NamesNumber calls.now.acquire × NamesNumber calls.now.visit × NamesNumber calls.now.finish }
{
    let index = shard_of(key, shards);
    let mut shard = Shard::new(alloc, table, book, index, 3);
    let taken = make(rt, book, &mut shard, one, key, &calls.acquire)?;
    let waits = make(rt, book, &mut shard, two, key, &calls.visit)?;
    let freed = make(rt, book, &mut shard, one, key, &calls.finish)?;
    let full = shard.step(rt, book, one, key, &calls.finish);
    shard.meet(rt, book, two);
    let counts = (one.count(index), two.count(index));
    let shown = book.read(two);
    let stored = shard.into_history().len();
    Ok(ShardRun {
        taken,
        waits,
        freed,
        full,
        counts,
        shown,
        stored,
    })
}

/// Opens a book with two passes. None if an allocation fails.
fn open_two(alloc: Global, shards: usize) -> Option<(Book, Pass, Pass)>
    requires some { 0 < shards }
    requires few { shards ≤ 64 }
    ensures shards { IfSome result (λ r. r.0.shards ≡ shards) }
    ensures one { IfSome result (λ r. r.1.of ≡ r.0) }
    ensures two { IfSome result (λ r. r.2.of ≡ r.0) }
{
    let (book, mut passes) = Book::open(alloc, shards, 2).ok()?;
    let Some(two) = passes.pop() else {
        abandon_all(passes);
        return None;
    };
    let Some(one) = passes.pop() else {
        two.abandon();
        abandon_all(passes);
        return None;
    };
    abandon_all(passes);
    Some((book, one, two))
}

/// Opens a book with two shards, and makes the steps of a shard. None if an allocation outside the steps fails.
pub fn run<R: Wait>(rt: &R, alloc: Global) -> Option<ShardRun> {
    let key = Key::from_bytes(alloc, b"a").ok()?;
    let calls = make_calls()?;
    let (book, mut one, mut two) = open_two(alloc, 2)?;
    let table = PlainTable::new(alloc);
    let ran = run_over(rt, alloc, &book, table, 2, &mut one, &mut two, &key, &calls);
    one.abandon();
    two.abandon();
    ran.ok()
}

fn let_two_over<T: KeyTable + Drop, R: Wait>(
    rt: &R,
    alloc: Global,
    book: &Book,
    table: T,
    one: &mut Pass,
    two: &mut Pass,
    key: &Key,
    calls: &Calls,
    visits: (&Call, &Call),
) -> Result<(u64, u64), StepError>
    requires shards { book.now.shards ≡ 1 }
    requires empty { T.records table ≡ finmap.empty }
    requires one { one.old.of ≡ book.now }
    requires two { two.old.of ≡ book.now }
    requires calls { NamesNumber calls.now.acquire × NamesNumber calls.now.finish }
    requires visits { NamesNumber visits.0.now × NamesNumber visits.1.now }
{
    let index = shard_of(key, 1);
    let mut shard = Shard::new(alloc, table, book, index, 4);
    make(rt, book, &mut shard, one, key, &calls.acquire)?;
    make(rt, book, &mut shard, two, key, visits.0)?;
    make(rt, book, &mut shard, two, key, visits.1)?;
    let before = book.read(two);
    make(rt, book, &mut shard, one, key, &calls.finish)?;
    Ok((before, book.read(two)))
}

/// Two requests with these numbers, both of the second pass, wait to read, in this order. One step lets both
/// through. The result is the pass's status word before and after that step. None if an allocation outside the
/// steps fails.
pub fn let_two<R: Wait>(rt: &R, alloc: Global, first: u64, second: u64) -> Option<(u64, u64)> {
    let key = Key::from_bytes(alloc, b"a").ok()?;
    let calls = make_calls()?;
    let visits = (visit(first)?, visit(second)?);
    let (book, mut one, mut two) = open_two(alloc, 1)?;
    let table = PlainTable::new(alloc);
    let read = let_two_over(
        rt,
        alloc,
        &book,
        table,
        &mut one,
        &mut two,
        &key,
        &calls,
        (&visits.0, &visits.1),
    );
    one.abandon();
    two.abandon();
    read.ok()
}
