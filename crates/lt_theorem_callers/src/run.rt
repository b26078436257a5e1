//! What do two callers know when the table is closed?
ghost use Rattle.std.specs.Prelude.{◌≡◌, ◌≢◌, ◌++◌, ◌∷◌, [], IfSome, IsTrue};
ghost use Rattle.std.specs.List.{All};
ghost use Rattle.lt_words.specs.Row.{fresh_passes};
ghost use Rattle.lt_shard.specs.declared.holding.Rest.{Rest as RestState};
ghost use Rattle.lt_theorem_callers.specs.Heard.{HasNoted, NotesMore, IsStaying, IsConcluded};

use crate::caller::{
    NotingCaller, NotingRequester, acquire, enter, finish, leave, proceed, scan, take_out, wait,
};
use crate::notes::Notes;
use lt_ids::{Key, TxnId};
use lt_rules::KeyTable;
use lt_table_core::laws::{fresh_have_heard_nothing, main_theorem, rest_is_end};
use lt_table_core::{Rests, Scan, Table};
use lt_words::{Keeping, Name, Pass, abandon_all};
use std::alloc::Global;
use std::sync::Wait;
use std::thread::{Threads, join};

/// What is left of the table, and what each caller noted.
#[derive(Drop)]
pub struct NotedClose {
    pub rests: Rests,
    pub one: Notes,
    pub two: Notes,
}

/// Two passes, if these are two. Otherwise they are given up.
fn two_passes(mut passes: Vec<Pass>) -> Option<(Pass, Pass)>
    ensures { IfSome result (λ r. passes.items ≡ r.0 ∷ r.1 ∷ []) }
{
    if passes.len() != 2 {
        abandon_all(passes);
        return None;
    }
    let Some(two) = passes.pop() else {
        abandon_all(passes);
        return None;
    };
    let Some(one) = passes.pop() else {
        two.abandon();
        abandon_all(passes);
        return None;
    };
    abandon_all(passes);
    Some((one, two))
}

/// Two callers that were told nothing yet, with all passes of a table that was just opened.
pub fn two_callers<N: Name>(
    alloc: Global,
    passes: Vec<Pass>,
) -> Option<(NotingCaller, NotingCaller)>
    requires fresh { passes.items ≡ fresh_passes N.of N.of.passes }
    requires of { All (λ p. p.of ≡ N.of) passes.items }
    ensures differ { IfSome result (λ r. r.0.pass.number ≢ r.1.pass.number) }
    ensures one { IfSome result (λ r. HasNoted N.of r.0.pass r.0.notes) }
    ensures two { IfSome result (λ r. HasNoted N.of r.1.pass r.1.notes) }
{
    fresh_have_heard_nothing();
    let (one, two) = two_passes(passes)?;
    let one = NotingCaller {
        pass: one,
        notes: Notes::new(alloc),
    };
    let two = NotingCaller {
        pass: two,
        notes: Notes::new(alloc),
    };
    Some((one, two))
}

/// Appends the pass. If an allocation fails, the pass is given up and the result is false.
fn put_pass(passes: &mut Vec<Pass>, pass: Pass) -> bool
    ensures { IsTrue result → passes.new.items ≡ passes.old.items ++ pass ∷ [] }
{
    match passes.push(pass) {
        Ok(()) => true,
        Err(refused) => {
            refused.value.abandon();
            false
        }
    }
}

/// Both passes. If an allocation fails, they are given up.
fn both(alloc: Global, one: Pass, two: Pass) -> Option<Vec<Pass>>
    ensures { IfSome result (λ passes. passes.items ≡ one ∷ two ∷ []) }
{
    let mut passes = Vec::new(alloc);
    if !put_pass(&mut passes, one) {
        two.abandon();
        abandon_all(passes);
        return None;
    }
    if !put_pass(&mut passes, two) {
        abandon_all(passes);
        return None;
    }
    Some(passes)
}

/// Closes the table with the passes of both callers. The main theorem holds of what they noted.
pub fn close<N: Name, T: KeyTable + Drop, R: Wait>(
    rt: &R,
    alloc: Global,
    table: Table<N, T>,
    one: NotingCaller,
    two: NotingCaller,
) -> Option<NotedClose>
    requires differ { one.pass.number ≢ two.pass.number }
    requires one { HasNoted N.of one.pass one.notes }
    requires two { HasNoted N.of two.pass two.notes }
    ensures { IfSome result (λ c. (d : RestState) → IsConcluded N.of d c.rests.shards.items c.one.answers.items c.two.answers.items c.one.lets.items c.two.lets.items) }
{
    main_theorem();
    rest_is_end();
    let (pass, notes) = one.into_parts();
    let (other, other_notes) = two.into_parts();
    let passes = both(alloc, pass, other)?;
    match table.close_rest(rt, alloc, passes, Vec::new(alloc)) {
        Ok(rests) => Some(NotedClose {
            rests,
            one: notes,
            two: other_notes,
        }),
        Err(refused) => {
            refused.abandon();
            None
        }
    }
}

/// A transaction takes the lock of the key: its request enters, waits for its turn, takes the lock and leaves.
fn take<N: Name, T: KeyTable, R: Wait>(
    rt: &R,
    alloc: Global,
    table: &Table<N, T>,
    caller: NotingCaller,
    key: &Key,
    txn: TxnId,
) -> Option<NotingCaller>
    requires noted { HasNoted N.of caller.pass caller.notes }
    ensures noted { IfSome result (λ c. NotesMore N.of caller.pass c.pass c.notes) }
{
    let mut requester = enter(alloc, table, caller, key, txn)?;
    proceed(rt, table, &mut requester)?;
    acquire(rt, table, &mut requester, key, txn)?;
    leave(rt, table, requester)
}

/// A transaction takes the lock of the key, and then frees it. Then its caller takes out the steps of the key's shard.
fn work<N: Name, T: KeyTable, R: Wait>(
    rt: &R,
    alloc: Global,
    table: &Table<N, T>,
    caller: NotingCaller,
    key: &Key,
    txn: TxnId,
) -> Option<NotingCaller>
    requires noted { HasNoted N.of caller.pass caller.notes }
    requires keeping { N.of.keeping ≢ Keeping.Whole }
    ensures noted { IfSome result (λ c. NotesMore N.of caller.pass c.pass c.notes) }
{
    let mut holder = take(rt, alloc, table, caller, key, txn)?;
    finish(rt, table, &mut holder, key, txn)?;
    let _ = take_out(rt, alloc, table, &mut holder, table.shard_of(key));
    Some(holder)
}

/// A request that has scanned once goes on: if it has to wait, it waits; then it takes the lock and leaves, and the lock
/// is freed.
fn go_on<N: Name, T: KeyTable, R: Wait>(
    rt: &R,
    table: &Table<N, T>,
    waiter: NotingRequester,
    scanned: Scan,
    key: &Key,
    txn: TxnId,
) -> Option<NotingCaller>
    requires noted { HasNoted N.of waiter.guard.pass waiter.notes }
    requires staying { IsStaying waiter.guard }
    ensures noted { IfSome result (λ c. NotesMore N.of waiter.guard.pass c.pass c.notes) }
{
    let mut waiter = waiter;
    if let Scan::Waiting(_) = scanned {
        wait(rt, table, &mut waiter)?;
    }
    proceed(rt, table, &mut waiter)?;
    acquire(rt, table, &mut waiter, key, txn)?;
    let mut holder = leave(rt, table, waiter)?;
    finish(rt, table, &mut holder, key, txn)?;
    Some(holder)
}

/// Two callers take the lock of one key in turn, on one thread: the second one's request meets the lock and waits until
/// the first frees it. The first takes out the steps that were made until then. Then the table is closed. The main theorem
/// holds of what they noted.
pub fn run_in_turn<N: Name, T: KeyTable + Drop, R: Wait>(
    rt: &R,
    alloc: Global,
    table: Table<N, T>,
    passes: Vec<Pass>,
) -> Option<NotedClose>
    requires fresh { passes.items ≡ fresh_passes N.of N.of.passes }
    requires of { All (λ p. p.of ≡ N.of) passes.items }
    requires keeping { N.of.keeping ≢ Keeping.Whole }
    ensures { IfSome result (λ c. (d : RestState) → IsConcluded N.of d c.rests.shards.items c.one.answers.items c.two.answers.items c.one.lets.items c.two.lets.items) }
{
    let (one, two) = two_callers::<N>(alloc, passes)?;
    let key = Key::from_bytes(alloc, b"a").ok()?;
    let (txn, other) = (TxnId::new(1)?, TxnId::new(2)?);
    let mut holder = take(rt, alloc, &table, one, &key, txn)?;
    let mut waiter = enter(alloc, &table, two, &key, other)?;
    let scanned = scan(rt, &table, &mut waiter)?;
    finish(rt, &table, &mut holder, &key, txn)?;
    let _ = take_out(rt, alloc, &table, &mut holder, table.shard_of(&key));
    let two = go_on(rt, &table, waiter, scanned, &key, other)?;
    close(rt, alloc, table, holder, two)
}

/// Both callers work at the key at once, each on a thread.
fn work_at_once<N: Name + Send + Sync, T: KeyTable + Send, R: Threads + Wait + Sync>(
    rt: &R,
    alloc: Global,
    table: &Table<N, T>,
    one: NotingCaller,
    two: NotingCaller,
    key: &Key,
) -> Option<(NotingCaller, NotingCaller)>
    requires differ { one.pass.number ≢ two.pass.number }
    requires one { HasNoted N.of one.pass one.notes }
    requires two { HasNoted N.of two.pass two.notes }
    requires keeping { N.of.keeping ≢ Keeping.Whole }
    ensures differ { IfSome result (λ r. r.0.pass.number ≢ r.1.pass.number) }
    ensures one { IfSome result (λ r. HasNoted N.of r.0.pass r.0.notes) }
    ensures two { IfSome result (λ r. HasNoted N.of r.1.pass r.1.notes) }
{
    let (txn, other) = (TxnId::new(1)?, TxnId::new(2)?);
    let (done, also_done) = join(
        rt,
        move || -> Option<NotingCaller>
            requires { HasNoted N.of one.pass one.notes × (N.of.keeping ≢ Keeping.Whole) }
            ensures { IfSome result (λ c. NotesMore N.of one.pass c.pass c.notes) }
        { work(rt, alloc, table, one, key, txn) },
        move || -> Option<NotingCaller>
            requires { HasNoted N.of two.pass two.notes × (N.of.keeping ≢ Keeping.Whole) }
            ensures { IfSome result (λ c. NotesMore N.of two.pass c.pass c.notes) }
        { work(rt, alloc, table, two, key, other) },
    );
    Some((done?, also_done?))
}

/// Two callers take the lock of one key at once, each on a thread, and take out steps; then the table is closed. The main
/// theorem holds of what they noted.
pub fn run_at_once<N: Name + Send + Sync, T: KeyTable + Drop + Send, R: Threads + Wait + Sync>(
    rt: &R,
    alloc: Global,
    table: Table<N, T>,
    passes: Vec<Pass>,
) -> Option<NotedClose>
    requires fresh { passes.items ≡ fresh_passes N.of N.of.passes }
    requires of { All (λ p. p.of ≡ N.of) passes.items }
    requires keeping { N.of.keeping ≢ Keeping.Whole }
    ensures { IfSome result (λ c. (d : RestState) → IsConcluded N.of d c.rests.shards.items c.one.answers.items c.two.answers.items c.one.lets.items c.two.lets.items) }
{
    let (one, two) = two_callers::<N>(alloc, passes)?;
    let key = Key::from_bytes(alloc, b"a").ok()?;
    let (one, two) = work_at_once(rt, alloc, &table, one, two, &key)?;
    close(rt, alloc, table, one, two)
}
