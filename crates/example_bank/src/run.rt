//! How is the bank opened, used by threads and closed? [`serve`] does all of it for the table that `N` names.
ghost use Rattle.std.specs.Arc.{arc_value};
ghost use Rattle.std.specs.Prelude.{◌≡◌, ◌≢◌, IfOk, IfSome, length};
ghost use Rattle.std.specs.List.{All};
ghost use Rattle.example_cells.specs.Committing.{all_commits};
ghost use Rattle.example_bank.specs.Run.{WentInOne};

use crate::bank::Bank;
use crate::fault::BankFault;
use crate::plan::BankPlan;
use crate::skew::{PairRule, run_skew};
use crate::teller::{Teller, teller_of, work_until};
use crate::trace::{ShardTrace, TraceTaker, histories_of, take_until, taker_of};
use anyhow::bail;
use example_cells::CommitLog;
use example_store::{ClosedStore, Store, StoreSession, sessions_of};
use example_values::{ValueBook, ValueName};
use lt_entry::Entry;
use lt_table::{Config, Keeping, MAX_REQUEST, MAX_WAIT, Ready, Rest, Rests, random_start};
use lt_words::{Name, Pass};
use std::alloc::{AllocError, Global};
use std::mem;
use std::random::RandomSource;
use std::sync::atomic::{AtomicBool, Ordering};
use std::sync::{Arc, Wait};
use std::thread::{Threads, join, map_vec};
use std::time::{Clock, Duration, Instant};

/// What each account has at first.
const BALANCE: u64 = 1000;

/// How many shards the table has.
const SHARDS: usize = 16;

/// The most steps that a shard holds until they are taken out for a trace.
const HELD: u64 = 1 << 20;

/// What came of a run.
#[derive(Drop)]
pub struct BankRun {
    pub total_before: u64,
    pub total_after: u64,
    pub counts: WorkCounts,
    pub waits: u64,
    /// What two accounts had together before two transactions withdrew from them, and after.
    pub skew: (u64, u64),
    /// What should have stayed in the two accounts.
    pub stays: u64,
    /// What the close has left.
    pub closed: ClosedBank,
}

/// What is left of a closed bank.
#[derive(Drop)]
pub struct ClosedBank {
    /// How many transactions were committed.
    pub commits: u64,
    /// The histories of the shards, if they were traced.
    pub histories: Option<Vec<Vec<Entry>>>,
}

/// What all tellers did.
#[derive(Clone, Copy)]
pub struct WorkCounts {
    pub transfers: u64,
    pub audits: u64,
    pub deadlocks: u64,
}

/// The two sessions of this thread.
#[derive(Drop)]
struct SessionPair<N: Name + ValueName> {
    first: StoreSession<N>,
    second: StoreSession<N>,
}

/// Those who work on threads of their own: the tellers, and for a trace the taker.
#[derive(Drop)]
struct BankCrew<N: Name + ValueName> {
    tellers: Vec<Teller<N>>,
    taker: Option<TraceTaker<N>>,
}

/// The sessions of this thread, and those who work on threads of their own.
#[derive(Drop)]
struct BankStaff<N: Name + ValueName> {
    pair: SessionPair<N>,
    crew: BankCrew<N>,
}

/// An open bank, and those who work at it.
#[derive(Drop)]
struct OpenBank<N: Name + ValueName> {
    bank: Bank<N>,
    pair: SessionPair<N>,
    crew: BankCrew<N>,
}

/// How the table of a plan keeps its steps.
pub fn keeping_of(plan: &BankPlan) -> Keeping
    ensures { result ≢ Keeping.Whole }
{
    if plan.trace.is_some() {
        Keeping::Streamed
    } else {
        Keeping::Unrecorded
    }
}

/// The configuration of a plan's table: a pass for each teller, two for this thread, and for a trace one more.
pub fn config_of(plan: &BankPlan) -> Config
    ensures { result.shards ≡ SHARDS }
{
    let others = if plan.trace.is_some() { 3 } else { 2 };
    Config {
        shards: SHARDS,
        passes: (plan.threads as usize).saturating_add(others),
        max_steps: HELD,
        max_requests: MAX_REQUEST,
        max_waits: MAX_WAIT,
    }
}

/// Two of the sessions.
fn pair_of<N: Name + ValueName>(
    sessions: &mut Vec<StoreSession<N>>,
) -> anyhow::Result<SessionPair<N>> {
    match (sessions.pop(), sessions.pop()) {
        (Some(first), Some(second)) => Ok(SessionPair { first, second }),
        _ => bail!("there is no session left"),
    }
}

/// A taker with one of the sessions, if the plan asks for a trace.
fn next_taker<N: Name + ValueName>(
    alloc: Global,
    sessions: &mut Vec<StoreSession<N>>,
    plan: &BankPlan,
) -> anyhow::Result<Option<TraceTaker<N>>>
    requires shards { N.of.shards ≡ SHARDS }
    requires keeping { N.of.keeping ≢ Keeping.Whole }
{
    if plan.trace.is_none() {
        return Ok(None);
    }
    match sessions.pop() {
        Some(session) => Ok(Some(taker_of(alloc, session, SHARDS)?)),
        None => bail!("there is no session left"),
    }
}

/// A teller for each session.
fn tellers_of<N: Name + ValueName>(
    alloc: Global,
    sessions: Vec<StoreSession<N>>,
) -> Result<Vec<Teller<N>>, AllocError> {
    let mut tellers = Vec::new(alloc);
    for session in sessions {
        let seed = tellers.len() as u64;
        tellers.push(teller_of(session, seed.wrapping_add(1)))?;
    }
    Ok(tellers)
}

/// The taker of a trace, if the plan asks for one, and a teller for each other session.
fn crew_of<N: Name + ValueName>(
    alloc: Global,
    mut sessions: Vec<StoreSession<N>>,
    plan: &BankPlan,
) -> anyhow::Result<BankCrew<N>>
    requires shards { N.of.shards ≡ SHARDS }
    requires keeping { N.of.keeping ≢ Keeping.Whole }
{
    let taker = next_taker(alloc, &mut sessions, plan)?;
    let tellers = tellers_of(alloc, sessions)?;
    Ok(BankCrew { tellers, taker })
}

/// All who use the bank, each with one of these passes.
fn staff_of<N: Name + ValueName>(
    alloc: Global,
    passes: Vec<Pass>,
    plan: &BankPlan,
) -> anyhow::Result<BankStaff<N>>
    requires of { All (λ p. p.of ≡ N.of) passes.items }
    requires shards { N.of.shards ≡ SHARDS }
    requires keeping { N.of.keeping ≢ Keeping.Whole }
{
    let mut sessions = sessions_of::<N>(alloc, passes)?;
    let pair = pair_of(&mut sessions)?;
    let crew = crew_of(alloc, sessions, plan)?;
    Ok(BankStaff { pair, crew })
}

/// A bank over this store, with two accounts more than the plan says, each with its first balance.
fn filled_bank<N: Name + ValueName, R: Wait>(
    rt: &R,
    alloc: Global,
    store: Store<N>,
    session: &mut StoreSession<N>,
    plan: &BankPlan,
) -> anyhow::Result<Bank<N>> {
    let bank = Bank::new(alloc, store, (plan.accounts as usize).saturating_add(2))?;
    bank.fill(rt, session, BALANCE)?;
    Ok(bank)
}

/// Opens the bank.
fn open_bank<N: Name + ValueName, R: Wait>(
    rt: &R,
    alloc: Global,
    ready: Ready,
    start: u64,
    values: Arc<ValueBook>,
    plan: &BankPlan,
) -> anyhow::Result<OpenBank<N>>
    requires named { ready.of ≡ N.of }
    requires values { arc_value values ≡ N.values }
    requires shards { ready.of.shards ≡ SHARDS }
    requires keeping { ready.of.keeping ≢ Keeping.Whole }
{
    let (store, passes) = Store::<N>::open(alloc, ready, start, values)?;
    let BankStaff { mut pair, crew } = staff_of(alloc, passes, plan)?;
    let bank = filled_bank(rt, alloc, store, &mut pair.first, plan)?;
    Ok(OpenBank { bank, pair, crew })
}

/// The time at which the tellers stop.
fn end_of<C: Clock>(clock: &C, plan: &BankPlan) -> anyhow::Result<Instant> {
    match Instant::now(clock)?.checked_add(Duration::from_secs(plan.seconds)) {
        Some(end) => Ok(end),
        None => bail!("the clock does not go so far"),
    }
}

/// All tellers work, each on a thread.
fn work_all<N: Name + ValueName + Send + Sync, H: Threads + Wait + Clock + Sync>(
    threads: &H,
    bank: &Bank<N>,
    tellers: Vec<Teller<N>>,
    plan: &BankPlan,
    end: Instant,
) -> Result<Vec<Teller<N>>, AllocError> {
    let total = plan.accounts.saturating_mul(BALANCE);
    map_vec(
        threads,
        tellers,
        &|teller: Teller<N>| -> Teller<N> { work_until(threads, bank, teller, plan, total, end) },
    )
}

/// All tellers work, and if there is a taker, it takes the table's steps meanwhile.
fn work_traced<N: Name + ValueName + Send + Sync, H: Threads + Wait + Clock + Sync>(
    threads: &H,
    alloc: Global,
    bank: &Bank<N>,
    crew: &mut BankCrew<N>,
    plan: &BankPlan,
    end: Instant,
) -> Result<(), AllocError> {
    let tellers = mem::replace(&mut crew.tellers, Vec::new(alloc));
    let taker = crew.taker.take();
    let flag = AtomicBool::new(false);
    let done = &flag;
    let (worked, taker) = join(
        threads,
        move || {
            let worked = work_all(threads, bank, tellers, plan, end);
            done.store(true, Ordering::SeqCst);
            worked
        },
        move || match taker {
            Some(taker) => Some(take_until(threads, alloc, &bank.store, taker, done)),
            None => None,
        },
    );
    crew.taker = taker;
    crew.tellers = worked?;
    Ok(())
}

/// What all tellers did. An error if a teller stopped before its time.
fn count_all<N: Name + ValueName>(tellers: &[Teller<N>]) -> anyhow::Result<WorkCounts> {
    let mut counts = WorkCounts {
        transfers: 0,
        audits: 0,
        deadlocks: 0,
    };
    for teller in tellers {
        if let Some(fault) = teller.fault {
            bail!("a teller stopped: {fault}");
        }
        counts.transfers = counts.transfers.saturating_add(teller.transfers);
        counts.audits = counts.audits.saturating_add(teller.audits);
        counts.deadlocks = counts.deadlocks.saturating_add(teller.deadlocks);
    }
    Ok(counts)
}

/// Runs the second workload on the two accounts that no teller uses.
fn skew_of<N: Name + ValueName, H: Wait + Clock>(
    rt: &H,
    opened: &mut OpenBank<N>,
    plan: &BankPlan,
) -> Result<(u64, u64), BankFault> {
    let one = plan.accounts as usize;
    let rule = PairRule {
        one,
        other: one.saturating_add(1),
        stays: BALANCE,
    };
    run_skew(
        rt,
        &opened.bank,
        &mut opened.pair.first,
        &mut opened.pair.second,
        &rule,
    )
}

/// What all accounts of the plan have together, while nobody writes.
fn total_of<N: Name + ValueName, H: Wait>(
    rt: &H,
    opened: &mut OpenBank<N>,
    plan: &BankPlan,
) -> Result<u64, BankFault> {
    let accounts = plan.accounts as usize;
    opened.bank.total(rt, &mut opened.pair.first, accounts)
}

/// What came of both workloads.
#[derive(Clone, Copy)]
struct BothRun {
    total_before: u64,
    total_after: u64,
    counts: WorkCounts,
    waits: u64,
    skew: (u64, u64),
}

/// Runs both workloads on an open bank. The table is still open afterwards.
fn run_both<N: Name + ValueName + Send + Sync, H: Threads + Wait + Clock + Sync>(
    threads: &H,
    alloc: Global,
    opened: &mut OpenBank<N>,
    plan: &BankPlan,
) -> anyhow::Result<BothRun> {
    let total_before = total_of(threads, opened, plan)?;
    let end = end_of(threads, plan)?;
    work_traced(threads, alloc, &opened.bank, &mut opened.crew, plan, end)?;
    let total_after = total_of(threads, opened, plan)?;
    let counts = count_all(&opened.crew.tellers)?;
    let skew = skew_of(threads, opened, plan)?;
    Ok(BothRun {
        total_before,
        total_after,
        counts,
        waits: opened.bank.store.waits(),
        skew,
    })
}

/// The sessions of this thread and of the tellers.
fn sessions_back<N: Name + ValueName>(
    alloc: Global,
    pair: SessionPair<N>,
    tellers: Vec<Teller<N>>,
) -> Result<Vec<StoreSession<N>>, AllocError> {
    let mut sessions = Vec::new(alloc);
    sessions.push(pair.first)?;
    sessions.push(pair.second)?;
    for teller in tellers {
        sessions.push(teller.session)?;
    }
    Ok(sessions)
}

/// These sessions and that of the taker, and what it took. An error if it has lost steps.
fn with_taker<N: Name + ValueName>(
    mut sessions: Vec<StoreSession<N>>,
    taker: TraceTaker<N>,
) -> anyhow::Result<(Vec<StoreSession<N>>, Option<Vec<ShardTrace<N>>>)> {
    if !taker.is_whole {
        bail!("steps of the trace were lost");
    }
    sessions.push(taker.session)?;
    Ok((sessions, Some(taker.shards)))
}

/// All sessions, and what the taker took, if there is one. An error if it has lost steps.
fn dismissed<N: Name + ValueName>(
    alloc: Global,
    pair: SessionPair<N>,
    crew: BankCrew<N>,
) -> anyhow::Result<(Vec<StoreSession<N>>, Option<Vec<ShardTrace<N>>>)> {
    let BankCrew { tellers, taker } = crew;
    let sessions = sessions_back(alloc, pair, tellers)?;
    match taker {
        Some(taker) => with_taker(sessions, taker),
        None => Ok((sessions, None)),
    }
}

/// The histories of the shards: what was taken, and what the close has left. `None` if there was no taker.
fn joined<N: Name + ValueName>(
    alloc: Global,
    traces: Option<Vec<ShardTrace<N>>>,
    rests: Vec<Rest>,
) -> anyhow::Result<Option<Vec<Vec<Entry>>>> {
    let Some(traces) = traces else {
        return Ok(None);
    };
    match histories_of(alloc, traces, rests) {
        Some(histories) => Ok(Some(histories)),
        None => bail!("the trace does not join what the close has left"),
    }
}

/// How many transactions these logs have. `None` if they are too many to be counted.
fn count_commits<N: Name + ValueName>(logs: &Vec<CommitLog<N>>) -> Option<u64>
    ensures { IfSome result (λ n. n ≡ length (all_commits logs.now.items)) }
{
    let mut commits = 0u64;
    for log in logs {
        commits = commits.checked_add(log.commits().len() as u64)?;
    }
    Some(commits)
}

/// Closes the bank's store. Returns the histories of the table's shards, if they were traced.
fn close_bank<N: Name + ValueName, H: Wait>(
    rt: &H,
    alloc: Global,
    opened: OpenBank<N>,
) -> anyhow::Result<ClosedBank>
    ensures in_order { IfOk result (λ closed. WentInOne N.of.shards closed.commits) }
{
    let OpenBank { bank, pair, crew } = opened;
    let (sessions, traces) = dismissed(alloc, pair, crew)?;
    let ClosedStore { rests, logs } = bank.into_store().close(rt, sessions)?;
    let Some(commits) = count_commits(&logs) else {
        bail!("too many transactions were committed");
    };
    let Rests { shards, draws: _ } = rests;
    let histories = joined(alloc, traces, shards)?;
    Ok(ClosedBank { commits, histories })
}

/// Opens the bank over the prepared table, runs both workloads and closes the table.
pub fn serve<N: Name + ValueName + Send + Sync, H: Threads + Wait + Clock + RandomSource + Sync>(
    threads: &H,
    alloc: Global,
    ready: Ready,
    values: Arc<ValueBook>,
    plan: &BankPlan,
) -> anyhow::Result<BankRun>
    requires named { ready.of ≡ N.of }
    requires values { arc_value values ≡ N.values }
    requires shards { ready.of.shards ≡ SHARDS }
    requires keeping { ready.of.keeping ≢ Keeping.Whole }
    // All transactions that were committed went one after the other.
    ensures in_order { IfOk result (λ run. WentInOne N.of.shards run.closed.commits) }
{
    let start = match random_start(threads) {
        Ok(start) => start,
        Err(error) => {
            ready.abandon();
            return Err(error.into());
        }
    };
    let mut opened = open_bank::<N, H>(threads, alloc, ready, start, values, plan)?;
    let both = run_both(threads, alloc, &mut opened, plan)?;
    let closed = close_bank(threads, alloc, opened)?;
    Ok(BankRun {
        total_before: both.total_before,
        total_after: both.total_after,
        counts: both.counts,
        waits: both.waits,
        skew: both.skew,
        stays: BALANCE,
        closed,
    })
}
