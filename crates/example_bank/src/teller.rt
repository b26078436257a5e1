//! What does a thread do in the bank? A [`Teller`] makes transfers and audits until a time ([`work_until`]).
//!
//! A transfer reads both accounts with `get_for_update`, so no other transaction changes them before it commits. An audit
//! reads all accounts so, in one transaction, and compares their sum with what was there at first. Transfers and audits take
//! their locks in different orders, so two of them can each hold a lock that the other needs: a deadlock.
ghost use Rattle.std.specs.Prelude.{◌<◌, ◌≤◌};

use crate::bank::Bank;
use crate::fault::BankFault;
use crate::plan::BankPlan;
use example_store::{StoreError, StoreSession};
use example_values::ValueName;
use lt_ids::Timestamp;
use lt_words::Name;
use std::sync::Wait;
use std::thread::sleep;
use std::time::{Clock, Duration, Instant};

/// The most that one transfer moves.
const MOST: u64 = 100;

/// A linear congruential generator. The upper bits of its state are the random ones.
#[derive(Clone, Copy)]
pub struct WorkRandom {
    state: u64,
}

impl WorkRandom {
    pub fn new(seed: u64) -> WorkRandom {
        WorkRandom {
            state: seed.wrapping_mul(0x9e37_79b9_7f4a_7c15),
        }
    }

    /// A number below `limit`.
    pub fn below(&mut self, limit: u64) -> u64
        requires { 0 < limit }
        ensures { result < limit }
    {
        self.state = self
            .state
            .wrapping_mul(6_364_136_223_846_793_005)
            .wrapping_add(1_442_695_040_888_963_407);
        (self.state >> 33) % limit
    }
}

/// A thread's session, and what it did so far.
#[derive(Drop)]
pub struct Teller<N: Name + ValueName> {
    pub session: StoreSession<N>,
    random: WorkRandom,
    /// How many transfers were committed.
    pub transfers: u64,
    /// How many audits were committed.
    pub audits: u64,
    /// How many times a transaction gave way in a deadlock.
    pub deadlocks: u64,
    /// Why the teller stopped before its time, if it did.
    pub fault: Option<BankFault>,
}

/// A teller with a session. The seed decides what work it does.
pub fn teller_of<N: Name + ValueName>(session: StoreSession<N>, seed: u64) -> Teller<N> {
    Teller {
        session,
        random: WorkRandom::new(seed),
        transfers: 0,
        audits: 0,
        deadlocks: 0,
        fault: None,
    }
}

/// A transfer: what it moves, between which accounts, and how many milliseconds pass from its first lock to its second.
#[derive(Clone, Copy)]
struct Order {
    from: usize,
    to: usize,
    amount: u64,
    pause: u64,
}

/// A piece of work: one transaction.
#[derive(Clone, Copy)]
enum BankWork {
    Transfer(Order),
    /// So many accounts have so much together.
    Audit(usize, u64),
}

/// An order between two different accounts.
fn random_order(random: &mut WorkRandom, plan: &BankPlan) -> Order {
    let from = random.below(plan.accounts);
    let other = random.below(plan.accounts - 1);
    let to = if other < from { other } else { other + 1 };
    Order {
        from: from as usize,
        to: to as usize,
        amount: random.below(MOST) + 1,
        pause: plan.pause,
    }
}

/// The next piece of work: an audit, or a transfer.
fn random_work(random: &mut WorkRandom, plan: &BankPlan, total: u64) -> BankWork {
    if plan.audits > 0 && random.below(plan.audits) == 0 {
        return BankWork::Audit(plan.accounts as usize, total);
    }
    BankWork::Transfer(random_order(random, plan))
}

/// Moves the amount, or as much as the account has.
fn transfer<N: Name + ValueName, R: Wait + Clock>(
    rt: &R,
    bank: &Bank<N>,
    session: &mut StoreSession<N>,
    order: &Order,
) -> Result<(), BankFault> {
    let from = bank.balance_for_update(rt, session, order.from)?;
    if order.pause > 0 {
        sleep(rt, Duration::from_millis(order.pause));
    }
    let to = bank.balance_for_update(rt, session, order.to)?;
    let moved = order.amount.min(from);
    if let Some(sum) = to.checked_add(moved) {
        bank.set(rt, session, order.from, from - moved)?;
        bank.set(rt, session, order.to, sum)?;
    }
    Ok(())
}

/// Reads so many accounts under their locks. A fault if they have not this much together.
fn audit<N: Name + ValueName, R: Wait + Clock>(
    rt: &R,
    bank: &Bank<N>,
    session: &mut StoreSession<N>,
    accounts: usize,
    total: u64,
) -> Result<(), BankFault> {
    let mut sum = 0u64;
    for account in 0..accounts {
        sum = sum.saturating_add(bank.balance_for_update(rt, session, account)?);
    }
    if sum != total {
        return Err(BankFault::Total(sum));
    }
    Ok(())
}

/// Does a piece of work in the transaction that has begun, and commits.
fn attempt<N: Name + ValueName, R: Wait + Clock>(
    rt: &R,
    bank: &Bank<N>,
    session: &mut StoreSession<N>,
    work: &BankWork,
) -> Result<(), BankFault> {
    match work {
        BankWork::Transfer(order) => transfer(rt, bank, session, order)?,
        BankWork::Audit(accounts, total) => audit(rt, bank, session, *accounts, *total)?,
    }
    Ok(bank.store.commit(rt, session)?)
}

/// Does a piece of work. If its transaction has to give way, it is aborted and begins again with its old timestamp.
fn complete<N: Name + ValueName, R: Wait + Clock>(
    rt: &R,
    bank: &Bank<N>,
    teller: &mut Teller<N>,
    work: &BankWork,
) -> Result<(), BankFault> {
    let ts = bank.store.begin(&mut teller.session)?;
    for _ in rt.forever() {
        match attempt(rt, bank, &mut teller.session, work) {
            Ok(()) => break,
            Err(BankFault::Store(StoreError::Deadlock)) => {
                bank.store.abort(rt, &mut teller.session)?;
                teller.deadlocks = teller.deadlocks.saturating_add(1);
                bank.store.begin_again(&mut teller.session, ts)?;
            }
            Err(fault) => {
                // The first fault is told. The abort frees the locks.
                let _ = bank.store.abort(rt, &mut teller.session);
                return Err(fault);
            }
        }
    }
    match work {
        BankWork::Transfer(_) => teller.transfers = teller.transfers.saturating_add(1),
        BankWork::Audit(_, _) => teller.audits = teller.audits.saturating_add(1),
    }
    Ok(())
}

/// Whether the time has come. Also if the clock cannot be read.
fn is_past(clock: &impl Clock, end: Instant) -> bool {
    match Instant::now(clock) {
        Ok(now) => now >= end,
        Err(_) => true,
    }
}

/// Works until the time has come or a piece of work fails. All accounts of the plan have `total` together.
pub fn work_until<N: Name + ValueName, R: Wait + Clock>(
    rt: &R,
    bank: &Bank<N>,
    mut teller: Teller<N>,
    plan: &BankPlan,
    total: u64,
    end: Instant,
) -> Teller<N> {
    for _ in rt.forever() {
        if is_past(rt, end) {
            break;
        }
        let work = random_work(&mut teller.random, plan, total);
        if let Err(fault) = complete(rt, bank, &mut teller, &work) {
            teller.fault = Some(fault);
            break;
        }
    }
    teller
}
