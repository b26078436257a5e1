//! What does a read without a lock not give? Two transactions each read two accounts with `get`, which is read committed, and
//! write one of them. Each decides by what it read, and neither sees what the other writes. Both commit, though no order of
//! the two explains the outcome: *write skew*. With `get_for_update` in place of `get` the second one would wait for the
//! first.
use crate::bank::Bank;
use crate::fault::BankFault;
use example_store::StoreSession;
use example_values::ValueName;
use lt_words::Name;
use std::sync::Wait;
use std::time::Clock;

/// Two accounts that should together keep some amount.
#[derive(Clone, Copy)]
pub struct PairRule {
    pub one: usize,
    pub other: usize,
    /// What should stay in the two accounts together.
    pub stays: u64,
}

/// What `session` reads in the two accounts together.
fn read_both<N: Name + ValueName, R: Wait>(
    rt: &R,
    bank: &Bank<N>,
    session: &mut StoreSession<N>,
    pair: &PairRule,
) -> Result<u64, BankFault> {
    let one = bank.balance(rt, session, pair.one)?;
    let other = bank.balance(rt, session, pair.other)?;
    Ok(one.saturating_add(other))
}

/// Takes as much from the account as may be taken if both accounts have `sum` together, and commits.
fn withdraw<N: Name + ValueName, R: Wait + Clock>(
    rt: &R,
    bank: &Bank<N>,
    session: &mut StoreSession<N>,
    account: usize,
    most: u64,
) -> Result<(), BankFault> {
    let balance = bank.balance(rt, session, account)?;
    bank.set(rt, session, account, balance.saturating_sub(most))?;
    Ok(bank.store.commit(rt, session)?)
}

/// Runs the two transactions, and returns what both accounts have together before and after them.
pub fn run_skew<N: Name + ValueName, R: Wait + Clock>(
    rt: &R,
    bank: &Bank<N>,
    first: &mut StoreSession<N>,
    second: &mut StoreSession<N>,
    pair: &PairRule,
) -> Result<(u64, u64), BankFault> {
    bank.store.begin(first)?;
    bank.store.begin(second)?;
    let first_read = read_both(rt, bank, first, pair)?;
    let second_read = read_both(rt, bank, second, pair)?;
    let most = first_read.saturating_sub(pair.stays);
    withdraw(rt, bank, first, pair.one, most)?;
    let most = second_read.saturating_sub(pair.stays);
    withdraw(rt, bank, second, pair.other, most)?;
    let left = read_both(rt, bank, first, pair)?;
    Ok((first_read, left))
}
