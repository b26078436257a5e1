//! What is the bank? A store whose keys are accounts. The value of an account is its balance: 8 bytes, the least significant
//! one first.
use crate::fault::BankFault;
use example_store::{Store, StoreSession};
use example_values::ValueName;
use lt_ids::Key;
use lt_words::Name;
use std::alloc::{AllocError, Global};
use std::sync::Wait;
use std::time::Clock;

/// A store, and the keys of its accounts.
#[derive(Drop)]
pub struct Bank<N: Name + ValueName> {
    alloc: Global,
    pub store: Store<N>,
    keys: Vec<Key>,
}

/// The keys `k0`, `k1` and so on of so many accounts.
fn keys_of(alloc: Global, accounts: usize) -> Result<Vec<Key>, AllocError> {
    let mut keys = Vec::new(alloc);
    for number in 0..accounts {
        let name = format!(in alloc; "k{number}")?;
        let Ok(key) = Key::from_bytes(alloc, name.as_bytes()) else {
            return Err(AllocError);
        };
        keys.push(key)?;
    }
    Ok(keys)
}

/// The bytes of a balance.
fn bytes_of(alloc: Global, balance: u64) -> Result<Vec<u8>, AllocError> {
    let mut bytes = Vec::with_capacity(alloc, 8)?;
    bytes.extend_from_slice(&balance.to_le_bytes())?;
    Ok(bytes)
}

/// The balance of a value.
fn balance_of(value: &Option<Vec<u8>>) -> Result<u64, BankFault> {
    let Some(bytes) = value else {
        return Err(BankFault::NoBalance);
    };
    match bytes.first_chunk::<8>() {
        Some(chunk) if bytes.len() == 8 => Ok(u64::from_le_bytes(*chunk)),
        _ => Err(BankFault::NoBalance),
    }
}

impl<N: Name + ValueName> Bank<N> {
    /// A bank over this store with so many accounts, which have no balance yet.
    pub fn new(alloc: Global, store: Store<N>, accounts: usize) -> Result<Bank<N>, AllocError> {
        let keys = keys_of(alloc, accounts)?;
        Ok(Bank { alloc, store, keys })
    }

    /// The store.
    pub fn into_store(self) -> Store<N> {
        let Bank { store, .. } = self;
        store
    }

    fn key(&self, account: usize) -> Result<&Key, BankFault> {
        match self.keys.get(account) {
            Some(key) => Ok(key),
            None => Err(BankFault::NoAccount),
        }
    }

    /// Gives each account this balance.
    pub fn fill<R: Wait>(
        &self,
        rt: &R,
        session: &mut StoreSession<N>,
        balance: u64,
    ) -> Result<(), BankFault> {
        for key in &self.keys {
            let bytes = bytes_of(self.alloc, balance)?;
            self.store.load(rt, session, key, bytes)?;
        }
        Ok(())
    }

    /// The account's balance, read without a lock.
    pub fn balance<R: Wait>(
        &self,
        rt: &R,
        session: &mut StoreSession<N>,
        account: usize,
    ) -> Result<u64, BankFault> {
        balance_of(&self.store.get(rt, session, self.key(account)?)?)
    }

    /// The account's balance, which nobody else changes until the session's transaction ends.
    pub fn balance_for_update<R: Wait + Clock>(
        &self,
        rt: &R,
        session: &mut StoreSession<N>,
        account: usize,
    ) -> Result<u64, BankFault> {
        balance_of(&self.store.get_for_update(rt, session, self.key(account)?)?)
    }

    /// Sets the account's balance, if the session's transaction commits.
    pub fn set<R: Wait + Clock>(
        &self,
        rt: &R,
        session: &mut StoreSession<N>,
        account: usize,
        balance: u64,
    ) -> Result<(), BankFault> {
        let bytes = bytes_of(self.alloc, balance)?;
        Ok(self.store.put(rt, session, self.key(account)?, bytes)?)
    }

    /// What the accounts below this number have together, read without locks.
    pub fn total<R: Wait>(
        &self,
        rt: &R,
        session: &mut StoreSession<N>,
        accounts: usize,
    ) -> Result<u64, BankFault> {
        let mut sum = 0u64;
        for account in 0..accounts {
            sum = sum.saturating_add(self.balance(rt, session, account)?);
        }
        Ok(sum)
    }
}
