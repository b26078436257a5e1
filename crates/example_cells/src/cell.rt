//! What does a store keep for a key? A [`Cell`]: the key's value, who owns the key's lock, and whose tenure of the lock
//! ended last.
ghost use Rattle.std.specs.Prelude.{◌≡◌, true, IfOk};
ghost use mathlib.Core.List.{IsPrefix};
ghost use Rattle.lt_rules.specs.Step.{is_taken, is_freed};
ghost use Rattle.example_cells.specs.Knowing.{owner_next, past_next, past_of, left_next, ToldCell, value_bytes};
ghost use Rattle.example_cells.specs.Leaving.{LeftAt};

use example_values::{SeenValues, ValueBook};
use lt_ids::{Key, TxnId};
use lt_rules::{Call, Reply};
use lt_words::shard_of;
use std::alloc::{AllocError, Global};

/// Who owns a key's lock.
#[derive(Clone, Copy, Debug)]
pub struct Owner {
    /// The transaction.
    pub txn: TxnId,
    /// The index of the step that took the lock, among the steps of the key's shard.
    pub taken: u64,
}

/// A tenure of a key's lock that has ended.
#[derive(Clone, Copy, Debug)]
pub struct PastTenure {
    /// The transaction.
    pub txn: TxnId,
    /// The index of the step that took the lock.
    pub taken: u64,
    /// The index of the step that freed it.
    pub freed: u64,
}

/// The value that a transaction leaves at a key: bytes, or nothing if it deletes the key.
pub type Put = Option<Vec<u8>>;

/// What is kept for a key.
#[derive(Drop)]
pub struct Cell {
    /// The value, as the transaction whose tenure ended last left it. `None` if the key has no value.
    pub value: Option<Vec<u8>>,
    /// Who owns the key's lock.
    pub owner: Option<Owner>,
    /// The tenure of the key's lock that ended last.
    pub last: Option<PastTenure>,
    /// Whether the log of values has the value, as what the step left that ended this tenure.
    pub left: bool,
}

/// What a transaction reads of a key.
#[derive(Drop)]
pub struct CellReading {
    /// The value. `None` if the key has none.
    pub value: Option<Vec<u8>>,
    /// The tenure of the key's lock that ended last: its transaction left the value.
    pub last: Option<PastTenure>,
    /// Who owns the key's lock.
    pub owner: Option<Owner>,
    /// Whether the log of values has the value, as what the step left that ended this tenure.
    pub left: bool,
}

/// A copy of these bytes.
fn copied(alloc: Global, bytes: &[u8]) -> Result<Vec<u8>, AllocError>
    ensures { IfOk result (λ v. v.items ≡ bytes.now) }
{
    let mut copy = Vec::with_capacity(alloc, bytes.len())?;
    copy.extend_from_slice(bytes)?;
    Ok(copy)
}

fn is_taken(reply: &Reply) -> bool
    ensures { result ≡ is_taken reply.now }
{
    matches!(reply, Reply::Taken)
}

fn is_freed(reply: &Reply) -> bool
    ensures { result ≡ is_freed reply.now }
{
    matches!(reply, Reply::Freed)
}

/// The owner after the step with this index.
fn owner_next(owner: &Option<Owner>, call: &Call, reply: &Reply, at: u64) -> Option<Owner>
    ensures { result ≡ owner_next owner.now at call.now reply.now }
{
    match call {
        Call::Acquire { txn, ts: _ } if is_taken(reply) => Some(Owner {
            txn: *txn,
            taken: at,
        }),
        Call::Finish { txn: _ } if is_freed(reply) => None,
        _ => *owner,
    }
}

/// The tenure that ends when this owner frees the lock by the step with this index.
fn past_of(owner: &Option<Owner>, at: u64) -> Option<PastTenure>
    ensures { result ≡ past_of owner.now at }
{
    match owner {
        None => None,
        Some(owner) => Some(PastTenure {
            txn: owner.txn,
            taken: owner.taken,
            freed: at,
        }),
    }
}

/// The tenure that ended last, after the step with this index. `owner` owned the lock before it.
fn past_next(
    last: &Option<PastTenure>,
    owner: &Option<Owner>,
    call: &Call,
    reply: &Reply,
    at: u64,
) -> Option<PastTenure>
    ensures { result ≡ past_next last.now owner.now at call.now reply.now }
{
    match call {
        Call::Finish { txn: _ } if is_freed(reply) => past_of(owner, at),
        _ => *last,
    }
}

/// Whether the log of values still has what the cell says, after this step.
fn left_next(left: bool, call: &Call, reply: &Reply) -> bool
    ensures { result ≡ left_next left call.now reply.now }
{
    match call {
        Call::Finish { txn: _ } if is_freed(reply) => false,
        _ => left,
    }
}

/// Appends to the log of values that the step with this index left this value at the key, and says whether it did. A table
/// has 1 to 64 shards.
fn is_left(
    book: &ValueBook,
    seen: &mut SeenValues,
    key: &Key,
    shards: usize,
    at: u64,
    value: &Option<Vec<u8>>,
) -> bool
    requires book { book.now ≡ seen.old.book }
    ensures book { seen.new.book ≡ seen.old.book }
    ensures more { IsPrefix seen.old.log seen.new.log }
    ensures left { result ≡ true → LeftAt shards seen.new.log key.now at (value_bytes value.now) }
{
    if shards == 0 || shards > 64 {
        return false;
    }
    book.leave(seen, shard_of(key, shards), key, at, value)
}

impl Cell {
    ghost use Rattle.std.specs.Prelude.{◌≡◌, false, None, IfOk};
    ghost use mathlib.Core.List.{IsPrefix};
    ghost use Rattle.example_cells.specs.Knowing.{ToldCell, value_bytes, installed};
    ghost use Rattle.example_cells.specs.Leaving.{IsCellLeft};

    /// The cell of a key that nobody has locked yet.
    pub fn empty() -> Cell
        ensures value { result.value ≡ None }
        ensures owner { result.owner ≡ None }
        ensures last { result.last ≡ None }
        ensures left { result.left ≡ false }
    {
        Cell {
            value: None,
            owner: None,
            last: None,
            left: false,
        }
    }

    /// What a transaction reads.
    pub(crate) fn read(&self, alloc: Global) -> Result<CellReading, AllocError>
        ensures value { IfOk result (λ r. value_bytes r.value ≡ value_bytes self.now.value) }
        ensures last { IfOk result (λ r. r.last ≡ self.now.last) }
        ensures owner { IfOk result (λ r. r.owner ≡ self.now.owner) }
        ensures left { IfOk result (λ r. r.left ≡ self.now.left) }
    {
        let value = match &self.value {
            None => None,
            Some(value) => Some(copied(alloc, value)?),
        };
        Ok(CellReading {
            value,
            last: self.last,
            owner: self.owner,
            left: self.left,
        })
    }

    /// The key had this step, with this index. Its value stays.
    pub(crate) fn told(&mut self, call: &Call, reply: &Reply, at: u64)
        ensures { ToldCell self.old self.new call.now reply.now at }
    {
        self.left = left_next(self.left, call, reply);
        self.last = past_next(&self.last, &self.owner, call, reply, at);
        self.owner = owner_next(&self.owner, call, reply, at);
    }

    /// Gives the key what was put. If nothing was put, the value stays. The log of values does not have it yet.
    pub(crate) fn install(&mut self, put: Option<Put>)
        ensures { self.new ≡ installed false put self.old }
    {
        self.left = false;
        if let Some(value) = put {
            self.value = value;
        }
    }

    /// Appends the value to the log of values, as what the step left that ended the last tenure. Says in `left` whether it
    /// did, which it does unless the log says something of a later step of the shard.
    pub(crate) fn leave(
        &mut self,
        book: &ValueBook,
        seen: &mut SeenValues,
        key: &Key,
        shards: usize,
    )
        requires book { book.now ≡ seen.old.book }
        ensures book { seen.new.book ≡ seen.old.book }
        ensures more { IsPrefix seen.old.log seen.new.log }
        ensures same { self.new ≡ record self.old { left = self.new.left } }
        ensures left { IsCellLeft shards seen.new.log key.now self.new }
    {
        let Some(last) = &self.last else {
            self.left = false;
            return;
        };
        self.left = is_left(book, seen, key, shards, last.freed, &self.value);
    }
}
