//! How does a caller keep the record of one key, without a table? [`LinkedRecord`] is a row with links of its own,
//! and makes a call that is given as a value. Read `one_call.rt` next, which makes a call on a row.
ghost use Rattle.std.specs.Prelude.{◌≡◌, ◌≤◌, [], false, length, vec_capacity, IfOk, OnErr, IsOk, IsTrue};
ghost use Rattle.lt_rules.specs.Rules.{empty, is_empty, take_lock, IsOutcome, TakesNoMemory};
ghost use Rattle.lt_rules.specs.Step.{step, look};
ghost use Rattle.lt_rules.specs.Memory.{MayLack, how_many};
ghost use Rattle.lt_row.specs.Row.{record_of};
ghost use Rattle.lt_row.specs.Front.{front_of};
ghost use Rattle.lt_row.specs.RowStepped.{IsRow, has_nobody};
ghost use Rattle.lt_ids.specs.declared.limits.TheConstants.{MAX_PASS};

use crate::copy::{front, state};
use crate::one_call::step;
use crate::row::{Row, has_nobody, is_empty, lengths, look};
use lt_ids::Through;
use lt_links::Links;
use lt_rules::{Call, Holder, KeyState, QueueLengths, Reply};
use std::alloc::{AllocError, Global};
use std::marker::Model;

/// The record of one key, in a row with links of its own. In a contract, it is the key's record.
#[derive(Drop)]
pub struct LinkedRecord {
    links: Links,
    row: Row,
}

impl Model for LinkedRecord {
    ghost use Rattle.lt_rules.specs.Codes.{record_code};
    ghost use Rattle.lt_rules.specs.Rules.{Record};

    ghost Value = { Record };

    ghost coded = { record_code };

    ghost use Rattle.lt_row.specs.Row.{record_of};
    ghost use Rattle.lt_row.specs.RowStepped.{IsRow};

    ghost view = { λ r. record_of r.links r.row };

    ghost invariant = { λ r. IsRow r.links r.row };
}

/// Adds the row of a key that nobody has locked and nobody waits for.
fn add_row(links: &mut Links) -> Result<Row, AllocError>
    ensures row { IfOk result (IsRow links.new) }
    ensures empty { IfOk result (λ row. record_of links.new row ≡ empty) }
{
    Ok(Row {
        id: links.add_record()?,
        holder: None,
        distinguished: None,
    })
}

impl LinkedRecord {
    /// The record of a key that nobody has locked and nobody waits for. This call and later ones allocate from this
    /// allocator. The only error is that memory ran out.
    ///
    /// Its requests and transactions are hashed from a start that anybody can know. So whoever chooses their numbers can
    /// make its calls slow, as he can by a long queue.
    pub fn new(alloc: Global) -> Result<Self, AllocError>
        ensures { IfOk result (λ r. r ≡ empty) }
    {
        LinkedRecord::hashed_from(alloc, 0)
    }

    /// As [`LinkedRecord::new`], but its requests and transactions are hashed from this start.
    pub fn hashed_from(alloc: Global, start: u64) -> Result<Self, AllocError>
        ensures { IfOk result (λ r. r ≡ empty) }
    {
        let mut links = Links::new(alloc, start);
        let row = add_row(&mut links)?;
        Ok(LinkedRecord { links, row })
    }

    /// Whether the key has no holder, no reservation and no queued requests.
    pub fn is_empty(&self) -> bool
        ensures { result ≡ is_empty self.now }
    {
        is_empty(&self.links, &self.row)
    }

    /// Gives a key that nobody has locked and nobody waits for this holder. Allocates nothing.
    pub fn hold(&mut self, holder: &Holder)
        requires { self.old ≡ empty }
        ensures { self.new ≡ (take_lock empty holder.now).after }
    {
        self.row.holder = Some(*holder);
    }

    /// Makes the record empty, if nobody is queued at the key or has its reservation. Says whether that is so. The
    /// record is then ready for another key, without a new allocation.
    pub fn clear(&mut self) -> bool
        ensures nobody { result ≡ has_nobody self.old }
        ensures cleared { IsTrue result → self.new ≡ empty }
        ensures kept { result ≡ false → self.new ≡ self.old }
    {
        if !has_nobody(&self.links, &self.row) {
            return false;
        }
        self.row.holder = None;
        self.row.distinguished = None;
        true
    }

    /// Makes the call at the key for the pass with this number, which is 1 to 1024. Puts the lets into `lets`, in
    /// order. The only error is that memory ran out. After an `Err`, nothing has changed.
    ///
    /// Only a visit can fail while `lets` has room for a let of each request at the key. A call keeps it so.
    pub fn make(
        &mut self,
        pass: u32,
        call: &Call,
        lets: &mut Vec<Through>,
    ) -> Result<Reply, AllocError>
        requires lets { lets.old.items ≡ [] }
        requires pass_low { 1 ≤ pass }
        requires pass_high { pass ≤ MAX_PASS }
        ensures ok { IfOk result (λ reply. IsOutcome (step self.old pass call.now) self.new reply lets.new.items) }
        ensures err { OnErr result ((self.new ≡ self.old) × (lets.new.items ≡ [])) }
        ensures no_memory { TakesNoMemory self.old (step self.old pass call.now) → IsOk result }
        ensures full { OnErr result (MayLack self.old call.now (vec_capacity lets.old)) }
        ensures room { how_many self.old ≤ vec_capacity lets.old → how_many self.new ≤ vec_capacity lets.new }
        ensures kept { vec_capacity lets.old ≤ vec_capacity lets.new }
    {
        step(&mut self.links, &mut self.row, pass, call, lets)
    }

    /// What the request with this number finds at the key.
    pub fn look(&self, number: u64) -> Reply
        ensures { result ≡ look self.now number }
    {
        look(&self.links, &self.row, number)
    }

    /// How many requests are queued at the key. Copies nothing, unlike [`state`](LinkedRecord::state).
    pub fn lengths(&self) -> QueueLengths
        ensures writers { result.writers ≡ length self.now.writers }
        ensures readers { result.readers ≡ length self.now.readers }
    {
        lengths(&self.links, &self.row)
    }

    /// A copy of the record. It fails only when an allocation fails.
    pub fn state(&self, alloc: Global) -> Result<KeyState, AllocError>
        ensures { IfOk result (λ state. state ≡ self.now) }
    {
        state(&self.links, alloc, &self.row)
    }

    /// A copy of the record with at most so many entries of each queue, from the front. It takes time in proportion to
    /// what it copies, and fails only when an allocation fails.
    pub fn front(&self, alloc: Global, most: usize) -> Result<KeyState, AllocError>
        ensures { IfOk result (λ state. state ≡ front_of most self.now) }
    {
        front(&self.links, alloc, &self.row, most)
    }
}
