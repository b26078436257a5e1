//! What do the rules of one key say, evaluated a second time? [`Second`] is written from the tables of
//! `docs/RULES.md`.
//!
//! It shares no code and no definition with `lt_rules`; only the type of a reply is the same. It works on plain
//! numbers, and simple lists instead of linked queues. A mistake in the definitions that the proofs use shows up
//! when a test compares the two, as the random schedules do. Read it alongside the tables of `docs/RULES.md`.
use lt_ids::TxnId;
use lt_rules::Reply;
use std::alloc::{AllocError, Global};

/// A timestamp: its wall part and its logical part.
pub type Time = (u64, u32);

/// Whether `a` is earlier than `b`: the wall parts decide, and the logical parts if the wall parts are equal.
fn is_below(a: Time, b: Time) -> bool {
    a.0 < b.0 || a.0 == b.0 && a.1 < b.1
}

/// Whether a request belongs to this transaction. A request without a transaction belongs to none.
fn is_one(own: Option<u64>, txn: u64) -> bool {
    own == Some(txn)
}

/// A queue entry or a reservation, in plain numbers. Its request may have no transaction.
#[derive(Clone, Copy, Debug, PartialEq, Eq)]
pub struct PlainStand {
    pub number: u64,
    pub txn: Option<u64>,
    pub time: Time,
    pub pass: u32,
    pub wait: u32,
    pub active: bool,
}

/// A let: the pass, the request number and the wait number.
pub type Let = (u32, u64, u32);

/// The state of a lock: its holder and the lock's time, or the number of the request for which it is reserved, or
/// neither.
#[derive(Clone, Copy)]
pub struct Lock {
    pub holder: Option<(u64, Time)>,
    pub reserved: Option<u64>,
}

/// The record of one key, in plain numbers, and the lets of its calls.
#[derive(Drop)]
pub struct Second {
    holder: Option<(u64, Time)>,
    reserved: Option<PlainStand>,
    writers: Vec<PlainStand>,
    readers: Vec<PlainStand>,
    distinguished: Option<u64>,
    pub lets: Vec<Let>,
}

/// What a look of an active waiter finds. The `bool` is true if the lock is held, false if it is reserved.
#[derive(Clone, Copy)]
enum Finds {
    For(bool),
    First(bool),
    Own,
}

/// The reply of a look that names this transaction. `Nothing` if the number is not that of a transaction.
fn reply_of(txn: u64, what: Finds) -> Reply {
    match TxnId::new(txn) {
        None => Reply::Nothing,
        Some(txn) => match what {
            Finds::For(is_held) => Reply::WaitFor(txn, is_held),
            Finds::First(is_held) => Reply::WaitFirst(txn, is_held),
            Finds::Own => Reply::WaitOwn(txn),
        },
    }
}

impl Second {
    pub fn new(alloc: Global) -> Self {
        Second {
            holder: None,
            reserved: None,
            writers: Vec::new(alloc),
            readers: Vec::new(alloc),
            distinguished: None,
            lets: Vec::new(alloc),
        }
    }

    /// The holder or the reservation of the lock.
    pub fn lock(&self) -> Lock {
        Lock {
            holder: self.holder,
            reserved: self.reserved.map(|stand| stand.number),
        }
    }

    /// Whether a request waits to read.
    pub fn has_readers(&self) -> bool {
        !self.readers.is_empty()
    }

    /// Whether this writer is eligible as the distinguished waiter: it is active, and the lock is not reserved for
    /// its own transaction.
    fn may_push(&self, writer: &PlainStand) -> bool {
        if !writer.active {
            return false;
        }
        match self.reserved {
            Some(reserved) => writer.txn.is_none() || reserved.txn != writer.txn,
            None => true,
        }
    }

    fn first_eligible(&self) -> Option<u64> {
        if let Some(reader) = self.readers.first() {
            return Some(reader.number);
        }
        for writer in &self.writers {
            if self.may_push(writer) {
                return Some(writer.number);
            }
        }
        None
    }

    fn is_eligible(&self, number: u64) -> bool {
        for reader in &self.readers {
            if reader.number == number {
                return true;
            }
        }
        for writer in &self.writers {
            if writer.number == number && self.may_push(writer) {
                return true;
            }
        }
        false
    }

    /// Keeps the distinguished waiter while it is eligible, and otherwise elects the first eligible waiter.
    fn settle(&mut self) {
        let stays = match self.distinguished {
            Some(number) => self.is_eligible(number),
            None => false,
        };
        if !stays {
            self.distinguished = self.first_eligible();
        }
    }

    fn let_through(&mut self, stand: &PlainStand) -> Result<(), AllocError> {
        self.lets.push((stand.pass, stand.number, stand.wait))?;
        Ok(())
    }

    /// Releases the lock, which has just lost its holder or its reservation: lets the readers and the leading
    /// writers without a transaction through, and reserves the lock for the next writer.
    fn free(&mut self, alloc: Global) -> Result<(), AllocError> {
        let gone = self.readers.clone()?;
        for reader in &gone {
            self.let_through(reader)?;
        }
        self.readers = Vec::new(alloc);
        let queue = self.writers.clone()?;
        self.writers = Vec::new(alloc);
        for writer in &queue {
            if self.reserved.is_some() {
                self.writers.push(*writer)?;
                continue;
            }
            if writer.active {
                self.let_through(writer)?;
            }
            if writer.txn.is_some() {
                self.reserved = Some(*writer);
            }
        }
        self.settle();
        Ok(())
    }

    /// How many writers are queued, active or not.
    pub fn writers(&self) -> u64 {
        self.writers.len() as u64
    }

    /// Whether the request is queued among the writers.
    pub fn is_writer(&self, number: u64) -> bool {
        let mut found = false;
        for writer in &self.writers {
            found = found || writer.number == number;
        }
        found
    }

    fn without_reader(&mut self, number: u64) {
        self.readers.retain(|r| r.number != number);
    }

    /// Replaces the writer with this number, or inserts it before the first greater number.
    fn queue_writer(&mut self, alloc: Global, stand: &PlainStand) -> Result<(), AllocError> {
        let mut queue = Vec::new(alloc);
        let mut is_in = false;
        for writer in &self.writers {
            if writer.number == stand.number {
                queue.push(*stand)?;
                is_in = true;
            } else {
                if !is_in && stand.number < writer.number {
                    queue.push(*stand)?;
                    is_in = true;
                }
                queue.push(*writer)?;
            }
        }
        if !is_in {
            queue.push(*stand)?;
        }
        self.writers = queue;
        Ok(())
    }

    /// Puts a lost reservation at the head of the writers, inactive.
    fn put_back(&mut self, alloc: Global, reserved: &PlainStand) -> Result<(), AllocError> {
        let mut queue = Vec::new(alloc);
        let mut back = *reserved;
        back.active = false;
        queue.push(back)?;
        for writer in &self.writers {
            queue.push(*writer)?;
        }
        self.writers = queue;
        Ok(())
    }

    /// Queues a writer, or replies `TooLong`. The refusal needs all of: the request has a bound, it is not queued
    /// among the writers yet, and they are at least as many as the bound.
    fn write_or_refuse(
        &mut self,
        alloc: Global,
        stand: &PlainStand,
        longest: u32,
    ) -> Result<Reply, AllocError> {
        if longest != 0 && !self.is_writer(stand.number) && self.writers() >= longest as u64 {
            return Ok(Reply::TooLong);
        }
        self.queue_writer(alloc, stand)?;
        Ok(Reply::MustWait)
    }

    fn wait_or_pass(
        &mut self,
        alloc: Global,
        stand: &PlainStand,
        longest: u32,
        is_write: bool,
    ) -> Result<Reply, AllocError> {
        if let Some((txn, time)) = self.holder {
            if is_one(stand.txn, txn) {
                return Ok(Reply::Passed);
            }
            if !is_write {
                if is_below(stand.time, time) {
                    return Ok(Reply::Passed);
                }
                if !self.is_writer(stand.number) {
                    let mut readers = Vec::new(alloc);
                    readers.push(*stand)?;
                    for reader in &self.readers {
                        readers.push(*reader)?;
                    }
                    self.readers = readers;
                    return Ok(Reply::MustWait);
                }
            }
            return self.write_or_refuse(alloc, stand, if is_write { longest } else { 0 });
        }
        let Some(reserved) = self.reserved else {
            return Ok(Reply::Passed);
        };
        if !is_write || reserved.number == stand.number {
            return Ok(Reply::Passed);
        }
        if reserved.number < stand.number {
            return self.write_or_refuse(alloc, stand, longest);
        }
        if stand.txn.is_none() {
            return Ok(Reply::Passed);
        }
        self.put_back(alloc, &reserved)?;
        self.reserved = Some(*stand);
        Ok(Reply::Passed)
    }

    /// A visit of the request. It newly joins the writers only if they are fewer than `longest`; 0 is no bound.
    pub fn visit(
        &mut self,
        alloc: Global,
        stand: &PlainStand,
        longest: u32,
        is_write: bool,
    ) -> Result<Reply, AllocError> {
        self.without_reader(stand.number);
        let reply = self.wait_or_pass(alloc, stand, longest, is_write)?;
        self.settle();
        Ok(reply)
    }

    fn raise(
        &mut self,
        alloc: Global,
        txn: u64,
        old: Time,
        time: Time,
    ) -> Result<Reply, AllocError> {
        if !is_below(old, time) {
            return Ok(Reply::Kept);
        }
        self.holder = Some((txn, time));
        let readers = self.readers.clone()?;
        self.readers = Vec::new(alloc);
        for reader in &readers {
            if is_below(reader.time, time) {
                self.let_through(reader)?;
            } else {
                self.readers.push(*reader)?;
            }
        }
        self.settle();
        Ok(Reply::Raised)
    }

    fn take(&mut self, alloc: Global, txn: u64, time: Time) -> Result<Reply, AllocError> {
        if let Some(reserved) = self.reserved {
            if !is_one(reserved.txn, txn) {
                self.put_back(alloc, &reserved)?;
            }
        }
        self.reserved = None;
        self.holder = Some((txn, time));
        let writers = self.writers.clone()?;
        self.writers = Vec::new(alloc);
        for writer in &writers {
            if !is_one(writer.txn, txn) {
                self.writers.push(*writer)?;
            } else if writer.active {
                self.let_through(writer)?;
            }
        }
        self.settle();
        Ok(Reply::Taken)
    }

    pub fn acquire(&mut self, alloc: Global, txn: u64, time: Time) -> Result<Reply, AllocError> {
        match self.holder {
            Some((holder, _)) if holder != txn => Ok(Reply::Other),
            Some((_, old)) => self.raise(alloc, txn, old, time),
            None => self.take(alloc, txn, time),
        }
    }

    pub fn update(&mut self, alloc: Global, txn: u64, time: Time) -> Result<Reply, AllocError> {
        match self.holder {
            Some((holder, old)) if holder == txn => self.raise(alloc, txn, old, time),
            _ => Ok(Reply::Other),
        }
    }

    pub fn finish(&mut self, alloc: Global, txn: u64) -> Result<Reply, AllocError> {
        match self.holder {
            Some((holder, _)) if holder == txn => {
                self.holder = None;
                self.free(alloc)?;
                Ok(Reply::Freed)
            }
            _ => Ok(Reply::Other),
        }
    }

    pub fn leave(&mut self, alloc: Global, number: u64) -> Result<Reply, AllocError> {
        if let Some(reserved) = self.reserved {
            if reserved.number == number {
                self.reserved = None;
                self.free(alloc)?;
                return Ok(Reply::Left);
            }
        }
        let stood = self.writers.len() + self.readers.len();
        self.writers.retain(|w| w.number != number);
        self.without_reader(number);
        if self.writers.len() + self.readers.len() == stood {
            return Ok(Reply::Absent);
        }
        self.settle();
        Ok(Reply::Left)
    }

    fn is_reader(&self, number: u64) -> bool {
        let mut found = false;
        for reader in &self.readers {
            found = found || reader.number == number;
        }
        found
    }

    fn writer_of(&self, number: u64) -> Option<PlainStand> {
        let mut found = None;
        for writer in &self.writers {
            if writer.number == number {
                found = Some(*writer);
            }
        }
        found
    }

    pub fn look(&self, number: u64) -> Reply {
        let is_first = self.distinguished == Some(number);
        if let Some(reserved) = self.reserved {
            if reserved.number == number {
                return Reply::Reserved;
            }
        }
        let writer = self.writer_of(number);
        if writer.is_none() && !self.is_reader(number) {
            return Reply::Nothing;
        }
        let mut own = None;
        if let Some(writer) = writer {
            if !writer.active {
                return Reply::Idle;
            }
            own = writer.txn;
        }
        if let Some((holder, _)) = self.holder {
            let what = if is_first {
                Finds::First(true)
            } else {
                Finds::For(true)
            };
            return reply_of(holder, what);
        }
        let Some(txn) = self.reserved.and_then(|stand| stand.txn) else {
            return Reply::Nothing;
        };
        if is_one(own, txn) {
            reply_of(txn, Finds::Own)
        } else if is_first {
            reply_of(txn, Finds::First(false))
        } else {
            reply_of(txn, Finds::For(false))
        }
    }
}
