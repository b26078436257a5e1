//! Which key steps are made, and what is the state of the keys, by a second evaluation of the rules?
//! [`Steps`] has the record of each key ([`Second`]) and every step that was made. It computes
//! status words, queues and shards from them. Read next `request`, which makes the steps of a request.
ghost use Rattle.std.specs.Prelude.{◌<◌};

use crate::schedules::standing::Standing;
use crate::second::{Let, PlainStand, Second, Time};
use lt_rules::Reply;
use std::alloc::{AllocError, Global};
use std::collections::BTreeMap;

/// A call of a key, in plain numbers.
#[derive(Clone, Copy, Debug, PartialEq, Eq)]
pub enum AskedCall {
    Visit {
        number: u64,
        wait: u32,
        txn: Option<u64>,
        time: Time,
        is_write: bool,
        longest: u32,
    },
    Acquire {
        txn: u64,
        time: Time,
    },
    Update {
        txn: u64,
        time: Time,
    },
    Finish {
        txn: u64,
    },
    Leave {
        number: u64,
    },
    Look {
        number: u64,
    },
}

/// One key step, in plain numbers. A key is named by a byte.
#[derive(Drop)]
pub struct PlainStep {
    pub pass: u32,
    pub key: u8,
    pub asked: AskedCall,
    pub reply: Reply,
    pub lets: Vec<Let>,
}

/// The answer of a step: its reply, and how many steps its shard had made before.
#[derive(Clone, Copy)]
pub struct PlainAnswer {
    pub reply: Reply,
    pub at: u64,
}

/// The queue entry that a visit brings. `None` for any other call.
fn stand_of(pass: u32, asked: AskedCall) -> Option<PlainStand> {
    match asked {
        AskedCall::Visit {
            number,
            wait,
            txn,
            time,
            ..
        } => Some(PlainStand {
            number,
            txn,
            time,
            pass,
            wait,
            active: true,
        }),
        _ => None,
    }
}

/// Makes the call on the record of a key, and returns its reply.
fn answer(
    record: &mut Second,
    alloc: Global,
    pass: u32,
    asked: AskedCall,
) -> Result<Reply, AllocError> {
    match asked {
        AskedCall::Visit {
            number,
            wait,
            txn,
            time,
            is_write,
            longest,
        } => {
            let stand = PlainStand {
                number,
                txn,
                time,
                pass,
                wait,
                active: true,
            };
            record.visit(alloc, &stand, longest, is_write)
        }
        AskedCall::Acquire { txn, time } => record.acquire(alloc, txn, time),
        AskedCall::Update { txn, time } => record.update(alloc, txn, time),
        AskedCall::Finish { txn } => record.finish(alloc, txn),
        AskedCall::Leave { number } => record.leave(alloc, number),
        AskedCall::Look { number } => Ok(record.look(number)),
    }
}

/// The records of all keys, and each step that was made, in order.
#[derive(Drop)]
pub struct Steps {
    alloc: Global,
    shards: u64,
    max_steps: u64,
    keys: BTreeMap<u8, Second>,
    made: Vec<PlainStep>,
    /// For each key and number, the entry of the last visit that had to wait or got the reservation. The latest is
    /// last.
    stood: Vec<(u8, PlainStand)>,
    ghost some_shards: { 0 < shards },
}

impl Steps {
    pub fn new(alloc: Global, shards: u64, max_steps: u64) -> Self
        requires { 0 < shards }
    {
        Steps {
            alloc,
            shards,
            max_steps,
            keys: BTreeMap::new(alloc),
            made: Vec::new(alloc),
            stood: Vec::new(alloc),
        }
    }

    /// All steps, in order.
    pub fn all(&self) -> &[PlainStep] {
        self.made.as_slice()
    }

    /// The shard of a key: the sum of its bytes modulo the number of shards. The key of a capital letter has that
    /// byte 61 times, any other key has its byte once.
    pub fn shard_of(&self, key: u8) -> u64 {
        let times = if key.is_ascii_uppercase() { 61 } else { 1 };
        u64::from(key).wrapping_mul(times) % self.shards
    }

    /// The transaction that holds the lock of this key, if any.
    pub fn holder(&self, key: u8) -> Option<u64> {
        let (txn, _) = self.keys.get(&key)?.lock().holder?;
        Some(txn)
    }

    /// The status word of a pass: the request number and the wait number of the last let for that pass.
    pub fn word(&self, pass: u32) -> Option<(u64, u32)> {
        let mut last = None;
        for step in &self.made {
            for (to, number, wait) in &step.lets {
                if *to == pass {
                    last = Some((*number, *wait));
                }
            }
        }
        last
    }

    /// How many steps the shard of this key has made.
    fn count_beside(&self, key: u8) -> u64 {
        let shard = self.shard_of(key);
        let mut count = 0u64;
        for step in &self.made {
            if self.shard_of(step.key) == shard {
                count = count.wrapping_add(1);
            }
        }
        count
    }

    /// Notes the entry of a request at the key. It replaces an earlier one.
    fn note(&mut self, key: u8, stand: PlainStand) -> Result<(), AllocError> {
        let number = stand.number;
        self.stood
            .retain(|(at, old)| *at != key || old.number != number);
        self.stood.push((key, stand))?;
        Ok(())
    }

    /// The latest noted entry of the request of this number at the key, if any.
    fn stand(&self, key: u8, number: u64) -> Option<PlainStand> {
        let mut found = None;
        for (at, stand) in &self.stood {
            if *at == key && stand.number == number {
                found = Some(*stand);
            }
        }
        found
    }

    /// The numbers of all requests that had an entry at the key, the latest last.
    fn numbers(&self, key: u8) -> Result<Vec<u64>, AllocError> {
        let mut numbers = Vec::new(self.alloc);
        for (at, stand) in &self.stood {
            if *at == key {
                numbers.push(stand.number)?;
            }
        }
        Ok(numbers)
    }

    /// The entries of the queued writers, ordered by number.
    fn writers(&self, key: u8, record: &Second) -> Result<Vec<PlainStand>, AllocError> {
        let mut numbers = self.numbers(key)?;
        numbers.sort()?;
        let mut writers = Vec::new(self.alloc);
        for number in &numbers {
            if record.is_writer(*number) {
                if let Some(mut stand) = self.stand(key, *number) {
                    stand.active = record.look(*number) != Reply::Idle;
                    writers.push(stand)?;
                }
            }
        }
        Ok(writers)
    }

    /// The entries of the queued readers, the latest first: the requests at the key that neither hold the
    /// reservation nor are among the writers.
    fn readers(&self, key: u8, record: &Second) -> Result<Vec<PlainStand>, AllocError> {
        let numbers = self.numbers(key)?;
        let mut readers = Vec::new(self.alloc);
        for number in numbers.iter().rev() {
            let found = record.look(*number);
            let is_queued = found != Reply::Nothing && found != Reply::Reserved;
            if is_queued && !record.is_writer(*number) {
                if let Some(stand) = self.stand(key, *number) {
                    readers.push(stand)?;
                }
            }
        }
        Ok(readers)
    }

    /// The distinguished waiter: the request whose look finds that it is the first to wait for the lock.
    fn distinguished(&self, key: u8, record: &Second) -> Option<u64> {
        let mut found = None;
        for (at, stand) in &self.stood {
            if *at == key {
                if let Reply::WaitFirst(_, _) = record.look(stand.number) {
                    found = Some(stand.number);
                }
            }
        }
        found
    }

    /// The state of the key.
    pub fn standing(&self, key: u8) -> Result<Standing, AllocError> {
        let Some(record) = self.keys.get(&key) else {
            return Ok(Standing::empty(self.alloc));
        };
        let lock = record.lock();
        Ok(Standing {
            holder: lock.holder,
            reserved: lock.reserved.and_then(|number| self.stand(key, number)),
            writers: self.writers(key, record)?,
            readers: self.readers(key, record)?,
            distinguished: self.distinguished(key, record),
        })
    }

    /// Whether the key has a holder, a reservation or a queued request.
    fn has_record(&self, key: u8) -> bool {
        let Some(record) = self.keys.get(&key) else {
            return false;
        };
        let lock = record.lock();
        let is_waited_for = record.writers() != 0 || record.has_readers();
        lock.holder.is_some() || lock.reserved.is_some() || is_waited_for
    }

    /// The letters of the keys in this key's shard that have a record, in byte order.
    pub fn keys_beside(&self, key: u8) -> Result<Vec<u8>, AllocError> {
        let shard = self.shard_of(key);
        let mut keys = Vec::new(self.alloc);
        for other in b'A'..=b'z' {
            if self.shard_of(other) == shard && self.has_record(other) {
                keys.push(other)?;
            }
        }
        Ok(keys)
    }

    /// Makes the step on the key's record. The entry of a visit that must wait, or that gets the reservation, is
    /// noted.
    fn step(&mut self, pass: u32, key: u8, asked: AskedCall) -> Result<PlainStep, AllocError> {
        let alloc = self.alloc;
        let record = self.keys.entry(key)?.or_insert(Second::new(alloc));
        record.lets.clear();
        let before = record.lock().reserved;
        let reply = answer(record, alloc, pass, asked)?;
        let after = record.lock().reserved;
        let lets = record.lets.clone()?;
        if let Some(stand) = stand_of(pass, asked) {
            if reply == Reply::MustWait || before != after {
                self.note(key, stand)?;
            }
        }
        Ok(PlainStep {
            pass,
            key,
            asked,
            reply,
            lets,
        })
    }

    /// Makes the step. `None`, and nothing changes, if the key's shard has made as many steps as it may.
    pub fn make(
        &mut self,
        pass: u32,
        key: u8,
        asked: AskedCall,
    ) -> Result<Option<PlainAnswer>, AllocError> {
        let at = self.count_beside(key);
        if at >= self.max_steps {
            return Ok(None);
        }
        let step = self.step(pass, key, asked)?;
        let reply = step.reply;
        self.made.push(step)?;
        Ok(Some(PlainAnswer { reply, at }))
    }
}
