//! What does a request do, by a second evaluation of the rules?
//! [`PlainRequest`] is written from `docs/RULES.md`, "A request". Read next `steps`, which makes its key steps,
//! and `table`, which holds the requests of all passes.
use crate::schedules::steps::{AskedCall, Steps};
use crate::second::Time;
use lt_ids::Access;
use lt_rules::Reply;
use lt_table::{Poll, Scan, ScanError, StepError};
use lt_test_kit::command::CallOutcome;
use std::alloc::{AllocError, Global};

/// What a request does between its calls.
#[derive(Clone, Copy, PartialEq, Eq)]
pub enum PlainMode {
    Free,
    Waiting,
    Let,
    Leaving,
}

/// A request that has entered and not left.
#[derive(Drop)]
pub struct PlainRequest {
    pass: u32,
    number: u64,
    txn: Option<u64>,
    time: Time,
    /// The bound: the request does not join a queue of this many writers or more. 0 is no bound.
    longest: u32,
    /// Its key list, each key with whether it is to be written.
    list: Vec<(u8, bool)>,
    /// The position in the key list of the next key, or of the key at which it waits.
    index: usize,
    /// How many waits it has begun.
    waits: u32,
    /// Whether it had to wait since a scan last answered that it proceeds, must scan again, or met a queue that is
    /// too long.
    waited: bool,
    mode: PlainMode,
    /// The replies of its latest scan, or of its leave.
    replies: Vec<Reply>,
}

/// Whether the accesses include this access to this key.
fn has_access(accesses: &[(u8, Access)], key: u8, access: Access) -> bool {
    let mut found = false;
    for (named, how) in accesses {
        found = found || *named == key && *how == access;
    }
    found
}

/// The key list: each key once, as a write if any of its accesses is a write. Writes come first in byte order,
/// then reads in byte order.
fn list_of(alloc: Global, accesses: &[(u8, Access)]) -> Result<Vec<(u8, bool)>, AllocError> {
    let mut list = Vec::new(alloc);
    for key in 0..=255 {
        if has_access(accesses, key, Access::Write) {
            list.push((key, true))?;
        }
    }
    for key in 0..=255 {
        if has_access(accesses, key, Access::Read) && !has_access(accesses, key, Access::Write) {
            list.push((key, false))?;
        }
    }
    Ok(list)
}

impl PlainRequest {
    /// A new request: free, at the first key of its list, without a wait.
    pub fn new(
        alloc: Global,
        pass: u32,
        number: u64,
        txn: Option<u64>,
        time: Time,
        accesses: &[(u8, Access)],
        longest: u32,
    ) -> Result<Self, AllocError> {
        Ok(PlainRequest {
            pass,
            number,
            txn,
            time,
            longest,
            list: list_of(alloc, accesses)?,
            index: 0,
            waits: 0,
            waited: false,
            mode: PlainMode::Free,
            replies: Vec::new(alloc),
        })
    }

    pub fn replies(&self) -> &[Reply] {
        self.replies.as_slice()
    }

    /// The key at a position of its list, and the look at it.
    pub fn look_call(&self, index: usize) -> Option<(u8, AskedCall)> {
        let (key, _) = self.list.get(index)?;
        let number = self.number;
        Some((*key, AskedCall::Look { number }))
    }

    pub fn is_leaving(&self) -> bool {
        self.mode == PlainMode::Leaving
    }

    /// Whether a scan would now continue after a let, with another key to visit.
    pub fn goes_on(&self, steps: &Steps) -> bool {
        self.is_let(steps) && self.index.wrapping_add(1) < self.list.len()
    }

    /// Whether it was let through: an earlier poll found so, or the status word of its pass is the ticket of this
    /// very wait.
    fn is_let(&self, steps: &Steps) -> bool {
        match self.mode {
            PlainMode::Let => true,
            PlainMode::Waiting => steps.word(self.pass) == Some((self.number, self.waits)),
            PlainMode::Free | PlainMode::Leaving => false,
        }
    }

    /// Checks whether the wait is over. A request that was let through stays so until its next scan or leave.
    pub fn poll(&mut self, steps: &Steps) -> Poll {
        if self.is_let(steps) {
            self.mode = PlainMode::Let;
            return Poll::Through;
        }
        if self.mode == PlainMode::Waiting {
            return Poll::Waiting;
        }
        Poll::Idle
    }

    /// Visits key after key from its position on. A request that is leaving, or that waits and was not let
    /// through, is refused, and nothing changes. One that was let through continues at the next position.
    pub fn scan(&mut self, steps: &mut Steps, max_waits: u32) -> Result<CallOutcome, AllocError> {
        if self.is_let(steps) {
            self.index = self.index.wrapping_add(1);
            self.mode = PlainMode::Free;
        }
        match self.mode {
            PlainMode::Leaving => return Ok(CallOutcome::NotScanned(ScanError::Leaving)),
            PlainMode::Waiting => return Ok(CallOutcome::NotScanned(ScanError::StillWaiting)),
            PlainMode::Free | PlainMode::Let => {}
        }
        self.replies.clear();
        let list = self.list.clone()?;
        for (key, is_write) in list.iter().skip(self.index) {
            if let Some(outcome) = self.visit(steps, max_waits, *key, *is_write)? {
                return Ok(outcome);
            }
            self.index = self.index.wrapping_add(1);
        }
        Ok(CallOutcome::Scanned(self.end_scan()))
    }

    /// Visits the key at its position. Returns the outcome of the scan if the scan ends here. The refusals come in
    /// this order: the request has begun as many waits as it may; the history is full. A visit carries the number
    /// of the wait that it would begin.
    fn visit(
        &mut self,
        steps: &mut Steps,
        max_waits: u32,
        key: u8,
        is_write: bool,
    ) -> Result<Option<CallOutcome>, AllocError> {
        if self.waits >= max_waits {
            return Ok(Some(CallOutcome::NotScanned(ScanError::WaitsOut)));
        }
        let wait = self.waits + 1;
        let asked = AskedCall::Visit {
            number: self.number,
            wait,
            txn: self.txn,
            time: self.time,
            is_write,
            longest: self.longest,
        };
        let Some(made) = steps.make(self.pass, key, asked)? else {
            return Ok(Some(CallOutcome::NotScanned(ScanError::HistoryFull)));
        };
        self.replies.push(made.reply)?;
        if made.reply == Reply::TooLong {
            let index = self.index;
            self.begin_anew();
            return Ok(Some(CallOutcome::Scanned(Scan::TooLong(index))));
        }
        if made.reply != Reply::MustWait {
            return Ok(None);
        }
        self.waits = wait;
        self.waited = true;
        self.mode = PlainMode::Waiting;
        Ok(Some(CallOutcome::Scanned(Scan::Waiting(self.index))))
    }

    /// Goes back to the first position, and forgets that the request had to wait.
    fn begin_anew(&mut self) {
        self.index = 0;
        self.waited = false;
    }

    /// Ends a scan that reached the end of the list, and goes back to the first position. A request that had to
    /// wait on the way must scan once more.
    fn end_scan(&mut self) -> Scan {
        let waited = self.waited;
        self.begin_anew();
        if waited { Scan::Rescan } else { Scan::Proceed }
    }

    /// Makes one leave step at each key, in order. After a refusal, the next leave continues where this one
    /// stopped.
    pub fn leave(&mut self, steps: &mut Steps) -> Result<CallOutcome, AllocError> {
        if self.mode != PlainMode::Leaving {
            self.mode = PlainMode::Leaving;
            self.index = 0;
            self.replies.clear();
        }
        let asked = AskedCall::Leave {
            number: self.number,
        };
        let list = self.list.clone()?;
        for (key, _) in list.iter().skip(self.index) {
            let Some(made) = steps.make(self.pass, *key, asked)? else {
                return Ok(CallOutcome::NotLeft(StepError::HistoryFull));
            };
            self.replies.push(made.reply)?;
            self.index = self.index.wrapping_add(1);
        }
        Ok(CallOutcome::Left)
    }
}
