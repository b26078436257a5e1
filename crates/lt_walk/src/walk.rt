//! How does a request move through its key list? A `Walk` has what the request asked for, how far it is, and the
//! answers of its latest scan or leave; each function here is one event.
//!
//! Read first `specs/Machine.antt`. The decisions are in `src/walk_progress.rt`; `src/scan_and_poll.rt` and
//! `src/leaving.rt` make the steps in between.
ghost use Rattle.std.specs.Prelude.{◌≡◌, ◌≢◌, ◌+◌, ◌<◌, ◌≤◌, ◌^◌, ◌∷◌, ◌++◌, [], true, false, length, Err, IfOk, IfErr, OnErr, Some, slice_get, nat_lt, vec_len, vec_capacity};
ghost use Rattle.std.specs.Option.{option_map};
ghost use Rattle.lt_ids.specs.Ids.{IsNumber, IsWaitNumber};
ghost use Rattle.lt_walk.specs.Machine.{after_status, asked_for, leaving, may_visit, met, passed, polled, scan_end, scan_start_after, visit_here, walk_answered, walk_moved};

use crate::scan_results::{Poll, Scan, ScanError};
use crate::walk_progress::{
    Mode, Progress, after_status, leave_start, may_visit, met_as, passed, polled, scan_end,
    scan_start, start,
};
use lt_ids::{Access, Key, Ticket, Timestamp, TxnId};
use lt_rules::{Call, Reply};
use lt_shard::Answer;
use std::marker::Model;

/// A request on its way through its key list. Contracts see what it asked for, how far it is, and the answers of
/// its latest scan or leave.
#[derive(Drop)]
pub struct Walk {
    keys: Vec<(Key, Access)>,
    number: u64,
    txn: Option<TxnId>,
    /// The parts of the timestamp, beside the bound: a walk is small, because it moves with its guard.
    wall: u64,
    logical: u32,
    longest: u32,
    progress: Progress,
    /// Has room for one answer for each key.
    answers: Vec<Answer>,
}

/// What a walk has allocated: its key list and its answers.
#[derive(Drop)]
pub(crate) struct WalkParts {
    pub keys: Vec<(Key, Access)>,
    pub answers: Vec<Answer>,
}

impl Model for Walk {
    ghost use Rattle.lt_walk.specs.Machine.{WalkState, asked_for, walk_state};
    ghost use Rattle.lt_walk.specs.Sound.{IsSoundRequest};

    ghost Value = { WalkState };

    ghost view = { λ g. walk_state (asked_for g.keys.items g.number g.txn (record { wall = g.wall; logical = g.logical }) g.longest) g.progress g.answers.items };

    ghost invariant = { λ g. IsSoundRequest g.number g.keys.items g.progress g.answers };
}

impl Walk {
    ghost use Rattle.lt_walk.specs.Sound.{IsSoundWalk};

    /// A request at the start of its list. `answers` is empty and has room for one answer for each key.
    pub(crate) fn at_start(
        keys: Vec<(Key, Access)>,
        answers: Vec<Answer>,
        number: u64,
        txn: Option<TxnId>,
        ts: Timestamp,
        longest: u32,
    ) -> Walk
        requires number { IsNumber number }
        requires empty { answers.items ≡ [] }
        requires room { length keys.items ≤ vec_capacity answers }
        ensures asked { result.asked ≡ asked_for keys.items number txn ts longest }
        ensures progress { result.progress ≡ record { index = 0; waits = 0; waited = false; mode = Mode.Free } }
        ensures answers { result.answers ≡ [] }
    {
        Walk {
            keys,
            number,
            txn,
            wall: ts.wall,
            logical: ts.logical,
            longest,
            progress: start(),
            answers,
        }
    }

    /// The keys in the order in which they are visited.
    pub(crate) fn keys(&self) -> &[(Key, Access)]
        ensures { result.now ≡ self.now.asked.keys }
    {
        self.keys.as_slice()
    }

    pub(crate) fn number(&self) -> u64
        ensures number { result ≡ self.now.asked.number }
        ensures range { IsNumber result }
    {
        self.number
    }

    /// The answers of the latest scan or leave.
    pub(crate) fn answers(&self) -> &[Answer]
        ensures { result.now ≡ self.now.answers }
    {
        self.answers.as_slice()
    }

    /// Ghost call: tells the prover what holds of every walk.
    pub(crate) fn sound(&self)
        ensures number { IsNumber self.now.asked.number }
        ensures sound { IsSoundWalk self.now }
    {
        let _ = &self.keys;
    }

    /// Begins a scan, given the status word that was read, or refuses it.
    pub(crate) fn begin_scan(&mut self, word: u64) -> Result<(), ScanError>
        ensures ok { IfOk result (λ _. scan_start_after self.old word ≡ Ok self.new.progress) }
        ensures cleared { IfOk result (λ _. self.new.answers ≡ []) }
        ensures asked { self.new.asked ≡ self.old.asked }
        ensures free { IfOk result (λ _. self.new.progress.mode ≡ Mode.Free) }
        ensures refused { IfErr result (λ e. scan_start_after self.old word ≡ Err e) }
        ensures same { OnErr result (self.new ≡ self.old) }
        ensures never_full { result ≢ Err ScanError.HistoryFull }
    {
        let progress = scan_start(after_status(self.number, self.progress, word))?;
        self.progress = progress;
        self.answers.clear();
        Ok(())
    }

    /// Whether a visit comes next.
    pub(crate) fn has_visit(&self, max_waits: u32) -> bool
        ensures { result ≡ may_visit (length self.now.asked.keys) max_waits self.now.progress }
    {
        may_visit(self.keys.len(), max_waits, self.progress)
    }

    /// The key at an index of the list.
    pub(crate) fn key_at(&self, index: usize) -> &Key
        requires { index < length self.now.asked.keys }
        ensures { option_map (λ k. k.0) (slice_get self.now.asked.keys index) ≡ Some result.now }
    {
        &self.keys[index].0
    }

    /// The key that comes next.
    pub(crate) fn key(&self) -> &Key
        requires { self.now.progress.index < length self.now.asked.keys }
        ensures { option_map (λ k. k.0) (slice_get self.now.asked.keys self.now.progress.index) ≡ Some result.now }
    {
        self.key_at(self.progress.index)
    }

    /// The visit that comes next.
    pub(crate) fn visit(&self) -> Call
        requires index { self.now.progress.index < length self.now.asked.keys }
        requires waits { self.now.progress.waits + 1 < 2 ^ 24 }
        ensures { visit_here self.now ≡ Some result }
    {
        Call::Visit {
            ticket: Ticket::new(self.number, self.progress.waits + 1).unwrap(),
            txn: self.txn,
            ts: Timestamp {
                wall: self.wall,
                logical: self.logical,
            },
            access: self.keys[self.progress.index].1,
            longest: self.longest,
        }
    }

    /// Records the answer of a visit.
    pub(crate) fn meet(&mut self, answer: Answer)
        requires index { self.old.progress.index < length self.old.asked.keys }
        requires waits { self.old.progress.waits + 1 < 2 ^ 24 }
        requires free { self.old.progress.mode ≡ Mode.Free }
        requires room { length self.old.answers ≤ self.old.progress.index }
        ensures { self.new ≡ walk_answered self.old (met self.old.progress answer.reply) answer }
    {
        let must_wait = matches!(&answer.reply, Reply::MustWait);
        let too_long = matches!(&answer.reply, Reply::TooLong);
        met_as(&mut self.progress, must_wait, too_long);
        put(&mut self.answers, answer);
    }

    /// Ends the scan. Called when no visit comes next.
    pub(crate) fn end_scan(&mut self) -> Result<Scan, ScanError>
        ensures result { result ≡ (scan_end (length self.old.asked.keys) self.old.progress).result }
        ensures after { self.new ≡ walk_moved self.old (scan_end (length self.old.asked.keys) self.old.progress).after }
        ensures never_full { result ≢ Err ScanError.HistoryFull }
    {
        let ended = scan_end(self.keys.len(), self.progress);
        self.progress = ended.after;
        ended.result
    }

    /// Whether the request was let through, by the status word that was read.
    pub(crate) fn poll(&mut self, word: u64) -> Poll
        ensures result { result ≡ polled self.new.progress }
        ensures after { self.new ≡ walk_moved self.old (after_status self.old.asked.number self.old.progress word) }
    {
        self.progress = after_status(self.number, self.progress, word);
        polled(self.progress)
    }

    /// Begins a leave, or continues one.
    pub(crate) fn begin_leave(&mut self)
        ensures { self.new ≡ leaving self.old }
    {
        if self.progress.mode != Mode::Leaving {
            self.answers.clear();
            self.progress = leave_start(self.progress);
        }
    }

    /// Whether a key is left to leave.
    pub(crate) fn has_leave(&self) -> bool
        ensures { result ≡ nat_lt self.now.progress.index (length self.now.asked.keys) }
    {
        self.progress.index < self.keys.len()
    }

    /// The leave step of each key.
    pub(crate) fn leave_call(&self) -> Call
        ensures call { result ≡ Call.Leave self.now.asked.number }
        ensures range { IsNumber self.now.asked.number }
    {
        Call::Leave {
            number: self.number,
        }
    }

    /// Records the answer of a leave step.
    pub(crate) fn leave_one(&mut self, answer: Answer)
        requires index { self.old.progress.index < length self.old.asked.keys }
        requires leaving { self.old.progress.mode ≡ Mode.Leaving }
        ensures { self.new ≡ walk_answered self.old (passed self.old.progress) answer }
    {
        passed(&mut self.progress);
        put(&mut self.answers, answer);
    }

    #[inline(always)]
    pub(crate) fn into_parts(self) -> WalkParts
        ensures { result.answers.items ≡ self.answers }
    {
        let Walk { keys, answers, .. } = self;
        WalkParts { keys, answers }
    }
}

/// Adds an answer, for which there is room.
fn put(answers: &mut Vec<Answer>, answer: Answer)
    requires { vec_len answers.old < vec_capacity answers.old }
    ensures items { answers.new.items ≡ answers.old.items ++ answer ∷ [] }
    ensures capacity { vec_capacity answers.old ≤ vec_capacity answers.new }
{
    let reply: Reply = answer.reply;
    answers.push_reserved(Answer {
        reply,
        at: answer.at,
    });
}
