//! Are the waits of a trace right? A [`WaitJudge`] takes the trace line by line and holds the open waits, each by the
//! number of its request. Read next: `specs/Judged.antt`, which says what its verdict means.
ghost use Rattle.std.specs.Prelude.{◌≡◌, ◌<◌, ◌+◌, ◌^◌, ◌++◌, ◌∷◌, [], ℕ, List, Some, None, OnOk, IfErr, IfSome, IfNone};
ghost use Rattle.lt_trace_waits.specs.Waits.{LeadTo};
ghost use Rattle.lt_trace_waits.specs.Moves.{LineSays};
ghost use Rattle.lt_trace_waits.specs.Judged.{wait_in, SetsWait, Applies, IsBroken, IsBrokenLine, HasJudged, TakesLine, IsRefusal, IsLeastOpen};
ghost use Rattle.lt_trace_waits.specs.declared.judge.JudgeError.TheVariants.{Memory};

use crate::moves::read_moves;
use crate::open_wait::{RequestWait, WaitFault, WaitMove, next};
use std::alloc::{AllocError, AllocFailed, Global};
use std::collections::BTreeMap;
use thiserror::Error;

/// The open waits, each by the number of its request.
pub(crate) type WaitMap = BTreeMap<u64, RequestWait>;

/// Why a judge took no more lines.
#[derive(Clone, Copy, Debug, PartialEq, Eq, Drop, Error)]
pub enum JudgeError {
    /// The first line that breaks a rule, counted from 1, and the rule.
    #[error("line {line}: {fault:?}")]
    Refused { line: u64, fault: WaitFault },
    /// Memory ran out.
    #[error("out of memory")]
    Memory,
    /// The trace has more than 2^64 - 2 lines.
    #[error("the trace is too long")]
    TooLong,
}

impl From<AllocError> for JudgeError {
    ghost from_gives = { λ _ e. e ≡ Memory };

    fn from(_e: AllocError) -> JudgeError {
        JudgeError::Memory
    }
}

impl<T: Drop> From<AllocFailed<T>> for JudgeError {
    ghost from_gives = { λ _ e. e ≡ Memory };

    fn from(_e: AllocFailed<T>) -> JudgeError {
        JudgeError::Memory
    }
}

/// A request whose wait is open at the end of a trace.
#[derive(Clone, Copy, Debug, PartialEq, Eq)]
pub struct OpenRequest {
    /// The number of the request.
    pub number: u64,
    pub wait: RequestWait,
}

/// The open wait of the request with this number.
fn wait_in(waits: &WaitMap, number: u64) -> Option<RequestWait>
    ensures { result ≡ wait_in waits.now number }
{
    waits.get(&number).copied()
}

/// Puts in the open wait of the request with this number.
fn put_wait(waits: &mut WaitMap, number: u64, wait: RequestWait) -> Result<(), AllocError>
    ensures { OnOk result (SetsWait waits.old number (Some wait) waits.new) }
{
    waits.insert(number, wait)?;
    Ok(())
}

/// Takes out the open wait of the request with this number, if it has one.
fn drop_wait(waits: &mut WaitMap, number: u64)
    ensures { SetsWait waits.old number None waits.new }
{
    waits.remove(&number);
}

/// Sets the open wait of the request with this number.
fn set_wait(
    waits: &mut WaitMap,
    number: u64,
    current: Option<RequestWait>,
) -> Result<(), AllocError>
    ensures { OnOk result (SetsWait waits.old number current waits.new) }
{
    match current {
        Some(wait) => put_wait(waits, number, wait),
        None => {
            drop_wait(waits, number);
            Ok(())
        }
    }
}

/// Makes a move of this line.
fn make_move(waits: &mut WaitMap, line: u64, step: &WaitMove) -> Result<(), JudgeError>
    ensures ok { OnOk result (Applies line waits.old step.now waits.new) }
    ensures err { IfErr result (IsBroken line waits.old step.now) }
{
    let current = wait_in(waits, step.number);
    match next(line, current, *step) {
        Ok(after) => {
            set_wait(waits, step.number, after)?;
            Ok(())
        }
        Err(fault) => Err(JudgeError::Refused { line, fault }),
    }
}

/// Makes the moves of this line.
fn make_moves(waits: &mut WaitMap, line: u64, moves: &[WaitMove]) -> Result<(), JudgeError>
    ensures ok { OnOk result (LeadTo line (wait_in waits.old) moves.now (wait_in waits.new)) }
    ensures err { IfErr result (IsBrokenLine line (wait_in waits.old) moves.now) }
{
    for step in moves {
        if let Err(error) = make_move(waits, line, step) {
            return Err(error);
        }
    }
    Ok(())
}

/// Judges the waits of a trace. After an error it is of no more use.
#[derive(Drop)]
pub struct WaitJudge {
    waits: WaitMap,
    /// The number of the next line, from 1.
    line: u64,
}

impl WaitJudge {
    /// A judge that has taken no line.
    pub fn new(alloc: Global) -> WaitJudge
        ensures { HasJudged result [] }
    {
        WaitJudge {
            waits: BTreeMap::new(alloc),
            line: 1,
        }
    }

    /// Makes the moves of the next line, which has these bytes.
    fn take_moves(&mut self, bytes: &[u8], moves: &[WaitMove]) -> Result<(), JudgeError>
        requires number { self.old.line + 1 < 2 ^ 64 }
        requires says { LineSays bytes.now moves.now }
        ensures ok { OnOk result (TakesLine self.old bytes.now self.new) }
        ensures err { IfErr result (IsRefusal self.old bytes.now) }
    {
        if let Err(error) = make_moves(&mut self.waits, self.line, moves) {
            return Err(error);
        }
        self.line += 1;
        Ok(())
    }

    /// Takes the next line, given without its line end.
    pub fn take_line(&mut self, alloc: Global, bytes: &[u8]) -> Result<(), JudgeError>
        // The line breaks no rule.
        ensures ok { OnOk result (TakesLine self.old bytes.now self.new) }
        // The line is the first one that breaks a rule, and the fault says which.
        ensures err { IfErr result (IsRefusal self.old bytes.now) }
    {
        if self.line == u64::MAX {
            return Err(JudgeError::TooLong);
        }
        match read_moves(alloc, bytes)? {
            Some(moves) => self.take_moves(bytes, &moves),
            None => Err(JudgeError::Refused {
                line: self.line,
                fault: WaitFault::Shape,
            }),
        }
    }

    /// Of the requests whose wait is open, the one with the least number. `None` if no wait is open.
    pub fn first_open(&self) -> Option<OpenRequest>
        ensures none { IfNone result ((n : ℕ) → wait_in self.now.waits n ≡ None) }
        ensures some { IfSome result (IsLeastOpen self.now) }
    {
        match self.waits.first_key_value() {
            Some((number, wait)) => Some(OpenRequest {
                number: *number,
                wait: *wait,
            }),
            None => None,
        }
    }
}
