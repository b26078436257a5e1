//! How is a text checked that comes in pieces? [`HeldCheck`] hears the pieces in order. It has given the whole lines to a
//! `Checker`, and keeps the bytes after the last line end. A fault ends the check, and so does an allocation that fails.
//! `specs/CheckPieces.antt` says what a check has heard.
ghost use Rattle.std.specs.Prelude.{◌≡◌, ◌++◌, [], ℕ, List, OnOk};
ghost use Rattle.lt_checker.specs.Pieces.{HasTaken, IsCountable};
ghost use Rattle.lt_handles.specs.CheckPieces.{HasHeard, HasHeardText, HearsPiece, IsPiecesVerdict, check_code, refusal_code};

use crate::codes::{DONE, MEMORY, fault_code};
use lt_checker::{CheckError, Checker, Fault, Report, check};
use std::alloc::{AllocError, Global};
use std::mem;

/// How far the check of a text has come.
#[derive(Drop)]
pub enum TextCheck {
    /// The first line may not be whole yet.
    Beginning,
    /// The checker has taken whole lines.
    Lines(Checker),
    /// A fault was found, or memory ran out.
    Over(CheckError),
}

/// The check of a text that comes in pieces.
#[derive(Drop)]
pub struct HeldCheck {
    check: TextCheck,
    pending: Vec<u8>,
}

/// The code of a refused text.
fn refusal_code(error: CheckError) -> u32
    ensures { result ≡ refusal_code error }
{
    match error {
        CheckError::Refused { line: _, fault } => fault_code(fault),
        CheckError::Memory => MEMORY,
    }
}

/// The code of a check: `DONE` as long as it goes on, and otherwise why it is over.
fn check_code(check: &TextCheck) -> u32
    ensures { result ≡ check_code check.now }
{
    match check {
        TextCheck::Beginning | TextCheck::Lines(_) => DONE,
        TextCheck::Over(error) => refusal_code(*error),
    }
}

/// The check once the first line must be among the pending bytes.
fn begun(alloc: Global, pending: &mut Vec<u8>) -> TextCheck
    ensures { HasHeard result pending.new.items pending.old.items }
{
    if pending.len() < 8 {
        return TextCheck::Beginning;
    }
    let Some((checker, lines)) = Checker::begin(pending) else {
        return TextCheck::Over(CheckError::Refused {
            line: 1,
            fault: Fault::Header,
        });
    };
    let Ok(kept) = Vec::from_slice(alloc, lines) else {
        return TextCheck::Over(CheckError::Memory);
    };
    *pending = kept;
    TextCheck::Lines(checker)
}

/// The check once the checker has taken the whole lines of the pending bytes.
fn advanced(alloc: Global, checker: Checker, pending: &mut Vec<u8>) -> TextCheck
    ensures { (before : List ℕ) → HasTaken checker before → IsCountable (before ++ pending.old.items) →
        HasHeard result pending.new.items (before ++ pending.old.items) }
{
    let mut checker = checker;
    let rest = match checker.take_lines(alloc, pending) {
        Ok(rest) => rest,
        Err(error) => return TextCheck::Over(error),
    };
    let Ok(kept) = Vec::from_slice(alloc, rest) else {
        return TextCheck::Over(CheckError::Memory);
    };
    *pending = kept;
    TextCheck::Lines(checker)
}

/// The check once it has gone over the pending bytes.
fn gone_on(alloc: Global, check: TextCheck, pending: &mut Vec<u8>) -> TextCheck
    ensures { (text : List ℕ) → HasHeard check pending.old.items text → IsCountable text →
        HasHeard result pending.new.items text }
{
    let check = match check {
        TextCheck::Beginning => begun(alloc, pending),
        check => check,
    };
    match check {
        TextCheck::Lines(checker) => advanced(alloc, checker, pending),
        check => check,
    }
}

/// Appends the piece to the pending bytes.
fn append(pending: &mut Vec<u8>, piece: &[u8]) -> Result<(), AllocError>
    ensures { OnOk result (pending.new.items ≡ pending.old.items ++ piece.now) }
{
    pending.extend_from_slice(piece)
}

/// The check once it has heard the piece.
fn heard(alloc: Global, check: TextCheck, pending: &mut Vec<u8>, piece: &[u8]) -> TextCheck
    ensures { (text : List ℕ) → HasHeard check pending.old.items text → IsCountable (text ++ piece.now) →
        HasHeard result pending.new.items (text ++ piece.now) }
{
    if append(pending, piece).is_err() {
        return TextCheck::Over(CheckError::Memory);
    }
    gone_on(alloc, check, pending)
}

impl HeldCheck {
    /// A check that has heard nothing.
    pub fn new(alloc: Global) -> HeldCheck
        ensures { HasHeardText result [] }
    {
        HeldCheck {
            check: TextCheck::Beginning,
            pending: Vec::new(alloc),
        }
    }

    /// Hears the next piece of the text, and answers why the check is over, or `DONE`.
    pub fn hear(&mut self, alloc: Global, piece: &[u8]) -> u32
        ensures { HearsPiece piece.now result self.old self.new }
    {
        if let TextCheck::Over(error) = &self.check {
            return refusal_code(*error);
        }
        let check = mem::replace(&mut self.check, TextCheck::Over(CheckError::Memory));
        self.check = heard(alloc, check, &mut self.pending, piece);
        check_code(&self.check)
    }

    /// The verdict on the text that the check has heard. If a piece or its end ran out of memory, it is `Memory`.
    pub fn end(self, alloc: Global) -> Result<Report, CheckError>
        ensures { (text : List ℕ) → HasHeardText self text → IsCountable text → IsPiecesVerdict text result }
    {
        let HeldCheck {
            check: state,
            pending,
        } = self;
        match state {
            TextCheck::Beginning => check(alloc, &pending),
            TextCheck::Lines(checker) => checker.end(alloc, &pending),
            TextCheck::Over(error) => Err(error),
        }
    }
}
