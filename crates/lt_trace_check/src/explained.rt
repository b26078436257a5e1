//! What do the rules say about one line of a text?
//!
//! [`explain`] reads a text up to a line that a check refused. It says why the check refused it, or what the rules give
//! for its call, and gives the key's latest lines. [`read_first_line`] reads the first line of a text. Read next:
//! `reason.rt`, `shape.rt` for the words of a line, and `rule.rt`, which names the row of docs/RULES.md that applies.
ghost use Rattle.std.specs.Prelude.{◌≡◌, ℕ, List, Option, OnOk, IfOk, IfErr, IfSome, IfNone};
ghost use Rattle.lt_checker.specs.Pieces.{TakesLines};
ghost use Rattle.lt_trace_check.specs.Audit.{IsLineRead, StopsAtLineEnd, IsReading, EndsReadingAs, IsAuditedAs, IsExplained, IsFirstLine, IsSplit, RefusesPending, SaysOfLine, IsNoVerdict, out_of_memory};

use crate::error::AuditError;
use crate::reason::{LineReason, asked, reason_for};
use crate::stream::{begin, read_line, take_pending};
use lt_checker::{Checker, Fault, Line};
use std::alloc::{AllocError, Global};
use std::io::BufRead;

/// How many lines of the key before the line are kept.
pub const MOST_LINES: usize = 5;

/// A line of a text, and what a check and the rules say of it.
#[derive(Drop)]
pub struct Explained {
    /// The line, without its line end.
    pub line: Vec<u8>,
    /// Whether the line has a line end.
    pub is_ended: bool,
    /// The version of the text.
    pub version: u8,
    /// What the line says. `None` if it does not have the form of a line.
    pub asked: Option<Line>,
    /// Why a check refuses the line, but for its line end.
    pub reason: LineReason,
    /// The latest lines before it, at most [`MOST_LINES`] and all of one key, in their order.
    pub before: Vec<Vec<u8>>,
}

impl Explained {
    /// The first fault of the line. `None` if it is legal after the lines before it.
    pub fn fault(&self) -> Option<Fault> {
        match (&self.asked, &self.reason) {
            (None, _) | (_, LineReason::Shape) => Some(Fault::Shape),
            _ if !self.is_ended => Some(Fault::Shape),
            (_, LineReason::KeyOrder(_)) => Some(Fault::KeyOrder),
            (_, LineReason::Index(_)) => Some(Fault::Index),
            (Some(line), LineReason::Rules(_, expected)) => {
                if line.step.reply != expected.reply {
                    return Some(Fault::WrongReply);
                }
                if line.tickets != expected.tickets {
                    return Some(Fault::WrongLets);
                }
                None
            }
        }
    }
}

/// Keeps the latest lines of a key: this one is the key's line with this index.
fn note_line(recent: &mut Vec<Vec<u8>>, line: Vec<u8>, index: u64) -> Result<(), AllocError> {
    if index == 1 {
        recent.clear();
    }
    if recent.len() >= MOST_LINES {
        let _oldest = recent.remove(0);
    }
    recent.push(line)?;
    Ok(())
}

/// The line without its line end, and whether it has one.
fn without_end(line: &[u8]) -> (&[u8], bool)
    ensures { IsSplit line.now result.0.now result.1 }
{
    match line.split_last() {
        Some((b'\n', rest)) => (rest, true),
        _ => (line, false),
    }
}

/// The index of the latest line, or 1 before the first one.
fn latest_index(checker: &Checker) -> u64 {
    match checker.latest() {
        Some((_, index)) => index,
        None => 1,
    }
}

/// Gives the line that was read to the checker, and keeps it among the latest ones.
fn check_line(
    alloc: Global,
    checker: &mut Checker,
    pending: &mut Vec<u8>,
    recent: &mut Vec<Vec<u8>>,
) -> Result<(), AuditError>
    ensures ok { IfOk result (λ _. TakesLines checker.old pending.old.items checker.new pending.new.items) }
    ensures err { IfErr result (RefusesPending checker.old pending.old.items) }
{
    let line = Vec::from_slice(alloc, without_end(pending).0)?;
    if let Err(error) = take_pending(alloc, checker, pending) {
        return Err(error);
    }
    note_line(recent, line, latest_index(checker))?;
    Ok(())
}

/// Appends the next line to these bytes. `NoSuchLine` if there is none.
fn read_next<R: BufRead>(reader: &mut R, pending: &mut Vec<u8>) -> Result<(), AuditError>
    ensures ok { OnOk result ((n : ℕ) × IsLineRead (R.remaining reader.old) (R.remaining reader.new) pending.old.items pending.new.items n) }
    ensures stops { OnOk result (StopsAtLineEnd (R.remaining reader.old) (R.remaining reader.new) pending.new.items) }
    ensures err { IfErr result IsNoVerdict }
{
    if read_line(reader, pending)? == 0 {
        return Err(AuditError::NoSuchLine);
    }
    Ok(())
}

/// Gives the next line to the checker, and keeps it among the latest ones.
fn take_line<R: BufRead>(
    alloc: Global,
    reader: &mut R,
    checker: &mut Checker,
    pending: &mut Vec<u8>,
    recent: &mut Vec<Vec<u8>>,
) -> Result<(), AuditError>
    ensures ok { OnOk result ((source : Option (List ℕ)) → IsReading source (R.remaining reader.old) checker.old pending.old.items →
        IsReading source (R.remaining reader.new) checker.new pending.new.items) }
    ensures err { IfErr result (EndsReadingAs (R.remaining reader.old) checker.old pending.old.items) }
{
    read_next(reader, pending)?;
    check_line(alloc, checker, pending, recent)
}

/// What is to be said of this line, which comes after those that the checker has taken. `before` are the latest of them.
fn explain_line(
    alloc: Global,
    checker: Checker,
    line: &[u8],
    is_ended: bool,
    before: Vec<Vec<u8>>,
) -> Result<Explained, AuditError>
    ensures ok { IfOk result (SaysOfLine checker line.now is_ended) }
    ensures err { IfErr result (λ e. e ≡ out_of_memory) }
{
    let asked = asked(alloc, line)?;
    let version = checker.report().version;
    let reason = reason_for(alloc, checker, &asked, line)?;
    let line = Vec::from_slice(alloc, line)?;
    Ok(Explained {
        line,
        is_ended,
        version,
        asked,
        reason,
        before,
    })
}

/// Reads the text up to the line with this number, counted from 1, and says what is to be said of it. The lines before
/// it are checked: if one of them has a fault, the call answers it as a check does. `NoSuchLine` means that the number
/// is below 2, or that the text has fewer lines. What each reason says stands at [`LineReason`].
pub fn explain<R: BufRead>(
    alloc: Global,
    reader: &mut R,
    number: usize,
) -> Result<Explained, AuditError>
    ensures ok { IfOk result (IsExplained (R.remaining reader.old) number) }
    ensures err { IfErr result (IsAuditedAs (R.remaining reader.old)) }
{
    if number < 2 {
        return Err(AuditError::NoSuchLine);
    }
    let (mut checker, mut pending) = match begin(alloc, reader) {
        Ok(begun) => begun,
        Err(error) => return Err(error),
    };
    let mut recent = Vec::new(alloc);
    for _ in 2..number {
        if let Err(error) = take_line(alloc, reader, &mut checker, &mut pending, &mut recent) {
            return Err(error);
        }
    }
    read_next(reader, &mut pending)?;
    // The checker has counted the lines too.
    if checker.report().steps != number - 2 {
        return Err(AuditError::NoSuchLine);
    }
    let split = without_end(&pending);
    explain_line(alloc, checker, split.0, split.1, recent)
}

/// The first line of the text, with its line end if it has one.
pub fn read_first_line<R: BufRead>(alloc: Global, reader: &mut R) -> Result<Vec<u8>, AuditError>
    ensures ok { IfOk result (λ line. IsFirstLine (R.remaining reader.old) line.items) }
    ensures err { IfErr result IsNoVerdict }
{
    let mut line = Vec::new(alloc);
    read_line(reader, &mut line)?;
    Ok(line)
}
