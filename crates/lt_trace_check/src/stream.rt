//! Is the text that a reader gives the text of legal histories?
//!
//! [`check_stream`] reads in chunks and gives the whole lines of each to a checker of `lt_checker`. It stops at the
//! first fault. [`read_line`] and [`take_pending`] go line by line, as the explanation of a line does. Read next:
//! `specs/Audit.antt`, `chunks.rt`, and `lt_checker/src/pieces.rt` for the checker.
ghost use Rattle.std.specs.Prelude.{◌≡◌, ◌+◌, ◌≤◌, length, OnOk, IfOk, IfErr, Ok, Err};
ghost use Rattle.lt_checker.specs.Pieces.{TakesLines, HasBegun, LacksHeader};
ghost use Rattle.lt_trace_check.specs.Audit.{IsLineRead, StopsAtLineEnd, IsBeginning, IsReading, RefusesPending, EndsWith, EndsAs, EndsReading, EndsReadingAs, IsAudited, IsAuditedAs, IsNoVerdict};

use crate::chunks::{chunk_buffer, read_chunk, take_after};
use crate::error::AuditError;
use crate::progress::CheckProgress;
use lt_checker::{CheckError, Checker, Fault, Report};
use std::alloc::Global;
use std::io::{BufRead, ErrorKind, Read};

/// The length of the first line of a text, with its line end.
pub(crate) const HEADER: usize = 8;

/// Appends the next line to these bytes, with its line end if it has one. Returns how many bytes came; 0 means the end.
pub(crate) fn read_line<R: BufRead>(
    reader: &mut R,
    pending: &mut Vec<u8>,
) -> Result<usize, AuditError>
    ensures ok { IfOk result
        (IsLineRead (R.remaining reader.old) (R.remaining reader.new) pending.old.items pending.new.items) }
    ensures stops { OnOk result
        (StopsAtLineEnd (R.remaining reader.old) (R.remaining reader.new) pending.new.items) }
    ensures err { IfErr result IsNoVerdict }
{
    match reader.read_until(b'\n', pending) {
        Ok(n) => Ok(n),
        Err(e) if e.kind() == ErrorKind::OutOfMemory => Err(AuditError::Check(CheckError::Memory)),
        Err(_) => Err(AuditError::Read),
    }
}

/// Reads lines until a first line of a text must be among them.
fn read_beginning<R: BufRead>(alloc: Global, reader: &mut R) -> Result<Vec<u8>, AuditError>
    ensures ok { IfOk result (λ pending. IsBeginning (R.remaining reader.old) (R.remaining reader.new) pending.items) }
    ensures err { IfErr result IsNoVerdict }
{
    let mut pending = Vec::new(alloc);
    while pending.len() < HEADER {
        if read_line(reader, &mut pending)? == 0 {
            return Ok(pending);
        }
    }
    Ok(pending)
}

/// Gives the whole lines of these bytes to the checker, and keeps what comes after them.
pub(crate) fn take_pending(
    alloc: Global,
    checker: &mut Checker,
    pending: &mut Vec<u8>,
) -> Result<(), AuditError>
    ensures ok { IfOk result (λ _. TakesLines checker.old pending.old.items checker.new pending.new.items) }
    ensures err { IfErr result (RefusesPending checker.old pending.old.items) }
{
    let rest = match checker.take_lines(alloc, pending) {
        Ok(rest) => rest,
        Err(refusal) => return Err(AuditError::Check(refusal)),
    };
    let kept = Vec::from_slice(alloc, rest)?;
    *pending = kept;
    Ok(())
}

/// The verdict on a text that ends with these bytes.
fn end(alloc: Global, checker: Checker, pending: &[u8]) -> Result<Report, AuditError>
    ensures ok { IfOk result (λ report. EndsWith checker pending.now (Ok report)) }
    ensures err { IfErr result (EndsAs checker pending.now) }
{
    match checker.end(alloc, pending) {
        Ok(report) => Ok(report),
        Err(refusal) => Err(AuditError::Check(refusal)),
    }
}

/// Reads the first line of a text, and what was read with it.
pub(crate) fn begin<R: BufRead>(
    alloc: Global,
    reader: &mut R,
) -> Result<(Checker, Vec<u8>), AuditError>
    ensures ok { IfOk result
        (λ begun. IsReading (R.remaining reader.old) (R.remaining reader.new) begun.0 begun.1.items) }
    ensures err { IfErr result (IsAuditedAs (R.remaining reader.old)) }
{
    let beginning = read_beginning(alloc, reader)?;
    let Some((checker, lines)) = Checker::begin(&beginning) else {
        return Err(AuditError::Check(CheckError::Refused {
            line: 1,
            fault: Fault::Header,
        }));
    };
    let pending = Vec::from_slice(alloc, lines)?;
    Ok((checker, pending))
}

/// Checks the rest of a text in chunks, after what the checker has taken and the pending bytes.
pub(crate) fn check_rest<R: Read, P: CheckProgress>(
    alloc: Global,
    reader: &mut R,
    checker: Checker,
    pending: Vec<u8>,
    progress: &mut P,
) -> Result<Report, AuditError>
    ensures ok { IfOk result (λ report. EndsReading (R.remaining reader.old) checker pending.items (Ok report)) }
    ensures err { IfErr result (EndsReadingAs (R.remaining reader.old) checker pending.items) }
{
    let mut checker = checker;
    let mut pending = pending;
    let mut chunk = chunk_buffer(alloc)?;
    for _ in 0..u64::MAX {
        let n = read_chunk(reader, &mut chunk, &mut pending)?;
        if n == 0 {
            return end(alloc, checker, &pending);
        }
        if let Err(error) = take_after(alloc, &mut checker, &mut pending, &chunk[..n]) {
            return Err(error);
        }
        progress.advance(n as u64, &checker.report());
    }
    Err(AuditError::TooLong)
}

/// Checks the text that the reader gives, as [`check_stream`] does, and tells how far it is.
pub fn check_stream_with<R: BufRead, P: CheckProgress>(
    alloc: Global,
    reader: &mut R,
    progress: &mut P,
) -> Result<Report, AuditError>
    ensures ok { IfOk result (λ report. IsAudited (R.remaining reader.old) (Ok report)) }
    ensures err { IfErr result (IsAuditedAs (R.remaining reader.old)) }
{
    let (checker, pending) = match begin(alloc, reader) {
        Ok(begun) => begun,
        Err(error) => return Err(error),
    };
    progress.advance(
        (pending.len() as u64).saturating_add(HEADER as u64),
        &checker.report(),
    );
    check_rest(alloc, reader, checker, pending, progress)
}

/// Checks the text that the reader gives, of any length, and stops at the first fault. The verdict is that of
/// [`check`](lt_checker::check) on the whole text. It holds a chunk, the longest line and the record of one key.
///
/// [`AuditError`] says what each error means. `TooLong` counts reads, which take at most 65,536 bytes each.
pub fn check_stream<R: BufRead>(alloc: Global, reader: &mut R) -> Result<Report, AuditError>
    ensures ok { IfOk result (λ report. IsAudited (R.remaining reader.old) (Ok report)) }
    ensures err { IfErr result (IsAuditedAs (R.remaining reader.old)) }
{
    check_stream_with(alloc, reader, &mut ())
}
