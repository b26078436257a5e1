//! Is a text that can be read at any offset the text of legal histories?
//!
//! [`check_pieces`] cuts the text by a plan and checks some pieces at a time, each on a thread of its own. It joins
//! their checks in the order of the text. If a piece is refused, cannot be read, or does not follow, then everything
//! from its beginning on is checked again in turn. So the first fault is the one that
//! [`check_stream`](crate::check_stream) finds. Read next: `specs/Parallel.antt`, `cuts.rt`, and `stream.rt` for the
//! check in turn.
ghost use Rattle.std.specs.Prelude.{◌≡◌, ◌+◌, ◌-◌, ◌<◌, ◌≤◌, [], true, All, Option, List, ℕ, IfOk, IfErr, IfSome, Ok};
ghost use Rattle.lt_checker.specs.Version.{IsVersion};
ghost use Rattle.lt_trace_check.specs.Audit.{IsAudited, IsAuditedAs, IsNoVerdict};
ghost use Rattle.lt_trace_check.specs.Parallel.{TakesAll, KeepsPrefix, IsCheckedPrefix, IsCheckedPiece};

use crate::chunks::{CHUNK, chunk_buffer, read_chunk, take_after};
use crate::cuts::{CutPlan, cuts_from};
use crate::error::AuditError;
use crate::progress::CheckProgress;
use crate::stream::{HEADER, check_rest, check_stream_with};
use crate::text_at::{TextAt, TextReader};
use lt_checker::{CheckError, Checker, Report};
use std::alloc::{AllocError, Global};
use std::io::{BufReader, Read};
use std::thread::{Threads, map_indices};

/// A piece of a text, checked by itself.
#[derive(Drop)]
pub(crate) struct CheckedPiece {
    /// The offset of its first line.
    pub from: u64,
    /// The offset after its last line.
    pub to: u64,
    pub checker: Checker,
}

/// What comes before an offset of a text, checked.
#[derive(Drop)]
pub(crate) struct CheckedPrefix {
    /// The version of the text.
    pub version: u8,
    /// The offset after the last line that was checked.
    pub to: u64,
    pub checker: Checker,
}

/// Gives all lines of the reader to the checker, in chunks. False if a line is refused, the last line has no end, a read
/// fails, or memory runs out.
fn takes_chunks<R: Read>(
    alloc: Global,
    reader: &mut R,
    checker: &mut Checker,
    pending: &mut Vec<u8>,
    chunk: &mut Vec<u8>,
) -> bool
    requires none { pending.old.items ≡ [] }
    ensures all { result ≡ true → TakesAll (R.remaining reader.old) checker.old checker.new }
{
    for _ in 0..u64::MAX {
        let Ok(n) = read_chunk(reader, chunk, pending) else {
            return false;
        };
        if n == 0 {
            return pending.is_empty();
        }
        let Ok(()) = take_after(alloc, checker, pending, &chunk[..n]) else {
            return false;
        };
    }
    false
}

/// The checker after all lines of the reader. `None` if a line is refused, the last line has no end, a read fails, or
/// memory runs out.
fn take_all<R: Read>(alloc: Global, reader: &mut R, checker: Checker) -> Option<Checker>
    ensures { IfSome result (TakesAll (R.remaining reader.old) checker) }
{
    let mut checker = checker;
    let mut pending = Vec::new(alloc);
    let mut chunk = chunk_buffer(alloc).ok()?;
    if takes_chunks(alloc, reader, &mut checker, &mut pending, &mut chunk) {
        Some(checker)
    } else {
        None
    }
}

/// Checks the piece between these offsets of a text of this version. `None` if a line is refused, the last line has no
/// end, a read fails, or memory runs out.
fn check_piece<T: TextAt>(
    alloc: Global,
    text: &T,
    version: u8,
    from: u64,
    to: u64,
) -> Option<CheckedPiece>
    requires { IsVersion version }
    ensures { IfSome result (IsCheckedPiece (T.contents text.now) version) }
{
    if to < from {
        return None;
    }
    let mut reader = TextReader { text, at: from }.take(to - from);
    let checker = take_all(alloc, &mut reader, Checker::new(version))?;
    Some(CheckedPiece { from, to, checker })
}

/// Checks the piece between two neighboring cuts, which has this number counted from the end.
fn check_from_end<T: TextAt>(
    alloc: Global,
    text: &T,
    version: u8,
    cuts: &[u64],
    number: usize,
) -> Option<CheckedPiece>
    requires { IsVersion version }
    ensures { IfSome result (IsCheckedPiece (T.contents text.now) version) }
{
    let last = cuts.len().checked_sub(1)?.checked_sub(number)?;
    let from = *cuts.get(last.checked_sub(1)?)?;
    let to = *cuts.get(last)?;
    check_piece(alloc, text, version, from, to)
}

/// Checks the pieces between these cuts, each on a thread of its own. The last piece comes first.
fn check_all<T: TextAt + Sync, H: Threads + Sync>(
    threads: &H,
    alloc: Global,
    text: &T,
    version: u8,
    cuts: &[u64],
) -> Result<Vec<Option<CheckedPiece>>, AllocError>
    requires { IsVersion version }
    ensures { IfOk result
        (λ pieces. All (λ p. IfSome p (IsCheckedPiece (T.contents text.now) version)) pieces.items) }
{
    let check = move |number: usize| -> Option<CheckedPiece>
        requires { IsVersion version }
        ensures { IfSome result (IsCheckedPiece (T.contents text.entry.now) version) }
    { check_from_end(alloc, text, version, cuts, number) };
    map_indices(threads, alloc, cuts.len().saturating_sub(1), &check)
}

/// The prefix with the piece, if the piece begins where the prefix ends and its first key follows. Otherwise the prefix
/// alone.
fn joined(prefix: CheckedPrefix, piece: CheckedPiece) -> CheckedPrefix
    ensures { (known : Option (List ℕ)) → (version : ℕ) → IsCheckedPiece known version piece
        → KeepsPrefix known prefix result }
{
    let CheckedPrefix {
        version,
        to,
        checker,
    } = prefix;
    if to != piece.from {
        return CheckedPrefix {
            version,
            to,
            checker,
        };
    }
    match checker.joined(piece.checker) {
        Ok(checker) => CheckedPrefix {
            version,
            to: piece.to,
            checker,
        },
        Err(checker) => CheckedPrefix {
            version,
            to,
            checker,
        },
    }
}

/// The prefix with these pieces, of which the last one comes first. It ends before the first piece that is missing.
fn all_joined(prefix: CheckedPrefix, pieces: Vec<Option<CheckedPiece>>) -> CheckedPrefix
    ensures { (known : Option (List ℕ)) → (version : ℕ)
        → All (λ p. IfSome p (IsCheckedPiece known version)) pieces.items → KeepsPrefix known prefix result }
{
    let mut prefix = prefix;
    let mut pieces = pieces;
    while let Some(Some(piece)) = pieces.pop() {
        prefix = joined(prefix, piece);
    }
    prefix
}

/// The prefix with the pieces between these cuts, up to the first piece that does not follow.
fn extended<T: TextAt + Sync, H: Threads + Sync>(
    threads: &H,
    alloc: Global,
    text: &T,
    prefix: CheckedPrefix,
    cuts: &[u64],
) -> Result<CheckedPrefix, AllocError>
    requires { IsCheckedPrefix (T.contents text.now) prefix }
    ensures { IfOk result (IsCheckedPrefix (T.contents text.now)) }
{
    let pieces = check_all(threads, alloc, text, prefix.version, cuts)?;
    Ok(all_joined(prefix, pieces))
}

/// Reads the first line of a text. `None` if that fails.
fn begin_prefix<T: TextAt>(text: &T) -> Option<CheckedPrefix>
    ensures { IfSome result (IsCheckedPrefix (T.contents text.now)) }
{
    let mut first = [0u8; HEADER];
    let mut reader = TextReader { text, at: 0 };
    let Ok(()) = reader.read_exact(&mut first) else {
        return None;
    };
    let (checker, _) = Checker::begin(&first)?;
    Some(CheckedPrefix {
        version: checker.report().version,
        to: HEADER as u64,
        checker,
    })
}

/// Checks pieces on threads, up to the first piece that does not follow.
fn check_prefix<T: TextAt + Sync, H: Threads + Sync, P: CheckProgress>(
    threads: &H,
    alloc: Global,
    text: &T,
    plan: &CutPlan<'_>,
    prefix: CheckedPrefix,
    progress: &mut P,
) -> Result<CheckedPrefix, AuditError>
    requires { IsCheckedPrefix (T.contents text.now) prefix }
    ensures ok { IfOk result (IsCheckedPrefix (T.contents text.now)) }
    ensures err { IfErr result IsNoVerdict }
{
    let Ok(len) = text.len() else {
        return Err(AuditError::Read);
    };
    let mut prefix = prefix;
    for _ in 0..u64::MAX {
        let before = prefix.to;
        let cuts = cuts_from(alloc, text, before, len, plan)?;
        prefix = extended(threads, alloc, text, prefix, &cuts)?;
        progress.advance(prefix.to.saturating_sub(before), &prefix.checker.report());
        if prefix.to <= before || cuts.last() != Some(&prefix.to) {
            return Ok(prefix);
        }
    }
    Ok(prefix)
}

/// Checks the text after the prefix in turn.
fn check_after<T: TextAt, P: CheckProgress>(
    alloc: Global,
    text: &T,
    prefix: CheckedPrefix,
    progress: &mut P,
) -> Result<Report, AuditError>
    requires { IsCheckedPrefix (T.contents text.now) prefix }
    ensures ok { IfOk result (λ report. IsAudited (T.contents text.now) (Ok report)) }
    ensures err { IfErr result (IsAuditedAs (T.contents text.now)) }
{
    let mut reader = TextReader {
        text,
        at: prefix.to,
    };
    check_rest(
        alloc,
        &mut reader,
        prefix.checker,
        Vec::new(alloc),
        progress,
    )
}

/// Checks the whole text in turn.
fn check_in_turn<T: TextAt, P: CheckProgress>(
    alloc: Global,
    text: &T,
    progress: &mut P,
) -> Result<Report, AuditError>
    ensures ok { IfOk result (λ report. IsAudited (T.contents text.now) (Ok report)) }
    ensures err { IfErr result (IsAuditedAs (T.contents text.now)) }
{
    match BufReader::with_capacity(alloc, CHUNK, TextReader { text, at: 0 }) {
        Ok(mut reader) => check_stream_with(alloc, &mut reader, progress),
        Err(_) => Err(AuditError::Check(CheckError::Memory)),
    }
}

/// Checks a text of any length in the pieces of this plan, each on a thread of its own, and stops at the first fault.
/// The verdict is that of [`check`](lt_checker::check) on the whole text, whatever the plan. The check holds a chunk,
/// the longest line and the record of a key for each thread, and the bytes in which it looks for cuts.
///
/// [`AuditError`] says what each error means. `TooLong` counts reads, which take at most 65,536 bytes each.
pub fn check_pieces<T: TextAt + Sync, H: Threads + Sync, P: CheckProgress>(
    threads: &H,
    alloc: Global,
    text: &T,
    plan: &CutPlan<'_>,
    progress: &mut P,
) -> Result<Report, AuditError>
    ensures ok { IfOk result (λ report. IsAudited (T.contents text.now) (Ok report)) }
    ensures err { IfErr result (IsAuditedAs (T.contents text.now)) }
{
    let Some(prefix) = begin_prefix(text) else {
        return check_in_turn(alloc, text, progress);
    };
    progress.advance(HEADER as u64, &prefix.checker.report());
    let prefix = check_prefix(threads, alloc, text, plan, prefix, progress)?;
    check_after(alloc, text, prefix, progress)
}
