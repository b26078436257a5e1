//! How does a check read a stream?
//!
//! It appends a chunk to the pending bytes and gives their whole lines to the checker. What comes after the last line
//! end stays pending. So only the line at the end of a chunk is copied, and a long line is searched for its end once.
ghost use Rattle.std.specs.Prelude.{◌≡◌, ◌≤◌, ◌<◌, IfOk, IfErr, vec_len, length};
ghost use Rattle.lt_checker.specs.Pieces.{MovesOver};
ghost use Rattle.lt_trace_check.specs.Audit.{IsLineRead, IsChunkRead, RefusesPending, IsNoVerdict};

use crate::error::AuditError;
use crate::stream::take_pending;
use lt_checker::Checker;
use std::alloc::{AllocError, Global};
use std::io::{ErrorKind, Read};

/// How many bytes one read asks for.
pub(crate) const CHUNK: usize = 1 << 16;

/// Reads once, again if a signal interrupts the read. Returns how many bytes came; 0 means the end.
fn read_once<R: Read>(reader: &mut R, chunk: &mut [u8]) -> Result<usize, AuditError>
    ensures bound { IfOk result (λ n. n ≤ length chunk.new) }
    ensures ok { IfOk result (IsChunkRead (R.remaining reader.old) (R.remaining reader.new) chunk.new) }
    ensures err { IfErr result (λ e. e ≡ AuditError.Read) }
{
    if chunk.is_empty() {
        return Err(AuditError::Read);
    }
    for _ in 0..u64::MAX {
        match reader.read(chunk) {
            Ok(n) => return Ok(n),
            Err(e) if e.kind() == ErrorKind::Interrupted => {}
            Err(_) => return Err(AuditError::Read),
        }
    }
    Err(AuditError::Read)
}

/// Appends a chunk to these bytes. Returns how many came; 0 means the end.
pub(crate) fn read_chunk<R: Read>(
    reader: &mut R,
    chunk: &mut Vec<u8>,
    pending: &mut Vec<u8>,
) -> Result<usize, AuditError>
    ensures bound { IfOk result (λ n. n ≤ vec_len chunk.new) }
    ensures ok { IfOk result
        (IsLineRead (R.remaining reader.old) (R.remaining reader.new) pending.old.items pending.new.items) }
    ensures err { IfErr result IsNoVerdict }
{
    let n = read_once(reader, chunk)?;
    pending.extend_from_slice(&chunk[..n])?;
    Ok(n)
}

/// Gives the whole lines of these bytes to the checker if a line end is among the latest ones, and keeps the rest.
pub(crate) fn take_after(
    alloc: Global,
    checker: &mut Checker,
    pending: &mut Vec<u8>,
    latest: &[u8],
) -> Result<(), AuditError>
    ensures ok { IfOk result (λ _. MovesOver checker.old pending.old.items checker.new pending.new.items) }
    ensures err { IfErr result (RefusesPending checker.old pending.old.items) }
{
    if !latest.contains(&b'\n') {
        return Ok(());
    }
    take_pending(alloc, checker, pending)
}

/// A buffer for chunks.
pub(crate) fn chunk_buffer(alloc: Global) -> Result<Vec<u8>, AllocError> {
    vec![in alloc; 0u8; CHUNK]
}
