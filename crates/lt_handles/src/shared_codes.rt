//! What does a call on a shared table answer, beside the codes of `codes.rt`? `specs/SharedCodes.antt` has the same numbers as
//! definitions, for the contracts.
ghost use Rattle.std.specs.Prelude.{◌≡◌, ◌≢◌, ◌<◌, ◌⊎◌};
ghost use Rattle.lt_handles.specs.SharedCodes.{prepare_code, try_code, close_code, enter_code, scan_code, scan_index, poll_code};

use crate::codes::{CLOSED, DONE, FIRST_REPLY, MEMORY};
use lt_try::{CloseError, EnterError, Poll, PrepareError, Scan, ScanError, TryError};

/// Another caller is in the shard. The step was not made: call again.
pub const BUSY: u32 = 12;

/// The shard has stored as many steps as it may.
pub const HISTORY_FULL: u32 = 13;

/// The table has given all of its passes out.
pub const NO_PASS: u32 = 14;

/// The shard is not the one of its table. No table that was opened answers this.
pub const LOST: u32 = 15;

/// The table has 1 to 64 shards.
pub const BAD_SHARDS: u32 = 22;

/// The table has 1 to 1024 passes.
pub const BAD_PASSES: u32 = 23;

/// The number of steps that a shard may store is out of its range.
pub const BAD_STEPS: u32 = 24;

/// The table takes 1 to 2^40 - 1 requests.
pub const BAD_REQUESTS: u32 = 25;

/// A request begins 1 to 2^24 - 1 waits.
pub const BAD_WAITS: u32 = 26;

/// The table has no shard with this index.
pub const BAD_SHARD: u32 = 27;

/// The request names no key.
pub const NO_KEYS: u32 = 28;

/// The request names more than 256 keys.
pub const TOO_MANY_KEYS: u32 = 29;

/// As many requests entered as may.
pub const NUMBERS_OUT: u32 = 30;

/// The request has no key with this index.
pub const BAD_INDEX: u32 = 31;

/// A scan: no conflict. The request holds its place at each of its keys.
pub const PROCEED: u32 = 64;

/// A scan: the request waited on the way, so it scans once more.
pub const RESCAN: u32 = 65;

/// A scan or a poll: the request has to wait.
pub const WAITING: u32 = 66;

/// A scan: there are as many writers as the request's bound.
pub const QUEUE_TOO_LONG: u32 = 67;

/// A scan: the request is leaving.
pub const LEAVING: u32 = 68;

/// A scan: the request was not let through.
pub const STILL_WAITING: u32 = 69;

/// A scan: the request has begun as many waits as it may.
pub const WAITS_OUT: u32 = 70;

/// A poll: the request was let through.
pub const LET_THROUGH: u32 = 71;

/// A poll: the request does not wait.
pub const NOT_WAITING: u32 = 72;

/// No let is left of which nobody was told.
pub const NO_LET: u32 = 73;

/// This is no way to keep steps.
pub const BAD_KEEPING: u32 = 74;

/// The table keeps its steps until it is closed, so none can be taken.
pub const KEPT_WHOLE: u32 = 75;

/// Passes are out: the table is ended once all have come back.
pub const PASSES_OUT: u32 = 76;

/// The steps of a shard are not those that the passes count. No table that was opened answers this.
pub const MISCOUNT: u32 = 77;

/// The code of a number that is out of its range.
pub fn prepare_code(error: PrepareError) -> u32
    ensures { result ≡ prepare_code error }
{
    match error {
        PrepareError::Shards => BAD_SHARDS,
        PrepareError::Passes => BAD_PASSES,
        PrepareError::Steps => BAD_STEPS,
        PrepareError::Requests => BAD_REQUESTS,
        PrepareError::Waits => BAD_WAITS,
        PrepareError::Memory => MEMORY,
    }
}

/// The code of a step that was refused.
pub fn try_code(error: TryError) -> u32
    ensures code { result ≡ try_code error }
    ensures opened { result ≢ CLOSED }
    ensures refused { result ≢ DONE }
    ensures below { result < FIRST_REPLY }
    ensures tried { (result ≡ MEMORY) ⊎ ((result ≡ BUSY) ⊎ ((result ≡ HISTORY_FULL) ⊎ (result ≡ LOST))) }
    ensures full { result ≡ HISTORY_FULL → error ≡ TryError.HistoryFull }
    ensures memory { result ≡ MEMORY → error ≡ TryError.Memory }
{
    match error {
        TryError::HistoryFull => HISTORY_FULL,
        TryError::Memory => MEMORY,
        TryError::Busy => BUSY,
        TryError::Lost => LOST,
    }
}

/// The code of a table that was not ended.
pub fn close_code(error: CloseError) -> u32
    ensures { result ≡ close_code error }
{
    match error {
        CloseError::PassesOut(_) => PASSES_OUT,
        CloseError::Memory => MEMORY,
        CloseError::Counts(_) => MISCOUNT,
    }
}

/// The code of a request that did not enter.
pub fn enter_code(error: EnterError) -> u32
    ensures code { result ≡ enter_code error }
    ensures opened { result ≢ CLOSED }
{
    match error {
        EnterError::NoKeys => NO_KEYS,
        EnterError::TooManyKeys => TOO_MANY_KEYS,
        EnterError::Memory => MEMORY,
        EnterError::NumbersOut => NUMBERS_OUT,
    }
}

/// The code of what a scan answers.
pub fn scan_code(found: &Result<Result<Scan, ScanError>, TryError>) -> u32
    ensures code { result ≡ scan_code found.now }
    ensures opened { result ≢ CLOSED }
{
    match found {
        Ok(Ok(Scan::Proceed)) => PROCEED,
        Ok(Ok(Scan::Rescan)) => RESCAN,
        Ok(Ok(Scan::Waiting(_))) => WAITING,
        Ok(Ok(Scan::TooLong(_))) => QUEUE_TOO_LONG,
        Ok(Err(ScanError::Leaving)) => LEAVING,
        Ok(Err(ScanError::StillWaiting)) => STILL_WAITING,
        Ok(Err(ScanError::WaitsOut)) => WAITS_OUT,
        Ok(Err(ScanError::HistoryFull)) => HISTORY_FULL,
        Ok(Err(ScanError::Memory)) => MEMORY,
        Err(error) => try_code(*error),
    }
}

/// The index of the key at which a scan ended, or 0.
pub fn scan_index(found: &Result<Result<Scan, ScanError>, TryError>) -> usize
    ensures { result ≡ scan_index found.now }
{
    match found {
        Ok(Ok(Scan::Waiting(index))) => *index,
        Ok(Ok(Scan::TooLong(index))) => *index,
        _ => 0,
    }
}

/// The code of what a poll finds.
pub fn poll_code(found: Poll) -> u32
    ensures code { result ≡ poll_code found }
    ensures opened { result ≢ CLOSED }
{
    match found {
        Poll::Through => LET_THROUGH,
        Poll::Waiting => WAITING,
        Poll::Idle => NOT_WAITING,
    }
}
