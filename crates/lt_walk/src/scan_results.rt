use lt_shard::StepError;
use thiserror::Error;

/// How a scan ended.
#[derive(Clone, Copy, Debug, PartialEq, Eq, Drop)]
pub enum Scan {
    /// The request passed each key without a wait since the list's start: it may proceed.
    Proceed,
    /// The request passed each key but had to wait on the way: it must scan again from the list's start.
    Rescan,
    /// The request has to wait at the key with this index in the guard's list, from 0.
    Waiting(usize),
    /// At the key with this index in the guard's list, from 0, the writers are as many as the request's bound or
    /// more, and the request is not one of them. It is back at the start of its list. Its queue entries and
    /// reservations at other keys remain until it leaves.
    TooLong(usize),
}

/// Why a scan was refused, or ended early.
#[derive(Clone, Copy, Debug, PartialEq, Eq, Drop, Error)]
pub enum ScanError {
    /// The guard is leaving. Nothing changed.
    #[error("the request is leaving")]
    Leaving,
    /// The request waits and was not let through yet. Nothing changed.
    #[error("the request still waits")]
    StillWaiting,
    /// The request has begun as many waits as a request may. The guard stays at the key that it would visit next.
    #[error("the request has used up its waits")]
    WaitsOut,
    /// The shard of the key that the request would visit next holds as many steps as it may.
    #[error("the shard has as many steps as it may have")]
    HistoryFull,
    /// An allocation failed in the visit of the next key.
    #[error("out of memory")]
    Memory,
}

/// The error with which a refused step ends a scan.
impl From<StepError> for ScanError {
    ghost use Rattle.std.specs.Prelude.{◌≡◌};
    ghost use Rattle.lt_walk.specs.Machine.{of_step};

    ghost from_gives = { λ e r. r ≡ of_step e };

    fn from(e: StepError) -> ScanError {
        match e {
            StepError::HistoryFull => ScanError::HistoryFull,
            StepError::Memory => ScanError::Memory,
        }
    }
}

/// What a poll found.
#[derive(Clone, Copy, Debug, PartialEq, Eq, Drop)]
pub enum Poll {
    /// The request waited and was let through. Further polls give the same answer until its next scan or leave.
    Through,
    /// The request still waits.
    Waiting,
    /// The request does not wait, or is leaving.
    Idle,
}
