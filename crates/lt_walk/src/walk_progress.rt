//! Where is a request in its key list, and what does each event make of that? There is one function for each
//! definition of `specs/Machine.antt` that decides something. Read next `src/walk.rt`, which applies them to a
//! request.
ghost use Rattle.std.specs.Prelude.{◌≡◌, ◌+◌, ◌<◌, ◌≤◌, ◌^◌, false};
ghost use Rattle.lt_ids.specs.Ids.{IsNumber, IsWaitNumber};
ghost use Rattle.lt_walk.specs.Machine.{after_status, scan_start, leave_start, may_visit, met_as, passed, restarted, scan_end, polled};

use crate::scan_results::{Poll, Scan, ScanError};
use lt_ids::Ticket;

/// Whether a request waits, was let through, or is leaving.
#[derive(Clone, Copy, Debug, PartialEq, Eq, Drop)]
pub enum Mode {
    /// The request does not wait.
    Free,
    /// The request waits, and no call has seen that it was let through.
    Awaiting,
    /// The request waited, and a call has seen that it was let through.
    Let,
    /// The request met a queue that is too long for it. Only inside a scan: the scan then ends at once and leaves
    /// the request free.
    Stopped,
    /// The request is giving up its queue entries and reservations.
    Leaving,
}

/// Where a request is in its key list.
#[derive(Clone, Copy, Debug, PartialEq, Eq, Drop)]
pub struct Progress {
    /// The index of the key that comes next, or at which the request waits.
    pub index: usize,
    /// How many waits the request has begun.
    pub waits: u32,
    /// Whether the request had to wait since it was last at the list's start.
    pub waited: bool,
    pub mode: Mode,
}

/// How a scan ends when no visit comes next.
#[derive(Clone, Copy, Debug, PartialEq, Eq, Drop)]
pub(crate) struct ScanEnd {
    pub after: Progress,
    pub result: Result<Scan, ScanError>,
}

/// The progress before the first scan.
pub(crate) fn start() -> Progress
    ensures { result ≡ record { index = 0; waits = 0; waited = false; mode = Mode.Free } }
{
    Progress {
        index: 0,
        waits: 0,
        waited: false,
        mode: Mode::Free,
    }
}

/// The progress after the pass's status word was read.
pub(crate) fn after_status(number: u64, progress: Progress, word: u64) -> Progress
    requires number { IsNumber number }
    requires waits { progress.mode ≡ Mode.Awaiting → IsWaitNumber progress.waits }
    ensures { result ≡ after_status number progress word }
{
    match progress.mode {
        Mode::Awaiting => {
            let ticket = Ticket::new(number, progress.waits).unwrap();
            let mode = if word == ticket.value() {
                Mode::Let
            } else {
                Mode::Awaiting
            };
            Progress { mode, ..progress }
        }
        _ => progress,
    }
}

/// Where a scan begins, or why it is refused.
pub(crate) fn scan_start(progress: Progress) -> Result<Progress, ScanError>
    requires { progress.index < 2 ^ 63 }
    ensures { result ≡ scan_start progress }
{
    match progress.mode {
        Mode::Leaving => Err(ScanError::Leaving),
        Mode::Awaiting => Err(ScanError::StillWaiting),
        Mode::Let => Ok(Progress {
            index: progress.index + 1,
            mode: Mode::Free,
            ..progress
        }),
        Mode::Stopped => Ok(restarted(progress)),
        Mode::Free => Ok(progress),
    }
}

/// Whether a visit comes next, in a list of this length.
pub(crate) fn may_visit(keys: usize, max_waits: u32, progress: Progress) -> bool
    ensures { result ≡ may_visit keys max_waits progress }
{
    progress.mode == Mode::Free && progress.index < keys && progress.waits < max_waits
}

/// Moves on after a visit: the request has to wait, met a queue that is too long for it, or passed. Only what changes
/// is written.
pub(crate) fn met_as(progress: &mut Progress, must_wait: bool, too_long: bool)
    requires index { progress.old.index < 2 ^ 63 }
    requires waits { progress.old.waits < 2 ^ 24 }
    ensures { progress.new ≡ met_as progress.old must_wait too_long }
{
    if must_wait {
        progress.waits += 1;
        progress.waited = true;
        progress.mode = Mode::Awaiting;
    } else if too_long {
        progress.mode = Mode::Stopped;
    } else {
        passed(progress);
    }
}

/// Moves on to the next key.
pub(crate) fn passed(progress: &mut Progress)
    requires { progress.old.index < 2 ^ 63 }
    ensures { progress.new ≡ passed progress.old }
{
    progress.index += 1;
}

/// The progress back at the list's start, with nothing to wait for.
fn restarted(progress: Progress) -> Progress
    ensures { result ≡ restarted progress }
{
    Progress {
        waits: progress.waits,
        ..start()
    }
}

/// How a scan ends when no visit comes next.
pub(crate) fn scan_end(keys: usize, progress: Progress) -> ScanEnd
    ensures { result ≡ scan_end keys progress }
{
    if progress.mode == Mode::Awaiting {
        ScanEnd {
            after: progress,
            result: Ok(Scan::Waiting(progress.index)),
        }
    } else if progress.mode == Mode::Stopped {
        ScanEnd {
            after: restarted(progress),
            result: Ok(Scan::TooLong(progress.index)),
        }
    } else if progress.index < keys {
        ScanEnd {
            after: progress,
            result: Err(ScanError::WaitsOut),
        }
    } else {
        ScanEnd {
            after: restarted(progress),
            result: Ok(if progress.waited {
                Scan::Rescan
            } else {
                Scan::Proceed
            }),
        }
    }
}

/// What a poll answers.
pub(crate) fn polled(progress: Progress) -> Poll
    ensures { result ≡ polled progress }
{
    match progress.mode {
        Mode::Let => Poll::Through,
        Mode::Awaiting => Poll::Waiting,
        _ => Poll::Idle,
    }
}

/// Where a leave begins or continues.
pub(crate) fn leave_start(progress: Progress) -> Progress
    ensures { result ≡ leave_start progress }
{
    match progress.mode {
        Mode::Leaving => progress,
        _ => Progress {
            index: 0,
            mode: Mode::Leaving,
            ..progress
        },
    }
}
