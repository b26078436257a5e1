//! After which step is the queue of a key the longest?
ghost use Rattle.std.specs.Prelude.{◌≡◌, OnOk};
ghost use Rattle.lt_trace_statistics.specs.Findings.{traced_step, queue_len, longer_queue};

use crate::summary::LongestQueue;
use lt_checker::Line;
use std::alloc::AllocError;

/// How long the longest queue is so far.
fn queue_len(longest: &Option<LongestQueue>) -> u64
    ensures { result ≡ queue_len longest.now }
{
    match longest {
        Some(longest) => longest.requests,
        None => 0,
    }
}

/// Notes the queue after the line, if it is longer.
pub(crate) fn note_queue(
    longest: &mut Option<LongestQueue>,
    line: &Line,
    queue: u64,
) -> Result<(), AllocError>
    ensures { OnOk result (longest.new ≡ longer_queue longest.old (traced_step line.now queue)) }
{
    if queue_len(longest) < queue {
        *longest = Some(LongestQueue {
            key: line.key.copy()?,
            index: line.step.index,
            requests: queue,
        });
    }
    Ok(())
}
