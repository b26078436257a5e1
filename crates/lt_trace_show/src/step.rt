//! What is shown? Steps of one key, each with the key's state after it.
ghost use Rattle.std.specs.Prelude.{◌≡◌, ◌↔◌, IsTrue};

use lt_ids::Ticket;
use lt_rules::{Call, KeyState, QueuedRequest, QueuedWriter, Reply};

/// A step of a key.
#[derive(Drop)]
pub struct ShownStep {
    /// The step's index among the steps of its key, from 1. It is the number that the table and the picture show.
    pub index: u64,
    /// The pass that made the call.
    pub pass: u32,
    pub call: Call,
    pub reply: Reply,
    /// The tickets of the waits that the step ended, in order.
    pub tickets: Vec<Ticket>,
    /// The state of the key after the step.
    pub state: KeyState,
}

/// Whether the readers are the same.
fn are_same_readers(before: &[QueuedRequest], after: &[QueuedRequest]) -> bool
    ensures { IsTrue result ↔ (before.now ≡ after.now) }
{
    before == after
}

/// Whether the writers are the same.
fn are_same_writers(before: &[QueuedWriter], after: &[QueuedWriter]) -> bool
    ensures { IsTrue result ↔ (before.now ≡ after.now) }
{
    before == after
}

/// Whether both states of a key are the same: a step between them has changed nothing.
pub(crate) fn are_equal(before: &KeyState, after: &KeyState) -> bool
    ensures { IsTrue result ↔ (before.now ≡ after.now) }
{
    before.holder == after.holder
        && before.reservation == after.reservation
        && before.distinguished == after.distinguished
        && are_same_writers(&before.writers, &after.writers)
        && are_same_readers(&before.readers, &after.readers)
}
