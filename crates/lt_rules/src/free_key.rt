//! What does a key do that has no record? Nobody has locked it, reserved it or queued there. Only an acquire changes
//! that; every other call is answered and leaves the key as it was.
ghost use Rattle.lt_rules.specs.Step.{IsAtFreeKey};

use crate::{Call, Holder, Reply};

/// What a call does at a key that has no record.
#[derive(Clone, Copy, Debug, PartialEq, Eq)]
pub enum AtFreeKey {
    /// The key answers, and stays without a record.
    Answers(Reply),
    /// This transaction takes the lock, at this timestamp.
    Takes(Holder),
}

/// What the call does at a key that has no record.
#[inline(always)]
pub fn at_free_key(call: &Call) -> AtFreeKey
    ensures { IsAtFreeKey call.now result }
{
    match *call {
        Call::Visit { .. } => AtFreeKey::Answers(Reply::Passed),
        Call::Acquire { txn, ts } => AtFreeKey::Takes(Holder { txn, ts }),
        Call::Update { .. } | Call::Finish { .. } => AtFreeKey::Answers(Reply::Other),
        Call::Leave { .. } => AtFreeKey::Answers(Reply::Absent),
        Call::Look { .. } => AtFreeKey::Answers(Reply::Nothing),
    }
}
