//! What does an open handle hold? [`Content`] is a table of one thread, the check of a text that comes in pieces, what a
//! caller has of a table that threads share, or steps of such a table. A call that asks for another kind than the handle holds is answered as if the
//! handle was closed.
use crate::held::HeldTable;
use crate::held_check::HeldCheck;
use crate::held_ending::HeldEnding;
use crate::held_shared::{HeldGuard, HeldPass, HeldShared};
use lt_shard::Rest;
use lt_try::Rests;

/// What an open handle holds. The table of one thread and the check are large, so each has a box of its own: a pass that
/// enters becomes a request, and a request that has left a pass, by a move of the whole. A request scans, steps and leaves in its
/// place.
#[derive(Drop)]
pub enum Content {
    Table(Box<HeldTable>),
    Check(Box<HeldCheck>),
    Shared(HeldShared),
    Pass(HeldPass),
    Guard(HeldGuard),
    Ending(HeldEnding),
    /// What is left of a shared table that was ended.
    Ended(Rests),
    /// Steps of one shard of a shared table, in order.
    Steps(Rest),
    /// Stands here only inside a call, while what the handle holds becomes something else.
    Nothing,
}
