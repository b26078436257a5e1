//! What do the statistics of a text say? A count stops at 2^64 - 1.
use lt_ids::{Key, Ticket};

/// The counts of a text.
#[derive(Clone, Copy)]
pub struct StepCounts {
    /// How many keys have steps.
    pub keys: u64,
    pub steps: u64,
    /// How many steps have the reply `wait`.
    pub waits: u64,
    /// How many tickets the steps let through.
    pub lets: u64,
}

impl StepCounts {
    ghost use Rattle.std.specs.Prelude.{◌≡◌, ◌-◌};

    /// How many waits no step ended. In a legal text, each ticket that is let through ends one wait.
    pub fn unended(&self) -> u64
        ensures { result ≡ self.now.waits - self.now.lets }
    {
        self.waits.saturating_sub(self.lets)
    }
}

/// A key, with its steps and those of them that have the reply `wait`.
#[derive(Drop)]
pub struct HotKey {
    pub key: Key,
    pub steps: u64,
    pub waits: u64,
}

/// The longest queue of a text.
#[derive(Drop)]
pub struct LongestQueue {
    pub key: Key,
    /// The index of the step after which the queue was that long.
    pub index: u64,
    /// How many requests are in the queue.
    pub requests: u64,
}

/// A wait that a step ended.
#[derive(Drop)]
pub struct LongestWait {
    pub key: Key,
    pub ticket: Ticket,
    /// The index of the visit that was answered `wait`.
    pub from: u64,
    /// The index of the step that let the ticket through.
    pub to: u64,
}

/// What the statistics of a text say.
#[derive(Drop)]
pub struct TextSummary {
    pub counts: StepCounts,
    /// The longest queue, and of equally long ones the first. `None` if nobody is ever queued.
    pub longest_queue: Option<LongestQueue>,
    /// The longest wait that a step ended, and of equally long ones the first. `None` if no wait is ended.
    pub longest_wait: Option<LongestWait>,
    /// The keys with the most steps, at most ten: most steps first, and equal ones by key.
    pub hottest: Vec<HotKey>,
}
