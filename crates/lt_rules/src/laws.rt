//! What follows from the rules of one key, whichever table keeps its record?
//!
//! Each law is the contract of a function with an empty body. Most laws hold of every legal history of a key: a list
//! of calls with the replies and lets that the rules give. These laws read the holder of a lock and its stamp off the
//! events (`specs/Step.antt`), not off a record. Three are about one step of a record: [`passes_are_of_visits`],
//! [`step_keeps_lawful`] and [`releases_need_no_memory`]. `docs/RULES.md` states each law in words. The law that the
//! rules' first version judges old texts as the present one does is in `lt_checker::laws`.
ghost use Rattle.lt_rules.specs.Laws.{OneHolder, RecordNamesHolder, FreedBetween, ReadsPass, WritesPass, LetsEndWaits, LeastIsNext, PassesAreOfVisits, StepKeepsLawful, Lawful};
ghost use Rattle.lt_rules.specs.Memory.{ReleasesNeedNoMemory};

/// No two transactions hold a lock at the same time.
pub fn one_holder()
    ensures { OneHolder }
{}

/// The record names the holder and its stamp as the events do. So a look at a record shows who holds the lock in the
/// sense of the other laws.
pub fn record_names_holder()
    ensures { RecordNamesHolder }
{}

/// A lock that was taken is freed before it is taken again.
pub fn freed_between()
    ensures { FreedBetween }
{}

/// A read passes exactly when the stamp of every other holder is above the read's timestamp. Otherwise it has to
/// wait.
pub fn reads_pass()
    ensures { ReadsPass }
{}

/// A write passes only if no other transaction holds the lock. Unless its own transaction holds it, also no other
/// request with a smaller number may hold the reservation or be queued to write.
pub fn writes_pass()
    ensures { WritesPass }
{}

/// A request that is let through was told to wait, and its ticket was not let through since. One step lets no
/// request through twice.
pub fn lets_end_waits()
    ensures { LetsEndWaits }
{}

/// After a step that frees the lock, the writer with the smallest number among those with a transaction holds the
/// reservation; if there is none, the lock is not reserved. Every writer without a transaction whose number is below
/// the new reservation's was let through and is no longer at the key. If the lock is not reserved, this holds of every
/// writer without a transaction.
pub fn least_is_next()
    ensures { LeastIsNext }
{}

/// Every request at a key, and every let, has the pass of a visit: a visit adds no pass to a key except its own, another
/// step adds none, and a step lets through no pass except those that were at the key and, if it is a visit, its own.
pub fn passes_are_of_visits()
    ensures { PassesAreOfVisits }
{}

/// Each step keeps a record lawful.
pub fn step_keeps_lawful()
    ensures { StepKeepsLawful }
{}

/// Memory may be refused only to a visit and to an acquire of a key that has no record, where the caller's list has
/// room for a let of each request at the key. So a caller who keeps that room can always free a lock, raise it, and
/// leave a key.
pub fn releases_need_no_memory()
    ensures { ReleasesNeedNoMemory }
{}

/// The record after every prefix of a legal history is lawful.
pub fn lawful()
    ensures { Lawful }
{}
