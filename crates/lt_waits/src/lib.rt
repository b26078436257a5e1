//! Does a poll ever miss a let that its pass has seen shown?
//!
//! `lt_walk::laws::no_wake_up_is_lost` says that it does not, unless a later wait of the same pass was let through.
//! This crate shows that no such wait exists. The laws are about a table that was closed: only then is it known what all
//! callers were told. So a caller concludes, after the close, that none of its polls before had missed a let. The laws say
//! nothing of a table that is still open, nor of a caller that sleeps.
//!
//! The reasons, in order:
//!
//! 1. Who is let through had been told to wait, with that ticket and as that pass: a step in what the pass has seen says so
//!    ([`laws::let_was_told_to_wait`]).
//! 2. At the close each index of a shard was told to one caller (`lt_walk::laws::main_theorem`, `once`). That step
//!    names the pass, so it was told to the caller of this pass.
//! 3. A step that a caller is told of comes after everything that its pass had seen then (`after`). So the caller was told
//!    of that step before it polled.
//! 4. No wait that a caller was told of is later than the one that its request is in
//!    ([`laws::latest_wait_stays_latest`]): numbers of requests rise with each enter, and numbers of waits with each wait of
//!    a request.
//!
//! No code here runs. A caller that uses the laws keeps one of two facts beside what it was told: `IsInLatestWait` while its
//! pass has a request under way, and `AreOfDraws` while it has none. Each call of the table keeps the fact, or turns one into
//! the other. From a poll on, the caller also keeps what it is told after that poll, which makes `HadHeard`
//! ([`laws::later_begins`]).
//!
//! Read next `specs/Waits.antt`, then `specs/Laws.antt`. `specs/Example.antt` has a request that waits, is let through and
//! polls, step by step.
#![tactic(auto)]

pub mod laws;
