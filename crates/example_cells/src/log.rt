//! Which transactions has a caller committed? A [`CommitLog`] keeps them, in order.
ghost use Rattle.std.specs.Prelude.{◌≡◌, List};
ghost use Rattle.std.specs.List.{AllByRecursion};
ghost use mathlib.Core.List.{IsPrefix};
ghost use Rattle.lt_words.specs.declared.event.Event.{Event};
ghost use Rattle.lt_words.specs.History.{IsLegalHistory};
ghost use Rattle.example_cells.specs.Committing.{PassesDiffer, WentInOrder};

use crate::committed::Committed;
use lt_tenure::laws::committed_are_serializable;
use lt_words::laws::{draws_stay, numbers_are_of_one_pass};
use lt_words::{Front, Name};
use std::alloc::{AllocError, Global};
use std::marker::Model;

/// The transactions that were committed through one pass, in order.
#[derive(Drop)]
pub struct CommitLog<N: Name> {
    pass: u32,
    seen: Front,
    commits: Vec<Committed<N>>,
}

impl<N: Name> Model for CommitLog<N> {
    ghost use Rattle.std.specs.Prelude.{vec_capacity};
    ghost use Rattle.example_cells.specs.Committing.{LogState, IsLog};

    ghost Value = { LogState };

    ghost view = { λ l. record {
      pass = l.pass;
      seen = l.seen.seen;
      commits = l.commits.items;
      capacity = vec_capacity l.commits;
    } };

    ghost invariant = { λ l. IsLog N.of (record {
      pass = l.pass;
      seen = l.seen.seen;
      commits = l.commits.items;
      capacity = vec_capacity l.commits;
    }) };
}

impl<N: Name> CommitLog<N> {
    ghost use Rattle.std.specs.Prelude.{◌≡◌, ◌<◌, [], ◌∷◌, ◌++◌, length, OnOk};
    ghost use mathlib.Core.List.{IsPrefix};
    ghost use Rattle.example_cells.specs.Committing.{IsLog};

    /// A log without transactions, for the pass with this number. `seen` is what the pass has seen.
    pub fn new(alloc: Global, pass: u32, seen: Front) -> CommitLog<N>
        ensures pass { result.pass ≡ pass }
        ensures seen { result.seen ≡ seen.seen }
        ensures none { result.commits ≡ [] }
    {
        CommitLog {
            pass,
            seen,
            commits: Vec::new(alloc),
        }
    }

    /// Makes room for one more transaction.
    pub fn reserve(&mut self) -> Result<(), AllocError>
        ensures room { OnOk result (length self.new.commits < self.new.capacity) }
        ensures pass { self.new.pass ≡ self.old.pass }
        ensures seen { self.new.seen ≡ self.old.seen }
        ensures commits { self.new.commits ≡ self.old.commits }
    {
        self.commits.reserve(1)
    }

    /// Adds a transaction that this pass has committed and that began after the log's latest one was done. There is room
    /// for it.
    pub fn push(&mut self, commit: Committed<N>)
        requires own { commit.pass ≡ self.old.pass }
        requires after { IsPrefix self.old.seen commit.began }
        requires room { length self.old.commits < self.old.capacity }
        ensures commits { self.new.commits ≡ self.old.commits ++ commit ∷ [] }
        ensures seen { self.new.seen ≡ commit.seen }
        ensures pass { self.new.pass ≡ self.old.pass }
    {
        commit.is_commit();
        let seen = commit.seen();
        self.commits.push_reserved(commit);
        self.seen = seen;
    }

    /// The transactions, in the order in which they were committed.
    pub fn commits(&self) -> &[Committed<N>]
        ensures { result.now ≡ self.now.commits }
    {
        &self.commits
    }

    /// Ghost call: tells the prover what a log is.
    pub fn is_log(&self)
        ensures { IsLog N.of self.now }
    {
        let _ = &self.seen;
    }
}

/// The transactions that the callers of a table committed went one after the other. These are their logs. The history is
/// legal, and has all that they have seen: such as the one that a close of the table tells.
pub fn commits_went_in_order<N: Name>(logs: &Vec<CommitLog<N>>)
    ensures { (whole : List Event) → IsLegalHistory N.of.shards whole → AllByRecursion (λ l. IsPrefix l.seen whole) logs.now.items
        → PassesDiffer logs.now.items → WentInOrder logs.now.items }
{
    committed_are_serializable();
    numbers_are_of_one_pass();
    draws_stay();
    for log in logs {
        log.is_log();
    }
}
