//! What does a close leave of a table, and do the steps of a shard agree with the counts of the passes that came back?
//! How a table takes its shards out of their locks, and ends them, is its own business.
//!
//! Read next `IsClosed` in `specs/Closed.antt`.
ghost use Rattle.std.specs.Prelude.{◌≡◌, ◌≢◌, ◌≤◌, ◌<◌, ◌+◌, ℕ, [], true, IsTrue, IsFalse, map, length, slice_index, vec_len, vec_capacity, IfSome, IfNone};
ghost use Rattle.std.specs.List.{All, AllByRecursion};
ghost use mathlib.Core.List.{IsPrefix};
ghost use Rattle.lt_words.specs.Row.{SeesMore};
ghost use Rattle.lt_walk.specs.Closed.{tally, tallied_at, taken_at, passes_of, IsCounted};

use crate::guard::Guard;
use lt_entry::Entry;
use lt_rules::KeyTable;
use lt_shard::{Rest, Shard};
use lt_words::{Keeping, Pass};
use std::alloc::AllocError;
use thiserror::Error;

/// What is left of a table after a close.
#[derive(Drop)]
pub struct Histories {
    /// One history for each shard: all steps that were made there, in order.
    pub shards: Vec<Vec<Entry>>,
    /// How many request numbers were drawn.
    pub draws: u64,
}

/// What is left of a table after a close that accepts that steps are gone: taken out, or never stored.
#[derive(Drop)]
pub struct Rests {
    /// For each shard the steps that are left, and how many steps were made before them. Together these are all
    /// steps of the shard.
    pub shards: Vec<Rest>,
    /// How many request numbers were drawn.
    pub draws: u64,
}

/// Why a table was not closed.
#[derive(Clone, Copy, Debug, PartialEq, Eq, Drop, Error)]
pub enum CloseError {
    /// This many passes are missing.
    #[error("passes are missing: {0}")]
    PassesOut(usize),
    #[error("out of memory")]
    Memory,
    /// The shard at this index is another shard, may hold another number of steps, has made a number of steps that is
    /// not the sum of the passes' counts there, or lacks other steps than those that the passes took out. `close` also
    /// gives this error if steps of the shard are gone. No test meets it otherwise, and no contract excludes it: a contract
    /// cannot see which shard a lock guards.
    #[error("the steps of a shard are not those of the passes: {0}")]
    Counts(usize),
}

impl From<AllocError> for CloseError {
    ghost use Rattle.std.specs.Prelude.{◌≡◌};
    ghost use Rattle.lt_walk.specs.declared.closing.CloseError.TheVariants.{Memory};

    ghost from_gives = { λ _ e. e ≡ Memory };

    fn from(_: AllocError) -> CloseError {
        CloseError::Memory
    }
}

/// Gives up each of the guards.
pub fn abandon_guards(mut guards: Vec<Guard>) {
    while let Some(guard) = guards.pop() {
        guard.abandon();
    }
    guards.destroy_empty();
}

/// Which steps of the passes are counted: those that they made at a shard, or those that they took out of it.
#[derive(Clone, Copy)]
pub enum PassCount {
    Made,
    Taken,
}

/// How many of these steps the pass counts at the shard.
fn tallied(pass: &Pass, which: PassCount, index: usize) -> u64
    requires { index < pass.now.of.shards }
    ensures { result ≡ slice_index (tally which pass.now) index }
{
    match which {
        PassCount::Made => pass.count(index),
        PassCount::Taken => pass.taken(index),
    }
}

/// How many of a shard's steps are left after subtracting those that the passes count. `None` if they count more.
fn without_passes(steps: u64, which: PassCount, index: usize, passes: &[Pass]) -> Option<u64>
    requires { All (λ p. index < p.of.shards) passes.now }
    ensures some { IfSome result (λ left. left + tallied_at which index passes.now ≡ steps) }
    ensures none { IfNone result (steps < tallied_at which index passes.now) }
{
    let mut left = steps;
    for pass in passes {
        left = left.checked_sub(tallied(pass, which, index))?;
    }
    Some(left)
}

/// `without_passes` for the passes of guards.
fn without_guards(steps: u64, which: PassCount, index: usize, guards: &[Guard]) -> Option<u64>
    requires { All (λ g. index < g.pass.of.shards) guards.now }
    ensures some { IfSome result (λ left. left + tallied_at which index (map (λ g. g.pass) guards.now) ≡ steps) }
    ensures none { IfNone result (steps < tallied_at which index (map (λ g. g.pass) guards.now)) }
{
    let mut left = steps;
    for guard in guards {
        left = left.checked_sub(tallied(&guard.pass, which, index))?;
    }
    Some(left)
}

/// Whether the passes, alone or in guards, count exactly this many steps at the shard.
fn are_tallied(
    steps: u64,
    which: PassCount,
    index: usize,
    passes: &[Pass],
    guards: &[Guard],
) -> bool
    requires passes { All (λ p. index < p.of.shards) passes.now }
    requires guards { All (λ g. index < g.pass.of.shards) guards.now }
    ensures yes { IsTrue result → steps ≡ tallied_at which index (passes_of passes.now guards.now) }
    ensures no { IsFalse result → steps ≢ tallied_at which index (passes_of passes.now guards.now) }
{
    let Some(left) = without_passes(steps, which, index, passes) else {
        return false;
    };
    let Some(rest) = without_guards(left, which, index, guards) else {
        return false;
    };
    rest == 0
}

/// Whether a streamed table's shard lacks exactly the steps that the passes took out.
fn are_taken(keeping: Keeping, before: u64, index: usize, passes: &[Pass], guards: &[Guard]) -> bool
    requires passes { All (λ p. index < p.of.shards) passes.now }
    requires guards { All (λ g. index < g.pass.of.shards) guards.now }
    ensures yes { IsTrue result → keeping ≡ Keeping.Streamed → before ≡ taken_at index (passes_of passes.now guards.now) }
    ensures no { IsFalse result → (keeping ≡ Keeping.Streamed) × (before ≢ taken_at index (passes_of passes.now guards.now)) }
{
    match keeping {
        Keeping::Streamed => are_tallied(before, PassCount::Taken, index, passes, guards),
        Keeping::Whole | Keeping::Unrecorded => true,
    }
}

/// What each shard has to satisfy when its table is closed.
#[derive(Clone, Copy)]
pub struct Wanted {
    /// Whether it has to hold all of its steps.
    pub whole: bool,
    /// How many steps it may hold.
    pub max_steps: u64,
    /// How its table keeps steps.
    pub keeping: Keeping,
}

/// Whether steps are gone that have to be there.
fn is_missing(whole: bool, before: u64) -> bool
    ensures no { IsFalse result → whole ≡ true → before ≡ 0 }
    ensures yes { IsTrue result → (whole ≡ true) × (before ≢ 0) }
{
    whole && before != 0
}

/// Whether the shard has this index, made as many steps as the passes made there, and is as `wanted` says.
pub fn is_counted<T: KeyTable>(
    shard: &Shard<T>,
    index: usize,
    wanted: Wanted,
    passes: &[Pass],
    guards: &[Guard],
) -> bool
    requires passes { All (λ p. index < p.of.shards) passes.now }
    requires guards { All (λ g. index < g.pass.of.shards) guards.now }
    ensures yes { IsTrue result → IsCounted wanted (passes_of passes.now guards.now) index shard.now }
    ensures no { IsFalse result → IsCounted wanted (passes_of passes.now guards.now) index shard.now → ⊥ }
{
    if shard.index() != index {
        return false;
    }
    if shard.max_steps() != wanted.max_steps {
        return false;
    }
    if is_missing(wanted.whole, shard.before()) {
        return false;
    }
    if !are_tallied(shard.count(), PassCount::Made, index, passes, guards) {
        return false;
    }
    are_taken(wanted.keeping, shard.before(), index, passes, guards)
}

/// Lets the pass see what each of these passes had seen.
pub fn learn_all(last: &mut Pass, passes: &[Pass])
    requires { All (λ p. p.of ≡ last.old.of) passes.now }
    ensures more { SeesMore last.old last.new }
    ensures all { AllByRecursion (λ p. IsPrefix p.seen last.new.seen) passes.now }
    ensures shown { AllByRecursion (λ p. IsPrefix p.shown last.new.shown) passes.now }
{
    for pass in passes {
        last.learn(&pass.seen());
    }
}

/// The histories of shards with nothing gone. `histories` is empty and has room for them.
fn whole_histories(rests: Vec<Rest>, mut histories: Vec<Vec<Entry>>) -> Vec<Vec<Entry>>
    requires empty { histories.items ≡ [] }
    requires room { length rests.items ≤ vec_capacity histories }
    ensures { result.items ≡ map (λ t. t.entries) rests.items }
{
    for rest in rests {
        histories.push_reserved(rest.entries);
    }
    histories
}

/// The passes and then those of the guards. `passes` has room for them.
pub fn all_passes(mut passes: Vec<Pass>, guards: Vec<Guard>) -> Vec<Pass>
    requires { length passes.items + length guards.items ≤ vec_capacity passes }
    ensures { result.items ≡ passes_of passes.items guards.items }
{
    let mut rest = guards.into_iter();
    while let Some(guard) = rest.next() {
        passes.push_reserved(guard.into_pass());
    }
    rest.destroy_empty();
    passes
}

/// What is left of a closed table, and room for its histories.
#[derive(Drop)]
pub struct ClosedTable {
    pub rests: Rests,
    pub histories: Vec<Vec<Entry>>,
}

/// The histories of a table with nothing gone.
pub fn into_histories(ended: ClosedTable) -> Histories
    requires empty { ended.histories.items ≡ [] }
    requires room { length ended.rests.shards.items ≤ vec_capacity ended.histories }
    ensures shards { result.shards.items ≡ map (λ t. t.entries) ended.rests.shards.items }
    ensures draws { result.draws ≡ ended.rests.draws }
{
    let ClosedTable { rests, histories } = ended;
    let Rests { shards, draws } = rests;
    Histories {
        shards: whole_histories(shards, histories),
        draws,
    }
}
