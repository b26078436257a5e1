//! What may a store conclude from the steps that took its locks and freed them?
//!
//! Each law is the contract of a function that does no work; `specs/Laws.antt` has the statements. The laws of owners
//! and tenures take any list of steps that is legal at each key, such as a shard's part of what a pass has seen
//! (`lt_words::laws::parts_are_legal`). Those after them take a history and its moments.
//!
//! To use a law, call it, as [`locked_is_held`] calls `parts_are_legal`. Its statement is then a fact in the rest of the
//! body, and an answer in `proofs/` cites it: `c.parts_are_legal.ensures`.
ghost use Rattle.lt_tenure.specs.Example.{ExampleOwners, SomeCommit};
ghost use Rattle.lt_tenure.specs.Laws.{OwnerIsHolder, TakenWasFree, FreedWasOwn, OwnerTook, OwnedSince, NextIsLegal, OwnerFollows, LastFreedFollows, LastFreedIsLast, FreeingEndsATenure, TenureLasts, FreedEndsATenure, HeldUntilFreed, TenuresNeverOverlap, LockedIsHeld, TenuresStay, LockPointsAreAnOrder, TenuresAreSerial, CommittedAreSerial, CommittedAreSerializable};

use lt_words::laws::{parts_are_legal, parts_begin, steps_stay};

// ---- the owner

/// The owner that the steps tell is the holder of the rules' record. So `inspect` shows the owner of a lock.
pub fn owner_is_holder()
    ensures { OwnerIsHolder }
{}

/// A lock that is taken had no owner: an acquire that is answered `Taken` took the lock from nobody.
pub fn taken_was_free()
    ensures { TakenWasFree }
{}

/// A lock that is freed was its transaction's own: a finish that is answered `Freed` ended nobody else's lock.
pub fn freed_was_own()
    ensures { FreedWasOwn }
{}

/// An owner took the lock, by the step that it names: the step at that index is an acquire by this transaction that was
/// answered `Taken`.
pub fn owner_took()
    ensures { OwnerTook }
{}

/// An owner has owned the lock at every point since that step.
pub fn owned_since()
    ensures { OwnedSince }
{}

// ---- step by step

/// Legal steps and one that may follow them are legal. So whoever is told of each step of a shard as it is made keeps a
/// list of which the laws above speak.
pub fn next_is_legal()
    ensures { NextIsLegal }
{}

/// One more step changes the owner as `owner_after` says, so a client can keep the owner beside the shard.
pub fn owner_follows()
    ensures { OwnerFollows }
{}

/// One more step changes the latest step that freed the lock as `freed_after` says.
pub fn last_freed_follows()
    ensures { LastFreedFollows }
{}

/// The step that `last_freed` names freed the lock, and no later one did.
pub fn last_freed_is_last()
    ensures { LastFreedIsLast }
{}

/// One more step that frees a lock ends a tenure of its transaction, which owned the lock until then.
pub fn freeing_ends_a_tenure()
    ensures { FreeingEndsATenure }
{}

/// A tenure among these steps is one among more steps.
pub fn tenure_lasts()
    ensures { TenureLasts }
{}

// ---- tenures

/// Each step that frees a lock ends a tenure of its transaction. So a store that was answered `Freed` had held the lock
/// from some step on without a break.
pub fn freed_ends_a_tenure()
    ensures { FreedEndsATenure }
{}

/// A transaction that took a lock and freed it later, and did not free it in between, held it all that time. For example,
/// if its acquire was answered `Taken` with index 2, its finish `Freed` with index 4, and step 3 is no finish by which
/// it freed the lock, then nobody else owned the lock after step 2 or after step 3.
pub fn held_until_freed()
    ensures { HeldUntilFreed }
{}

/// Two tenures of one key never overlap: one ended before the other began, or they are the same tenure of one
/// transaction.
pub fn tenures_never_overlap()
    ensures { TenuresNeverOverlap }
{}

// ---- moments

/// A lock that a transaction took before a moment of a legal history and freed after it, and did not free in between, it
/// held at that moment, without a break. So a store that noted the two indices knows that it held the lock at its lock
/// point.
pub fn locked_is_held()
    ensures { LockedIsHeld }
{
    parts_are_legal();
}

/// A tenure that was seen stands in every later history, around the same moment.
pub fn tenures_stay()
    ensures { TenuresStay }
{
    parts_begin();
    steps_stay();
}

/// Of any two moments of one history, one is a prefix of the other. So any two lock points have an order.
pub fn lock_points_are_an_order()
    ensures { LockPointsAreAnOrder }
{}

/// Of two tenures of one key that different steps began, the one around the earlier moment ended before the other began.
pub fn tenures_are_serial()
    ensures { TenuresAreSerial }
{
    parts_begin();
}

// ---- transactions

/// Transactions that each held all of their locks at one moment, listed in the order of these moments, went one after the
/// other: at every key that two of them share, the earlier one freed the lock before the later one took it. No step may
/// have taken a lock for two of them.
pub fn committed_are_serial()
    ensures { CommittedAreSerial }
{
    parts_begin();
    steps_stay();
}

/// Transactions of different names that each held all of their locks at one moment have an order in which they went one
/// after the other at every key that they share, and in which these moments rise: their locks make them serializable.
pub fn committed_are_serializable()
    ensures { CommittedAreSerializable }
{
    parts_begin();
    steps_stay();
}

// ---- an example

/// The owner of a key's lock along a history of eight steps, by hand: the definition reads the owner off as it should.
pub fn example_owners()
    ensures { ExampleOwners }
{}

/// There are such transactions as [`committed_are_serializable`] takes: in that history, which is legal, two transactions
/// hold locks at the same time, take one lock in turn, and commit.
pub fn some_commit()
    ensures { SomeCommit }
{}
