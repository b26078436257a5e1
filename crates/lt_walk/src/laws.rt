//! What follows from what the calls of a table tell their callers?
//!
//! Each law is the contract of a function that does no work; `specs/Laws.antt` has the statements, over the
//! definitions alone.
ghost use Rattle.lt_walk.specs.Laws.{OneKeyList, ReportedStand, ProceedHasPassedEach, ThroughGoesOn, ShownIsThrough, ShownGoesOn, NoWakeUpIsLost, NumbersOfGuardsDiffer, ReportedStandAtClose, OneHolderAtClose, ReadsPassAtClose, NoStepIsMade, LivesGoOn, EachStepIsReportedOnce, ResumedHasPassedEach, ResumedIsOneScan, RefusedPartwayGoesOn};
ghost use Rattle.lt_walk.specs.Reported.{StepIndicesRise, LetsAreLeft};
ghost use Rattle.lt_walk.specs.Taken.{RestFollowsOneReader, RestJoins, TakesJoin};
ghost use Rattle.lt_walk.specs.Theorem.{TheMainTheorem, TheTheoremSoFar, FreshHaveHeardNothing, HearingGoesOn, ThroughIsTold, CloseIsEnd, RestIsEnd};

use lt_words::laws::{lets_stay, one_holder_at_each_key, parts_are_legal, reads_pass_at_each_key};

/// The accesses of a request determine its key list.
pub fn one_key_list()
    ensures { OneKeyList }
{}

/// Each reported step is at its index in the new part of what the pass has then seen, and the pass's count at each
/// shard is higher by the number of steps there.
pub fn reported_stand()
    ensures { ReportedStand }
{}

/// A scan from the list's start that answers `Proceed` has one answer for each key, in the list's order, and each
/// is `Passed`.
pub fn proceed_has_passed_each()
    ensures { ProceedHasPassedEach }
{}

/// Any number of scans that ended because memory ran out or a history was full, the first of which began at the list's
/// start, and one more that answers `Proceed`, have together one answer for each key, in the list's order, and each is
/// `Passed`. Between two of the scans the request's pass may see more and make other steps.
pub fn resumed_has_passed_each()
    ensures { ResumedHasPassedEach }
{}

/// Such scans, and one more, are as one scan of the request: with the steps and the answers of all, and with the last
/// one's result.
pub fn resumed_is_one_scan()
    ensures { ResumedIsOneScan }
{}

/// How a caller comes to what these two laws take: each refused scan, and each call between two scans that leaves the
/// request in its place, extends what was refused before.
pub fn refused_partway_goes_on()
    ensures { RefusedPartwayGoesOn }
{}

/// After a poll that answered `Through`, a scan is not refused at once.
pub fn through_goes_on()
    ensures { ThroughGoesOn }
{}

/// If a request waits, and its pass had seen that the very wait that it is in was shown to it, its next poll
/// answers `Through`, unless a later ticket of its pass was let through.
pub fn shown_is_through()
    ensures { ShownIsThrough }
{}

/// In the same situation its next scan is not refused with `StillWaiting`.
pub fn shown_goes_on()
    ensures { ShownGoesOn }
{}

/// No wake-up is lost: if any reported step lets through the very wait that a request is in, and the request's pass
/// has seen what was shown to the pass that made the step, the request's next poll answers `Through`, unless a
/// later ticket of its pass was let through.
pub fn no_wake_up_is_lost()
    ensures { NoWakeUpIsLost }
{}

/// Two steps that a pass reports of one shard never share an index: the later step has the greater one.
pub fn indices_rise()
    ensures { StepIndicesRise }
{}

/// If a pass keeps lets for its caller, each let of its reported steps is left to be told: of each pass the latest one. So a
/// caller who takes the lets out until none is left, and wakes whom they name, forgets nobody.
pub fn lets_are_left()
    ensures { LetsAreLeft }
{}

/// Two guards do not share a number, if one legal history extends what their passes have seen, and they entered by
/// different passes or the second one's pass had then seen what the first one's had.
pub fn numbers_of_guards_differ()
    ensures { NumbersOfGuardsDiffer }
{}

/// A reported step is at its index in the histories of the close.
pub fn reported_stand_at_close()
    ensures { ReportedStandAtClose }
{}

/// Takes of a shard that follow one another give its steps without a gap, and no step twice.
pub fn takes_join()
    ensures { TakesJoin }
{}

/// The steps of a take, and then those that a close leaves of the shard, are the shard's final history from the take's
/// first index on, if what is left begins where the take ended.
pub fn rest_joins()
    ensures { RestJoins }
{}

/// If only one pass took steps out of a shard of a streamed table, what a close leaves of the shard begins where its takes
/// ended: after as many steps as it took.
pub fn rest_follows_one_reader()
    ensures { RestFollowsOneReader }
{}

/// In what a close gives, no two transactions hold a key's lock at the same point of its history.
pub fn one_holder_at_close()
    ensures { OneHolderAtClose }
{
    one_holder_at_each_key();
}

/// In what a close gives, a read passes exactly when each other holder's stamp is above the read's timestamp;
/// otherwise it has to wait.
pub fn reads_pass_at_close()
    ensures { ReadsPassAtClose }
{
    reads_pass_at_each_key();
}

/// A pass makes no step when it only sees more, nor when it takes stored steps out.
pub fn no_step_is_made()
    ensures { NoStepIsMade }
{}

/// Each call of a pass extends what the pass did.
pub fn lives_go_on()
    ensures { LivesGoOn }
{}

/// Of all steps that the passes reported since they were handed out, exactly one is at each index of each history
/// of the close.
pub fn each_step_is_reported_once()
    ensures { EachStepIsReportedOnce }
{}

/// The main theorem. In every schedule: each key step that a call reports is in one legal history of all steps: with its
/// reply, once, and after everything that its caller had seen; a request that is read as let through was let through in
/// that history; no key ever has two holders; a reader passes another transaction's lock only below the lock's timestamp.
pub fn main_theorem()
    ensures { TheMainTheorem }
{
    one_holder_at_each_key();
    reads_pass_at_each_key();
    lets_stay();
}

/// The same of what callers have been told so far, while the table is open.
pub fn theorem_so_far()
    ensures { TheTheoremSoFar }
{
    one_holder_at_each_key();
    reads_pass_at_each_key();
    lets_stay();
    parts_are_legal();
}

/// The passes that `open` or `open_waking` hands out have different numbers, and their callers have been told nothing.
pub fn fresh_have_heard_nothing()
    ensures { FreshHaveHeardNothing }
{}

/// Each call of a pass extends what its caller was told.
pub fn hearing_goes_on()
    ensures { HearingGoesOn }
{}

/// A poll or a wait that answered `Through`, and a scan that went on after a let, tell their caller that its request was
/// let through: no further call is needed to add that to what the caller was told.
pub fn through_is_told()
    ensures { ThroughIsTold }
{}

/// `close` tells an end of which the main theorem speaks.
pub fn close_is_end()
    ensures { CloseIsEnd }
{}

/// So does `close_rest`.
pub fn rest_is_end()
    ensures { RestIsEnd }
{}
