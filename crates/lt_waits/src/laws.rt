//! What may a caller conclude about the wait that its request is in?
//!
//! Each law is the contract of a function that does no work; `specs/Laws.antt` has the statements. To use a law, call it. Its
//! statement is then a fact in the rest of the body, and an answer in `proofs/` cites it: `c.no_wake_up_is_ever_lost.ensures`.
ghost use Rattle.lt_waits.specs.Example.{SomePollHears};
ghost use Rattle.lt_waits.specs.Laws.{LetWasToldToWait, LaterBegins, NothingToldIsOfDraws, NoWaitIsToldWithoutRequest, EnteredIsInLatestWait, LatestWaitStaysLatest, LeftIsOfDraws, NoLaterWaitIsLet, ShownIsAlwaysThrough, ShownAlwaysGoesOn, NoWakeUpIsEverLost};

use lt_rules::laws::lets_end_waits;
use lt_walk::laws::{main_theorem, no_wake_up_is_lost, shown_goes_on, shown_is_through};
use lt_words::laws::{parts_are_legal, prefixes_are_legal};

/// Who is let through had been told to wait: a visit by the same pass, with the same ticket, was answered `MustWait`, and
/// stands in the history.
pub fn let_was_told_to_wait()
    ensures { LetWasToldToWait }
{
    lets_end_waits();
    parts_are_legal();
}

// ---- how a caller comes to the premises

/// From any moment on, nothing was told yet. `lt_walk::laws::hearing_goes_on` extends this by each call, up to the
/// close.
pub fn later_begins()
    ensures { LaterBegins }
{}

/// A caller that was told nothing was told of no wait.
pub fn nothing_told_is_of_draws()
    ensures { NothingToldIsOfDraws }
{}

/// A pass without a request under way is told of no wait: not when it sees more or takes stored steps out, and by no step
/// that is not a visit.
pub fn no_wait_is_told_without_request()
    ensures { NoWaitIsToldWithoutRequest }
{}

/// A request that has entered has a greater number than each request with which its caller was told to wait.
pub fn entered_is_in_latest_wait()
    ensures { EnteredIsInLatestWait }
{}

/// Each call through a guard keeps its request in the latest wait that its caller was told of: a scan, a poll, a step that
/// is not a visit, a leave that was refused, and a call by which its pass only sees more.
pub fn latest_wait_stays_latest()
    ensures { LatestWaitStaysLatest }
{}

/// After a leave, no request with which the caller was told to wait has a number above those that were drawn in what the pass
/// has seen.
pub fn left_is_of_draws()
    ensures { LeftIsOfDraws }
{}

// ---- the conclusions, for a table that was closed, and a request in the latest wait that its caller was told of

/// No later wait of the request's pass was let through in what the pass had seen.
pub fn no_later_wait_is_let()
    ensures { NoLaterWaitIsLet }
{
    lets_end_waits();
    parts_are_legal();
    prefixes_are_legal();
    main_theorem();
}

/// If the request waited, and its pass had seen that the very wait that it was in was shown to it, its next poll answered
/// `Through`.
pub fn shown_is_always_through()
    ensures { ShownIsAlwaysThrough }
{
    no_later_wait_is_let();
    shown_is_through();
}

/// In the same situation its next scan was not refused with `StillWaiting`.
pub fn shown_always_goes_on()
    ensures { ShownAlwaysGoesOn }
{
    no_later_wait_is_let();
    shown_goes_on();
}

/// No wake-up was lost: if any reported step let through the very wait that the request was in, and the request's pass had
/// seen what was shown to the pass that made the step, the request's next poll answered `Through`.
pub fn no_wake_up_is_ever_lost()
    ensures { NoWakeUpIsEverLost }
{
    no_later_wait_is_let();
    no_wake_up_is_lost();
}

// ---- an example

/// A request that waited, and whose poll heard of its let, meets all premises of [`no_wake_up_is_ever_lost`]: so the laws speak
/// of something.
pub fn some_poll_hears()
    ensures { SomePollHears }
{}
