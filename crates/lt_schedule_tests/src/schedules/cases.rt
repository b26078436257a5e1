//! Do the random schedules meet every kind of answer?
//! [`ScheduleCase`] lists the kinds. They are counted while a schedule is made, and the test fails if one of them
//! never occurred. Read next `schedule`, which makes the schedules.
use crate::schedules::standing::{ExpectedAnswer, Standing};
use crate::schedules::steps::{AskedCall, PlainStep};
use lt_rules::Reply;
use lt_table::{EnterError, Poll, Scan, ScanError, StepError};
use lt_test_kit::command::{CallOutcome, TableCommand};
use lt_test_kit::play::PlayedCommand;

/// A kind of answer, or another event that the schedules must meet.
#[derive(Clone, Copy, Debug, PartialEq, Eq)]
pub enum ScheduleCase {
    Entered,
    NoKeys,
    NumbersOut,
    Proceed,
    Rescan,
    WaitingAtTheFirstKey,
    WaitingAtALaterKey,
    TooLongAtTheFirstKey,
    TooLongAtALaterKey,
    TooLongAfterALet,
    ScanWhileLeaving,
    ScanWhileWaiting,
    WaitsOut,
    WaitsOutAfterALet,
    FullAtTheFirstVisit,
    FullAtALaterVisit,
    PollThrough,
    PollWaiting,
    PollIdle,
    CallByAPass,
    CallByARequest,
    Look,
    FullAtACallByAPass,
    FullAtACallByARequest,
    FullAtALook,
    Left,
    FullAtTheFirstLeaveStep,
    FullAtALaterLeaveStep,
    FullAgainAtALeave,
    NoCall,
    ALet,
    ScanOfSeveralKeysGoesOnAfterALet,
    WriteWithoutATransactionPasses,
    WriteWithoutATransactionWaits,
    RepliedPassed,
    RepliedMustWait,
    RepliedTooLong,
    RepliedTaken,
    RepliedKept,
    RepliedRaised,
    RepliedOther,
    RepliedFreed,
    RepliedLeft,
    RepliedAbsent,
    RepliedNothing,
    RepliedReserved,
    RepliedIdle,
    RepliedWaitForAHolder,
    RepliedWaitForAReservation,
    RepliedWaitFirstForAHolder,
    RepliedWaitFirstForAReservation,
    RepliedWaitOwn,
    AskedEmpty,
    AskedHeld,
    AskedReserved,
    AskedWriters,
    AskedIdleWriter,
    AskedReaders,
    AskedDistinguished,
    AskedForNoKeys,
    AskedForKeys,
}

/// All cases.
pub const CASES: [ScheduleCase; 61] = [
    ScheduleCase::Entered,
    ScheduleCase::NoKeys,
    ScheduleCase::NumbersOut,
    ScheduleCase::Proceed,
    ScheduleCase::Rescan,
    ScheduleCase::WaitingAtTheFirstKey,
    ScheduleCase::WaitingAtALaterKey,
    ScheduleCase::TooLongAtTheFirstKey,
    ScheduleCase::TooLongAtALaterKey,
    ScheduleCase::TooLongAfterALet,
    ScheduleCase::ScanWhileLeaving,
    ScheduleCase::ScanWhileWaiting,
    ScheduleCase::WaitsOut,
    ScheduleCase::WaitsOutAfterALet,
    ScheduleCase::FullAtTheFirstVisit,
    ScheduleCase::FullAtALaterVisit,
    ScheduleCase::PollThrough,
    ScheduleCase::PollWaiting,
    ScheduleCase::PollIdle,
    ScheduleCase::CallByAPass,
    ScheduleCase::CallByARequest,
    ScheduleCase::Look,
    ScheduleCase::FullAtACallByAPass,
    ScheduleCase::FullAtACallByARequest,
    ScheduleCase::FullAtALook,
    ScheduleCase::Left,
    ScheduleCase::FullAtTheFirstLeaveStep,
    ScheduleCase::FullAtALaterLeaveStep,
    ScheduleCase::FullAgainAtALeave,
    ScheduleCase::NoCall,
    ScheduleCase::ALet,
    ScheduleCase::ScanOfSeveralKeysGoesOnAfterALet,
    ScheduleCase::WriteWithoutATransactionPasses,
    ScheduleCase::WriteWithoutATransactionWaits,
    ScheduleCase::RepliedPassed,
    ScheduleCase::RepliedMustWait,
    ScheduleCase::RepliedTooLong,
    ScheduleCase::RepliedTaken,
    ScheduleCase::RepliedKept,
    ScheduleCase::RepliedRaised,
    ScheduleCase::RepliedOther,
    ScheduleCase::RepliedFreed,
    ScheduleCase::RepliedLeft,
    ScheduleCase::RepliedAbsent,
    ScheduleCase::RepliedNothing,
    ScheduleCase::RepliedReserved,
    ScheduleCase::RepliedIdle,
    ScheduleCase::RepliedWaitForAHolder,
    ScheduleCase::RepliedWaitForAReservation,
    ScheduleCase::RepliedWaitFirstForAHolder,
    ScheduleCase::RepliedWaitFirstForAReservation,
    ScheduleCase::RepliedWaitOwn,
    ScheduleCase::AskedEmpty,
    ScheduleCase::AskedHeld,
    ScheduleCase::AskedReserved,
    ScheduleCase::AskedWriters,
    ScheduleCase::AskedIdleWriter,
    ScheduleCase::AskedReaders,
    ScheduleCase::AskedDistinguished,
    ScheduleCase::AskedForNoKeys,
    ScheduleCase::AskedForKeys,
];

/// How often each case occurred.
#[derive(Drop)]
pub struct ScheduleCaseCounts {
    counts: [u64; 61],
}

/// The state of a pass and its request before a command.
#[derive(Clone, Copy)]
pub struct Before {
    /// The pass had a request.
    pub is_open: bool,
    /// Its request was let through and has another key to visit.
    pub goes_on: bool,
    /// Its request had begun to leave.
    pub is_leaving: bool,
}

impl ScheduleCaseCounts {
    pub fn new() -> Self {
        ScheduleCaseCounts { counts: [0; 61] }
    }

    pub fn add(&mut self, case: ScheduleCase) {
        if let Some(count) = self.counts.get_mut(case as usize) {
            *count = count.wrapping_add(1);
        }
    }

    /// A case that never occurred, if any.
    pub fn missing(&self) -> Option<ScheduleCase> {
        for case in &CASES {
            if self.counts.get(*case as usize) == Some(&0) {
                return Some(*case);
            }
        }
        None
    }

    /// Counts the outcome of a command.
    pub fn add_line(&mut self, before: Before, command: &TableCommand, line: &PlayedCommand) {
        let has_steps = !line.replies.is_empty();
        if let Some(case) = outcome_case(before, command, line.outcome, has_steps) {
            self.add(case);
        }
        if before.goes_on && matches!(line.outcome, CallOutcome::Scanned(_)) {
            self.add(ScheduleCase::ScanOfSeveralKeysGoesOnAfterALet);
        }
        if before.goes_on && matches!(line.outcome, CallOutcome::Scanned(Scan::TooLong(_))) {
            self.add(ScheduleCase::TooLongAfterALet);
        }
    }

    /// Counts the case if `is_so`.
    fn add_if(&mut self, case: ScheduleCase, is_so: bool) {
        if is_so {
            self.add(case);
        }
    }

    /// Counts the expected answer to a question.
    pub fn add_wanted(&mut self, wanted: &ExpectedAnswer) {
        match wanted {
            ExpectedAnswer::State(standing) => self.add_standing(standing),
            ExpectedAnswer::Keys(keys) => {
                self.add_if(ScheduleCase::AskedForNoKeys, keys.is_empty());
                self.add_if(ScheduleCase::AskedForKeys, keys.len() > 1);
            }
        }
    }

    /// Counts what the expected state of a key shows.
    fn add_standing(&mut self, standing: &Standing) {
        let is_held = standing.holder.is_some();
        let is_reserved = standing.reserved.is_some();
        let has_idle = standing.writers.iter().any(|writer| !writer.active);
        self.add_if(ScheduleCase::AskedEmpty, !is_held && !is_reserved);
        self.add_if(ScheduleCase::AskedHeld, is_held);
        self.add_if(ScheduleCase::AskedReserved, is_reserved);
        self.add_if(ScheduleCase::AskedWriters, standing.writers.len() > 1);
        self.add_if(ScheduleCase::AskedIdleWriter, has_idle);
        self.add_if(ScheduleCase::AskedReaders, standing.readers.len() > 1);
        self.add_if(
            ScheduleCase::AskedDistinguished,
            standing.distinguished.is_some(),
        );
    }

    /// Counts what a step shows.
    pub fn add_step(&mut self, step: &PlainStep) {
        self.add(reply_case(step.reply));
        if let Some(case) = owner_case(step) {
            self.add(case);
        }
        if !step.lets.is_empty() {
            self.add(ScheduleCase::ALet);
        }
    }
}

fn scan_case(scan: Scan) -> ScheduleCase {
    match scan {
        Scan::Proceed => ScheduleCase::Proceed,
        Scan::Rescan => ScheduleCase::Rescan,
        Scan::Waiting(0) => ScheduleCase::WaitingAtTheFirstKey,
        Scan::Waiting(_) => ScheduleCase::WaitingAtALaterKey,
        Scan::TooLong(0) => ScheduleCase::TooLongAtTheFirstKey,
        Scan::TooLong(_) => ScheduleCase::TooLongAtALaterKey,
    }
}

/// The case of a write by a request without a transaction.
fn owner_case(step: &PlainStep) -> Option<ScheduleCase> {
    match step.asked {
        AskedCall::Visit {
            txn: None,
            is_write: true,
            ..
        } => match step.reply {
            Reply::Passed => Some(ScheduleCase::WriteWithoutATransactionPasses),
            Reply::MustWait => Some(ScheduleCase::WriteWithoutATransactionWaits),
            _ => None,
        },
        _ => None,
    }
}

fn refused_scan_case(before: Before, error: ScanError, has_steps: bool) -> Option<ScheduleCase> {
    match error {
        ScanError::Leaving => Some(ScheduleCase::ScanWhileLeaving),
        ScanError::StillWaiting => Some(ScheduleCase::ScanWhileWaiting),
        ScanError::WaitsOut if before.goes_on => Some(ScheduleCase::WaitsOutAfterALet),
        ScanError::WaitsOut => Some(ScheduleCase::WaitsOut),
        ScanError::HistoryFull if has_steps => Some(ScheduleCase::FullAtALaterVisit),
        ScanError::HistoryFull => Some(ScheduleCase::FullAtTheFirstVisit),
        ScanError::Memory => None,
    }
}

fn call_case(before: Before, command: &TableCommand, is_full: bool) -> ScheduleCase {
    match (command, before.is_open, is_full) {
        (TableCommand::Look { .. }, _, false) => ScheduleCase::Look,
        (TableCommand::Look { .. }, _, true) => ScheduleCase::FullAtALook,
        (_, false, false) => ScheduleCase::CallByAPass,
        (_, false, true) => ScheduleCase::FullAtACallByAPass,
        (_, true, false) => ScheduleCase::CallByARequest,
        (_, true, true) => ScheduleCase::FullAtACallByARequest,
    }
}

/// The case of a command's outcome. `has_steps` says whether the latest scan or leave made any steps.
fn outcome_case(
    before: Before,
    command: &TableCommand,
    outcome: CallOutcome,
    has_steps: bool,
) -> Option<ScheduleCase> {
    match outcome {
        CallOutcome::Entered(_) => Some(ScheduleCase::Entered),
        CallOutcome::NotEntered(EnterError::NoKeys) => Some(ScheduleCase::NoKeys),
        CallOutcome::NotEntered(EnterError::NumbersOut) => Some(ScheduleCase::NumbersOut),
        CallOutcome::Scanned(scan) => Some(scan_case(scan)),
        CallOutcome::NotScanned(error) => refused_scan_case(before, error, has_steps),
        CallOutcome::Polled(Poll::Through) => Some(ScheduleCase::PollThrough),
        CallOutcome::Polled(Poll::Waiting) => Some(ScheduleCase::PollWaiting),
        CallOutcome::Polled(Poll::Idle) => Some(ScheduleCase::PollIdle),
        CallOutcome::Stepped(_) => Some(call_case(before, command, false)),
        CallOutcome::NotStepped(StepError::HistoryFull) => Some(call_case(before, command, true)),
        CallOutcome::Left => Some(ScheduleCase::Left),
        CallOutcome::NotLeft(StepError::HistoryFull) if before.is_leaving => Some(
            ScheduleCase::FullAgainAtALeave,
        ),
        CallOutcome::NotLeft(StepError::HistoryFull) if has_steps => Some(
            ScheduleCase::FullAtALaterLeaveStep,
        ),
        CallOutcome::NotLeft(StepError::HistoryFull) => Some(ScheduleCase::FullAtTheFirstLeaveStep),
        CallOutcome::Nothing => Some(ScheduleCase::NoCall),
        _ => None,
    }
}

fn reply_case(reply: Reply) -> ScheduleCase {
    match reply {
        Reply::Passed => ScheduleCase::RepliedPassed,
        Reply::MustWait => ScheduleCase::RepliedMustWait,
        Reply::TooLong => ScheduleCase::RepliedTooLong,
        Reply::Taken => ScheduleCase::RepliedTaken,
        Reply::Kept => ScheduleCase::RepliedKept,
        Reply::Raised => ScheduleCase::RepliedRaised,
        Reply::Other => ScheduleCase::RepliedOther,
        Reply::Freed => ScheduleCase::RepliedFreed,
        Reply::Left => ScheduleCase::RepliedLeft,
        Reply::Absent => ScheduleCase::RepliedAbsent,
        Reply::Nothing => ScheduleCase::RepliedNothing,
        Reply::Reserved => ScheduleCase::RepliedReserved,
        Reply::Idle => ScheduleCase::RepliedIdle,
        Reply::WaitFor(_, true) => ScheduleCase::RepliedWaitForAHolder,
        Reply::WaitFor(_, false) => ScheduleCase::RepliedWaitForAReservation,
        Reply::WaitFirst(_, true) => ScheduleCase::RepliedWaitFirstForAHolder,
        Reply::WaitFirst(_, false) => ScheduleCase::RepliedWaitFirstForAReservation,
        Reply::WaitOwn(_) => ScheduleCase::RepliedWaitOwn,
    }
}
