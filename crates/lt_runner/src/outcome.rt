//! What does a run leave, for one pass and for all of them?
//!
//! [`Work`] is what one pass has done so far, and [`Ran`] is the outcome of the whole run. Read next: `worker.rt`,
//! which extends a `Work` line by line, and `whole.rt`, which collects them in a `Ran`.
use crate::answer::AnswerLine;
use crate::session::Session;
use lt_entry::Entry;
use lt_words::Pass;
use std::marker::Model;

/// Memory ran out.
#[derive(Clone, Copy, Debug, PartialEq, Eq)]
pub struct OutOfMemory;

/// How the lines of one pass, or of all passes, ended.
#[derive(Clone, Copy, Debug, PartialEq, Eq)]
pub enum Finish {
    /// Every line was run.
    Done,
    /// A line used up its pass's turns, or the gate ended a pass. The later lines of that pass were not run.
    TurnsOut,
}

/// What a worker did: its session, the answers of its lines in their order, and how the lines ended. It may be
/// dropped, for example when memory runs out during a run; its session is then abandoned.
pub struct Work {
    pub session: Session,
    pub answers: Vec<AnswerLine>,
    pub finish: Finish,
}

impl Drop for Work {
    fn drop(self) {
        let Work {
            session,
            answers: _,
            finish: _,
        } = self;
        session.abandon();
    }
}

impl Work {
    ghost use Rattle.std.specs.Prelude.{◌≡◌};

    /// Its session, its answers and its finish.
    pub(crate) fn into_parts(self) -> (Session, Vec<AnswerLine>, Finish)
        ensures session { result.0 ≡ self.session }
        ensures answers { result.1 ≡ self.answers }
        ensures finish { result.2 ≡ self.finish }
    {
        let Work {
            session,
            answers,
            finish,
        } = self;
        (session, answers, finish)
    }
}

/// A pass that has not executed a line yet. It may be dropped; the pass is then abandoned.
pub(crate) struct StartingPass {
    pass: Pass,
}

impl Model for StartingPass {
    ghost use Rattle.lt_words.specs.Row.{PassState};

    ghost Value = { PassState };

    ghost view = { λ s. s.pass };
}

impl Drop for StartingPass {
    fn drop(self) {
        let StartingPass { pass } = self;
        pass.abandon();
    }
}

impl StartingPass {
    ghost use Rattle.std.specs.Prelude.{◌≡◌};

    pub(crate) fn new(pass: Pass) -> StartingPass
        ensures { result ≡ pass }
    {
        StartingPass { pass }
    }

    pub(crate) fn into_pass(self) -> Pass
        ensures { result ≡ self }
    {
        let StartingPass { pass } = self;
        pass
    }
}

/// The outcome of a run.
#[derive(Drop)]
pub struct Ran {
    /// The answers of each pass, from pass 1 on, in the order of its lines.
    pub answers: Vec<Vec<AnswerLine>>,
    pub finish: Finish,
    /// The final history of each shard.
    pub histories: Vec<Vec<Entry>>,
    /// How many request numbers were drawn.
    pub draws: u64,
}

/// Why a run has no outcome.
#[derive(Clone, Copy, Debug, PartialEq, Eq)]
pub enum RunFault {
    /// Memory ran out, in a worker or outside of them.
    Memory,
    /// Internal error: the table could not be closed, because its steps do not match its passes (never seen).
    Counts,
}

impl From<OutOfMemory> for RunFault {
    ghost use Rattle.std.specs.Prelude.{◌≡◌};
    ghost use Rattle.lt_runner.specs.declared.outcome.RunFault.TheVariants.{Memory};

    ghost from_gives = { λ _ e. e ≡ Memory };

    fn from(_: OutOfMemory) -> RunFault {
        RunFault::Memory
    }
}
