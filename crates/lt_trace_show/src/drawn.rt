//! What is drawn? A [`ShownRange`] has steps of one key. It keeps of each what the step changed, and not the state after
//! it: so the memory for a range does not grow by a copy of the key's queues with each step. `specs/Drawn.antt` says how
//! the steps that are kept stand for those that were given.
ghost use Rattle.std.specs.Prelude.{◌≡◌, ◌++◌, ◌∷◌, [], List, OnOk, IfOk};
ghost use Rattle.lt_trace_show.specs.declared.step.ShownStep.{ShownStep};
ghost use Rattle.lt_trace_show.specs.Drawn.{IsDrawnStep};

use crate::change::{Change, change_of};
use crate::step::{ShownStep, are_equal};
use crate::timeline::Phase;
use lt_ids::Ticket;
use lt_rules::{Call, Holder, KeyState, Reply};
use std::alloc::{AllocError, Global};

/// A step of a key, with what it changed in the key's state.
#[derive(Drop)]
pub struct DrawnStep {
    /// The step's index among the steps of its key, from 1. It is the number that the picture shows.
    pub index: u64,
    /// The pass that made the call.
    pub pass: u32,
    pub call: Call,
    pub reply: Reply,
    /// The tickets of the waits that the step ended, in order.
    pub tickets: Vec<Ticket>,
    /// Who holds the lock after the step.
    pub holder: Option<Holder>,
    /// The numbers of the requests whose phases the step may have changed, in order.
    pub changed: Vec<u64>,
    /// The phase of each of them after the step.
    pub phases: Vec<Phase>,
    /// Whether the key's state after the step is the one before it.
    pub changes_nothing: bool,
}

/// The steps of a key that a picture shows. They are given to [`ShownRange::push`] one after the other.
#[derive(Drop)]
pub struct ShownRange {
    /// The state of the key before the first of the steps.
    pub before: KeyState,
    pub steps: Vec<DrawnStep>,
    /// Whether the key has steps after these.
    pub goes_on: bool,
    /// The state after the last of the steps, if there are any.
    latest: Option<KeyState>,
}

/// The step as it is drawn, if this is the state of the key before it.
fn drawn_step(alloc: Global, before: &KeyState, step: &ShownStep) -> Result<DrawnStep, AllocError>
    ensures { IfOk result (IsDrawnStep before.now step.now) }
{
    let tickets = Vec::from_slice(alloc, &step.tickets)?;
    let Change { numbers, phases } = change_of(alloc, before, &step.state)?;
    Ok(DrawnStep {
        index: step.index,
        pass: step.pass,
        call: step.call,
        reply: step.reply,
        tickets,
        holder: step.state.holder,
        changed: numbers,
        phases,
        changes_nothing: are_equal(before, &step.state),
    })
}

impl ShownRange {
    ghost use Rattle.std.specs.Prelude.{◌≡◌, ◌++◌, ◌∷◌, [], List, OnOk};
    ghost use Rattle.lt_trace_show.specs.declared.step.ShownStep.{ShownStep};
    ghost use Rattle.lt_trace_show.specs.Range.{IsRangeOf};
    ghost use Rattle.std.specs.Option.{unwrap_or};

    /// A range without steps, if this is the state of the key before the first one.
    pub fn new(alloc: Global, before: KeyState) -> ShownRange
        ensures none { IsRangeOf [] result }
        ensures before { result.before ≡ before }
    {
        ShownRange {
            before,
            steps: Vec::new(alloc),
            goes_on: false,
            latest: None,
        }
    }

    /// The state of the key after the last step.
    fn latest(&self) -> &KeyState
        ensures { result.now ≡ unwrap_or self.now.latest self.now.before }
    {
        match &self.latest {
            Some(state) => state,
            None => &self.before,
        }
    }

    /// Appends the next step of the key. It fails only when an allocation fails, and then the range is as it was.
    pub fn push(&mut self, step: ShownStep) -> Result<(), AllocError>
        ensures { OnOk result ((shown : List ShownStep) → IsRangeOf shown self.old → IsRangeOf (shown ++ step ∷ []) self.new) }
    {
        let drawn = drawn_step(*self.steps.allocator(), self.latest(), &step)?;
        self.steps.push(drawn)?;
        let ShownStep { state, .. } = step;
        self.latest = Some(state);
        Ok(())
    }
}
