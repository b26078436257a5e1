//! The gate that a run asks before each line.
ghost use Rattle.std.specs.Prelude.{IsTrue};
ghost use Rattle.lt_runner.specs.Gates.{GateAnswers};

/// Decides before each line whether the line may run, and is notified after it. The thread that runs the line makes
/// both calls.
///
/// A run executes a line only if the gate may let it run. If a pass ends early and no line used up its turns, the gate
/// may refuse the line at which it ends. `may_answer` says which answers a gate may give: exactly one before each line,
/// if its answer depends on the line alone, and possibly both, if it depends on time.
pub trait Gate {
    /// Whether the gate may give this answer before this line of this pass.
    ghost may_answer: { Self → GateAnswers };

    /// Whether the line of the pass may run. If not, the pass ends here, as if its turns were used up.
    fn before(&self, pass: u32, line: usize) -> bool
        ensures { IsTrue (may_answer self.now pass line result) };

    /// The line of the pass has its answer.
    fn after(&self, pass: u32, line: usize);
}

/// The gate that lets every line run.
#[derive(Clone, Copy, Debug)]
pub struct OpenGate;

impl Gate for OpenGate {
    ghost use Rattle.lt_runner.specs.Gates.{open_gate};

    ghost may_answer = { λ _. open_gate };

    fn before(&self, _pass: u32, _line: usize) -> bool {
        true
    }

    fn after(&self, _pass: u32, _line: usize) {}
}
