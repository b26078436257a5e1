//! What does a request need of a table that many callers share? One key step, and the table's words. How a table keeps
//! two callers out of one shard, and whether a step waits for that, is its own business.
ghost use Rattle.std.specs.Prelude.{◌≡◌, IfOk, IfErr, OnErr};
ghost use Rattle.lt_rules.specs.declared.call.Call.{Call as Calls};
ghost use Rattle.lt_entry.specs.Ranges.{NamesNumber};
ghost use Rattle.lt_words.specs.Row.{Opening};
ghost use Rattle.lt_walk.specs.Reported.{ReportsCall};

use lt_ids::Key;
use lt_rules::Call;
use lt_shard::Answer;
use lt_words::{Book, Pass};

/// A table that many callers share, as a request's walk needs it.
pub trait KeySteps {
    /// Why a step is refused.
    type Refusal;

    /// The book with the table's words.
    ghost of: { Self → Opening };

    /// The step of this call may be refused so.
    ghost may_refuse: { Self → Calls → Self.Refusal → Type 0 };

    /// The table's words.
    fn book(&self) -> &Book
        ensures { result.now ≡ of self.now };

    /// Makes the call at the key, for the pass. After a refusal nothing has changed.
    fn step(&self, pass: &mut Pass, key: &Key, call: &Call) -> Result<Answer, Self::Refusal>
        requires pass { pass.old.of ≡ of self.now }
        requires number { NamesNumber call.now }
        ensures ok { IfOk result (λ a. ReportsCall pass.old pass.new key.now call.now a) }
        ensures err { OnErr result (pass.new ≡ pass.old) }
        ensures refused { IfErr result (λ e. may_refuse self.now call.now e) };
}
