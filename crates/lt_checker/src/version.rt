//! Can this line occur in a text of this version? Read next: `specs/Version.antt`, which defines the versions.
ghost use Rattle.std.specs.Prelude.{◌≡◌, ◌++◌, ◌∷◌, [], IfOk, IfErr};
ghost use Rattle.lt_checker.specs.Lines.{IsLine, line_text, parts_of};
ghost use Rattle.lt_checker.specs.Text.{IsOf, IsShapelessIn};
ghost use Rattle.lt_checker.specs.Version.{is_of_version};
ghost use Rattle.lt_checker.specs.First.{is_of_first};

use crate::error::{Fault, HistoryLineError};
use crate::line::{Line, LineStep, read_line};
use lt_rules::{Call, Reply};
use std::alloc::Global;

/// Whether the first version has this call: a visit must have a transaction and no bound.
fn is_of_first(call: &Call) -> bool
    ensures { result ≡ is_of_first call.now }
{
    match call {
        Call::Visit { txn, longest, .. } => txn.is_some() && *longest == 0,
        _ => true,
    }
}

/// Whether the step can occur in a text of this version.
pub(crate) fn is_of_version(version: u8, step: &LineStep) -> bool
    ensures { result ≡ is_of_version version step.now.call step.now.reply }
{
    version != 1 || (is_of_first(&step.call) && !matches!(step.reply, Reply::TooLong))
}

/// Parses a line, given without its line end, if it can occur in a text of this version.
#[tactic(auto, using(crate::proofs::LineLaws::shapeless_in, crate::proofs::LineLaws::of_other_version))]
pub(crate) fn line_of(alloc: Global, version: u8, bytes: &[u8]) -> Result<Line, HistoryLineError>
    ensures line { IfOk result (λ l. IsLine (parts_of l)) }
    ensures of_version { IfOk result (λ l. IsOf version (parts_of l)) }
    ensures text { IfOk result (λ l. line_text (parts_of l) ≡ bytes.now ++ 10 ∷ []) }
    ensures err { IfErr result (λ e. IsShapelessIn version e bytes.now) }
{
    let line = read_line(alloc, bytes)?;
    if is_of_version(version, &line.step) {
        Ok(line)
    } else {
        Err(HistoryLineError::Fault(Fault::Shape))
    }
}
