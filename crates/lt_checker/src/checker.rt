//! Is this text the text of legal key histories, and if not, which line is at fault?
//!
//! [`check`] gives the whole text to a [`Checker`], which takes it line by line. [`upgrade`] rewrites the first line
//! of a legal text. Read next: `pieces.rt` for the checker, `cursor.rt` for the checks of one line against the rules,
//! `line.rt` for the syntax of a line, and `specs/Verdict.antt` for what a verdict means.
ghost use Rattle.std.specs.Prelude.{◌≡◌, Ok, length};
ghost use Rattle.lt_checker.specs.Verdict.{Says, IsLegalText, IsOrMemory, RefusesFaulty, upgraded, of_latest};

use crate::error::Fault;
use crate::pieces::Checker;
use std::alloc::Global;
use thiserror::Error;

/// The verdict on a legal text: its version, how many keys it has, and how many steps.
#[derive(Clone, Copy, Debug, PartialEq, Eq)]
pub struct Report {
    /// 1 or 2.
    pub version: u8,
    pub keys: usize,
    pub steps: usize,
}

/// Why a text was refused. Displayed as, for example, `line 3: WrongReply`.
#[derive(Clone, Copy, Debug, PartialEq, Eq, Drop, Error)]
pub enum CheckError {
    /// The first faulty line, counted from 1, and the first fault in it.
    #[error("line {line}: {fault}")]
    Refused { line: usize, fault: Fault },
    /// Memory ran out before the check ended. The first line is `locks 1` or `locks 2` and the text has more after
    /// it; whether it is legal is unknown.
    #[error("out of memory")]
    Memory,
}

/// Checks line by line whether the text is the text of legal key histories, by the rules of the version that its
/// first line names. A legal text is answered with its version and its numbers of keys and steps. Any other text is
/// refused with its first faulty line and the first fault in that line. Running out of memory can replace either
/// answer, unless the first line is wrong or is the only line.
pub fn check(alloc: Global, text: &[u8]) -> Result<Report, CheckError>
    // The verdict is right.
    ensures says { Says text.now result }
    // A legal text is accepted, with its version and its numbers of keys and steps.
    ensures legal { (report : Report) → IsLegalText text.now report → IsOrMemory result (Ok report) }
    // Any other text is refused, with its first faulty line and the first fault in that line.
    ensures faulty { RefusesFaulty text.now result }
{
    match Checker::begin(text) {
        Some((checker, lines)) => checker.end(alloc, lines),
        None => Err(CheckError::Refused {
            line: 1,
            fault: Fault::Header,
        }),
    }
}

/// Turns the text of legal histories into one of the latest version. Only the first line changes.
pub fn upgrade(text: &mut [u8])
    requires legal { (report : Report) × IsLegalText text.old report }
    ensures upgraded { text.new ≡ upgraded text.old }
    // The text stays legal, with the same numbers of keys and steps.
    ensures legal { (report : Report) → IsLegalText text.old report → IsLegalText text.new (of_latest report) }
{
    text[6] = b'2';
}
