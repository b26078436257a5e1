//! How does C check a text of histories? [`lt_check`] answers 0 for the text of legal histories, and otherwise the
//! code of the first fault in the first faulty line. The other exports here check a text that comes in pieces.
ghost use Rattle.std.specs.Prelude.{◌≡◌, ◌≢◌, [], ℕ, List, Some, None, IsSome, IsNone, is_some};
ghost use Rattle.lt_checker.specs.Verdict.{IsLegalText};
ghost use Rattle.lt_checker.specs.Pieces.{IsCountable};
ghost use Rattle.lt_handles.specs.Checks.{Checks, Tells, legal_report};
ghost use Rattle.lt_handles.specs.CheckPieces.{HasHeardText, HearsPiece, EndsCheck, OnCheck, OnChecks};
ghost use Rattle.lt_handles.specs.Content.{check_in};

use lt_checker::{CheckError, Report, check};
use lt_handles::codes::{CLOSED, DONE, MEMORY, OPEN_ALREADY, fault_code};
use lt_handles::content::Content;
use lt_handles::handle::Handle;
use lt_handles::held_check::HeldCheck;
use lt_handles::shapes::LtReport;
use std::alloc::Global;

/// Fills the report with the verdict, and returns its code.
fn tell(verdict: Result<Report, CheckError>, report: &mut LtReport) -> u32
    ensures { Tells verdict result report.old report.new }
{
    match verdict {
        Ok(found) => {
            *report = LtReport {
                version: found.version,
                keys: found.keys,
                steps: found.steps,
                line: 0,
            };
            DONE
        }
        Err(CheckError::Refused { line, fault }) => {
            *report = LtReport {
                version: 0,
                keys: 0,
                steps: 0,
                line,
            };
            fault_code(fault)
        }
        Err(CheckError::Memory) => MEMORY,
    }
}

/// Whether the text is the text of legal histories.
#[unsafe(no_mangle)]
pub extern "C" fn lt_check(alloc: Global, text: &[u8], report: &mut LtReport) -> u32
    ensures legal { result ≡ DONE → IsLegalText text.now (legal_report report.new) }
    // The verdict is that of the check, and it is exact.
    ensures checks { Checks text.now result report.old report.new }
{
    tell(check(alloc, text), report)
}

/// Begins the check of a text that comes in pieces.
#[unsafe(no_mangle)]
pub extern "C" fn lt_check_begin(alloc: Global, handle: &mut Handle) -> u32
    ensures open_already { IsSome handle.old.slot.held → result ≡ OPEN_ALREADY }
    ensures memory { IsNone handle.old.slot.held → result ≢ DONE → result ≡ MEMORY }
    ensures begun { result ≡ DONE → OnCheck (λ c. HasHeardText c []) (check_in handle.new.slot.held) }
    ensures kept { result ≢ DONE → handle.new.slot.held ≡ handle.old.slot.held }
{
    if handle.is_open() {
        return OPEN_ALREADY;
    }
    let Ok(check) = Box::new(alloc, HeldCheck::new(alloc)) else {
        return MEMORY;
    };
    let Ok(content) = Box::new(alloc, Content::Check(check)) else {
        return MEMORY;
    };
    handle.put(content);
    DONE
}

/// The check hears the next piece, if the content is a check.
fn hear(content: &mut Content, alloc: Global, piece: &[u8]) -> u32
    ensures closed { IsNone (check_in (Some content.old)) → result ≡ CLOSED }
    ensures heard { IsSome (check_in (Some content.old)) → OnChecks (HearsPiece piece.now result)
        (check_in (Some content.old)) (check_in (Some content.new)) }
    ensures kept { IsNone (check_in (Some content.old)) → content.new ≡ content.old }
{
    match content {
        Content::Check(check) => check.hear(alloc, piece),
        _ => CLOSED,
    }
}

/// Checks the next piece of the text, wherever the text is cut. It answers `DONE` as long as no fault was found, and from
/// then on the fault, whatever comes after.
#[unsafe(no_mangle)]
pub extern "C" fn lt_check_piece(alloc: Global, handle: &mut Handle, piece: &[u8]) -> u32
    ensures closed { IsNone (check_in handle.old.slot.held) → result ≡ CLOSED }
    ensures heard { IsSome (check_in handle.old.slot.held) → OnChecks (HearsPiece piece.now result)
        (check_in handle.old.slot.held) (check_in handle.new.slot.held) }
    ensures kept { IsNone (check_in handle.old.slot.held) → handle.new.slot.held ≡ handle.old.slot.held }
{
    let Some(mut content) = handle.take(alloc) else {
        return CLOSED;
    };
    let code = hear(&mut content, alloc, piece);
    handle.put(content);
    code
}

/// Whether the content is a check.
fn is_check(content: &Content) -> bool
    ensures { result ≡ is_some (check_in (Some content.now)) }
{
    match content {
        Content::Check(_) => true,
        _ => false,
    }
}

/// Takes the check out of the handle, if it holds one. The handle is then closed.
fn take_check(alloc: Global, handle: &mut Handle) -> Option<HeldCheck>
    ensures taken { result ≡ check_in handle.old.slot.held }
    ensures closed { IsSome (check_in handle.old.slot.held) → handle.new.slot.held ≡ None }
    ensures kept { IsNone (check_in handle.old.slot.held) → handle.new.slot.held ≡ handle.old.slot.held }
{
    let content = handle.take(alloc)?;
    if !is_check(&content) {
        handle.put(content);
        return None;
    }
    match Box::into_inner(content) {
        Content::Check(check) => Some(Box::into_inner(check)),
        _ => None,
    }
}

/// Ends the check, and closes the handle. The verdict is that of [`lt_check`] on the whole text.
#[unsafe(no_mangle)]
pub extern "C" fn lt_check_end(alloc: Global, handle: &mut Handle, report: &mut LtReport) -> u32
    ensures no_check { IsNone (check_in handle.old.slot.held) → result ≡ CLOSED }
    ensures ended { IsSome (check_in handle.old.slot.held) → OnCheck (λ c. (text : List ℕ) → HasHeardText c text → IsCountable text →
        EndsCheck text result report.old report.new) (check_in handle.old.slot.held) }
    ensures closed { IsSome (check_in handle.old.slot.held) → handle.new.slot.held ≡ None }
    ensures kept { IsNone (check_in handle.old.slot.held) → handle.new.slot.held ≡ handle.old.slot.held }
    ensures out_kept { IsNone (check_in handle.old.slot.held) → report.new ≡ report.old }
{
    match take_check(alloc, handle) {
        Some(check) => tell(check.end(alloc), report),
        None => CLOSED,
    }
}
