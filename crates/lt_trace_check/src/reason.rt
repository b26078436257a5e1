//! Why does a check refuse a line? [`reason_for`] asks a checker that has taken the lines before it. Read next:
//! `specs/Reasons.antt`, which says what each answer means.
ghost use Rattle.std.specs.Prelude.{◌≡◌, ◌<◌, ◌^◌, suc, IfOk, IfErr, IfSome, IfNone};
ghost use Rattle.lt_checker.specs.Cursor.{spot};
ghost use Rattle.lt_checker.specs.Text.{index_after};
ghost use Rattle.lt_trace_check.specs.Audit.{IsNoLine, out_of_memory};
ghost use Rattle.lt_trace_check.specs.Reasons.{IsReasonFor, IsKeyReason, reason_of, IsLineOf};

use crate::error::AuditError;
use lt_checker::{CheckError, Checker, Expected, Fault, HistoryLineError, Line};
use lt_ids::Key;
use lt_rules::KeyState;
use std::alloc::{AllocError, Global};

/// What a check finds in a line, but for its line end.
#[derive(Drop)]
pub enum LineReason {
    /// The line is not the line of a step in a text of this version.
    Shape,
    /// Its key comes before the key of the line before it, which has these bytes.
    KeyOrder(Vec<u8>),
    /// It does not have the index that is due, which is this one.
    Index(u64),
    /// It may come next. This is the record of its key before it, and what the rules give for its call.
    Rules(KeyState, Expected),
}

/// The key of the latest line that the checker has taken. Before the first one it is empty.
fn latest_key(alloc: Global, checker: &Checker) -> Result<Vec<u8>, AllocError>
    ensures { IfOk result (λ key. key.items ≡ (spot checker.now.cursor).key) }
{
    match checker.latest() {
        Some((key, _)) => Vec::from_slice(alloc, key.as_bytes()),
        None => Ok(Vec::new(alloc)),
    }
}

/// The index of the latest line that the checker has taken, and 0 if it is not of this key.
#[tactic(auto, using(crate::proofs::Beginnings::first_index))]
fn latest_index(checker: &Checker, key: &Key) -> u64
    ensures { suc result ≡ index_after (spot checker.now.cursor) key.now }
{
    let bytes = key.as_bytes();
    match checker.latest() {
        Some((latest, index)) if bytes == latest.as_bytes() => index,
        Some(_) => 0,
        None => 0,
    }
}

/// The index that a line of this key must have next.
fn due_index(checker: &Checker, key: &Key) -> u64
    ensures { index_after (spot checker.now.cursor) key.now < 2 ^ 64 →
        result ≡ index_after (spot checker.now.cursor) key.now }
{
    latest_index(checker, key).saturating_add(1)
}

/// The reason for a refusal with this fault, if this key is the latest and this index is due.
fn reason_of(fault: Fault, latest: Vec<u8>, due: u64) -> LineReason
    ensures { result ≡ reason_of fault latest due }
{
    match fault {
        Fault::KeyOrder => LineReason::KeyOrder(latest),
        Fault::Index => LineReason::Index(due),
        _ => LineReason::Shape,
    }
}

/// Why the checker refuses this line of the key, or what the rules give for it.
#[tactic(auto, using(crate::proofs::Refusals::refusal_is_reason))]
fn reason(
    alloc: Global,
    checker: Checker,
    key: &Key,
    bytes: &[u8],
) -> Result<LineReason, AuditError>
    ensures ok { IfOk result (IsKeyReason checker key.now bytes.now) }
    ensures err { IfErr result (λ e. e ≡ out_of_memory) }
{
    let latest = latest_key(alloc, &checker)?;
    let due = due_index(&checker, key);
    let state = checker.state_before(alloc, key)?;
    match checker.expected(alloc, bytes) {
        Ok(expected) => Ok(LineReason::Rules(state, expected)),
        Err(HistoryLineError::Memory) => Err(AuditError::Check(CheckError::Memory)),
        Err(HistoryLineError::Fault(fault)) => Ok(reason_of(fault, latest, due)),
    }
}

/// What these bytes say, given without a line end. `None` if they are no line.
pub(crate) fn asked(alloc: Global, bytes: &[u8]) -> Result<Option<Line>, AuditError>
    ensures ok { IfOk result (λ x. IfSome x (IsLineOf bytes.now)) }
    ensures none { IfOk result (λ x. IfNone x (IsNoLine bytes.now)) }
    ensures err { IfErr result (λ e. e ≡ out_of_memory) }
{
    match lt_checker::read_line(alloc, bytes) {
        Ok(line) => Ok(Some(line)),
        Err(HistoryLineError::Memory) => Err(AuditError::Check(CheckError::Memory)),
        Err(HistoryLineError::Fault(_)) => Ok(None),
    }
}

/// Why the checker refuses the line with these bytes, which say this, or what the rules give for it.
#[tactic(auto, using(crate::proofs::Refusals::no_line_is_other))]
pub(crate) fn reason_for(
    alloc: Global,
    checker: Checker,
    asked: &Option<Line>,
    bytes: &[u8],
) -> Result<LineReason, AuditError>
    requires { IfNone asked.now (IsNoLine bytes.now) }
    ensures ok { IfOk result (IsReasonFor checker asked.now bytes.now) }
    ensures err { IfErr result (λ e. e ≡ out_of_memory) }
{
    match asked {
        Some(line) => reason(alloc, checker, &line.key, bytes),
        None => Ok(LineReason::Shape),
    }
}
