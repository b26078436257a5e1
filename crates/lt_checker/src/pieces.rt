//! Is a text that comes in pieces legal? A [`Checker`] takes the lines of a text one after the other and holds none
//! of them. So it checks a text of any length in the memory of one line and of one key's record.
//!
//! [`Checker::begin`] takes the first line, [`Checker::take_lines`] takes the whole lines of a piece, and
//! [`Checker::end`] takes what is left and gives the verdict of [`check`](crate::check). [`Checker::take_line`] takes one
//! line and says what stands in it. Each promise speaks of the
//! whole text that the checker has taken (`HasTaken` in `specs/Pieces.antt`), so the verdict does not depend on the
//! cuts.
//!
//! Threads can check the parts of a text at the same time if each part begins with a new key. [`Checker::new`] begins
//! in the middle of a text, and [`Checker::joined`] joins the checks of two parts into the check of both.
//!
//! Two calls explain a fault: [`Checker::state_before`] copies the record of a key before the next line, and
//! [`Checker::expected`] gives the reply and the lets that the rules give for that line. [`Checker::lengths`] counts the
//! requests that are queued at the latest key, and [`Checker::front`] copies that key's record with the front of its
//! queues alone. Read next: `specs/Pieces.antt`, then `cursor.rt`.
ghost use Rattle.std.specs.Prelude.{◌≡◌, ◌==◌, ◌<◌, ◌+◌, ◌^◌, if◌then◌else◌, [], length, IfOk, IfErr, IfSome, IfNone, OnOk, OnErr, IsTrue, ◌↔◌, None};
ghost use Rattle.lt_checker.specs.Cursor.{spot};
ghost use Rattle.lt_row.specs.Front.{front_of};
ghost use Rattle.lt_checker.specs.Lines.{IsReadStep, parts_with};
ghost use Rattle.lt_checker.specs.Text.{record_before};
ghost use Rattle.lt_checker.specs.Version.{IsVersion, header_of};
ghost use Rattle.lt_checker.specs.Verdict.{located};
ghost use Rattle.lt_checker.specs.Pieces.{HasTaken, IsTextOfLine, TakesOneLine, TakesParts, IsFaultyParts, TakesFirstLine, TakesNone, TakesLines, RefusesFrom, IsFaultyLine, IsNoNextLine, JudgesAtEnd, SaysAtEnd, AcceptsAtEnd, RefusesAtEnd, HasBegun, LacksHeader, GivesByRules, MayJoin, TakesBoth, ReportsLegal, first_of_both, key_or};

use crate::checker::{CheckError, Report};
use crate::cursor::{Cursor, Expected, expect, follow, start};
use crate::error::{Fault, HistoryLineError};
use crate::line::{Line, LineStep, read_lets, read_line, read_step};
use crate::version::{is_of_version, line_of};
use lt_ids::{Key, Ticket};
use lt_rules::{KeyState, QueueLengths};
use lt_text::words::{Words, cut_line};
use std::alloc::{AllocError, Global};

fn located(refusal: HistoryLineError, line: usize) -> CheckError
    ensures { result ≡ located refusal line }
{
    match refusal {
        HistoryLineError::Memory => CheckError::Memory,
        HistoryLineError::Fault(fault) => CheckError::Refused { line, fault },
    }
}

/// Counts one more step, and one more key if the step is the key's first.
fn counted(report: Report, index: u64) -> Report
    ensures keys { report.keys + 1 < 2 ^ 64 → result.keys ≡ (if index == 1 then report.keys + 1 else report.keys) }
    ensures steps { report.steps + 1 < 2 ^ 64 → result.steps ≡ report.steps + 1 }
    ensures version { result.version ≡ report.version }
{
    Report {
        version: report.version,
        keys: if index == 1 {
            report.keys.saturating_add(1)
        } else {
            report.keys
        },
        steps: report.steps.saturating_add(1),
    }
}

/// The counts of two parts together.
fn added(first: Report, second: Report) -> Report
    ensures keys { first.keys + second.keys < 2 ^ 64 → result.keys ≡ first.keys + second.keys }
    ensures steps { first.steps + second.steps < 2 ^ 64 → result.steps ≡ first.steps + second.steps }
    ensures version { result.version ≡ first.version }
{
    Report {
        version: first.version,
        keys: first.keys.saturating_add(second.keys),
        steps: first.steps.saturating_add(second.steps),
    }
}

/// Keeps the first of these keys that there is.
fn first_of_both(first: Option<Key>, next: Option<Key>) -> Option<Key>
    ensures { result ≡ first_of_both first next }
{
    match first {
        Some(key) => Some(key),
        None => next,
    }
}

/// Notes the key of the latest line, if it is the first line.
fn note_first(first: &mut Option<Key>, latest: &Option<Key>) -> Result<(), AllocError>
    ensures { OnOk result (IfSome latest.now (λ key. first.new ≡ key_or first.old key)) }
{
    if first.is_some() {
        return Ok(());
    }
    if let Some(key) = latest {
        *first = Some(key.copy()?);
    }
    Ok(())
}

/// A check of a text that comes in pieces. It knows the latest line's key and index, the record of that key, and how
/// many keys and steps it has taken. After an error it stands in the middle of a line, and it is of no more use.
#[derive(Drop)]
pub struct Checker {
    pub(crate) cursor: Cursor,
    pub(crate) report: Report,
    /// The key of the first line that was taken.
    pub(crate) first: Option<Key>,
}

impl Checker {
    /// A check of the lines after the first one of a text of this version, 1 or 2.
    pub fn new(version: u8) -> Checker
        requires { IsVersion version }
        ensures { HasTaken result (header_of version) }
    {
        Checker {
            cursor: start(),
            report: Report {
                version,
                keys: 0,
                steps: 0,
            },
            first: None,
        }
    }

    /// Takes the first line, and returns the rest of the text. `None` if the text begins with neither `locks 1` nor
    /// `locks 2` and a line end. A piece that is not the whole text must have at least eight bytes.
    pub fn begin<'a>(text: &'a [u8]) -> Option<(Checker, &'a [u8])>
        ensures some { IfSome result (λ begun. HasBegun text.now begun.0 begun.1.now) }
        ensures none { result ≡ None → LacksHeader text.now }
    {
        if let Some(lines) = text.strip_prefix(b"locks 2\n") {
            return Some((Checker::new(2), lines));
        }
        if let Some(lines) = text.strip_prefix(b"locks 1\n") {
            return Some((Checker::new(1), lines));
        }
        None
    }

    /// The version of the text, and how many keys and steps were taken.
    pub fn report(&self) -> Report
        ensures report { result ≡ self.now.report }
        // What was taken is the text of legal histories with these numbers.
        ensures legal { ReportsLegal self.now result }
    {
        self.report
    }

    /// The key and the index of the latest line. `None` before the first one.
    pub fn latest(&self) -> Option<(&Key, u64)>
        ensures none { IfNone result ((spot self.now.cursor).key ≡ []) }
        ensures key { IfSome result (λ latest. (spot self.now.cursor).key ≡ latest.0.now) }
        ensures index { IfSome result (λ latest. (spot self.now.cursor).index ≡ latest.1) }
    {
        match &self.cursor.key {
            Some(key) => Some((key, self.cursor.index)),
            None => None,
        }
    }

    /// Takes a line, given without its line end, and returns what it says.
    #[tactic(auto, using(crate::proofs::LineLaws::shapeless_in))]
    fn follow_line(&mut self, alloc: Global, bytes: &[u8]) -> Result<Line, HistoryLineError>
        ensures ok { IfOk result (λ _. TakesOneLine self.old bytes.now self.new) }
        ensures line { IfOk result (IsTextOfLine bytes.now) }
        ensures err { IfErr result (λ e. IsFaultyLine self.old.report.version (spot self.old.cursor) bytes.now e) }
        ensures report { OnErr result (self.new.report ≡ self.old.report) }
    {
        let line = read_line(alloc, bytes)?;
        self.take_parts(alloc, line.key.as_bytes(), &line.step, &line.tickets)?;
        Ok(line)
    }

    /// Takes a line, given without its line end. It builds no [`Line`], and it copies the key only if that is a new one.
    /// So most lines cost no more than reading their words and making the call.
    fn pass_line(&mut self, alloc: Global, bytes: &[u8]) -> Result<(), HistoryLineError>
        ensures ok { IfOk result (λ _. TakesOneLine self.old bytes.now self.new) }
        ensures err { IfErr result (λ e. IsFaultyLine self.old.report.version (spot self.old.cursor) bytes.now e) }
        ensures report { OnErr result (self.new.report ≡ self.old.report) }
    {
        let mut words = Words::new(bytes);
        let Some(key) = words.next() else {
            return Err(HistoryLineError::Fault(Fault::Shape));
        };
        let Some(step) = read_step(&mut words, true) else {
            return Err(HistoryLineError::Fault(Fault::Shape));
        };
        let tickets = read_lets(alloc, &mut words)?;
        self.take_parts(alloc, key, &step, &tickets)
    }

    /// Takes the line with this key, this step and these tickets.
    fn take_parts(
        &mut self,
        alloc: Global,
        key: &[u8],
        step: &LineStep,
        tickets: &[Ticket],
    ) -> Result<(), HistoryLineError>
        requires { IsReadStep step.now }
        ensures ok { IfOk result (λ _. TakesParts self.old (parts_with key.now step.now tickets.now) self.new) }
        ensures err { IfErr result (λ e. IsFaultyParts self.old.report.version (spot self.old.cursor)
            (parts_with key.now step.now tickets.now) e) }
        ensures report { OnErr result (self.new.report ≡ self.old.report) }
    {
        if !is_of_version(self.report.version, step) {
            return Err(HistoryLineError::Fault(Fault::Shape));
        }
        follow(alloc, &mut self.cursor, key, step, tickets)?;
        note_first(&mut self.first, &self.cursor.key)?;
        self.report = counted(self.report, step.index);
        Ok(())
    }

    /// Takes the first line of a piece. Returns what the line says, and the bytes after it. `None` if the piece has no
    /// line end; nothing is taken then. A line that does not follow is refused as [`check`](crate::check) refuses it,
    /// whatever comes after the piece.
    pub fn take_line<'a>(
        &mut self,
        alloc: Global,
        piece: &'a [u8],
    ) -> Result<Option<(Line, &'a [u8])>, CheckError>
        ensures ok { IfOk result (λ r. IfSome r (λ taken.
            TakesFirstLine self.old piece.now self.new taken.0 taken.1.now)) }
        ensures none { IfOk result (λ r. IfNone r (TakesNone self.old piece.now self.new)) }
        ensures err { IfErr result (λ e. RefusesFrom self.old piece.now e) }
    {
        let Some((bytes, after)) = cut_line(piece) else {
            return Ok(None);
        };
        match self.follow_line(alloc, bytes) {
            Ok(line) => Ok(Some((line, after))),
            Err(refusal) => Err(located(refusal, self.report.steps.saturating_add(2))),
        }
    }

    /// Takes all whole lines of a piece, and returns the bytes after its last line end. The caller puts them before the
    /// next piece. A line that does not follow is refused as [`check`](crate::check) refuses it, whatever comes after
    /// the piece.
    pub fn take_lines<'a>(&mut self, alloc: Global, piece: &'a [u8]) -> Result<&'a [u8], CheckError>
        ensures ok { IfOk result (λ rest. TakesLines self.old piece.now self.new rest.now) }
        ensures err { IfErr result (λ e. RefusesFrom self.old piece.now e) }
    {
        let mut rest = piece;
        while let Some((line, after)) = cut_line(rest) {
            if let Err(refusal) = self.pass_line(alloc, line) {
                return Err(located(refusal, self.report.steps.saturating_add(2)));
            }
            rest = after;
        }
        Ok(rest)
    }

    /// Takes what is left at the end of the text, and gives the verdict on the whole text. It is the verdict of
    /// [`check`](crate::check) on that text. A last line without its line end is refused.
    pub fn end(self, alloc: Global, rest: &[u8]) -> Result<Report, CheckError>
        ensures says { SaysAtEnd self rest.now result }
        ensures legal { AcceptsAtEnd self rest.now result }
        ensures faulty { RefusesAtEnd self rest.now result }
    {
        let mut checker = self;
        checker.judge(alloc, rest)
    }

    /// The verdict on the text that ends with this rest.
    fn judge(&mut self, alloc: Global, rest: &[u8]) -> Result<Report, CheckError>
        ensures { JudgesAtEnd self.old rest.now result }
    {
        let left = match self.take_lines(alloc, rest) {
            Ok(left) => left,
            Err(refusal) => return Err(refusal),
        };
        if left.is_empty() {
            return Ok(self.report);
        }
        Err(CheckError::Refused {
            line: self.report.steps.saturating_add(2),
            fault: Fault::Shape,
        })
    }

    /// Whether the lines of `next` may come after those of `self`: they are of the same version, and the first
    /// key of `next` follows the latest key of `self`.
    fn may_join(&self, next: &Checker) -> bool
        ensures { IsTrue result ↔ MayJoin self.now next.now }
    {
        if self.report.version != next.report.version {
            return false;
        }
        match (&self.cursor.key, &next.first) {
            (Some(latest), Some(first)) => *latest < *first,
            _ => true,
        }
    }

    /// The check of what `self` has taken and then the lines of `next`, which was made by [`Checker::new`]. If the
    /// first key of `next` does not follow the latest key of `self`, or the versions differ, this check comes back as
    /// it was.
    pub fn joined(self, next: Checker) -> Result<Checker, Checker>
        ensures ok { IfOk result (TakesBoth self next) }
        ensures err { IfErr result (λ c. c ≡ self) }
        ensures joins { IfOk result (λ _. MayJoin self next) }
        ensures refuses { OnErr result (MayJoin self next → ⊥) }
    {
        if !self.may_join(&next) {
            return Err(self);
        }
        let Checker {
            cursor,
            report,
            first,
        } = next;
        if first.is_none() {
            return Ok(self);
        }
        Ok(Checker {
            cursor,
            report: added(self.report, report),
            first: first_of_both(self.first, first),
        })
    }

    /// How many requests are queued at the key of the latest line. Copies nothing.
    pub fn lengths(&self) -> QueueLengths
        ensures writers { result.writers ≡ length (spot self.now.cursor).state.writers }
        ensures readers { result.readers ≡ length (spot self.now.cursor).state.readers }
    {
        match &self.cursor.linked {
            Some(own) => own.lengths(),
            None => QueueLengths {
                writers: 0,
                readers: 0,
            },
        }
    }

    /// A copy of the record of the latest line's key with at most so many entries of each queue, from the front. It is
    /// empty before the first line. It takes time in proportion to what it copies, and fails only when an allocation
    /// fails.
    pub fn front(&self, alloc: Global, most: usize) -> Result<KeyState, AllocError>
        ensures { IfOk result (λ state. state ≡ front_of most (spot self.now.cursor).state) }
    {
        match &self.cursor.linked {
            Some(own) => own.front(alloc, most),
            None => Ok(KeyState::empty(alloc)),
        }
    }

    /// A copy of the key's record before the next line. It fails only when an allocation fails.
    pub fn state_before(&self, alloc: Global, key: &Key) -> Result<KeyState, AllocError>
        ensures { IfOk result (λ state. state ≡ record_before (spot self.now.cursor) key.now) }
    {
        let latest = match &self.cursor.key {
            Some(latest) => latest.as_bytes(),
            None => &[],
        };
        match &self.cursor.linked {
            Some(own) if key.as_bytes() == latest => own.state(alloc),
            _ => Ok(KeyState::empty(alloc)),
        }
    }

    /// What the rules give for the call of this line, given without its line end, if it came next. The line is refused
    /// exactly if it has one of the faults `Shape`, `KeyOrder` and `Index`.
    #[tactic(auto, using(crate::proofs::PieceLaws::shapeless_comes_not))]
    pub fn expected(self, alloc: Global, bytes: &[u8]) -> Result<Expected, HistoryLineError>
        ensures ok { IfOk result (GivesByRules self bytes.now) }
        ensures err { IfErr result (λ e. IsFaultyLine self.report.version (spot self.cursor) bytes.now e) }
        ensures next { IfErr result (IsNoNextLine self.report.version (spot self.cursor) bytes.now) }
    {
        let line = line_of(alloc, self.report.version, bytes)?;
        let mut cursor = self.cursor;
        expect(alloc, &mut cursor, &line)
    }
}
