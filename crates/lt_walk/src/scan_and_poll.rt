//! How does a request visit its keys, and how does it learn that it was let through? Read next `IsScan` and
//! `IsPoll` in `specs/Reported.antt`, and `src/leaving.rt`.
ghost use Rattle.std.specs.Prelude.{◌≡◌, ◌≢◌, ◌<◌, ◌^◌, ℕ, length, Ok, Err, IfOk, IfErr};
ghost use Rattle.lt_ids.specs.Ids.{IsNumber};
ghost use Rattle.lt_rules.specs.declared.call.Call.{Call};
ghost use Rattle.lt_walk.specs.Reported.{IsPoll, GuardStays, SeesLet, TellsScan, ProceedsOnlyIfLet, GoesOnOnlyIfLet};
ghost use Rattle.lt_walk.specs.declared.scan_results.Scan.TheVariants.{Waiting, TooLong};
ghost use Rattle.lt_walk.specs.Sound.{IsSoundWalk};
ghost use Rattle.lt_walk.specs.Laws.{IsTooLong};

use crate::guard::Guard;
use crate::key_steps::KeySteps;
use crate::scan_results::{Poll, Scan, ScanError};
use crate::walk_progress::Mode;
use lt_words::{Announced, Book, LookedAgain};

/// Loads the status word of the guard's pass, and compares it with the ticket of the guard's wait. The book has
/// nothing but words, so no lock can be taken here.
pub fn poll_on(book: &Book, guard: &mut Guard) -> Poll
    requires { guard.old.pass.of ≡ book.now }
    ensures poll { IsPoll guard.old guard.new result }
    ensures through { result ≡ Poll.Through → SeesLet guard.new.pass guard.new.walk }
    ensures stays { GuardStays guard.old guard.new }
{
    guard.walk.sound();
    let word = book.read(&mut guard.pass);
    guard.walk.poll(word)
}

/// The poll of a request whose caller has announced that it will sleep.
pub fn poll_again_on(book: &Book, guard: &mut Guard, announced: Announced) -> (Poll, LookedAgain)
    requires pass { guard.old.pass.of ≡ book.now }
    ensures poll { IsPoll guard.old guard.new result.0 }
    ensures through { result.0 ≡ Poll.Through → SeesLet guard.new.pass guard.new.walk }
{
    guard.walk.sound();
    let (word, looked) = book.look_again(&mut guard.pass, announced);
    (guard.walk.poll(word), looked)
}

#[inline(always)]
fn visit_on<S: KeySteps>(
    table: &S,
    max_waits: u32,
    guard: &mut Guard,
) -> Result<Result<Scan, ScanError>, S::Refusal>
    requires pass { guard.old.pass.of ≡ S.of table.now }
    requires few { max_waits < 2 ^ 24 }
    ensures scan { TellsScan max_waits guard.old guard.new result }
    ensures number { IsNumber guard.old.walk.asked.number }
    ensures sound { IsSoundWalk guard.old.walk }
    ensures never_full { IfOk result (λ r. r ≢ Err ScanError.HistoryFull) }
    ensures refused { IfErr result (λ e. (call : Call) × S.may_refuse table.now call e) }
{
    guard.walk.sound();
    let word = table.book().read(&mut guard.pass);
    if let Err(error) = guard.walk.begin_scan(word) {
        return Ok(Err(error));
    }
    while guard.walk.has_visit(max_waits) {
        let visit = guard.walk.visit();
        let answer = table.step(&mut guard.pass, guard.walk.key(), &visit)?;
        guard.walk.meet(answer);
    }
    Ok(guard.walk.end_scan())
}

/// Visits the request's keys in order, each by one key step. If the request waits, the scan first loads the pass's
/// status word, before it makes any step: it is refused with `StillWaiting` if the request was not let through, and
/// otherwise proceeds to the next key. If a queue is too long for the request, the request returns to the start of its
/// list, and a later scan begins again there.
///
/// An `Err` is a step's: the guard stays at the key that it would visit next, and a later scan continues there.
#[inline(always)]
pub fn scan_on<S: KeySteps>(
    table: &S,
    max_waits: u32,
    guard: &mut Guard,
) -> Result<Result<Scan, ScanError>, S::Refusal>
    requires pass { guard.old.pass.of ≡ S.of table.now }
    requires few { max_waits < 2 ^ 24 }
    ensures scan { TellsScan max_waits guard.old guard.new result }
    // A request that waited proceeds only if it was let through.
    ensures went_on { GoesOnOnlyIfLet guard.old guard.new result }
    // If the request was let through before, its let is in what its pass has then seen.
    ensures was_let { guard.old.walk.progress.mode ≡ Mode.Let → SeesLet guard.new.pass guard.old.walk }
    // A request that has to wait does so at a key of its list.
    ensures waiting { (index : ℕ) → result ≡ Ok (Ok (Waiting index)) → index < length guard.new.walk.asked.keys }
    // If a queue was too long, it was at a key of the list, and the request is back at the list's start.
    ensures stopped { (index : ℕ) → result ≡ Ok (Ok (TooLong index)) → index < length guard.new.walk.asked.keys }
    ensures too_long { (index : ℕ) → result ≡ Ok (Ok (TooLong index)) → IsTooLong guard.old guard.new index }
    ensures stays { GuardStays guard.old guard.new }
    // Only a step finds a full history.
    ensures never_full { IfOk result (λ r. r ≢ Err ScanError.HistoryFull) }
    ensures refused { IfErr result (λ e. (call : Call) × S.may_refuse table.now call e) }
{
    guard.let_through();
    let result = visit_on(table, max_waits, guard);
    guard.walk.sound();
    result
}
