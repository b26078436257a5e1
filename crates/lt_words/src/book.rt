//! Which calls does a book offer to the threads that share it? They open it, draw a number, commit a step, show a
//! let, read a status word, and put a caller to sleep or wake it.
//!
//! Each call states its contract over the caller's pass and, for a step, over the shard's front. Read next
//! `src/front.rt`, which makes the atomic accesses; `specs/Row.antt`, which says what a pass and a front carry; and
//! `src/parking.rt`, where callers sleep.
ghost use Rattle.std.specs.Prelude.{◌≡◌, ◌+◌, ◌<◌, ◌≤◌, ◌^◌, ◌∷◌, ◌++◌, [], length, IfSome, IfNone, IfOk, IsTrue, IsFalse};
ghost use mathlib.Core.List.{IsPrefix};
ghost use Rattle.lt_words.specs.History.{part, draws_of, shard_of, DrewIn, LetIn, MayFollow, IsStatus};
ghost use Rattle.lt_words.specs.Shown.{word_of, IsShown};
ghost use Rattle.lt_words.specs.Row.{AreSizes, FrontGrows, IsNextDraw, IsSight, SeesMore, NotesLet, TakesOut, Commits, awoken, fresh_passes};
ghost use Rattle.lt_words.specs.Takes.{taken_of};

use crate::cache_line::CacheLine;
use crate::entry_parts::EntryParts;
use crate::event::{Event, Take};
use crate::front::Front;
use crate::keeping::Keeping;
use crate::law::{BookRule, Opens, Sizes};
use crate::parking::{Announced, LookedAgain};
use crate::pass::{Pass, abandon_all};
use crate::waker::{OwedLet, Waker};
use logbook::{Seen, Start, Word};
use lt_entry::Entry;
use lt_ids::{Through, Ticket};
use std::alloc::{AllocError, Global};
use std::marker::Model;
use std::sync::Wait;
use std::time::Duration;

/// The words that all threads of a table share: the number word, 64 step words, 64 take words, and a status word for
/// each pass.
/// Contracts see which book it is, its numbers of shards and passes, and how its table keeps steps.
#[derive(Drop)]
pub struct Book {
    pub(crate) lines: Vec<CacheLine>,
    pub(crate) start: Front,
    keeping: Keeping,
}

impl Model for Book {
    ghost use Rattle.lt_words.specs.Row.{Opening, IsSoundBook};

    ghost Value = { Opening };

    ghost view = { λ b. b.start.of };

    ghost invariant = { λ b. IsSoundBook b.start b.lines.items b.keeping };
}

/// A book whose words all hold 0 and whose history is empty.
fn open_row(
    alloc: Global,
    shards: usize,
    passes: usize,
    keeping: Keeping,
) -> Result<Book, AllocError>
    requires { AreSizes shards passes }
    ensures { IfOk result (λ b. (b.shards ≡ shards) × (b.passes ≡ passes) × (b.keeping ≡ keeping)) }
{
    let many = passes + 129;
    let mut lines = Vec::new(alloc);
    let (start, mut pens) = Seen::open_row::<Sizes, Opens>(
        &Sizes {
            shards,
            passes,
            keeping,
        },
        Start::alone(),
        many,
    );
    for i in 0..many {
        let mut pen = pens.take();
        lines.push(CacheLine::new(Word::tracked(0, &mut pen)))?;
    }
    Ok(Book {
        lines,
        start: Front::begins(start),
        keeping,
    })
}

/// Calls the waker for each let that was noted.
#[inline(always)]
fn hand_noted<W: Waker>(pass: &mut Pass, waker: &W)
    ensures { pass.new ≡ record pass.old { wakes = record pass.old.wakes { lets = [] } } }
{
    while let Some(owed) = pass.next_owed() {
        owed.hand_to(waker);
    }
}

impl Book {
    /// Opens a book of 1 to 64 shards and 1 to 1024 passes, whose table keeps every step. All words hold 0, the
    /// history is empty, and the passes have seen nothing and made no step. Opening is the only call of a book that
    /// allocates.
    pub fn open(
        alloc: Global,
        shards: usize,
        passes: usize,
    ) -> Result<(Book, Vec<Pass>), AllocError>
        requires { AreSizes shards passes }
        ensures shards { IfOk result (λ r. r.0.shards ≡ shards) }
        ensures passes { IfOk result (λ r. r.0.passes ≡ passes) }
        ensures handed { IfOk result (λ r. r.1.items ≡ fresh_passes r.0 passes) }
        ensures whole { IfOk result (λ r. r.0.keeping ≡ Keeping.Whole) }
    {
        Book::open_keeping(alloc, shards, passes, Keeping::Whole)
    }

    /// [`Book::open`] for a table that keeps its steps in the given way.
    pub fn open_keeping(
        alloc: Global,
        shards: usize,
        passes: usize,
        keeping: Keeping,
    ) -> Result<(Book, Vec<Pass>), AllocError>
        requires { AreSizes shards passes }
        ensures shards { IfOk result (λ r. r.0.shards ≡ shards) }
        ensures passes { IfOk result (λ r. r.0.passes ≡ passes) }
        ensures keeping { IfOk result (λ r. r.0.keeping ≡ keeping) }
        ensures handed { IfOk result (λ r. r.1.items ≡ fresh_passes r.0 passes) }
    {
        let book = open_row(alloc, shards, passes, keeping)?;
        let all = book.all_passes(alloc, shards, passes)?;
        Ok((book, all))
    }

    fn all_passes(
        &self,
        alloc: Global,
        shards: usize,
        passes: usize,
    ) -> Result<Vec<Pass>, AllocError>
        requires shards { self.now.shards ≡ shards }
        requires passes { self.now.passes ≡ passes }
        ensures { IfOk result (λ all. all.items ≡ fresh_passes self.now passes) }
    {
        let mut all = Vec::with_capacity(alloc, passes)?;
        for i in 0..passes {
            match Pass::fresh(alloc, &self.start, shards, i) {
                Ok(pass) => all.push_reserved(pass),
                Err(error) => {
                    abandon_all(all);
                    return Err(error);
                }
            }
        }
        Ok(all)
    }

    /// How the book's table keeps its steps.
    pub fn keeping(&self) -> Keeping
        ensures keeping { result ≡ self.now.keeping }
    {
        self.keeping
    }

    /// A front that has seen nothing yet, for a shard to keep.
    pub fn front(&self) -> Front
        ensures of { result.of ≡ self.now }
        ensures seen { result.seen ≡ [] }
        ensures shown { result.shown ≡ [] }
        ensures takes { result.takes ≡ [] }
    {
        self.start.again()
    }

    /// Draws the next number for the pass. The number is 1 to `max`, and no other draw gives it. `None` means that
    /// `max` numbers were drawn before. Never blocks.
    pub fn draw(&self, pass: &mut Pass, max: u64) -> Option<u64>
        requires { self.now ≡ pass.old.of }
        ensures some { IfSome result (λ n. IsNextDraw pass.old.seen pass.old.number max n pass.new.seen) }
        ensures drew { IfSome result (λ n. DrewIn pass.new.seen pass.old.number n) }
        ensures none { IfNone result (max ≤ draws_of pass.new.seen) }
        ensures more { SeesMore pass.old pass.new }
    {
        pass.seen.draw(self, pass.number, max)
    }

    /// The number of draws in the history that the pass has then seen. Never blocks.
    pub fn drawn(&self, pass: &mut Pass) -> u64
        requires { self.now ≡ pass.old.of }
        ensures draws { result ≡ draws_of pass.new.seen }
        ensures more { SeesMore pass.old pass.new }
    {
        pass.seen.drawn(self)
    }

    /// Appends a step to a shard's part of the history. The front has seen `count` steps of the shard. The shard's
    /// word goes from `count` to `count + 1`, and in that instant the history gains the entry. Afterwards the pass
    /// and the front have seen the same history.
    ///
    /// Retries until its exchange succeeds. So it returns only if no other thread makes a step of this shard first,
    /// and only if the word can count one more step: it counts up to 2^64 - 1.
    pub fn commit<R: Wait>(
        &self,
        rt: &R,
        pass: &mut Pass,
        front: &mut Front,
        shard: usize,
        count: u64,
        entry: &Entry,
    )
        requires pass_of { self.now ≡ pass.old.of }
        requires front_of { self.now ≡ front.old.of }
        requires count { length (part shard front.old.seen) ≡ count }
        requires own { entry.now.pass ≡ pass.old.number }
        requires home { shard ≡ shard_of entry.now.key self.now.shards }
        requires next { MayFollow (part shard front.old.seen) entry.now }
        ensures commits { Commits pass.old front.old shard entry.now pass.new front.new }
        // The word had room to count one more step.
        ensures room { count + 1 < 2 ^ 64 }
    {
        self.commit_parts(rt, pass, front, shard, count, &EntryParts::of(entry))
    }

    /// [`Book::commit`], given the parts of the entry.
    pub fn commit_parts<R: Wait>(
        &self,
        rt: &R,
        pass: &mut Pass,
        front: &mut Front,
        shard: usize,
        count: u64,
        entry: &EntryParts,
    )
        requires pass_of { self.now ≡ pass.old.of }
        requires front_of { self.now ≡ front.old.of }
        requires count { length (part shard front.old.seen) ≡ count }
        requires own { entry.now.pass ≡ pass.old.number }
        requires home { shard ≡ shard_of entry.now.key self.now.shards }
        requires next { MayFollow (part shard front.old.seen) entry.now }
        ensures commits { Commits pass.old front.old shard entry.now pass.new front.new }
        // The word had room to count one more step.
        ensures room { count + 1 < 2 ^ 64 }
    {
        for _ in rt.forever() {
            if self.commit_once(pass, front, shard, count, entry) {
                return;
            }
        }
        unreachable!()
    }

    /// [`Book::commit_parts`], tried once. Says whether it succeeded. If not, the shard's word is not `count` and never
    /// will be again, and the pass and the front are as they were.
    pub fn commit_once(
        &self,
        pass: &mut Pass,
        front: &mut Front,
        shard: usize,
        count: u64,
        entry: &EntryParts,
    ) -> bool
        requires pass_of { self.now ≡ pass.old.of }
        requires front_of { self.now ≡ front.old.of }
        requires count { length (part shard front.old.seen) ≡ count }
        requires own { entry.now.pass ≡ pass.old.number }
        requires home { shard ≡ shard_of entry.now.key self.now.shards }
        requires next { MayFollow (part shard front.old.seen) entry.now }
        ensures commits { IsTrue result → Commits pass.old front.old shard entry.now pass.new front.new }
        ensures room { IsTrue result → count + 1 < 2 ^ 64 }
        ensures lost { IsFalse result → (pass.new ≡ pass.old) × (front.new ≡ front.old) }
    {
        // Ghost read: tells the prover the book's invariant.
        let _ = &self.lines;
        let mut ahead = pass.seen.joined(front);
        if !ahead.try_commit(self, front, shard, count, entry) {
            return false;
        }
        *front = ahead.again();
        pass.seen = ahead;
        let counts = &mut pass.rest.counts;
        counts[shard] += 1;
        true
    }

    /// Lets the pass and the front see one history that has exactly `count` steps of the shard. Retries until its
    /// exchange succeeds. So it returns only if the shard has `count` steps at some time during the call.
    pub fn exact<R: Wait>(
        &self,
        rt: &R,
        pass: &mut Pass,
        front: &mut Front,
        shard: usize,
        count: u64,
    )
        requires pass_of { self.now ≡ pass.old.of }
        requires front_of { self.now ≡ front.old.of }
        requires shard { shard < self.now.shards }
        ensures more { SeesMore pass.old pass.new }
        ensures front { FrontGrows front.old front.new }
        ensures same { IsSight pass.new front.new }
        ensures exact { length (part shard front.new.seen) ≡ count }
    {
        for _ in rt.forever() {
            if self.exact_once(pass, front, shard, count) {
                return;
            }
        }
        unreachable!()
    }

    /// [`Book::exact`], tried once. Says whether it succeeded. If not, the pass and the front are as they were.
    pub fn exact_once(&self, pass: &mut Pass, front: &mut Front, shard: usize, count: u64) -> bool
        requires pass_of { self.now ≡ pass.old.of }
        requires front_of { self.now ≡ front.old.of }
        requires shard { shard < self.now.shards }
        ensures more { SeesMore pass.old pass.new }
        ensures front { FrontGrows front.old front.new }
        ensures same { IsTrue result → IsSight pass.new front.new }
        ensures exact { IsTrue result → length (part shard front.new.seen) ≡ count }
        ensures lost { IsFalse result → (pass.new ≡ pass.old) × (front.new ≡ front.old) }
    {
        // Ghost read: tells the prover the book's invariant.
        let _ = &self.lines;
        let mut ahead = pass.seen.joined(front);
        if !ahead.try_exact(self, shard, count) {
            return false;
        }
        *front = ahead.again();
        pass.seen = ahead;
        true
    }

    /// Notes in the log that the pass takes `many` stored steps out of a shard. The shard's take word goes from `from`
    /// to `from + many`: so many of its steps were taken out before and then. Afterwards the pass and the front have
    /// seen the same log. Retries until its exchange succeeds.
    pub fn take<R: Wait>(
        &self,
        rt: &R,
        pass: &mut Pass,
        front: &mut Front,
        shard: usize,
        from: u64,
        many: u64,
    )
        requires pass_of { self.now ≡ pass.old.of }
        requires front_of { self.now ≡ front.old.of }
        requires shard { shard < self.now.shards }
        requires room { from + many < 2 ^ 64 }
        ensures took { TakesOut pass.old pass.new shard from many }
        ensures front { FrontGrows front.old front.new }
        ensures same { IsSight pass.new front.new }
        ensures exact { taken_of shard front.new.takes ≡ from + many }
    {
        for _ in rt.forever() {
            if self.take_once(pass, front, shard, from, many) {
                return;
            }
        }
        unreachable!()
    }

    /// [`Book::take`], tried once. Says whether it succeeded. If not, the shard's take word is not `from` and never will
    /// be again, and the pass and the front are as they were.
    pub fn take_once(
        &self,
        pass: &mut Pass,
        front: &mut Front,
        shard: usize,
        from: u64,
        many: u64,
    ) -> bool
        requires pass_of { self.now ≡ pass.old.of }
        requires front_of { self.now ≡ front.old.of }
        requires shard { shard < self.now.shards }
        requires room { from + many < 2 ^ 64 }
        ensures took { IsTrue result → TakesOut pass.old pass.new shard from many }
        ensures front { FrontGrows front.old front.new }
        ensures same { IsTrue result → IsSight pass.new front.new }
        ensures exact { IsTrue result → taken_of shard front.new.takes ≡ from + many }
        ensures lost { IsFalse result → (pass.new ≡ pass.old) × (front.new ≡ front.old) }
    {
        // Ghost read: tells the prover the book's invariant.
        let _ = &self.lines;
        let mut ahead = pass.seen.joined(front);
        let take = Take {
            pass: pass.number,
            shard,
            many,
        };
        if !ahead.try_take(self, from, &take) {
            return false;
        }
        *front = ahead.again();
        pass.seen = ahead;
        let taken = &mut pass.rest.taken;
        taken[shard] += many;
        true
    }

    /// Lets the pass and the front see one log in which exactly `count` steps of the shard were taken out. Retries
    /// until its exchange succeeds.
    pub fn taken<R: Wait>(
        &self,
        rt: &R,
        pass: &mut Pass,
        front: &mut Front,
        shard: usize,
        count: u64,
    )
        requires pass_of { self.now ≡ pass.old.of }
        requires front_of { self.now ≡ front.old.of }
        requires shard { shard < self.now.shards }
        ensures more { SeesMore pass.old pass.new }
        ensures front { FrontGrows front.old front.new }
        ensures same { IsSight pass.new front.new }
        ensures exact { taken_of shard front.new.takes ≡ count }
    {
        for _ in rt.forever() {
            if self.taken_once(pass, front, shard, count) {
                return;
            }
        }
        unreachable!()
    }

    /// [`Book::taken`], tried once. Says whether it succeeded. If not, the pass and the front are as they were.
    pub fn taken_once(&self, pass: &mut Pass, front: &mut Front, shard: usize, count: u64) -> bool
        requires pass_of { self.now ≡ pass.old.of }
        requires front_of { self.now ≡ front.old.of }
        requires shard { shard < self.now.shards }
        ensures more { SeesMore pass.old pass.new }
        ensures front { FrontGrows front.old front.new }
        ensures same { IsTrue result → IsSight pass.new front.new }
        ensures exact { IsTrue result → taken_of shard front.new.takes ≡ count }
        ensures lost { IsFalse result → (pass.new ≡ pass.old) × (front.new ≡ front.old) }
    {
        // Ghost read: tells the prover the book's invariant.
        let _ = &self.lines;
        let mut ahead = pass.seen.joined(front);
        if !ahead.try_taken(self, shard, count) {
            return false;
        }
        *front = ahead.again();
        pass.seen = ahead;
        true
    }

    /// Shows a let, which `pass` has seen, to the pass that waits. Afterwards that pass's status word is at or
    /// above the ticket. If it already is, nothing is written. So the status word of a pass never falls. Never blocks.
    ///
    /// If the caller of the waiting pass sleeps, the next [`Book::wake`] of `pass` wakes it at the latest.
    pub fn signal(&self, pass: &mut Pass, to_pass: u32, ticket: Ticket)
        requires of { self.now ≡ pass.old.of }
        requires low { 0 < to_pass }
        requires high { to_pass ≤ self.now.passes }
        requires through { LetIn pass.old.seen to_pass ticket }
        ensures shown { IsShown pass.new.shown to_pass ticket }
        ensures more { SeesMore (record pass.old { wakes = pass.new.wakes }) pass.new }
        ensures noted { NotesLet pass.old.wakes (record { pass = to_pass; ticket = ticket }) pass.new.wakes }
    {
        let owed = self.show(pass, to_pass, ticket);
        self.note_sleeper(pass, &owed);
        pass.note(owed);
    }

    /// Shows the let. Then its waker has still to be called, and its caller to be woken.
    fn show(&self, pass: &mut Pass, to_pass: u32, ticket: Ticket) -> OwedLet
        requires of { self.now ≡ pass.old.of }
        requires low { 0 < to_pass }
        requires high { to_pass ≤ self.now.passes }
        requires through { LetIn pass.old.seen to_pass ticket }
        ensures shown { IsShown pass.new.shown to_pass ticket }
        ensures owed { result ≡ record { pass = to_pass; ticket = ticket } }
        ensures more { SeesMore pass.old pass.new }
    {
        pass.seen.signal(self, to_pass, ticket);
        OwedLet::of(Through {
            pass: to_pass,
            ticket,
        })
    }

    /// Notes for [`Book::wake`] that the caller of the let, which was shown, sleeps, if it does.
    fn note_sleeper(&self, pass: &mut Pass, shown: &OwedLet)
        ensures more { pass.old.wakes.sleepers ≤ pass.new.wakes.sleepers }
        ensures same { pass.new ≡ record pass.old { wakes = record pass.old.wakes { sleepers = pass.new.wakes.sleepers } } }
    {
        let to_pass = shown.pass();
        if let Some(line) = self.lines.get(to_pass as usize + 128) {
            if let Some(sleeper) = line.parking.sleeper(to_pass) {
                pass.note_sleeper(sleeper);
            }
        }
    }

    /// Wakes the sleeping callers that the pass's latest step has let through, and calls the waker for each let
    /// that was noted. Call it once no lock is held.
    pub fn wake<W: Waker>(&self, pass: &mut Pass, waker: &W)
        ensures { pass.new ≡ awoken pass.old }
    {
        if !pass.rest.sleepers.is_empty() {
            self.wake_sleepers(pass);
        }
        hand_noted(pass, waker);
    }

    /// [`Book::wake`] for a table whose callers never sleep: it calls the waker, and wakes nobody. So no code that wakes a
    /// thread comes with it.
    #[inline(always)]
    pub fn hand_out<W: Waker>(&self, pass: &mut Pass, waker: &W)
        ensures { pass.new ≡ awoken pass.old }
    {
        pass.forget_sleepers();
        hand_noted(pass, waker);
    }

    /// Wakes the sleeping callers alone.
    #[inline(never)]
    fn wake_sleepers(&self, pass: &mut Pass)
        ensures { pass.new ≡ record pass.old { wakes = record pass.old.wakes { sleepers = 0 } } }
    {
        pass.rest.sleepers.take_each(|number| {
            if let Some(line) = self.lines.get(number as usize + 128) {
                line.parking.wake();
            }
        });
    }

    /// Ends the sleep of the caller of the pass with this number. If it does not sleep, its next sleep ends at once.
    pub fn interrupt(&self, pass: u32) {
        if let Some(line) = self.lines.get(pass as usize + 128) {
            line.parking.interrupt();
        }
    }

    /// Whether the caller of the pass was interrupted. The interrupt is then over.
    pub fn take_interrupt(&self, pass: &Pass) -> bool {
        match self.lines.get(pass.number as usize + 128) {
            Some(line) => line.parking.take_interrupt(),
            None => false,
        }
    }

    /// Announces that the caller of the pass is about to sleep: a let that is shown from now on wakes it. The
    /// caller then looks once more whether it still has to wait ([`Book::look_again`]).
    pub fn prepare(&self, pass: &Pass) -> Announced {
        if let Some(line) = self.lines.get(pass.number as usize + 128) {
            line.parking.prepare();
        }
        Announced::new()
    }

    /// [`Book::read`], for a caller that has announced its sleep.
    pub fn look_again(&self, pass: &mut Pass, announced: Announced) -> (u64, LookedAgain)
        requires { self.now ≡ pass.old.of }
        ensures word { result.0 ≡ word_of pass.old.number pass.new.shown }
        ensures status { IsStatus pass.new.seen pass.old.number result.0 }
        ensures more { SeesMore pass.old pass.new }
    {
        (self.read(pass), announced.looked())
    }

    /// Takes the announcement back: the caller of the pass does not sleep after all.
    pub fn cancel(&self, pass: &Pass, looked: LookedAgain) {
        looked.end();
        if let Some(line) = self.lines.get(pass.number as usize + 128) {
            line.parking.cancel();
        }
    }

    /// Sleeps until a let is shown to the pass, or the caller is interrupted. Returns at once if it was woken or
    /// interrupted since [`Book::prepare`]. May return for no reason.
    pub fn sleep<R: Wait>(&self, rt: &R, pass: &Pass, looked: LookedAgain) {
        looked.end();
        if let Some(line) = self.lines.get(pass.number as usize + 128) {
            line.parking.sleep(rt);
        }
    }

    /// [`Book::sleep`], for at most `time`.
    pub fn sleep_for<R: Wait>(&self, rt: &R, pass: &Pass, looked: LookedAgain, time: Duration) {
        looked.end();
        if let Some(line) = self.lines.get(pass.number as usize + 128) {
            line.parking.sleep_for(rt, time);
        }
    }

    /// The pass's own status word: 0, or the highest ticket that was shown to the pass, which is a ticket of the
    /// pass that was let through. Never blocks.
    pub fn read(&self, pass: &mut Pass) -> u64
        requires { self.now ≡ pass.old.of }
        ensures word { result ≡ word_of pass.old.number pass.new.shown }
        ensures status { IsStatus pass.new.seen pass.old.number result }
        ensures more { SeesMore pass.old pass.new }
    {
        let number = pass.number;
        pass.seen.read(self, number)
    }
}
