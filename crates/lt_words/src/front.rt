//! How does a seen prefix grow? Here are all loads and exchanges of a book's words: each gives its caller a longer
//! prefix of the log, in which the word had the value that was found.
//!
//! A function named `try_..` makes one exchange and says whether it succeeded. Read next `src/law.rt` and `specs/Rules.antt`, which say what each access tells its
//! caller.
ghost use Rattle.std.specs.Prelude.{◌≡◌, ◌≢◌, ◌+◌, ◌<◌, ◌≤◌, ◌^◌, ◌∷◌, ◌++◌, List, [], length, MatchBool, IfSome, IfNone, IsTrue};
ghost use mathlib.Core.List.{IsPrefix};
ghost use Rattle.lt_ids.specs.Ids.{Wait, value_of};
ghost use Rattle.lt_words.specs.declared.event.Event.{Event};
ghost use Rattle.lt_words.specs.declared.event.Event.TheVariants.{Opened, Draw, Step};
ghost use Rattle.lt_words.specs.History.{part, draws_of, shard_of, IsLegalHistory, LetIn, MayFollow, IsStatus};
ghost use Rattle.lt_words.specs.Shown.{word_of, IsShown, AreLet};
ghost use Rattle.lt_words.specs.Takes.{taken_of, AppendsTake};
ghost use Rattle.lt_words.specs.declared.event.Take.{Take};
ghost use Rattle.lt_words.specs.Rules.{IsOpenLog, history_of};
ghost use Rattle.lt_words.specs.Row.{AppendsIf, FrontGrows, HasSteps, IsNextDraw, front_state};

use crate::book::Book;
use crate::entry_parts::EntryParts;
use crate::event::{Logged, Take};
use crate::law::{
    Asks, BookRule, CommitRule, DrawRule, Drawing, DrawnRule, ExactRule, Nothing, ReadRule,
    SignalRule, Stepping, TakeRule, TakenRule,
};
use logbook::{Offer, Seen};
use lt_ids::{Through, Ticket};
use std::marker::Model;
use std::snapshot::Snapshot;

/// A prefix of a book's log that was seen. Contracts see the book, the table history in it, the lets that were shown,
/// and the steps that were taken out.
#[derive(Drop)]
pub struct Front {
    seen: Seen<Logged, u64, BookRule>,
}

impl Model for Front {
    ghost use Rattle.lt_words.specs.Rules.{IsOpenLog};
    ghost use Rattle.lt_words.specs.Row.{FrontState, front_state};

    ghost Value = { FrontState };

    ghost view = { λ f. front_state f.seen.book f.seen.log };

    ghost invariant = { λ f. IsOpenLog f.seen.log };
}

impl Front {
    /// What is seen of a book that was just opened.
    pub(crate) fn begins(seen: Seen<Logged, u64, BookRule>) -> Front
        requires { IsOpenLog seen.log }
        ensures { result ≡ front_state seen.book seen.log }
    {
        Front { seen }
    }

    /// A copy of the front.
    pub fn again(&self) -> Front
        ensures { result ≡ self.now }
    {
        Front {
            seen: self.seen.again(),
        }
    }

    /// Ghost call: tells the prover that the seen history is legal, and that each let that was shown had been let
    /// through.
    pub fn legal(&self)
        ensures legal { IsLegalHistory self.now.of.shards self.now.seen }
        ensures let_through { AreLet self.now.seen self.now.shown }
    {
        let _ = &self.seen;
    }

    /// Extends the front: afterwards it has seen what both had seen.
    pub fn learn(&mut self, other: &Front)
        requires { other.now.of ≡ self.old.of }
        ensures of { self.new.of ≡ self.old.of }
        ensures this { IsPrefix self.old.seen self.new.seen }
        ensures that { IsPrefix other.now.seen self.new.seen }
        ensures shown_this { IsPrefix self.old.shown self.new.shown }
        ensures shown_that { IsPrefix other.now.shown self.new.shown }
        ensures takes_this { IsPrefix self.old.takes self.new.takes }
        ensures takes_that { IsPrefix other.now.takes self.new.takes }
    {
        self.seen.learn(&other.seen);
    }

    /// A front that has seen what both have seen.
    pub(crate) fn joined(&self, other: &Front) -> Front
        requires { other.now.of ≡ self.now.of }
        ensures this { FrontGrows self.now result }
        ensures that { FrontGrows other.now result }
    {
        let mut both = self.again();
        both.learn(other);
        both
    }

    /// The number of draws in the history that the front has then seen.
    pub(crate) fn drawn(&mut self, book: &Book) -> u64
        requires { book.now ≡ self.old.of }
        ensures more { FrontGrows self.old self.new }
        ensures count { result ≡ draws_of self.new.seen }
    {
        let mut offer: Offer<Logged, u64, BookRule, Nothing> = self
            .seen
            .plain::<Nothing, Drawing, Asks>(&Drawing { pass: 0, number: 0 });
        let word = &book.lines[0].word;
        word.load::<DrawnRule, Nothing>(&mut self.seen, &mut offer)
    }

    /// Tries once to draw the number `old + 1`, and says whether it did.
    pub(crate) fn try_draw(&mut self, book: &Book, pass: u32, old: u64) -> bool
        requires of { book.now ≡ self.old.of }
        requires room { old + 1 < 2 ^ 64 }
        ensures more { FrontGrows self.old self.new }
        ensures went { AppendsIf result self.old.seen (λ h. draws_of h ≡ old) (Draw pass (old + 1)) self.new.seen }
        ensures other { MatchBool result (Unit {0}) (draws_of self.new.seen ≢ old) }
    {
        let number = old + 1;
        let mut offer: Offer<Logged, u64, BookRule, Nothing> = self
            .seen
            .plain::<Nothing, Drawing, Asks>(&Drawing { pass, number });
        let mut pen = self.seen.no_pen();
        let word = &book.lines[0].word;
        let found = word.compare_exchange::<DrawRule, Nothing>(
            old,
            number,
            &mut self.seen,
            &mut offer,
            &mut pen,
        );
        found == old
    }

    /// Tries once to commit a step, and says whether it did. `from` has seen `count` steps of the shard.
    #[tactic(auto, using(crate::proofs::Passes::grows_self))]
    pub(crate) fn try_commit(
        &mut self,
        book: &Book,
        from: &Front,
        shard: usize,
        count: u64,
        entry: &EntryParts,
    ) -> bool
        requires of { book.now ≡ self.old.of }
        requires begins { IsPrefix from.now.seen self.old.seen }
        requires count { length (part shard from.now.seen) ≡ count }
        requires home { shard ≡ shard_of entry.now.key self.old.of.shards }
        requires next { MayFollow (part shard from.now.seen) entry.now }
        ensures more { FrontGrows self.old self.new }
        ensures went { AppendsIf result self.old.seen (HasSteps shard count) (Step shard entry.now) self.new.seen }
        ensures room { IsTrue result → count + 1 < 2 ^ 64 }
    {
        let Some(next) = count.checked_add(1) else {
            return false;
        };
        let mut offer: Offer<Logged, u64, BookRule, Nothing> = self
            .seen
            .plain::<Nothing, Stepping, Asks>(&Stepping {
                shard,
                entry: Snapshot::of(entry),
            });
        let mut pen = self.seen.no_pen();
        let word = &book.lines[shard + 1].word;
        let found = word.compare_exchange::<CommitRule, Nothing>(
            count,
            next,
            &mut self.seen,
            &mut offer,
            &mut pen,
        );
        found == count
    }

    /// Tries once to see a history that has exactly `count` steps of the shard, and says whether it did.
    pub(crate) fn try_exact(&mut self, book: &Book, shard: usize, count: u64) -> bool
        requires of { book.now ≡ self.old.of }
        requires shard { shard < 64 }
        ensures more { FrontGrows self.old self.new }
        ensures met { MatchBool result (length (part shard self.new.seen) ≡ count) (Unit {0}) }
    {
        let mut offer: Offer<Logged, u64, BookRule, Nothing> = self
            .seen
            .plain::<Nothing, Drawing, Asks>(&Drawing { pass: 0, number: 0 });
        let mut pen = self.seen.no_pen();
        let word = &book.lines[shard + 1].word;
        let found = word.compare_exchange::<ExactRule, Nothing>(
            count,
            count,
            &mut self.seen,
            &mut offer,
            &mut pen,
        );
        found == count
    }

    /// Tries once to note a take in the log, and says whether it did. Before it, `from` steps of its shard had been
    /// taken out.
    pub(crate) fn try_take(&mut self, book: &Book, from: u64, take: &Take) -> bool
        requires of { book.now ≡ self.old.of }
        requires shard { take.now.shard < 64 }
        requires room { from + take.now.many < 2 ^ 64 }
        ensures more { FrontGrows self.old self.new }
        ensures took { MatchBool result (AppendsTake self.old.takes from take.now self.new.takes) (Unit {0}) }
        ensures exact { MatchBool result (taken_of take.now.shard self.new.takes ≡ from + take.now.many) (Unit {0}) }
    {
        let mut offer: Offer<Logged, u64, BookRule, Nothing> = self
            .seen
            .plain::<Nothing, Take, Asks>(take);
        let mut pen = self.seen.no_pen();
        let word = &book.lines[take.shard + 65].word;
        let found = word.compare_exchange::<TakeRule, Nothing>(
            from,
            from + take.many,
            &mut self.seen,
            &mut offer,
            &mut pen,
        );
        found == from
    }

    /// Tries once to see a log in which exactly `count` steps of the shard were taken out, and says whether it did.
    pub(crate) fn try_taken(&mut self, book: &Book, shard: usize, count: u64) -> bool
        requires of { book.now ≡ self.old.of }
        requires shard { shard < 64 }
        ensures more { FrontGrows self.old self.new }
        ensures exact { MatchBool result (taken_of shard self.new.takes ≡ count) (Unit {0}) }
    {
        let mut offer: Offer<Logged, u64, BookRule, Nothing> = self
            .seen
            .plain::<Nothing, Drawing, Asks>(&Drawing { pass: 0, number: 0 });
        let mut pen = self.seen.no_pen();
        let word = &book.lines[shard + 65].word;
        let found = word.compare_exchange::<TakenRule, Nothing>(
            count,
            count,
            &mut self.seen,
            &mut offer,
            &mut pen,
        );
        found == count
    }

    /// The status word of a pass.
    pub(crate) fn read(&mut self, book: &Book, pass: u32) -> u64
        requires of { book.now ≡ self.old.of }
        requires low { 0 < pass }
        requires high { pass ≤ self.old.of.passes }
        ensures more { FrontGrows self.old self.new }
        ensures word { result ≡ word_of pass self.new.shown }
        ensures status { IsStatus self.new.seen pass result }
    {
        let mut offer: Offer<Logged, u64, BookRule, Nothing> = self
            .seen
            .plain::<Nothing, Drawing, Asks>(&Drawing { pass: 0, number: 0 });
        let word = &book.lines[pass as usize + 128].word;
        word.load::<ReadRule, Nothing>(&mut self.seen, &mut offer)
    }

    /// Tries once to raise a pass's status word from `old` to a ticket that was let through, and says whether it
    /// did.
    pub(crate) fn try_signal(&mut self, book: &Book, pass: u32, old: u64, ticket: Ticket) -> bool
        requires of { book.now ≡ self.old.of }
        requires low { 0 < pass }
        requires high { pass ≤ self.old.of.passes }
        requires below { old < value_of ticket }
        requires through { LetIn self.old.seen pass ticket }
        ensures more { FrontGrows self.old self.new }
        ensures shown { MatchBool result (IsShown self.new.shown pass ticket) (word_of pass self.new.shown ≢ old) }
    {
        let mut offer: Offer<Logged, u64, BookRule, Nothing> = self
            .seen
            .plain::<Nothing, Through, Asks>(&Through { pass, ticket });
        let mut pen = self.seen.no_pen();
        let word = &book.lines[pass as usize + 128].word;
        // Tells the prover the ranges of the ticket's parts.
        let _ = (ticket.number(), ticket.wait());
        let found = word.compare_exchange::<SignalRule, Nothing>(
            old,
            ticket.value(),
            &mut self.seen,
            &mut offer,
            &mut pen,
        );
        found == old
    }

    /// Draws the next number, up to `max`. An exchange that fails found a greater number, so the loop ends.
    #[tactic(auto, using(crate::proofs::Passes::grows_on, crate::proofs::Passes::grows_self))]
    pub(crate) fn draw(&mut self, book: &Book, pass: u32, max: u64) -> Option<u64>
        requires of { book.now ≡ self.old.of }
        ensures more { FrontGrows self.old self.new }
        ensures some { IfSome result (λ n. IsNextDraw self.old.seen pass max n self.new.seen) }
        ensures none { IfNone result (max ≤ draws_of self.new.seen) }
    {
        let mut old = self.drawn(book);
        while old < max {
            if self.try_draw(book, pass, old) {
                return Some(old + 1);
            }
            old = self.drawn(book);
        }
        None
    }

    /// Raises the status word of a pass to a ticket that was let through, unless it is already at or above it. An
    /// exchange that fails found a greater word, so the loop ends.
    #[tactic(auto, using(crate::proofs::Passes::grows_on, crate::proofs::Passes::grows_self))]
    pub(crate) fn signal(&mut self, book: &Book, pass: u32, ticket: Ticket)
        requires of { book.now ≡ self.old.of }
        requires low { 0 < pass }
        requires high { pass ≤ self.old.of.passes }
        requires through { LetIn self.old.seen pass ticket }
        ensures more { FrontGrows self.old self.new }
        ensures shown { IsShown self.new.shown pass ticket }
    {
        let mut old = self.read(book, pass);
        while old < ticket.value() {
            if self.try_signal(book, pass, old, ticket) {
                return;
            }
            old = self.read(book, pass);
        }
    }
}
