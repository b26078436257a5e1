//! How does a shard change a word of the book? By an exchange that it repeats until it succeeds, or by one that it tries
//! once. A shard's calls stand once, over [`Exchange`], and both ways are instances of it.
ghost use Rattle.std.specs.Prelude.{◌≡◌, ◌+◌, ◌<◌, ◌^◌, IsTrue, IsFalse, length};
ghost use Rattle.std.specs.FinMap as finmap;
ghost use Rattle.lt_words.specs.History.{part, shard_of, MayFollow};
ghost use Rattle.lt_words.specs.Takes.{taken_of};
ghost use Rattle.lt_words.specs.Row.{FrontGrows, IsSight, SeesMore, TakesOut, Commits};

use crate::making::Place;
use lt_rules::KeyTable;
use lt_words::{Book, EntryParts, Front, Pass};
use std::marker::PhantomData;
use std::sync::Wait;

/// A way to make an exchange. Each call says whether its exchange succeeded. If not, the pass and the front are as they
/// were.
pub(crate) trait Exchange {
    /// An exchange may fail.
    ghost may_lose: { Self → Type 0 };

    /// Appends a step, as `Book::commit_once` does.
    fn commit(
        &self,
        book: &Book,
        pass: &mut Pass,
        front: &mut Front,
        place: Place,
        entry: &EntryParts,
    ) -> bool
        requires pass_of { book.now ≡ pass.old.of }
        requires front_of { book.now ≡ front.old.of }
        requires count { length (part place.shard front.old.seen) ≡ place.at }
        requires own { entry.now.pass ≡ pass.old.number }
        requires home { place.shard ≡ shard_of entry.now.key book.now.shards }
        requires next { MayFollow (part place.shard front.old.seen) entry.now }
        ensures commits { IsTrue result → Commits pass.old front.old place.shard entry.now pass.new front.new }
        ensures room { IsTrue result → place.at + 1 < 2 ^ 64 }
        ensures lost { IsFalse result → (pass.new ≡ pass.old) × (front.new ≡ front.old) }
        ensures rare { IsFalse result → may_lose self.now };

    /// Lets the pass and the front see one history with as many steps of the shard as the place says.
    fn exact(&self, book: &Book, pass: &mut Pass, front: &mut Front, place: Place) -> bool
        requires pass_of { book.now ≡ pass.old.of }
        requires front_of { book.now ≡ front.old.of }
        requires shard { place.shard < book.now.shards }
        ensures more { SeesMore pass.old pass.new }
        ensures front { FrontGrows front.old front.new }
        ensures same { IsTrue result → IsSight pass.new front.new }
        ensures exact { IsTrue result → length (part place.shard front.new.seen) ≡ place.at }
        ensures lost { IsFalse result → (pass.new ≡ pass.old) × (front.new ≡ front.old) }
        ensures rare { IsFalse result → may_lose self.now };

    /// Notes a take of `many` steps, after as many as the place says.
    fn take(&self, book: &Book, pass: &mut Pass, front: &mut Front, place: Place, many: u64) -> bool
        requires pass_of { book.now ≡ pass.old.of }
        requires front_of { book.now ≡ front.old.of }
        requires shard { place.shard < book.now.shards }
        requires room { place.at + many < 2 ^ 64 }
        ensures took { IsTrue result → TakesOut pass.old pass.new place.shard place.at many }
        ensures front { FrontGrows front.old front.new }
        ensures exact { IsTrue result → taken_of place.shard front.new.takes ≡ place.at + many }
        ensures lost { IsFalse result → (pass.new ≡ pass.old) × (front.new ≡ front.old) }
        ensures rare { IsFalse result → may_lose self.now };

    /// Lets the pass and the front see one log in which as many steps were taken out as the place says.
    fn taken(&self, book: &Book, pass: &mut Pass, front: &mut Front, place: Place) -> bool
        requires pass_of { book.now ≡ pass.old.of }
        requires front_of { book.now ≡ front.old.of }
        requires shard { place.shard < book.now.shards }
        ensures more { SeesMore pass.old pass.new }
        ensures front { FrontGrows front.old front.new }
        ensures same { IsTrue result → IsSight pass.new front.new }
        ensures exact { IsTrue result → taken_of place.shard front.new.takes ≡ place.at }
        ensures lost { IsFalse result → (pass.new ≡ pass.old) × (front.new ≡ front.old) }
        ensures rare { IsFalse result → may_lose self.now };
}

/// Each exchange is repeated until it succeeds.
#[derive(Drop)]
pub(crate) struct Until<'a, R: Wait> {
    pub rt: &'a R,
}

impl<'a, R: Wait> Exchange for Until<'a, R> {
    ghost may_lose = { λ _. ⊥ };

    #[inline(always)]
    fn commit(
        &self,
        book: &Book,
        pass: &mut Pass,
        front: &mut Front,
        place: Place,
        entry: &EntryParts,
    ) -> bool {
        book.commit_parts(self.rt, pass, front, place.shard, place.at, entry);
        true
    }

    #[inline(always)]
    fn exact(&self, book: &Book, pass: &mut Pass, front: &mut Front, place: Place) -> bool {
        book.exact(self.rt, pass, front, place.shard, place.at);
        true
    }

    #[inline(always)]
    fn take(
        &self,
        book: &Book,
        pass: &mut Pass,
        front: &mut Front,
        place: Place,
        many: u64,
    ) -> bool {
        book.take(self.rt, pass, front, place.shard, place.at, many);
        true
    }

    #[inline(always)]
    fn taken(&self, book: &Book, pass: &mut Pass, front: &mut Front, place: Place) -> bool {
        book.taken(self.rt, pass, front, place.shard, place.at);
        true
    }
}

/// Each exchange is tried once.
pub(crate) struct Once;

impl Exchange for Once {
    ghost may_lose = { λ _. Unit {0} };

    #[inline(always)]
    fn commit(
        &self,
        book: &Book,
        pass: &mut Pass,
        front: &mut Front,
        place: Place,
        entry: &EntryParts,
    ) -> bool {
        book.commit_once(pass, front, place.shard, place.at, entry)
    }

    #[inline(always)]
    fn exact(&self, book: &Book, pass: &mut Pass, front: &mut Front, place: Place) -> bool {
        book.exact_once(pass, front, place.shard, place.at)
    }

    #[inline(always)]
    fn take(
        &self,
        book: &Book,
        pass: &mut Pass,
        front: &mut Front,
        place: Place,
        many: u64,
    ) -> bool {
        book.take_once(pass, front, place.shard, place.at, many)
    }

    #[inline(always)]
    fn taken(&self, book: &Book, pass: &mut Pass, front: &mut Front, place: Place) -> bool {
        book.taken_once(pass, front, place.shard, place.at)
    }
}

/// Makes empty tables. A shard asks for one only if its own table is lost ([`Shard::step_once`](crate::Shard::step_once)).
pub trait EmptyTables<T: KeyTable> {
    fn empty_table(&self) -> T
        ensures { T.records result ≡ finmap.empty };
}

/// What becomes of the table of a step that was not committed.
pub(crate) trait Replace<T: KeyTable> {
    /// Such a step may come.
    ghost may_replace: { Self → Type 0 };

    /// Puts an empty table in place of this one, and says whether it did.
    fn replace(&self, table: &mut T) -> bool
        ensures emptied { IsTrue result → T.records table.new ≡ finmap.empty }
        ensures replaces { may_replace self.now → IsTrue result };
}

/// Every step is committed.
pub(crate) struct Never;

impl<T: KeyTable> Replace<T> for Never {
    ghost may_replace = { λ _. ⊥ };

    #[inline(always)]
    fn replace(&self, _table: &mut T) -> bool {
        false
    }
}

/// The table is dropped, and a new one takes its place.
#[derive(Drop)]
pub(crate) struct Anew<'a, T: KeyTable, M: EmptyTables<T>> {
    pub tables: &'a M,
    pub of: PhantomData<T>,
}

impl<'a, T: KeyTable + Drop, M: EmptyTables<T>> Replace<T> for Anew<'a, T, M> {
    ghost may_replace = { λ _. Unit {0} };

    #[inline(always)]
    fn replace(&self, table: &mut T) -> bool {
        *table = self.tables.empty_table();
        true
    }
}
