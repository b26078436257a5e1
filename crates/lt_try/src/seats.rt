//! How do the passes of a table come back to it? Each has a seat at its table: its caller leaves it there, and whoever closes
//! the table takes it from there. So nobody compares tables: a pass is left through its own caller's share of the table.
ghost use Rattle.std.specs.Prelude.{◌≡◌, ◌≤◌, ◌<◌, ◌+◌, [], length, vec_capacity, IfOk, IfErr, IfSome};
ghost use Rattle.std.specs.List.{All};

use crate::table::TryTable;
use counted_slot::{Counted, FREE, Fits, PRESENT, TAKEN};
use lt_rules::KeyTable;
use lt_shard::EmptyTables;
use lt_words::{Book, Front, Pass, Waker};
use std::alloc::{AllocError, Global};
use std::marker::Model;

/// Of which book the pass in a seat is.
#[derive(Drop)]
pub(crate) struct SeatTag {
    pub start: Front,
}

/// A pass in its seat.
pub(crate) struct SeatedPass {
    pub pass: Pass,
}

impl Drop for SeatedPass {
    fn drop(self) {
        let SeatedPass { pass } = self;
        pass.abandon();
    }
}

impl SeatedPass {
    ghost use Rattle.std.specs.Prelude.{◌≡◌};

    fn into_pass(self) -> Pass
        ensures { result ≡ self.pass }
    {
        let SeatedPass { pass } = self;
        pass
    }
}

impl Fits for SeatedPass {
    type Tag = SeatTag;

    ghost use Rattle.std.specs.Prelude.{◌≡◌};

    ghost fits = { λ tag seated. seated.pass.of ≡ tag.start.of };
}

/// The place of a pass. Its word is `PRESENT` while the pass is there.
type PassSeat = Counted<Option<SeatedPass>>;

/// A seat for each pass of a book. In a contract, it is that book.
#[derive(Drop)]
pub struct Seats {
    start: Front,
    seats: Vec<PassSeat>,
}

impl Model for Seats {
    ghost use Rattle.std.specs.Prelude.{◌≡◌, length};
    ghost use Rattle.lt_words.specs.Row.{Opening};
    ghost use Rattle.std.specs.List.{All};

    ghost Value = { Opening };

    ghost view = { λ s. s.start.of };

    ghost invariant = { λ s. (length s.seats.items ≡ s.start.of.passes) × All (λ d. d.start.of ≡ s.start.of) s.seats.items };
}

/// An empty seat.
fn new_seat(book: &Book) -> PassSeat
    ensures { result.start.of ≡ book.now }
{
    let tag = SeatTag {
        start: book.front(),
    };
    Counted::new(None, &tag)
}

/// So many empty seats.
fn new_seats(alloc: Global, book: &Book, many: usize) -> Result<Vec<PassSeat>, AllocError>
    ensures many { IfOk result (λ seats. length seats.items ≡ many) }
    ensures of { IfOk result (λ seats. All (λ d. d.start.of ≡ book.now) seats.items) }
{
    let mut seats = Vec::new(alloc);
    for _index in 0..many {
        seats.push(new_seat(book))?;
    }
    Ok(seats)
}

impl<T: KeyTable + Drop, M: EmptyTables<T>, W: Waker> TryTable<T, M, W> {
    /// A seat for each pass of the table. All are empty.
    pub fn new_seats(&self, alloc: Global) -> Result<Seats, AllocError>
        ensures { IfOk result (λ seats. seats ≡ self.now.of) }
    {
        let seats = new_seats(alloc, &self.book, self.config.passes)?;
        Ok(Seats {
            start: self.book.front(),
            seats,
        })
    }
}

/// Puts the pass into the seat. The pass comes back if the seat is taken.
fn sit(seat: &PassSeat, pass: Pass) -> Result<(), Pass>
    requires { pass.of ≡ seat.now.start.of }
    ensures { IfErr result (λ back. back ≡ pass) }
{
    let (found, claim) = seat.turn(FREE, TAKEN);
    if found != FREE {
        claim.done();
        return Err(pass);
    }
    let _ = claim.put(Some(SeatedPass { pass }), PRESENT);
    Ok(())
}

/// Adds the pass in the seat to these, for which there is room, if there is one.
fn add_seated(passes: &mut Vec<Pass>, seat: PassSeat)
    requires of { All (λ p. p.of ≡ seat.start.of) passes.old.items }
    requires room { length passes.old.items < vec_capacity passes.old }
    ensures of { All (λ p. p.of ≡ seat.start.of) passes.new.items }
    ensures few { length passes.new.items ≤ length passes.old.items + 1 }
    ensures room { vec_capacity passes.new ≡ vec_capacity passes.old }
{
    if let Some(seated) = seat.into_inner() {
        passes.push_reserved(seated.into_pass());
    }
}

impl Seats {
    /// Leaves the pass in its seat. The pass comes back if its seat is taken: no pass that a table has given out finds it so,
    /// but no contract knows that.
    pub fn leave(&self, pass: Pass) -> Result<(), Pass>
        requires { pass.of ≡ self.now }
        ensures { IfErr result (λ back. back ≡ pass) }
    {
        let index = pass.number() as usize - 1;
        sit(&self.seats[index], pass)
    }

    /// How many passes are in their seats, as the seats' words say.
    pub fn are_taken(&self) -> usize {
        let mut many: usize = 0;
        for seat in &self.seats {
            if seat.load() == PRESENT {
                many = many.saturating_add(1);
            }
        }
        many
    }

    /// The passes that were never given out, and those that are in their seats. `room` is empty, and has room for all of them.
    pub fn into_passes(self, mut given: Vec<Pass>, room: Vec<Pass>) -> Vec<Pass>
        requires of { All (λ p. p.of ≡ self) given.items }
        requires empty { room.items ≡ [] }
        requires room { length given.items + self.passes ≤ vec_capacity room }
        ensures of { All (λ p. p.of ≡ self) result.items }
    {
        let Seats {
            start: _,
            mut seats,
        } = self;
        let mut passes = room;
        while let Some(pass) = given.pop() {
            passes.push_reserved(pass);
        }
        given.destroy_empty();
        while let Some(seat) = seats.pop() {
            add_seated(&mut passes, seat);
        }
        passes
    }
}
