//! What do threads get when they draw request numbers and commit steps through one book at the same time?
//!
//! Two or four workers run at once. Each has a pass of its own, draws its numbers, and makes the first step of 16
//! shards that no other worker uses. [`drawn_by_two`] and [`drawn_by_four`] return all numbers; [`crate::tests`]
//! checks that each was drawn once.
ghost use Rattle.std.specs.Prelude.{◌≡◌, ◌<◌, ◌≤◌, ◌^◌, IfOk, IfSome, []};
ghost use Rattle.lt_words.specs.Row.{Opening};

use crate::seat::DropPass;
use lt_entry::{Entry, Lets};
use lt_ids::{IdError, Key, TxnId};
use lt_rules::{Call, Reply};
use lt_words::{Book, Pass, abandon_all, shard_of};
use std::alloc::{AllocError, Global};
use std::sync::Wait;
use std::thread::{Threads, join};

/// The result of a worker: its pass, and the numbers that it drew.
#[derive(Drop)]
struct DrawnNumbers {
    seat: DropPass,
    numbers: Vec<u64>,
}

/// The step of a finish at a key that has no holder.
fn idle_finish(alloc: Global, byte: u8, pass: u32, txn: TxnId) -> Result<Entry, IdError>
    ensures pass { IfOk result (λ e. e.pass ≡ pass) }
    ensures call { IfOk result (λ e. e.call ≡ Call.Finish txn) }
    ensures reply { IfOk result (λ e. e.reply ≡ Reply.Other) }
    ensures lets { IfOk result (λ e. e.lets ≡ []) }
{
    let key = Key::from_bytes(alloc, &[byte])?;
    let call = Call::Finish { txn };
    let lets = Lets::none(alloc);
    Ok(Entry::new(key, pass, &call, Reply::Other, lets))
}

/// Commits the first step of the shard of the entry's key.
fn first_step<R: Wait>(
    rt: &R,
    book: &Book,
    pass: &mut Pass,
    shards: usize,
    entry: &Entry,
    txn: TxnId,
)
    requires of { book.now ≡ pass.old.of }
    requires shards { book.now.shards ≡ shards }
    requires some { 0 < shards }
    requires own { entry.now.pass ≡ pass.old.number }
    requires call { entry.now.call ≡ Call.Finish txn }
    requires reply { entry.now.reply ≡ Reply.Other }
    requires lets { entry.now.lets ≡ [] }
    ensures of { pass.new.of ≡ pass.old.of }
    ensures number { pass.new.number ≡ pass.old.number }
{
    let mut front = book.front();
    let shard = shard_of(entry.key(), shards);
    book.commit(rt, pass, &mut front, shard, 0, entry);
}

/// Draws `draws` numbers. Then makes the first step of 16 of the 64 shards: those of the one-byte keys from
/// `first` on.
fn work<R: Wait>(
    rt: &R,
    alloc: Global,
    book: &Book,
    mut seat: DropPass,
    first: u8,
    draws: u64,
) -> Option<DrawnNumbers>
    requires of { book.now ≡ seat.pass.of }
    requires shards { book.now.shards ≡ 64 }
    requires keys { first ≤ 100 }
    ensures { IfSome result (λ w. w.seat.pass.of ≡ seat.pass.of) }
{
    let txn = TxnId::new(8)?;
    let mut numbers = Vec::new(alloc);
    for _ in 0..draws {
        let number = book.draw(&mut seat.pass, 1 << 40)?;
        numbers.push(number).ok()?;
    }
    for k in 0..16 {
        let entry = idle_finish(alloc, first + k, seat.pass.number(), txn).ok()?;
        first_step(rt, book, &mut seat.pass, 64, &entry, txn);
    }
    Some(DrawnNumbers { seat, numbers })
}

/// Runs two workers at once.
fn two_workers<R: Threads + Wait + Sync>(
    rt: &R,
    alloc: Global,
    book: &Book,
    one: DropPass,
    two: DropPass,
    first: u8,
    draws: u64,
) -> (Option<DrawnNumbers>, Option<DrawnNumbers>)
    requires one { book.now ≡ one.pass.of }
    requires two { book.now ≡ two.pass.of }
    requires shards { book.now.shards ≡ 64 }
    requires keys { first ≤ 84 }
    ensures one { IfSome result.0 (λ w. w.seat.pass.of ≡ book.now) }
    ensures two { IfSome result.1 (λ w. w.seat.pass.of ≡ book.now) }
{
    join(
        rt,
        || -> Option<DrawnNumbers>
            requires { (book.now ≡ one.pass.of) × (book.now.shards ≡ 64) × (first ≤ 84) }
            ensures { IfSome result (λ w. w.seat.pass.of ≡ book.entry.now) }
        { work(rt, alloc, book, one, first, draws) },
        || -> Option<DrawnNumbers>
            requires { (book.now ≡ two.pass.of) × (book.now.shards ≡ 64) × (first ≤ 84) }
            ensures { IfSome result (λ w. w.seat.pass.of ≡ book.entry.now) }
        { work(rt, alloc, book, two, first + 16, draws) },
    )
}

/// Runs four workers at once.
fn four_workers<R: Threads + Wait + Sync>(
    rt: &R,
    alloc: Global,
    book: &Book,
    seats: (DropPass, DropPass, DropPass, DropPass),
    draws: u64,
) -> Option<(DrawnNumbers, DrawnNumbers, DrawnNumbers, DrawnNumbers)>
    requires one { book.now ≡ seats.0.pass.of }
    requires two { book.now ≡ seats.1.pass.of }
    requires three { book.now ≡ seats.2.pass.of }
    requires four { book.now ≡ seats.3.pass.of }
    requires shards { book.now.shards ≡ 64 }
    ensures { IfSome result (λ w. w.3.seat.pass.of ≡ book.now) }
{
    let (one, two, three, four) = seats;
    let (front, back) = join(
        rt,
        || -> (Option<DrawnNumbers>, Option<DrawnNumbers>)
            requires { (book.now ≡ one.pass.of) × (book.now ≡ two.pass.of) × (book.now.shards ≡ 64) }
        { two_workers(rt, alloc, book, one, two, 33, draws) },
        || -> (Option<DrawnNumbers>, Option<DrawnNumbers>)
            requires { (book.now ≡ three.pass.of) × (book.now ≡ four.pass.of) × (book.now.shards ≡ 64) }
            ensures { IfSome result.1 (λ w. w.seat.pass.of ≡ book.entry.now) }
        { two_workers(rt, alloc, book, three, four, 65, draws) },
    );
    let (a, b) = front;
    let (c, d) = back;
    Some((a?, b?, c?, d?))
}

/// Checks that each of the 64 shards has exactly one step. If a shard has another number of steps, the call does
/// not return.
fn one_step_each<R: Wait>(rt: &R, book: &Book, pass: &mut Pass)
    requires of { book.now ≡ pass.old.of }
    requires shards { book.now.shards ≡ 64 }
    ensures { pass.new.of ≡ pass.old.of }
{
    for shard in 0..64 {
        let mut front = book.front();
        book.exact(rt, pass, &mut front, shard, 1);
    }
}

/// Opens a book with 64 shards and two passes. None if an allocation fails.
fn open_for_two(alloc: Global) -> Option<(Book, DropPass, DropPass)>
    ensures shards { IfSome result (λ r. r.0.shards ≡ 64) }
    ensures one { IfSome result (λ r. r.1.pass.of ≡ r.0) }
    ensures two { IfSome result (λ r. r.2.pass.of ≡ r.0) }
{
    let (book, mut passes) = Book::open(alloc, 64, 2).ok()?;
    let Some(two) = passes.pop() else {
        abandon_all(passes);
        return None;
    };
    let two = DropPass { pass: two };
    let Some(one) = passes.pop() else {
        abandon_all(passes);
        return None;
    };
    let one = DropPass { pass: one };
    abandon_all(passes);
    Some((book, one, two))
}

/// Opens a book with 64 shards and four passes. None if an allocation fails.
fn open_for_four(alloc: Global) -> Option<(Book, (DropPass, DropPass, DropPass, DropPass))>
    ensures shards { IfSome result (λ r. r.0.shards ≡ 64) }
    ensures one { IfSome result (λ r. r.1.0.pass.of ≡ r.0) }
    ensures two { IfSome result (λ r. r.1.1.pass.of ≡ r.0) }
    ensures three { IfSome result (λ r. r.1.2.pass.of ≡ r.0) }
    ensures four { IfSome result (λ r. r.1.3.pass.of ≡ r.0) }
{
    let (book, mut passes) = Book::open(alloc, 64, 4).ok()?;
    let Some(four) = passes.pop() else {
        abandon_all(passes);
        return None;
    };
    let four = DropPass { pass: four };
    let Some(three) = passes.pop() else {
        abandon_all(passes);
        return None;
    };
    let three = DropPass { pass: three };
    let Some(two) = passes.pop() else {
        abandon_all(passes);
        return None;
    };
    let two = DropPass { pass: two };
    let Some(one) = passes.pop() else {
        abandon_all(passes);
        return None;
    };
    let one = DropPass { pass: one };
    abandon_all(passes);
    Some((book, (one, two, three, four)))
}

/// The numbers that two workers draw at once from a new book; each worker draws `draws`.
pub fn drawn_by_two<R: Threads + Wait + Sync>(
    rt: &R,
    alloc: Global,
    draws: u64,
) -> Option<Vec<u64>> {
    let (book, one, two) = open_for_two(alloc)?;
    let (a, b) = two_workers(rt, alloc, &book, one, two, 33, draws);
    let mut numbers = a?.numbers;
    numbers.extend_from_slice(&b?.numbers).ok()?;
    Some(numbers)
}

/// The numbers that four workers draw at once from a new book, each worker `draws`, and the book's count of draws
/// afterwards. Returns only if each shard then has exactly one step.
pub fn drawn_by_four<R: Threads + Wait + Sync>(
    rt: &R,
    alloc: Global,
    draws: u64,
) -> Option<(Vec<u64>, u64)> {
    let (book, seats) = open_for_four(alloc)?;
    let (a, b, c, d) = four_workers(rt, alloc, &book, seats, draws)?;
    let mut numbers = a.numbers;
    for more in [b.numbers, c.numbers, d.numbers] {
        numbers.extend_from_slice(&more).ok()?;
    }
    let mut last = d.seat;
    one_step_each(rt, &book, &mut last.pass);
    Some((numbers, book.drawn(&mut last.pass)))
}

/// The least number, the greatest number, and how many distinct numbers there are. None if the list is empty or an
/// allocation fails.
pub fn spread(mut numbers: Vec<u64>) -> Option<(u64, u64, usize)> {
    numbers.sort().ok()?;
    numbers.dedup();
    let least = *numbers.first()?;
    let greatest = *numbers.last()?;
    Some((least, greatest, numbers.len()))
}
