//! The tests of a book: racing threads draw each number once, an open that ran out of memory can be made again,
//! the limit of request numbers holds, a key's shard is the sum of its bytes modulo the number of shards, and a
//! book reports how its table keeps steps.
use crate::named::open_by_name;
use crate::race::{drawn_by_four, drawn_by_two, spread};
use crate::seat::DropPass;
use crate::sharding::shards_of;
use lt_words::{Book, Keeping, abandon_all};
use std::test::Fail;

#[test]
fn four_threads_draw_each_number_once_and_step_each_shard_once(
    rt: HostRuntime,
) -> Result<(), Fail> {
    let (numbers, count) = drawn_by_four(&rt, rt.alloc(), 500).ok_or("the four workers")?;
    assert_eq!(rt; count, 2000);
    assert_eq!(rt; spread(numbers), Some((1, 2000, 2000)));
    Ok(())
}

#[test]
fn two_threads_draw_each_number_once(rt: HostRuntime) -> Result<(), Fail> {
    let numbers = drawn_by_two(&rt, rt.alloc(), 1000).ok_or("the two workers")?;
    assert_eq!(rt; spread(numbers), Some((1, 2000, 2000)));
    Ok(())
}

#[test]
fn a_refused_open_can_be_made_again(rt: HostRuntime) -> Result<(), Fail> {
    let opened = match Book::open(rt.alloc(), 2, 3) {
        Ok(opened) => opened,
        Err(_) => Book::open(rt.alloc(), 2, 3)?,
    };
    let (book, mut passes) = opened;
    let count = passes.len();
    let last = passes.pop();
    abandon_all(passes);
    assert_eq!(rt; count, 3);
    let mut last = DropPass::of(last).ok_or("pass 3")?;
    assert_eq!(rt; last.pass.number(), 3);
    assert_eq!(rt; book.drawn(&mut last.pass), 0);
    Ok(())
}

#[test]
fn a_book_is_used_by_its_name(rt: HostRuntime) -> Result<(), Fail> {
    let named = match open_by_name(rt.alloc()) {
        Ok(named) => named,
        Err(_) => open_by_name(rt.alloc())?,
    };
    let (_book, front) = named;
    front.legal();
    Ok(())
}

#[test]
fn no_number_past_the_limit_is_drawn(rt: HostRuntime) -> Result<(), Fail> {
    let (book, mut passes) = Book::open(rt.alloc(), 1, 1)?;
    let pass = passes.pop();
    abandon_all(passes);
    let mut seat = DropPass::of(pass).ok_or("pass 1")?;
    assert_eq!(rt; book.draw(&mut seat.pass, 1), Some(1));
    assert_eq!(rt; book.draw(&mut seat.pass, 1), None);
    assert_eq!(rt; book.draw(&mut seat.pass, 1), None);
    Ok(())
}

#[test]
fn the_shard_of_a_key_is_the_sum_of_its_bytes_modulo_the_shards(
    rt: HostRuntime,
) -> Result<(), Fail> {
    // The sum is 97 + 98 = 195, which is 17 * 11 + 8 and 3 * 64 + 3.
    assert_eq!(rt; shards_of(rt.alloc(), b"ab"), Some((0, 1, 8, 3)));
    // The sum is 64 * 126 = 8064, which is 733 * 11 + 1.
    assert_eq!(rt; shards_of(rt.alloc(), &[b'~'; 64]), Some((0, 0, 1, 0)));
    Ok(())
}

#[test]
fn a_book_says_how_its_table_keeps_steps(rt: HostRuntime) -> Result<(), Fail> {
    for keeping in [Keeping::Whole, Keeping::Streamed, Keeping::Unrecorded] {
        let (book, passes) = Book::open_keeping(rt.alloc(), 1, 1, keeping)?;
        abandon_all(passes);
        assert_eq!(rt; book.keeping(), keeping);
    }
    let (book, passes) = Book::open(rt.alloc(), 1, 1)?;
    abandon_all(passes);
    assert_eq!(rt; book.keeping(), Keeping::Whole);
    Ok(())
}
