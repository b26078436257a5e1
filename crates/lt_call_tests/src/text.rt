//! How are calls of a table written as lines of text?
//!
//! A line begins with the index of the pass that makes the call, from 0. A key is named by a byte, and the logical
//! part of every time is 0. `playing` and `keeping` play the lines.
//!
//! | line | the call |
//! |---|---|
//! | `0 enter 1 20 crawbw 0` | a request of transaction 1 at time 20 that reads c, writes a and b, and has no bound |
//! | `0 many 128 2` | a request of transaction 1 that writes 128 keys and names two of them twice |
//! | `0 scan`, `0 poll`, `0 leave` | a call of the pass's request |
//! | `0 acquire 9 10 a` | transaction 9 takes the lock of the key a at time 10 |
//! | `0 finish 9 a` | transaction 9 frees the lock of the key a |
//!
//! In `enter`, a hyphen means no transaction or no accesses. The last number is the bound, and 0 means no bound.

use lt_ids::Access;
use lt_test_kit::command::{CallOutcome, CommandRow, TableCommand};
use std::alloc::Global;

/// The words of a line.
fn words_of(alloc: Global, line: &str) -> Option<Vec<&str>> {
    let mut words = Vec::new(alloc);
    for word in line.split_ascii_whitespace() {
        words.push(word).ok()?;
    }
    Some(words)
}

fn number_at(words: &[&str], at: usize) -> Option<u64> {
    words.get(at)?.parse::<u64>().ok()
}

fn index_at(words: &[&str], at: usize) -> Option<usize> {
    words.get(at)?.parse::<usize>().ok()
}

fn bound_at(words: &[&str], at: usize) -> Option<u32> {
    words.get(at)?.parse::<u32>().ok()
}

fn key_at(words: &[&str], at: usize) -> Option<u8> {
    words.get(at)?.as_bytes().first().copied()
}

fn access_of(byte: u8) -> Access {
    if byte == b'w' {
        Access::Write
    } else {
        Access::Read
    }
}

fn accesses_of(alloc: Global, text: &[u8]) -> Option<Vec<(u8, Access)>> {
    let mut accesses = Vec::new(alloc);
    for pair in text.chunks_exact(2) {
        accesses.push((pair[0], access_of(pair[1]))).ok()?;
    }
    Some(accesses)
}

fn enter_of(alloc: Global, words: &[&str]) -> Option<TableCommand> {
    let wall = number_at(words, 3)?;
    let text = words.get(4)?.as_bytes();
    let longest = bound_at(words, 5)?;
    Some(TableCommand::Enter {
        txn: number_at(words, 2),
        wall,
        accesses: accesses_of(alloc, text)?,
        longest,
    })
}

fn acquire_of(words: &[&str]) -> Option<TableCommand> {
    Some(TableCommand::Acquire {
        txn: number_at(words, 2)?,
        wall: number_at(words, 3)?,
        key: key_at(words, 4)?,
    })
}

fn finish_of(words: &[&str]) -> Option<TableCommand> {
    Some(TableCommand::Finish {
        txn: number_at(words, 2)?,
        key: key_at(words, 3)?,
    })
}

fn many_of(words: &[&str]) -> Option<TableCommand> {
    Some(TableCommand::EnterMany {
        keys: index_at(words, 2)?,
        twice: index_at(words, 3)?,
    })
}

/// The call that these words name.
fn command_of(alloc: Global, words: &[&str]) -> Option<TableCommand> {
    match *words.get(1)? {
        "enter" => enter_of(alloc, words),
        "many" => many_of(words),
        "scan" => Some(TableCommand::Scan),
        "poll" => Some(TableCommand::Poll),
        "acquire" => acquire_of(words),
        "finish" => finish_of(words),
        "leave" => Some(TableCommand::Leave),
        _ => None,
    }
}

/// The index of the pass, and the call of a line. `None` if the line is no call or an allocation fails.
pub fn call_of(alloc: Global, line: &str) -> Option<(usize, TableCommand)> {
    let words = words_of(alloc, line)?;
    let pass = index_at(&words, 0)?;
    Some((pass, command_of(alloc, &words)?))
}

fn row_of(alloc: Global, line: &str) -> Option<CommandRow> {
    let (pass, command) = call_of(alloc, line)?;
    Some((pass, command, CallOutcome::Nothing))
}

/// The calls of a text, in the order of its lines. `None` if a line is no call or an allocation fails.
pub fn rows_of(alloc: Global, text: &str) -> Option<Vec<CommandRow>> {
    let mut rows = Vec::new(alloc);
    for line in text.lines() {
        rows.push(row_of(alloc, line)?).ok()?;
    }
    Some(rows)
}
