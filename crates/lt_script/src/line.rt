//! What does one line of a script ask for?
//!
//! `read_line` parses the words of a line from left to right, stops at the first fault, and appends the command. Each
//! function here reads one word, a fixed number of words, or the arguments of one call. Read next: `specs/Script.antt`,
//! which defines the same reading under the same names, and `words.rt`, which splits a line into words.
ghost use Rattle.std.specs.Prelude.{◌≡◌, Ok};
ghost use Rattle.lt_text.specs.Fields.{number_within};
ghost use Rattle.lt_script.specs.Lines.{is_comment};
ghost use Rattle.lt_script.specs.Reading.{IsParsedAs};
ghost use Rattle.lt_script.specs.Script.{pass_of, txn_of, parsed_owner, ts_of, key_of, split_access, names_access, is_for_bound, longest_of, parsed_access, accesses_of, next_of, none_of, one_of, two_of, three_of, open_of, look_of, acquire_of, update_of, parsed_finish, alone, action_named, action_of, with_command, command_so_far, parsed_line_of, line_of, lines_so_far};

use crate::error::{LineError, ScriptFault};
use crate::words::SpacedWords;
use crate::{Accesses, Action, Command, ScriptPass};
use lt_ids::{Access, IdError, Key, Timestamp, TxnId};
use lt_text::field;
use lt_text::number::number;
use lt_text::words::is_name;
use std::alloc::Global;

fn pass_in(word: &[u8]) -> Option<ScriptPass>
    ensures { result ≡ number_within 1 65 word.now }
{
    ScriptPass::new(u32::try_from(number(word)?).ok()?)
}

fn pass(word: &[u8]) -> Result<ScriptPass, LineError>
    ensures { IsParsedAs (λ pass. pass) result (pass_of word.now) }
{
    match pass_in(word) {
        Some(pass) => Ok(pass),
        None => Err(LineError::Fault(ScriptFault::BadPass)),
    }
}

fn txn(word: &[u8]) -> Result<TxnId, LineError>
    ensures { IsParsedAs (λ txn. txn) result (txn_of word.now) }
{
    match field::txn(word) {
        Some(txn) => Ok(txn),
        None => Err(LineError::Fault(ScriptFault::BadTxn)),
    }
}

/// The transaction of a request, or none if the word is `-`.
fn owner(word: &[u8]) -> Result<Option<TxnId>, LineError>
    ensures { IsParsedAs (λ txn. txn) result (parsed_owner word.now) }
{
    match field::owner(word) {
        Some(txn) => Ok(txn),
        None => Err(LineError::Fault(ScriptFault::BadTxn)),
    }
}

fn timestamp(word: &[u8]) -> Result<Timestamp, LineError>
    ensures { IsParsedAs (λ ts. ts) result (ts_of word.now) }
{
    match field::timestamp(word) {
        Some(ts) => Ok(ts),
        None => Err(LineError::Fault(ScriptFault::BadTime)),
    }
}

fn key(alloc: Global, word: &[u8]) -> Result<Key, LineError>
    ensures { IsParsedAs (λ key. key) result (key_of word.now) }
{
    match Key::from_bytes(alloc, word) {
        Ok(key) => Ok(key),
        Err(IdError::Memory) => Err(LineError::Memory),
        Err(_) => Err(LineError::Fault(ScriptFault::BadKey)),
    }
}

/// Splits a word into the bytes of its key and the access that its last two bytes name.
#[tactic(auto, unfolding(crate::specs::Script::split_access))]
fn split_access(word: &[u8]) -> Result<(&[u8], Access), LineError>
    ensures { IsParsedAs (λ parts. (parts.0.now, parts.1)) result (split_access word.now) }
{
    if let Some(key) = word.strip_suffix(b":r") {
        return Ok((key, Access::Read));
    }
    if let Some(key) = word.strip_suffix(b":w") {
        return Ok((key, Access::Write));
    }
    Err(LineError::Fault(ScriptFault::BadAccess))
}

/// A key with its access. The access is checked first.
fn access(alloc: Global, word: &[u8]) -> Result<(Key, Access), LineError>
    ensures { IsParsedAs (λ access. access) result (parsed_access word.now) }
{
    let (key_word, access) = split_access(word)?;
    let key = key(alloc, key_word)?;
    Ok((key, access))
}

/// Whether the last two bytes of the word name an access.
fn names_access(word: &[u8]) -> bool
    ensures { result ≡ names_access word.now }
{
    word.strip_suffix(b":r").is_some() || word.strip_suffix(b":w").is_some()
}

/// Whether the word is meant as a bound: it begins like one, and is not a key with its access.
fn is_for_bound(word: &[u8]) -> bool
    ensures { result ≡ is_for_bound word.now }
{
    field::is_bound(word) && !names_access(word)
}

/// The bound, if the next word is meant as one. Otherwise 0, and the word stays unread.
#[tactic(auto, unfolding(crate::specs::Script::longest_of))]
fn longest(words: &mut SpacedWords) -> Result<u32, LineError>
    ensures { IsParsedAs (λ longest. (longest, words.new)) result (longest_of words.old) }
{
    let Some(word) = words.peek() else {
        return Ok(0);
    };
    if !is_for_bound(word) {
        return Ok(0);
    }
    let _ = words.next();
    match field::bound(word) {
        Some(longest) => Ok(longest),
        None => Err(LineError::Fault(ScriptFault::BadMax)),
    }
}

/// Parses all remaining words as keys with their accesses. Allocates room for one at first, since most requests
/// name one.
fn accesses(alloc: Global, words: &mut SpacedWords) -> Result<Accesses, LineError>
    ensures { IsParsedAs (λ accesses. accesses) result (accesses_of words.old) }
{
    let mut list = Vec::with_capacity(alloc, 1)?;
    while let Some(word) = words.next() {
        list.push(access(alloc, word)?)?;
    }
    Ok(Accesses::new(list))
}

/// The next word. More words may follow it.
fn next<'a>(words: &mut SpacedWords<'a>) -> Result<&'a [u8], LineError>
    ensures { IsParsedAs (λ word. (word.now, words.new)) result (next_of words.old) }
{
    match words.next() {
        Some(word) => Ok(word),
        None => Err(LineError::Fault(ScriptFault::BadWords)),
    }
}

/// Checks that no word remains.
#[inline(always)]
fn none(words: &mut SpacedWords) -> Result<(), LineError>
    ensures { IsParsedAs (λ _. tt) result (none_of words.old) }
{
    match words.next() {
        None => Ok(()),
        Some(_) => Err(LineError::Fault(ScriptFault::BadWords)),
    }
}

/// The one word that remains.
fn one<'a>(words: &mut SpacedWords<'a>) -> Result<&'a [u8], LineError>
    ensures { IsParsedAs (λ word. word.now) result (one_of words.old) }
{
    let Some(word) = words.next() else {
        return Err(LineError::Fault(ScriptFault::BadWords));
    };
    none(words)?;
    Ok(word)
}

/// The two words that remain.
fn two<'a>(words: &mut SpacedWords<'a>) -> Result<(&'a [u8], &'a [u8]), LineError>
    ensures { IsParsedAs (λ two. (two.0.now, two.1.now)) result (two_of words.old) }
{
    let Some(first) = words.next() else {
        return Err(LineError::Fault(ScriptFault::BadWords));
    };
    let second = one(words)?;
    Ok((first, second))
}

/// The three words that remain.
fn three<'a>(words: &mut SpacedWords<'a>) -> Result<(&'a [u8], &'a [u8], &'a [u8]), LineError>
    ensures { IsParsedAs (λ three. (three.0.now, three.1.now, three.2.now)) result (three_of words.old) }
{
    let Some(first) = words.next() else {
        return Err(LineError::Fault(ScriptFault::BadWords));
    };
    let (second, third) = two(words)?;
    Ok((first, second, third))
}

#[tactic(auto, unfolding(crate::specs::Script::open_of))]
fn open(alloc: Global, args: &mut SpacedWords) -> Result<Action, LineError>
    ensures { IsParsedAs (λ action. action) result (open_of args.old) }
{
    let txn_word = next(args)?;
    let ts_word = next(args)?;
    let txn = owner(txn_word)?;
    let ts = timestamp(ts_word)?;
    let longest = longest(args)?;
    let accesses = accesses(alloc, args)?;
    Ok(Action::Open {
        txn,
        ts,
        accesses,
        longest,
    })
}

#[tactic(auto, unfolding(crate::specs::Script::look_of))]
fn look(alloc: Global, args: &mut SpacedWords) -> Result<Action, LineError>
    ensures { IsParsedAs (λ action. action) result (look_of args.old) }
{
    let key_word = one(args)?;
    let key = key(alloc, key_word)?;
    Ok(Action::Look { key })
}

#[tactic(auto, unfolding(crate::specs::Script::acquire_of))]
fn acquire(alloc: Global, args: &mut SpacedWords) -> Result<Action, LineError>
    ensures { IsParsedAs (λ action. action) result (acquire_of args.old) }
{
    let (txn_word, ts_word, key_word) = three(args)?;
    let txn = txn(txn_word)?;
    let ts = timestamp(ts_word)?;
    let key = key(alloc, key_word)?;
    Ok(Action::Acquire { txn, ts, key })
}

#[tactic(auto, unfolding(crate::specs::Script::update_of))]
fn update(alloc: Global, args: &mut SpacedWords) -> Result<Action, LineError>
    ensures { IsParsedAs (λ action. action) result (update_of args.old) }
{
    let (txn_word, ts_word, key_word) = three(args)?;
    let txn = txn(txn_word)?;
    let ts = timestamp(ts_word)?;
    let key = key(alloc, key_word)?;
    Ok(Action::Update { txn, ts, key })
}

#[inline(always)]
#[tactic(auto, unfolding(crate::specs::Script::parsed_finish))]
fn finish(alloc: Global, args: &mut SpacedWords) -> Result<Action, LineError>
    ensures { IsParsedAs (λ action. action) result (parsed_finish args.old) }
{
    let (txn_word, key_word) = two(args)?;
    let txn = txn(txn_word)?;
    let key = key(alloc, key_word)?;
    Ok(Action::Finish { txn, key })
}

/// A call without arguments.
#[inline(always)]
fn alone(action: Action, args: &mut SpacedWords) -> Result<Action, LineError>
    ensures { IsParsedAs (λ action. action) result (alone action args.old) }
{
    none(args)?;
    Ok(action)
}

/// Appends the command of this line and pass. It is inlined, so that an action is built where it stays.
#[inline(always)]
fn put(
    commands: &mut Vec<Command>,
    line: usize,
    pass: ScriptPass,
    action: Action,
) -> Result<(), LineError>
    ensures { IsParsedAs (λ _. commands.new.items) result (Ok (with_command line pass commands.old.items action)) }
{
    commands.push(Command { line, pass, action })?;
    Ok(())
}

/// Appends the command with the call of this name, which has these arguments.
#[tactic(auto, unfolding(crate::specs::Script::action_named))]
fn put_named(
    commands: &mut Vec<Command>,
    line: usize,
    pass: ScriptPass,
    name: &[u8],
    args: &mut SpacedWords,
) -> Result<(), LineError>
    ensures { IsParsedAs (λ _. commands.new.items) result
        (command_so_far line pass commands.old.items (action_named name.now args.old)) }
{
    let alloc = *commands.allocator();
    if is_name(name, b"open") {
        return put(commands, line, pass, open(alloc, args)?);
    }
    if is_name(name, b"scan") {
        return put(commands, line, pass, alone(Action::Scan, args)?);
    }
    if is_name(name, b"await") {
        return put(commands, line, pass, alone(Action::Await, args)?);
    }
    if is_name(name, b"look") {
        return put(commands, line, pass, look(alloc, args)?);
    }
    if is_name(name, b"acquire") {
        return put(commands, line, pass, acquire(alloc, args)?);
    }
    if is_name(name, b"update") {
        return put(commands, line, pass, update(alloc, args)?);
    }
    if is_name(name, b"finish") {
        return put(commands, line, pass, finish(alloc, args)?);
    }
    if is_name(name, b"leave") {
        return put(commands, line, pass, alone(Action::Leave, args)?);
    }
    Err(LineError::Fault(ScriptFault::BadCall))
}

/// Appends the command with the call that these words spell, its name first.
fn put_action(
    commands: &mut Vec<Command>,
    line: usize,
    pass: ScriptPass,
    words: &mut SpacedWords,
) -> Result<(), LineError>
    ensures { IsParsedAs (λ _. commands.new.items) result
        (command_so_far line pass commands.old.items (action_of words.old)) }
{
    let Some(name) = words.next() else {
        return Err(LineError::Fault(ScriptFault::BadCall));
    };
    put_named(commands, line, pass, name, words)
}

/// Appends the command that these words spell, its pass first, if there are any words.
#[tactic(auto, using(crate::proofs::Fronts::of_action))]
fn put_command(
    commands: &mut Vec<Command>,
    line: usize,
    words: &mut SpacedWords,
) -> Result<(), LineError>
    ensures { IsParsedAs (λ _. commands.new.items) result
        (lines_so_far line commands.old.items (parsed_line_of words.old)) }
{
    let Some(word) = words.next() else {
        return Ok(());
    };
    let pass = pass(word)?;
    put_action(commands, line, pass, words)
}

fn is_comment(line: &[u8]) -> bool
    ensures { result ≡ is_comment line.now }
{
    match line.first() {
        None => false,
        Some(byte) => *byte == b'#',
    }
}

/// Parses a line, given without its line end, and appends its command, if it has one. A comment and a line without words
/// ask for nothing.
pub(crate) fn read_line(
    commands: &mut Vec<Command>,
    line: usize,
    bytes: &[u8],
) -> Result<(), LineError>
    ensures { IsParsedAs (λ _. commands.new.items) result (lines_so_far line commands.old.items (line_of bytes.now)) }
{
    if is_comment(bytes) {
        return Ok(());
    }
    put_command(commands, line, &mut SpacedWords::new(bytes))
}
