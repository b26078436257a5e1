//! What is a line of a trace? [`TraceLine::read`] reads one in the word form, given without its line end: the
//! line of a step of histories without its index. Read next: `specs/Step.antt`, which defines what is read, and
//! `object.rt` for the form of JSON.
ghost use Rattle.std.specs.Prelude.{◌≡◌, ◌==◌, ◌++◌, ◌∷◌, [], OnOk, IfOk, is_some, true};
ghost use Rattle.std.specs.Ordering.{nat_cmp};
ghost use Rattle.std.specs.Cmp.Lexicographic.{slice_cmp};
ghost use Rattle.std.specs.Option.{option_map};
ghost use Rattle.lt_checker.specs.Lines.{key_if_legal, lets_in_words};
ghost use Rattle.lt_trace.specs.Step.{is_step_text, line_of_parts, trace_line_of};

use lt_checker::{HistoryLineError, read_lets, read_step};
use lt_ids::{IdError, Key};
use lt_text::put::{put_number_word, put_word};
use lt_text::words::{Words, cut};
use std::alloc::{AllocError, Global};

/// A line of a trace: its key, and the bytes of its step after the key and a space.
#[derive(Drop)]
pub(crate) struct TraceLine {
    pub key: Key,
    step: Vec<u8>,
    ghost is_step: { is_step_text step.items ≡ true },
}

/// Whether the remaining words are `let` and one ticket or more, or none.
fn are_lets(alloc: Global, words: &mut Words) -> Result<bool, AllocError>
    ensures { IfOk result (λ are. are ≡ is_some (lets_in_words words.old)) }
{
    match read_lets(alloc, words) {
        Ok(_) => Ok(true),
        Err(HistoryLineError::Memory) => Err(AllocError),
        Err(HistoryLineError::Fault(_)) => Ok(false),
    }
}

/// Whether these bytes, which stand after a key and a space, spell a step without an index.
#[tactic(auto, unfolding(crate::specs::Step::are_step_words))]
fn is_step(alloc: Global, bytes: &[u8]) -> Result<bool, AllocError>
    ensures { IfOk result (λ is. is ≡ is_step_text bytes.now) }
{
    let mut words = Words::new(bytes);
    if read_step(&mut words, false).is_none() {
        return Ok(false);
    }
    are_lets(alloc, &mut words)
}

/// The key with these bytes, or `None` if they are not those of a key.
fn key(alloc: Global, word: &[u8]) -> Result<Option<Key>, AllocError>
    ensures { IfOk result (λ o. o ≡ key_if_legal word.now) }
{
    match Key::from_bytes(alloc, word) {
        Ok(key) => Ok(Some(key)),
        Err(IdError::Memory) => Err(AllocError),
        Err(_) => Ok(None),
    }
}

impl TraceLine {
    ghost use Rattle.lt_trace.specs.Trace.{parts_of_line, plain_text, numbered_text};

    /// The line with this key and these bytes after it and a space, or `None` if they spell no line of a trace.
    pub(crate) fn from_parts(
        alloc: Global,
        word: &[u8],
        step: &[u8],
    ) -> Result<Option<TraceLine>, AllocError>
        ensures { IfOk result (λ o. option_map parts_of_line o ≡ line_of_parts word.now step.now) }
    {
        if !is_step(alloc, step)? {
            return Ok(None);
        }
        let Some(key) = key(alloc, word)? else {
            return Ok(None);
        };
        let mut bytes = Vec::new(alloc);
        bytes.extend_from_slice(step)?;
        Ok(Some(TraceLine { key, step: bytes }))
    }

    /// Reads a line in the word form, given without its line end. `None` if it is not a line of a trace.
    pub(crate) fn read(alloc: Global, bytes: &[u8]) -> Result<Option<TraceLine>, AllocError>
        ensures { IfOk result (λ o. option_map parts_of_line o ≡ trace_line_of bytes.now) }
    {
        match cut(bytes, b' ') {
            None => Ok(None),
            Some((word, step)) => TraceLine::from_parts(alloc, word, step),
        }
    }

    /// How many bytes of memory it takes beside its entry in a list. A key of more than 22 bytes is in an allocation
    /// of its own.
    pub(crate) fn size(&self) -> usize {
        let key: usize = if self.key.as_bytes().len() > 22 {
            64
        } else {
            0
        };
        self.step.capacity().saturating_add(key)
    }

    /// Appends the line as it was read, with its line end.
    pub(crate) fn put(&self, out: &mut Vec<u8>) -> Result<(), AllocError>
        ensures { OnOk result (out.new.items ≡ out.old.items ++ plain_text self.now) }
    {
        out.extend_from_slice(self.key.as_bytes())?;
        put_word(out, &self.step)?;
        out.push(b'\n')?;
        Ok(())
    }

    /// Appends the line with this index after its key, and its line end.
    pub(crate) fn put_numbered(&self, out: &mut Vec<u8>, index: u64) -> Result<(), AllocError>
        ensures { OnOk result (out.new.items ≡ out.old.items ++ numbered_text index self.now) }
    {
        out.extend_from_slice(self.key.as_bytes())?;
        put_number_word(out, index)?;
        put_word(out, &self.step)?;
        out.push(b'\n')?;
        Ok(())
    }
}
