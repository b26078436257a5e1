//! How do sorted lines become text? A [`Page`] holds the bytes that are to be written next. A plain page has lines as
//! they were read, for a temporary file. A numbered page has the text of histories: the line `locks 2`, and then each
//! line with its index after its key.
ghost use Rattle.std.specs.Prelude.{◌≡◌, ◌+◌, ◌^◌, [], codes, None, IsSome, OnOk, IfOk, IfErr, IfSome, IfNone};
ghost use Rattle.std.specs.Io.KnownBytes.{Appends};
ghost use Rattle.lt_trace.specs.Errors.{IsOfOutput};
ghost use Rattle.lt_checker.specs.Sorted.{next_index};
ghost use Rattle.lt_trace.specs.Sorting.{counted};
ghost use Rattle.lt_trace.specs.Page.{AppendsPlain, AppendsNumbered, CountsLine, WritesFront};

use crate::error::{SortError, stream_error};
use crate::line::TraceLine;
use crate::sort::SortReport;
use lt_ids::Key;
use std::alloc::{AllocError, Global};
use std::io::Write;

/// How many bytes are written at once, but for the last ones.
const AT_ONCE: usize = 1 << 16;

/// The key and the index of the last line, and how many keys and lines there were.
#[derive(Drop)]
pub(crate) struct KeyCounter {
    key: Vec<u8>,
    index: u64,
    keys: u64,
    steps: u64,
}

/// The index of a line of `key` after a line of the key `before` with this index. `None` if there is no such number.
fn next_index(before: &[u8], index: u64, key: &[u8]) -> Option<u64>
    ensures some { IfSome result (λ i. i ≡ next_index before.now index key.now) }
    ensures none { IfNone result (index + 1 ≡ 2 ^ 64) }
{
    if key == before {
        index.checked_add(1)
    } else {
        Some(1)
    }
}

impl KeyCounter {
    fn new(alloc: Global) -> KeyCounter
        ensures key { result.key.items ≡ [] }
        ensures index { result.index ≡ 0 }
        ensures keys { result.keys ≡ 0 }
        ensures steps { result.steps ≡ 0 }
    {
        KeyCounter {
            key: Vec::new(alloc),
            index: 0,
            keys: 0,
            steps: 0,
        }
    }

    /// Counts a line of this key, and returns its index within the key.
    fn count(&mut self, key: &Key) -> Result<u64, SortError>
        ensures failed { IfErr result IsOfOutput }
        ensures ok { IfOk result (λ i. CountsLine self.old self.new key.now i) }
    {
        let Some(index) = next_index(&self.key, self.index, key.as_bytes()) else {
            return Err(SortError::TooManySteps);
        };
        let (Some(keys), Some(steps)) = (self.keys.checked_add(1), self.steps.checked_add(1)) else {
            return Err(SortError::TooManySteps);
        };
        if index == 1 {
            self.key.clear();
            self.key.extend_from_slice(key.as_bytes())?;
            self.keys = keys;
        }
        self.index = index;
        self.steps = steps;
        Ok(index)
    }
}

#[derive(Drop)]
pub(crate) struct Page {
    bytes: Vec<u8>,
    counter: Option<KeyCounter>,
}

impl Page {
    /// A page for lines as they were read.
    pub fn plain(alloc: Global) -> Page
        ensures bytes { result.bytes.items ≡ [] }
        ensures counter { result.counter ≡ None }
    {
        Page {
            bytes: Vec::new(alloc),
            counter: None,
        }
    }

    /// A page for the text of histories, with its first line.
    pub fn numbered(alloc: Global) -> Result<Page, AllocError>
        ensures bytes { IfOk result (λ p. p.bytes.items ≡ codes "locks 2\n") }
        ensures counter { IfOk result (λ p. IfSome p.counter (λ c. c.index ≡ 0)) }
        ensures key { IfOk result (λ p. IfSome p.counter (λ c. c.key.items ≡ [])) }
        ensures keys { IfOk result (λ p. IfSome p.counter (λ c. c.keys ≡ 0)) }
        ensures steps { IfOk result (λ p. IfSome p.counter (λ c. c.steps ≡ 0)) }
        ensures numbers { IfOk result (λ p. IsSome p.counter) }
    {
        let mut bytes = Vec::new(alloc);
        bytes.extend_from_slice(b"locks 2\n")?;
        Ok(Page {
            bytes,
            counter: Some(KeyCounter::new(alloc)),
        })
    }

    /// Appends the line, which follows those before it in the order of keys.
    pub fn put(&mut self, line: &TraceLine) -> Result<(), SortError>
        ensures failed { IfErr result IsOfOutput }
        ensures plain { OnOk result (IfNone self.old.counter (AppendsPlain self.old self.new line.now)) }
        ensures numbered { OnOk result (AppendsNumbered self.old self.new line.now self.old.counter self.new.counter) }
    {
        let Some(counter) = &mut self.counter else {
            line.put(&mut self.bytes)?;
            return Ok(());
        };
        let index = counter.count(&line.key)?;
        line.put_numbered(&mut self.bytes, index)?;
        Ok(())
    }

    /// Writes what is on the page, which is then empty.
    pub fn write<W: Write>(&mut self, writer: &mut W, fault: SortError) -> Result<(), SortError>
        ensures failed { IsOfOutput fault → IfErr result IsOfOutput }
        ensures written { OnOk result (Appends (W.contents writer.old) (W.contents writer.new) self.old.bytes.items) }
        ensures empty { OnOk result (self.new.bytes.items ≡ []) }
        ensures counter { self.new.counter ≡ self.old.counter }
    {
        match writer.write_all(&self.bytes) {
            Ok(()) => {
                self.bytes.clear();
                Ok(())
            }
            Err(e) => Err(stream_error(&e, fault)),
        }
    }

    /// Writes what is on the page, if it is full.
    pub fn write_if_full<W: Write>(
        &mut self,
        writer: &mut W,
        fault: SortError,
    ) -> Result<(), SortError>
        ensures failed { IsOfOutput fault → IfErr result IsOfOutput }
        ensures written { OnOk result (WritesFront (W.contents writer.old) (W.contents writer.new) self.old.bytes.items self.new.bytes.items) }
        ensures counter { self.new.counter ≡ self.old.counter }
    {
        if self.bytes.len() < AT_ONCE {
            return Ok(());
        }
        self.write(writer, fault)
    }

    /// The numbers of keys and steps that were numbered.
    pub fn report(&self, runs: u64) -> SortReport
        ensures runs { result.runs ≡ runs }
        ensures keys { result.keys ≡ (counted self.now.counter []).0 }
        ensures steps { result.steps ≡ (counted self.now.counter []).1 }
    {
        match &self.counter {
            None => SortReport {
                keys: 0,
                steps: 0,
                runs,
            },
            Some(counter) => SortReport {
                keys: counter.keys,
                steps: counter.steps,
                runs,
            },
        }
    }
}
