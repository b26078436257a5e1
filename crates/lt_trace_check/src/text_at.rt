//! How do several threads read one text?
//!
//! [`TextAt`] is a text whose bytes can be read at any offset. A slice is one, and so is a file. [`TextReader`] reads
//! such a text from an offset on. Read next: `specs/KnownText.antt` for what a read gives, and `parallel.rt` for the
//! check that reads so.
ghost use Rattle.std.specs.Prelude.{◌≡◌, List, ℕ, Option, None, Some, length, IfOk, IfSome};
ghost use Rattle.std.specs.Io.{ReadsAtMost};
ghost use Rattle.lt_trace_check.specs.KnownText.{known_from, ReadsAt};

use std::fs::File;
use std::io;
use std::io::{ErrorKind, Read};
use std::os::unix::fs::FileExt;

/// A text whose bytes can be read at any offset, by several threads at once.
pub trait TextAt {
    // The bytes of the text, where they are known.
    ghost contents: { Self → Option (List ℕ) } = { λ _. None };

    /// The length of the text in bytes.
    fn len(&self) -> io::Result<u64>
        ensures { IfOk result (λ n. IfSome (contents self.now) (λ all. n ≡ length all)) };

    /// Reads bytes from this offset on, and returns how many came. 0 means the end of the text, or no room.
    fn read_at(&self, buf: &mut [u8], offset: u64) -> io::Result<usize>
        ensures bound { ReadsAtMost result buf.new }
        ensures bytes { ReadsAt (contents self.now) offset result buf.new };
}

// A file that has offsets. A read of a pipe or a terminal fails here.
impl TextAt for File {
    fn len(&self) -> io::Result<u64> {
        Ok(self.metadata()?.len())
    }

    fn read_at(&self, buf: &mut [u8], offset: u64) -> io::Result<usize> {
        FileExt::read_at(self, buf, offset)
    }
}

impl<'a> TextAt for &'a [u8] {
    ghost contents = { λ s. Some s.now };

    fn len(&self) -> io::Result<u64> {
        let all: &[u8] = *self;
        Ok(all.len() as u64)
    }

    fn read_at(&self, buf: &mut [u8], offset: u64) -> io::Result<usize> {
        let all: &[u8] = *self;
        let start = all.len().min(offset as usize);
        let (_, mut rest) = all.split_at(start);
        rest.read(buf)
    }
}

/// Reads a text from an offset on.
#[derive(Drop)]
pub(crate) struct TextReader<'a, T> {
    pub text: &'a T,
    /// The offset of the next byte.
    pub at: u64,
}

impl<'a, T: TextAt> Read for TextReader<'a, T> {
    ghost remaining = { λ r. known_from (T.contents r.text.now) r.at };

    fn read(&mut self, buf: &mut [u8]) -> io::Result<usize> {
        let n = self.text.read_at(buf, self.at)?;
        match self.at.checked_add(n as u64) {
            Some(at) => {
                self.at = at;
                Ok(n)
            }
            None => Err(io::Error::from(ErrorKind::InvalidInput)),
        }
    }
}
