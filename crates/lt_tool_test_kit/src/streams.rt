//! Which readers and writers do the tests run on?
//! [`Torn`] and [`Paper`] read and write few bytes at a time and fail once.
ghost use Rattle.std.specs.Prelude.{◌≤◌};

use std::io;
use std::io::{ErrorKind, Read, Write};

/// How a read can fail.
pub const FAULTS_OF_READS: [ErrorKind; 2] = [ErrorKind::Other, ErrorKind::Interrupted];

/// How a write can fail. `None` is a write that takes no bytes and reports no error.
pub const FAULTS_OF_WRITES: [Option<ErrorKind>; 3] = [
    Some(ErrorKind::Other),
    Some(ErrorKind::Interrupted),
    None,
];

/// A writer that takes up to `at_once` bytes at a time. It fails once, when it holds `stops_at` bytes, and then
/// takes bytes again.
#[derive(Drop)]
pub struct Paper {
    bytes: [u8; 1024],
    len: usize,
    pub at_once: usize,
    pub stops_at: usize,
    pub fault: Option<ErrorKind>,
    has_stopped: bool,
}

/// A writer that holds nothing yet.
pub fn blank(at_once: usize, stops_at: usize) -> Paper {
    Paper {
        bytes: [0; 1024],
        len: 0,
        at_once,
        stops_at,
        fault: Some(ErrorKind::Other),
        has_stopped: false,
    }
}

impl Paper {
    /// The bytes that it holds.
    pub fn written(&self) -> &[u8] {
        match self.bytes.get(..self.len) {
            Some(written) => written,
            None => &[],
        }
    }

    /// How many bytes it holds when it next fails.
    fn end(&self) -> usize
        ensures { result ≤ 1024 }
    {
        if self.has_stopped {
            1024
        } else {
            self.stops_at.min(1024)
        }
    }
}

impl Write for Paper {
    fn write(&mut self, buf: &[u8]) -> io::Result<usize> {
        let end = self.end();
        if self.len >= end {
            self.has_stopped = true;
            return match self.fault {
                Some(kind) => Err(io::Error::from(kind)),
                None => Ok(0),
            };
        }
        let n = buf.len().min(self.at_once).min(end - self.len);
        let upto = self.len + n;
        self.bytes[self.len..upto].copy_from_slice(&buf[..n]);
        self.len = upto;
        Ok(n)
    }

    fn flush(&mut self) -> io::Result<()> {
        Ok(())
    }
}

/// A reader that gives a text, up to ten bytes at a time. It fails once, at the read with the index `fails_at`,
/// and then continues.
#[derive(Drop)]
pub struct Torn<'a> {
    pub rest: &'a [u8],
    pub reads: usize,
    pub fails_at: usize,
    pub fault: ErrorKind,
}

impl Read for Torn<'_> {
    fn read(&mut self, buf: &mut [u8]) -> io::Result<usize> {
        let number = self.reads;
        self.reads = number.saturating_add(1);
        if number == self.fails_at {
            return Err(io::Error::from(self.fault));
        }
        let n = buf.len().min(self.rest.len()).min(10);
        let (piece, rest) = self.rest.split_at(n);
        buf[..n].copy_from_slice(piece);
        self.rest = rest;
        Ok(n)
    }
}
