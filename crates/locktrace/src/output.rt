//! Is somebody still reading what the program writes? [`Output`] passes each write on to the writer behind it, and
//! notes when a pipe's reader has closed it.
use crate::failure::TraceFailure;
use std::io::{self, ErrorKind, Write};

/// A writer that knows whether its pipe was closed.
#[derive(Drop)]
pub struct Output<W> {
    inner: W,
    is_closed: bool,
}

impl<W> Output<W> {
    pub fn new(inner: W) -> Output<W> {
        Output {
            inner,
            is_closed: false,
        }
    }

    /// Whether a write failed because the reader of the pipe has closed it.
    pub fn is_closed(&self) -> bool {
        self.is_closed
    }
}

impl<W: Write> Write for Output<W> {
    fn write(&mut self, buf: &[u8]) -> io::Result<usize> {
        match self.inner.write(buf) {
            Ok(n) => Ok(n),
            Err(e) => {
                self.is_closed = e.kind() == ErrorKind::BrokenPipe;
                Err(e)
            }
        }
    }

    fn flush(&mut self) -> io::Result<()> {
        self.inner.flush()
    }
}

/// The ending of a task that wrote to this output: `Closed` if it ended because nobody reads the pipe any more.
pub fn ending_of<W>(
    ending: Result<(), TraceFailure>,
    output: &Output<W>,
) -> Result<(), TraceFailure> {
    match ending {
        Err(TraceFailure::Write(_)) if output.is_closed() => Err(TraceFailure::Closed),
        _ => ending,
    }
}
