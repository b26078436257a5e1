//! How does a check show how far it is? If standard error is a terminal, a [`ProgressLine`] writes one line there, and
//! overwrites it while the check goes on.
use lt_checker::Report;
use lt_trace_check::CheckProgress;
use std::io::IsTerminal;
use std::time::{Duration, Instant};

/// The least time between two writes of the line, in milliseconds.
const PAUSE: u64 = 100;

/// The line that says how far a check is.
#[derive(Drop)]
pub struct ProgressLine<'a> {
    rt: &'a HostRuntime,
    /// Whether somebody sees the line.
    is_seen: bool,
    /// When the line was written, or when the check began. `None` if the clock cannot be read.
    latest: Option<Instant>,
    /// Whether the line was written and not ended.
    is_open: bool,
    /// How many bytes the text has, if that is known.
    len: Option<u64>,
    /// How many bytes were read.
    bytes: u64,
}

impl<'a> ProgressLine<'a> {
    /// The line of a check that begins now. Nothing is written yet.
    pub fn new(rt: &'a HostRuntime, len: Option<u64>) -> ProgressLine<'a> {
        ProgressLine {
            rt,
            is_seen: rt.stderr().is_terminal(),
            latest: Instant::now(rt).ok(),
            is_open: false,
            len,
            bytes: 0,
        }
    }

    /// Whether it is time to write the line again.
    fn is_due(&self, now: Instant) -> bool {
        match self.latest {
            Some(latest) => now.duration_since(latest) >= Duration::from_millis(PAUSE),
            None => false,
        }
    }

    /// Writes the line over the one before it. A failed write changes nothing else.
    fn write(&self, report: &Report) {
        let Report { keys, steps, .. } = *report;
        let bytes = self.bytes;
        let _written = match self.len {
            Some(len) => eprint!(self.rt; "\r{bytes} of {len} bytes, {keys} keys, {steps} steps"),
            None => eprint!(self.rt; "\r{bytes} bytes, {keys} keys, {steps} steps"),
        };
    }

    /// Ends the line, if it was written.
    pub fn end(&mut self) {
        if self.is_open {
            self.is_open = false;
            let _written = eprintln!(self.rt);
        }
    }
}

impl<'a> CheckProgress for ProgressLine<'a> {
    fn advance(&mut self, bytes: u64, report: &Report) {
        self.bytes = self.bytes.saturating_add(bytes);
        if !self.is_seen {
            return;
        }
        let Ok(now) = Instant::now(self.rt) else {
            return;
        };
        if self.is_due(now) {
            self.latest = Some(now);
            self.is_open = true;
            self.write(report);
        }
    }
}
