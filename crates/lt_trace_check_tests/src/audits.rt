//! Do the check of a stream and the check in pieces give the verdict of `lt_checker::check`?
//!
//! `TEXTS` has legal texts of several keys, and texts with one fault each. Every text is checked in pieces of every
//! size, and with a cut at every offset. Then its reads stop short, and fail.
use lt_checker::{CheckError, Report, check};
use lt_trace_check::{AuditError, CutPlan, TextAt, check_pieces, check_stream};
use std::alloc::Global;
use std::io;
use std::io::{BufReader, ErrorKind, Read};
use std::thread::Threads;

/// Two legal texts; then a wrong reply, a wrong index, a key that comes too late, a key that comes twice, a last line
/// without its end, and a line without words.
const TEXTS: [&str; 8] = [
    "locks 2\na 1 1 acquire 7 20.0 = taken\na 2 2 acquire 8 20.0 = other\nb 1 1 acquire 7 20.0 = taken\nd 1 1 acquire 9 20.0 = taken\nd 2 1 finish 9 = freed\n",
    "locks 1\n",
    "locks 2\na 1 1 acquire 7 20.0 = taken\nb 1 1 acquire 7 20.0 = other\nc 1 1 acquire 7 20.0 = taken\n",
    "locks 2\na 1 1 acquire 7 20.0 = taken\nb 1 1 acquire 7 20.0 = taken\nb 3 1 finish 7 = freed\n",
    "locks 2\na 1 1 acquire 7 20.0 = taken\nc 1 1 acquire 7 20.0 = taken\nb 1 1 acquire 7 20.0 = taken\n",
    "locks 2\na 1 1 acquire 7 20.0 = taken\na 1 1 acquire 7 20.0 = taken\nb 1 1 acquire 7 20.0 = taken\n",
    "locks 2\na 1 1 acquire 7 20.0 = taken\nb 1 1 acquire 7 20.0 = taken",
    "locks 2\na 1 1 acquire 7 20.0 = taken\n\nb 1 1 acquire 7 20.0 = taken\n",
];

type Verdict = Result<Report, AuditError>;

/// The verdict of `lt_checker::check`.
fn expected(alloc: Global, text: &[u8]) -> Verdict {
    match check(alloc, text) {
        Ok(report) => Ok(report),
        Err(refusal) => Err(AuditError::Check(refusal)),
    }
}

/// The verdict of the check with a cut at this offset.
fn verdict_with_cut<H: Threads + Sync>(
    threads: &H,
    alloc: Global,
    text: &[u8],
    cut: usize,
) -> Verdict {
    let cuts = [cut as u64];
    check_pieces(threads, alloc, &text, &CutPlan::At(&cuts), &mut ())
}

/// The verdict of the check in pieces of this size.
fn verdict_by_size<H: Threads + Sync>(
    threads: &H,
    alloc: Global,
    text: &[u8],
    size: usize,
) -> Verdict {
    let plan = CutPlan::AtKeys {
        pieces: 1 + size % 3,
        size: size as u64,
        look: 100,
    };
    check_pieces(threads, alloc, &text, &plan, &mut ())
}

/// A text whose reads give at most three bytes, and fail from an offset on.
#[derive(Drop)]
struct TornText<'a> {
    text: &'a [u8],
    fails_at: u64,
}

impl<'a> TextAt for TornText<'a> {
    fn len(&self) -> io::Result<u64> {
        Ok(self.text.len() as u64)
    }

    fn read_at(&self, buf: &mut [u8], offset: u64) -> io::Result<usize> {
        if offset >= self.fails_at {
            return Err(io::Error::from(ErrorKind::Other));
        }
        let most = buf.len().min(3);
        self.text.read_at(&mut buf[..most], offset)
    }
}

/// The verdict of the check of a text that is read so.
fn verdict_on_torn<H: Threads + Sync>(
    threads: &H,
    alloc: Global,
    text: &[u8],
    fails_at: usize,
) -> Verdict {
    let torn = TornText {
        text,
        fails_at: fails_at as u64,
    };
    let plan = CutPlan::AtKeys {
        pieces: 2,
        size: 4,
        look: 100,
    };
    check_pieces(threads, alloc, &torn, &plan, &mut ())
}

/// A reader of which every other read is interrupted.
#[derive(Drop)]
struct Interrupted<'a> {
    rest: &'a [u8],
    is_due: bool,
}

impl Read for Interrupted<'_> {
    fn read(&mut self, buf: &mut [u8]) -> io::Result<usize> {
        self.is_due = !self.is_due;
        if self.is_due {
            return Err(io::Error::from(ErrorKind::Interrupted));
        }
        let n = buf.len().min(self.rest.len());
        let (piece, rest) = self.rest.split_at(n);
        buf[..n].copy_from_slice(piece);
        self.rest = rest;
        Ok(n)
    }
}

/// The verdict of the check of a text that is read so, some bytes at a time.
fn verdict_on_interrupted(alloc: Global, text: &[u8]) -> Verdict {
    let reader = Interrupted {
        rest: text,
        is_due: false,
    };
    match BufReader::with_capacity(alloc, 7, reader) {
        Ok(mut reader) => check_stream(alloc, &mut reader),
        Err(_) => Err(AuditError::Check(CheckError::Memory)),
    }
}

#[test]
fn an_interrupted_read_is_made_again(rt: HostRuntime) {
    for text in TEXTS {
        let verdict = verdict_on_interrupted(rt.alloc(), text.as_bytes());
        assert!(&rt; verdict == expected(rt.alloc(), text.as_bytes()), "{text}");
    }
}

#[test]
fn a_stream_has_the_verdict_of_its_text(rt: HostRuntime) {
    for text in TEXTS {
        let mut reader = text.as_bytes();
        assert!(&rt;
            check_stream(rt.alloc(), &mut reader) == expected(rt.alloc(), text.as_bytes()),
            "{text}"
        );
    }
}

#[test]
fn each_size_of_pieces_gives_the_verdict_of_the_text(rt: HostRuntime) {
    for text in TEXTS {
        let wanted = expected(rt.alloc(), text.as_bytes());
        for size in 1..text.len() + 2 {
            let verdict = verdict_by_size(&rt, rt.alloc(), text.as_bytes(), size);
            assert!(&rt; verdict == wanted, "pieces of {size} bytes: {text}");
        }
    }
}

#[test]
fn a_cut_at_each_offset_gives_the_verdict_of_the_text(rt: HostRuntime) {
    for text in TEXTS {
        let wanted = expected(rt.alloc(), text.as_bytes());
        for cut in 0..text.len() + 2 {
            let verdict = verdict_with_cut(&rt, rt.alloc(), text.as_bytes(), cut);
            assert!(&rt; verdict == wanted, "a cut at {cut}: {text}");
        }
    }
}

#[test]
fn a_failed_read_is_reported(rt: HostRuntime) {
    let text = TEXTS[0].as_bytes();
    for offset in 0..text.len() {
        let verdict = verdict_on_torn(&rt, rt.alloc(), text, offset);
        assert!(&rt;
            verdict == Err(AuditError::Read),
            "a read that fails at {offset}"
        );
    }
    let whole = verdict_on_torn(&rt, rt.alloc(), text, text.len() + 1);
    assert!(&rt; whole == expected(rt.alloc(), text), "reads of three bytes");
}
