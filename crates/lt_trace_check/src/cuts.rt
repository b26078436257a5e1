//! Where is a text cut into pieces?
//!
//! A [`CutPlan`] says it. A piece can be joined if it begins at the first line of a key: a line whose second word is
//! `1`. A wrong cut changes no verdict: the piece after it is not joined, and is read again with what comes before it.
//! So no contract speaks of a cut. Read next: `parallel.rt`, which checks the pieces.
ghost use Rattle.std.specs.Prelude.{◌<◌, IfSome, length};

use crate::text_at::TextAt;
use std::alloc::{AllocError, Global};

/// How many offsets are tried for the cuts of one round.
const TRIES: usize = 64;

/// About how many bytes a piece has if nobody says so.
const PIECE: u64 = 1 << 23;

/// How many bytes are read to find one cut if nobody says so.
const LOOK: usize = 1 << 20;

/// Where a text is cut into pieces. Every plan gives the same verdict. A bad cut costs time, because the text after it is
/// read again.
#[derive(Clone, Copy)]
pub enum CutPlan<'a> {
    /// At first lines of keys, which the check looks for.
    AtKeys {
        /// The most pieces that are checked at once. If it is 0, the text is checked on the caller's thread.
        pieces: usize,
        /// How many bytes a piece has at least, but for the last one.
        size: u64,
        /// How many bytes are read to find one cut. If no key begins among them, the piece becomes longer. They are
        /// held in memory: if there is not enough, the check answers `Memory`.
        look: usize,
    },
    /// At these offsets, counted in bytes from the beginning of the text. All pieces are checked at once, each on a
    /// thread of its own. An offset at which no key begins, that is past the end, or that does not rise, is a bad cut.
    At(&'a [u64]),
}

impl<'a> CutPlan<'a> {
    /// At first lines of keys: at most this many pieces at once, of about eight megabytes each.
    pub fn of_pieces(at_once: usize) -> CutPlan<'a> {
        CutPlan::AtKeys {
            pieces: at_once,
            size: PIECE,
            look: LOOK,
        }
    }
}

/// The index of the first byte that equals `at`.
fn position_of(bytes: &[u8], at: u8) -> Option<usize>
    ensures { IfSome result (λ index. index < length bytes.now) }
{
    bytes.iter().position(|b| *b == at)
}

/// The bytes after the first one that equals `at`.
fn after_first(bytes: &[u8], at: u8) -> Option<&[u8]>
    ensures { IfSome result (λ after. length after.now < length bytes.now) }
{
    let index = position_of(bytes, at)?;
    let (_, after) = bytes.split_at(index + 1);
    Some(after)
}

/// Whether these bytes begin with the first line of a key.
fn is_first_line(bytes: &[u8]) -> bool {
    match after_first(bytes, b' ') {
        Some(rest) => rest.starts_with(b"1 "),
        None => false,
    }
}

/// The index of the first line of a key among these bytes, if that line comes after a line end.
fn first_line_in(bytes: &[u8]) -> Option<usize> {
    let mut rest = bytes;
    while let Some(after) = after_first(rest, b'\n') {
        if is_first_line(after) {
            return Some(bytes.len() - after.len());
        }
        rest = after;
    }
    None
}

/// The offset of a first line of a key near this offset.
fn cut_near<T: TextAt>(text: &T, offset: u64, buf: &mut [u8]) -> Option<u64> {
    let Ok(n) = text.read_at(buf, offset) else {
        return None;
    };
    let index = first_line_in(&buf[..n])?;
    offset.checked_add(index as u64)
}

/// This offset, and then first lines of keys: at most as many as `pieces`. The last one is the length of the text if no
/// piece comes after it.
fn cuts_at_keys<T: TextAt>(
    alloc: Global,
    text: &T,
    from: u64,
    len: u64,
    pieces: usize,
    size: u64,
    look: usize,
) -> Result<Vec<u64>, AllocError> {
    let mut cuts = Vec::new(alloc);
    cuts.push(from)?;
    let mut buf = vec![in alloc; 0u8; look]?;
    let mut near = from;
    for _ in 0..TRIES {
        if cuts.len() > pieces {
            return Ok(cuts);
        }
        near = near.saturating_add(size);
        if near >= len {
            cuts.push(len)?;
            return Ok(cuts);
        }
        if let Some(cut) = cut_near(text, near, &mut buf) {
            cuts.push(cut)?;
            near = cut;
        }
    }
    Ok(cuts)
}

/// This offset, then the given ones, and the length of the text.
fn cuts_as_given(
    alloc: Global,
    from: u64,
    len: u64,
    given: &[u64],
) -> Result<Vec<u64>, AllocError> {
    let mut cuts = Vec::new(alloc);
    cuts.push(from)?;
    cuts.extend_from_slice(given)?;
    cuts.push(len)?;
    Ok(cuts)
}

/// The offsets between which the next pieces stand, by the plan. This one is the first.
pub(crate) fn cuts_from<T: TextAt>(
    alloc: Global,
    text: &T,
    from: u64,
    len: u64,
    plan: &CutPlan<'_>,
) -> Result<Vec<u64>, AllocError> {
    match *plan {
        CutPlan::AtKeys { pieces, size, look } => {
            cuts_at_keys(alloc, text, from, len, pieces, size, look)
        }
        CutPlan::At(given) => cuts_as_given(alloc, from, len, given),
    }
}
