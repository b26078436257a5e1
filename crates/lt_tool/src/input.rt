//! Reads a whole text of limited length.
ghost use Rattle.std.specs.Prelude.{◌≡◌, ◌≤◌, ◌^◌, length, IfOk, IfErr, IfSome};
ghost use Rattle.lt_tool.specs.Input.{IsLong, IsPiece};

use std::alloc::Global;
use std::io::Read;

/// Why a text could not be read.
#[derive(Clone, Copy, Debug, PartialEq, Eq)]
pub(crate) enum Unread {
    Read,
    TooLong,
    Memory,
}

/// The greatest length of a text, in bytes.
const LONGEST: usize = 1 << 24;

/// Makes one read and appends its bytes. Returns how many bytes came; 0 means the end.
#[tactic(auto, using(crate::proofs::Pieces::piece))]
fn read_some<R: Read>(reader: &mut R, text: &mut Vec<u8>) -> Result<usize, Unread>
    ensures ok { IfOk result (IsPiece (R.remaining reader.old) (R.remaining reader.new) text.old.items text.new.items) }
    ensures err { IfErr result (λ e. e ≡ Unread.TooLong → ⊥) }
{
    let mut piece = [0u8; 8192];
    match reader.read(&mut piece) {
        Ok(n) => match text.extend_from_slice(&piece[..n]) {
            Ok(()) => Ok(n),
            Err(_) => Err(Unread::Memory),
        },
        Err(_) => Err(Unread::Read),
    }
}

/// Reads everything that the reader has, up to its end. Allocates room for the longest text at once, so that the
/// text never moves, and then the same again. The second half is there because the C library returns a block of
/// over 32 MiB to the system when it is dropped. It would keep a smaller block, and from then on also keep the
/// blocks in which the lists of a run grow.
#[tactic(auto, using(crate::proofs::Pieces::more, crate::proofs::Pieces::whole, crate::proofs::Pieces::too_long))]
pub(crate) fn read_text<R: Read>(alloc: Global, reader: &mut R) -> Result<Vec<u8>, Unread>
    ensures ok { IfOk result (λ text. IfSome (R.remaining reader.old) (λ all. text.items ≡ all)) }
    ensures bound { IfOk result (λ text. length text.items ≤ 2 ^ 24) }
    ensures too_long { IfErr result (λ e. e ≡ Unread.TooLong → IfSome (R.remaining reader.old) IsLong) }
{
    let Ok(mut text) = Vec::with_capacity(alloc, 2 * LONGEST) else {
        return Err(Unread::Memory);
    };
    while text.len() <= LONGEST {
        if read_some(reader, &mut text)? == 0 {
            return Ok(text);
        }
    }
    Err(Unread::TooLong)
}
