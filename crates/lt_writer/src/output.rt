//! How is a text written to a stream, whole or up to a failure?
ghost use Rattle.std.specs.Prelude.{◌≡◌, ◌<◌, ◌≤◌, ◌++◌, [], OnOk, length, take, IfSome, IfNone, IfErr};
ghost use Rattle.std.specs.Io.KnownBytes.{Appends};
ghost use Rattle.lt_writer.specs.Puts.{IsWriteFailure};
ghost use Rattle.lt_writer.specs.declared.output.PrintError.TheVariants.{Memory};

use std::alloc::AllocError;
use std::io::Write;
use thiserror::Error;

/// Why printing the histories failed.
#[derive(Clone, Copy, Debug, PartialEq, Eq, Drop, Error)]
pub enum PrintError {
    /// Nothing was written.
    #[error("out of memory")]
    Memory,
    /// A prefix of the text was written: a write failed, was interrupted, or took no byte.
    #[error("the text could not be written to its end")]
    Write,
}

impl From<AllocError> for PrintError {
    ghost from_gives = { λ _ e. e ≡ Memory };

    fn from(_e: AllocError) -> PrintError {
        PrintError::Memory
    }
}

/// Makes one write and returns how many bytes it took, or `None` if it failed or took no byte.
#[tactic(auto, using(crate::proofs::Written::took_none, crate::proofs::Written::kept))]
fn write_some<W: Write>(writer: &mut W, text: &[u8]) -> Option<usize>
    ensures some { IfSome result (λ n. 0 < n) }
    ensures within { IfSome result (λ n. n ≤ length text.now) }
    ensures took { IfSome result (λ n. Appends (W.contents writer.old) (W.contents writer.new) (take n text.now)) }
    ensures none { IfNone result (Appends (W.contents writer.old) (W.contents writer.new) []) }
{
    match writer.write(text) {
        Ok(0) => None,
        Ok(n) => Some(n),
        Err(_) => None,
    }
}

/// Writes the text, with as many writes as it takes. A write that fails, is interrupted or takes no byte ends it; a
/// prefix of the text is then written.
#[tactic(auto, using(crate::proofs::Written::written_none, crate::proofs::Written::written_more, crate::proofs::Written::written_all, crate::proofs::Written::written_prefix))]
pub fn write_out<W: Write>(writer: &mut W, text: &[u8]) -> Result<(), PrintError>
    ensures ok { OnOk result (Appends (W.contents writer.old) (W.contents writer.new) text.now) }
    ensures err { IfErr result (λ e. IsWriteFailure e (W.contents writer.old) (W.contents writer.new) text.now) }
{
    let mut rest = text;
    while !rest.is_empty() {
        let Some(n) = write_some(writer, rest) else {
            return Err(PrintError::Write);
        };
        let (_, after) = rest.split_at(n);
        rest = after;
    }
    Ok(())
}
