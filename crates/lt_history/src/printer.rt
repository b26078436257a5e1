//! Writes the text of histories to a stream.
ghost use Rattle.std.specs.Prelude.{◌≡◌, OnOk, IfErr};
ghost use Rattle.lt_checker.specs.Histories.{stored_entries};
ghost use Rattle.lt_history.specs.Print.{AppendsText, LeavesTextPrefix};

use crate::{Entry, PrintError, compose, write_out};
use std::alloc::Global;
use std::io::Write;

/// Writes the text of the histories: the line `locks 2`, and then the keys in rising order, each with its entries
/// in their order. Composes the whole text in memory before the first write, and then makes as many writes as it
/// takes. A write that fails, is interrupted or takes no byte ends the print.
pub fn print<W: Write>(
    alloc: Global,
    shards: &[Vec<Entry>],
    writer: &mut W,
) -> Result<(), PrintError>
    // The writer has received the whole text and nothing else.
    ensures ok { OnOk result (AppendsText (W.contents writer.old) (W.contents writer.new) (stored_entries shards.now)) }
    // If memory runs out, the writer is unchanged.
    ensures memory { IfErr result (λ e. e ≡ PrintError.Memory → writer.new ≡ writer.old) }
    // If a write fails, the writer has received a prefix of the text.
    ensures write { IfErr result (λ e. LeavesTextPrefix e (W.contents writer.old) (W.contents writer.new) shards.now) }
{
    let text = compose(alloc, shards)?;
    write_out(writer, &text)
}
