//! How is a text fitted to the width of its column? A text that is too wide is cut and ends in `~`. A narrower one is
//! padded with spaces. A byte that is not printable ASCII is shown as `\xHH`. `specs/Cells.antt` defines all of this.
ghost use Rattle.std.specs.Prelude.{◌≡◌, ◌≤◌, ◌+◌, ◌<◌, ◌^◌, ◌++◌, OnOk, All, take, drop, vec_len};
ghost use Rattle.lt_trace_show.specs.Escape.{IsPrintable};
ghost use Rattle.lt_trace_show.specs.Cells.{cut_to, cell_of};

use crate::escape::put_printable;
use std::alloc::AllocError;

/// Cuts what the line has from `start` on, if it is wider than `width`; its last byte is then `~`.
fn cut(line: &mut Vec<u8>, start: usize, width: usize) -> Result<(), AllocError>
    requires start { start ≤ vec_len line.old }
    requires width { 1 ≤ width }
    requires end { start + width < 2 ^ 64 }
    ensures { OnOk result (line.new.items ≡ take start line.old.items ++ cut_to width (drop start line.old.items)) }
{
    if line.len() - start <= width {
        return Ok(());
    }
    line.truncate(start + (width - 1));
    line.push(b'~')?;
    Ok(())
}

/// Appends the text, cut or filled to exactly this width.
fn put_fitted(line: &mut Vec<u8>, text: &[u8], width: usize) -> Result<(), AllocError>
    requires width { 1 ≤ width }
    requires end { vec_len line.old + width < 2 ^ 64 }
    ensures cell { OnOk result (line.new.items ≡ line.old.items ++ cell_of width text.now) }
    ensures len { OnOk result (vec_len line.new ≡ vec_len line.old + width) }
{
    let start = line.len();
    put_printable(line, text)?;
    cut(line, start, width)?;
    line.resize(start + width, b' ')
}

/// Appends a cell of exactly this width: the text, cut or filled.
pub(crate) fn put_cell(line: &mut Vec<u8>, text: &[u8], width: usize) -> Result<(), AllocError>
    requires width { 1 ≤ width }
    requires end { vec_len line.old + width < 2 ^ 64 }
    ensures cell { OnOk result (line.new.items ≡ line.old.items ++ cell_of width text.now) }
    ensures len { OnOk result (vec_len line.new ≡ vec_len line.old + width) }
    ensures printable { OnOk result (All IsPrintable line.old.items → All IsPrintable line.new.items) }
{
    put_fitted(line, text, width)?;
    Ok(())
}
