//! How is the life of a key printed in a terminal? [`put_heading`] writes the key and the names of the columns, and
//! [`put_shown`] one line for each step, so that a caller can print the steps one after the other. If memory runs out,
//! each of them may have appended a part of its line. `columns.rt` has the widths of the columns, `words.rt` what each
//! cell says, and `cell.rt` how it is cut.
ghost use Rattle.std.specs.Prelude.{◌≡◌, ◌≤◌, ◌<◌, ◌^◌, OnOk, IfOk, All, false, length, vec_len};
ghost use Rattle.lt_trace_show.specs.Escape.{IsPrintable};
ghost use Rattle.lt_trace_show.specs.Cells.{AddsLine};

use crate::cell::put_cell;
use crate::columns::{COLUMNS, Layout, widths};
use crate::step::ShownStep;
use crate::words::{put_column, put_column_name};
use lt_ids::Key;
use std::alloc::{AllocError, Global};

/// Makes the text of a cell: what the step has in the column, or the name of the column if there is no step.
fn make_cell(
    cell: &mut Vec<u8>,
    step: Option<&ShownStep>,
    column: usize,
) -> Result<(), AllocError> {
    cell.clear();
    match step {
        Some(step) => put_column(cell, step, column),
        None => put_column_name(cell, column),
    }
}

/// A line of cells, each as wide as its column: what the step has there, or the names of the columns if there is none.
fn cells_line(alloc: Global, width: usize, step: Option<&ShownStep>) -> Result<Vec<u8>, AllocError>
    requires wide { 40 ≤ width }
    requires bounded { width < 2 ^ 16 }
    ensures width { IfOk result (λ line. vec_len line ≡ width) }
    ensures printable { IfOk result (λ line. All IsPrintable line.items) }
{
    let widths = widths(width);
    let mut line = Vec::with_capacity(alloc, width)?;
    let mut cell = Vec::with_capacity(alloc, width)?;
    for column in 0..COLUMNS {
        make_cell(&mut cell, step, column)?;
        put_cell(&mut line, &cell, widths[column])?;
    }
    Ok(line)
}

/// The line that names the key.
fn key_line(alloc: Global, width: usize, key: &Key) -> Result<Vec<u8>, AllocError>
    requires wide { 40 ≤ width }
    requires bounded { width < 2 ^ 16 }
    ensures width { IfOk result (λ line. vec_len line ≡ width) }
    ensures printable { IfOk result (λ line. All IsPrintable line.items) }
{
    let mut text = Vec::from_slice(alloc, b" key ")?;
    text.extend_from_slice(key.as_bytes())?;
    let mut line = Vec::new(alloc);
    put_cell(&mut line, &text, width)?;
    Ok(line)
}

/// How many bytes the line has without the spaces at its end.
fn trimmed_len(line: &[u8]) -> usize
    ensures { result ≤ length line.now }
{
    let mut len = line.len();
    while 0 < len && line[len - 1] == b' ' {
        len -= 1;
    }
    len
}

/// The ANSI sequence that begins a column's colour. Nothing depends on red and green.
fn colour(column: usize) -> &'static [u8] {
    match column {
        0 | 1 => b"\x1b[2m",
        4 => b"\x1b[34m",
        5 => b"\x1b[33m",
        8 => b"\x1b[36m",
        _ => b"\x1b[0m",
    }
}

/// Appends the line without the spaces at its end, and a line feed.
fn put_plain(out: &mut Vec<u8>, line: &[u8]) -> Result<(), AllocError>
    ensures { OnOk result (All IsPrintable line.now → AddsLine (length line.now) out.old.items out.new.items) }
{
    out.extend_from_slice(&line[..trimmed_len(line)])?;
    out.push(b'\n')?;
    Ok(())
}

/// Appends the line in bold, and a line feed.
fn put_bold(out: &mut Vec<u8>, line: &[u8]) -> Result<(), AllocError> {
    out.extend_from_slice(b"\x1b[1m")?;
    out.extend_from_slice(&line[..trimmed_len(line)])?;
    out.extend_from_slice(b"\x1b[0m\n")
}

/// Appends the line with the colour of each column, and a line feed.
fn put_coloured(
    out: &mut Vec<u8>,
    line: &[u8],
    widths: &[usize; COLUMNS],
) -> Result<(), AllocError> {
    let mut rest = line;
    for column in 0..COLUMNS {
        let (cell, after) = rest.split_at(widths[column].min(rest.len()));
        out.extend_from_slice(colour(column))?;
        out.extend_from_slice(cell)?;
        out.extend_from_slice(b"\x1b[0m")?;
        rest = after;
    }
    out.push(b'\n')?;
    Ok(())
}

/// Appends a line of the heading, in bold if there are colours.
fn put_title(out: &mut Vec<u8>, layout: Layout, line: &[u8]) -> Result<(), AllocError>
    ensures { OnOk result (layout.colours ≡ false → All IsPrintable line.now →
        AddsLine (length line.now) out.old.items out.new.items) }
{
    if layout.colours {
        put_bold(out, line)
    } else {
        put_plain(out, line)
    }
}

/// Appends the line that names the key. Without colours, it is at most as wide as the layout.
pub fn put_key(out: &mut Vec<u8>, layout: Layout, key: &Key) -> Result<(), AllocError>
    ensures { OnOk result (layout.colours ≡ false → AddsLine layout.width out.old.items out.new.items) }
{
    let line = key_line(*out.allocator(), layout.width(), key)?;
    put_title(out, layout, &line)
}

/// Appends the line that names the columns. Without colours, it is at most as wide as the layout.
pub fn put_heading(out: &mut Vec<u8>, layout: Layout) -> Result<(), AllocError>
    ensures { OnOk result (layout.colours ≡ false → AddsLine layout.width out.old.items out.new.items) }
{
    let line = cells_line(*out.allocator(), layout.width(), None)?;
    put_title(out, layout, &line)
}

/// Appends the line of one step. A cell that is wider than its column is cut and ends in `~`. Without colours, the line
/// is at most as wide as the layout, and all of it is printable ASCII. With colours it has ANSI sequences besides. Of each
/// queue, [`MOST_QUEUED`](crate::MOST_QUEUED) entries from the front give the same line as all.
pub fn put_shown(out: &mut Vec<u8>, layout: Layout, step: &ShownStep) -> Result<(), AllocError>
    ensures { OnOk result (layout.colours ≡ false → AddsLine layout.width out.old.items out.new.items) }
{
    let line = cells_line(*out.allocator(), layout.width(), Some(step))?;
    if layout.colours {
        return put_coloured(out, &line, &widths(layout.width()));
    }
    put_plain(out, &line)
}
