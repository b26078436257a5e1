//! How is the life of a key shown on a page? The page has the picture and below it a table of the steps. It is one file
//! without a script, and it loads nothing. A pointer over the picture shows the words of a step or of a bar.
ghost use Rattle.std.specs.Prelude.{◌≡◌, ◌<◌, ◌↔◌, Err, length};

use crate::drawing::put;
use crate::svg::{has_earlier, put_picture, put_range};
use lt_ids::Key;
use lt_trace_show::{
    COLUMNS, PictureError, ShownRange, ShownStep, lanes_of, put_column, put_column_before,
    put_column_name, put_escaped,
};
use std::alloc::{AllocError, Global};

/// The styles of the page.
const STYLE: &[u8] = b"<style>\
body{font-family:Helvetica,Arial,sans-serif;color:#222;margin:24px}\
h1{font-size:22px}\
.picture{overflow-x:auto;border:1px solid #d9dce1}\
table{border-collapse:collapse;margin-top:24px;font-size:13px}\
th,td{text-align:left;padding:4px 12px;border-bottom:1px solid #d9dce1;white-space:nowrap}\
th{border-bottom:2px solid #222}\
tr:nth-child(even) td{background:#f4f5f7}\
</style>\n";

/// Appends the start of the page, up to the picture.
fn put_page_start(out: &mut Vec<u8>, key: &Key, range: &ShownRange) -> Result<(), AllocError> {
    put(
        out,
        b"<!DOCTYPE html>\n<html lang=\"en\">\n<head>\n<meta charset=\"utf-8\">\n<title>key ",
    )?;
    put_escaped(out, key.as_bytes())?;
    put(out, b"</title>\n")?;
    put(out, STYLE)?;
    put(out, b"</head>\n<body>\n<h1>key ")?;
    put_escaped(out, key.as_bytes())?;
    put(out, b", ")?;
    put_range(out, range)?;
    put(out, b"</h1>\n<div class=\"picture\">\n")
}

/// Appends the row with the names of the columns.
fn put_names_row(out: &mut Vec<u8>) -> Result<(), AllocError> {
    put(out, b"<tr>")?;
    for column in 0..COLUMNS {
        put(out, b"<th>")?;
        put_column_name(out, column)?;
        put(out, b"</th>")?;
    }
    put(out, b"</tr>\n")
}

/// Appends the row of a step.
fn put_step_row(out: &mut Vec<u8>, step: &ShownStep) -> Result<(), AllocError> {
    put(out, b"<tr>")?;
    for column in 0..COLUMNS {
        put(out, b"<td>")?;
        put_column(out, step, column)?;
        put(out, b"</td>")?;
    }
    put(out, b"</tr>\n")
}

/// Appends the row of the state before the first step.
fn put_row_before(out: &mut Vec<u8>, range: &ShownRange) -> Result<(), AllocError> {
    put(out, b"<tr>")?;
    for column in 0..COLUMNS {
        put(out, b"<td>")?;
        put_column_before(out, &range.before, column)?;
        put(out, b"</td>")?;
    }
    put(out, b"</tr>\n")
}

/// The rows of the page's table, a row for each step. They are made as the steps come, since a range does not keep the
/// states after them.
#[derive(Drop)]
pub struct PageRows {
    text: Vec<u8>,
}

impl PageRows {
    /// No rows.
    pub fn new(alloc: Global) -> PageRows {
        PageRows {
            text: Vec::new(alloc),
        }
    }

    /// Appends the row of a step. It fails only when an allocation fails, and may then have appended a part.
    pub fn push(&mut self, step: &ShownStep) -> Result<(), AllocError> {
        put_step_row(&mut self.text, step)
    }
}

/// Appends the table of the steps.
fn put_table(out: &mut Vec<u8>, range: &ShownRange, rows: &PageRows) -> Result<(), AllocError> {
    put(out, b"<table>\n")?;
    put_names_row(out)?;
    if has_earlier(range) {
        put_row_before(out, range)?;
    }
    put(out, &rows.text)?;
    put(
        out,
        b"</table>\n<p>* marks the distinguished waiter. A writer in parentheses is queued and does not wait.</p>\n",
    )
}

/// A page of HTML with the picture of these steps of the key and a table with their rows, as ASCII text. It fails with
/// `TooManySteps` exactly for more than 400 steps, and otherwise only when an allocation fails.
pub fn html(
    alloc: Global,
    key: &Key,
    range: &ShownRange,
    rows: &PageRows,
) -> Result<Vec<u8>, PictureError>
    ensures too_many { (result ≡ Err PictureError.TooManySteps) ↔ (400 < length range.now.steps.items) }
{
    let layout = lanes_of(alloc, &range.before, &range.steps)?;
    let mut out = Vec::new(alloc);
    put_page_start(&mut out, key, range)?;
    put_picture(&mut out, key, &layout, range)?;
    put(&mut out, b"</div>\n")?;
    put_table(&mut out, range, rows)?;
    put(&mut out, b"</body>\n</html>\n")?;
    Ok(out)
}
