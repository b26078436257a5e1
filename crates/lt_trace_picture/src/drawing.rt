//! How is a shape written in SVG? Each function appends one element, or the start of one. Numbers are pixels.
use lt_text::put::put_number;
use std::alloc::{AllocError, Global};

/// A rectangle.
#[derive(Clone, Copy)]
pub(crate) struct Area {
    pub x: u64,
    pub y: u64,
    pub width: u64,
    pub height: u64,
}

/// Appends the bytes as they are. It is inlined, since most of them are constants.
#[inline(always)]
pub(crate) fn put(out: &mut Vec<u8>, bytes: &[u8]) -> Result<(), AllocError> {
    out.extend_from_slice(bytes)
}

/// Appends the start of an element that has a class, up to the name of the class.
fn start_element(out: &mut Vec<u8>, start: &[u8], class: &[u8]) -> Result<(), AllocError> {
    put(out, start)?;
    put(out, class)
}

/// Appends what stands before a number, and the number. Many attributes are written so, each with one more piece alone.
#[inline(always)]
pub(crate) fn put_with_number(
    out: &mut Vec<u8>,
    before: &[u8],
    value: u64,
) -> Result<(), AllocError> {
    put(out, before)?;
    put_number(out, value)
}

/// Appends the end of a class, and the attributes of a rectangle up to the height.
fn put_area(out: &mut Vec<u8>, area: Area) -> Result<(), AllocError> {
    put_with_number(out, b"\" x=\"", area.x)?;
    put_with_number(out, b"\" y=\"", area.y)?;
    put_with_number(out, b"\" width=\"", area.width)?;
    put_with_number(out, b"\" height=\"", area.height)
}

/// Appends a rectangle.
pub(crate) fn put_rect(out: &mut Vec<u8>, class: &[u8], area: Area) -> Result<(), AllocError> {
    start_element(out, b"<rect class=\"", class)?;
    put_area(out, area)?;
    put(out, b"\"/>\n")
}

/// Rectangles below one another that differ in their classes and tops alone: what they have up to the top, and after it.
#[derive(Drop)]
pub(crate) struct RectColumn {
    start: Vec<u8>,
    end: Vec<u8>,
}

impl RectColumn {
    pub(crate) fn new(
        alloc: Global,
        x: u64,
        width: u64,
        height: u64,
    ) -> Result<RectColumn, AllocError> {
        let mut start = Vec::new(alloc);
        put_with_number(&mut start, b"\" x=\"", x)?;
        put(&mut start, b"\" y=\"")?;
        let mut end = Vec::new(alloc);
        put_with_number(&mut end, b"\" width=\"", width)?;
        put_with_number(&mut end, b"\" height=\"", height)?;
        put(&mut end, b"\"/>\n")?;
        Ok(RectColumn { start, end })
    }

    /// Appends the rectangle with this class and this top.
    pub(crate) fn put(&self, out: &mut Vec<u8>, class: &[u8], y: u64) -> Result<(), AllocError> {
        start_element(out, b"<rect class=\"", class)?;
        put_with_number(out, &self.start, y)?;
        put(out, &self.end)
    }
}

/// Appends the start of a rectangle that has a title. The caller appends the title and calls [`end_titled_rect`].
pub(crate) fn start_titled_rect(
    out: &mut Vec<u8>,
    class: &[u8],
    area: Area,
) -> Result<(), AllocError> {
    start_element(out, b"<rect class=\"", class)?;
    put_area(out, area)?;
    put(out, b"\"><title>")
}

pub(crate) fn end_titled_rect(out: &mut Vec<u8>) -> Result<(), AllocError> {
    put(out, b"</title></rect>\n")
}

/// The start of the texts of a column, up to their y: they have this class and this x.
pub(crate) fn column_start(alloc: Global, class: &[u8], x: u64) -> Result<Vec<u8>, AllocError> {
    let mut start = Vec::new(alloc);
    start_element(&mut start, b"<text class=\"", class)?;
    put_with_number(&mut start, b"\" x=\"", x)?;
    put(&mut start, b"\" y=\"")?;
    Ok(start)
}

/// Appends the start of a text of a column. The caller appends the text itself and calls [`end_text`].
pub(crate) fn start_in_column(out: &mut Vec<u8>, column: &[u8], y: u64) -> Result<(), AllocError> {
    put_with_number(out, column, y)?;
    put(out, b"\">")
}

/// Appends the start of a text. The caller appends the text itself and calls [`end_text`].
pub(crate) fn start_text(
    out: &mut Vec<u8>,
    class: &[u8],
    x: u64,
    y: u64,
) -> Result<(), AllocError> {
    start_element(out, b"<text class=\"", class)?;
    put_with_number(out, b"\" x=\"", x)?;
    put_with_number(out, b"\" y=\"", y)?;
    put(out, b"\">")
}

pub(crate) fn end_text(out: &mut Vec<u8>) -> Result<(), AllocError> {
    put(out, b"</text>\n")
}

/// Appends a text that needs no escape.
pub(crate) fn put_text(
    out: &mut Vec<u8>,
    class: &[u8],
    x: u64,
    y: u64,
    text: &[u8],
) -> Result<(), AllocError> {
    start_text(out, class, x, y)?;
    put(out, text)?;
    end_text(out)
}

/// Appends a vertical line.
pub(crate) fn put_vertical(
    out: &mut Vec<u8>,
    class: &[u8],
    x: u64,
    from: u64,
    to: u64,
) -> Result<(), AllocError> {
    start_element(out, b"<path class=\"", class)?;
    put_with_number(out, b"\" d=\"M", x)?;
    put_with_number(out, b" ", from)?;
    put_with_number(out, b"V", to)?;
    put(out, b"\"/>\n")
}

/// Appends a white zigzag down from this point, the torn end of a bar. Its six pieces are as high as a bar is.
pub(crate) fn put_torn_end(out: &mut Vec<u8>, x: u64, y: u64) -> Result<(), AllocError> {
    put_with_number(out, b"<path class=\"torn\" d=\"M", x)?;
    put_with_number(out, b" ", y)?;
    put(out, b"l5 3l-5 3l5 3l-5 3l5 3l-5 3\"/>\n")
}

/// Appends a circle with a letter in it.
pub(crate) fn put_marker(
    out: &mut Vec<u8>,
    class: &[u8],
    x: u64,
    y: u64,
    letter: &[u8],
) -> Result<(), AllocError> {
    start_element(out, b"<circle class=\"", class)?;
    put_with_number(out, b"\" cx=\"", x)?;
    put_with_number(out, b"\" cy=\"", y)?;
    put(out, b"\" r=\"9\"/>\n")?;
    put_text(out, b"letter", x, y.saturating_add(4), letter)
}
