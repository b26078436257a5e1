//! What do the signs of the picture mean? The legend below the lanes explains them.
use crate::drawing::{Area, put_marker, put_rect, put_text, put_vertical};
use crate::grid::{BAR, Grid};
use std::alloc::AllocError;

/// How far the legend stands from the left edge of its block.
const LEFT: u64 = 24;

/// Appends a bar and what it means.
fn put_bar_sign(
    out: &mut Vec<u8>,
    class: &[u8],
    x: u64,
    y: u64,
    text: &[u8],
) -> Result<(), AllocError> {
    let area = Area {
        x,
        y,
        width: 34,
        height: BAR,
    };
    put_rect(out, class, area)?;
    put_text(
        out,
        b"sign",
        x.saturating_add(42),
        y.saturating_add(13),
        text,
    )
}

/// Appends a marker and what it means.
fn put_marker_sign(
    out: &mut Vec<u8>,
    class: &[u8],
    x: u64,
    y: u64,
    sign: (&[u8], &[u8]),
) -> Result<(), AllocError> {
    let (letter, text) = sign;
    put_marker(out, class, x.saturating_add(9), y, letter)?;
    put_text(
        out,
        b"sign",
        x.saturating_add(24),
        y.saturating_add(4),
        text,
    )
}

/// Appends the signs of the bars and the arrows.
fn put_bars(out: &mut Vec<u8>, x: u64, y: u64) -> Result<(), AllocError> {
    put_bar_sign(out, b"holds", x.saturating_add(LEFT), y, b"holds the lock")?;
    put_bar_sign(
        out,
        b"reserved",
        x.saturating_add(182),
        y,
        b"has the reservation",
    )?;
    put_bar_sign(out, b"waits", x.saturating_add(376), y, b"waits")?;
    put_bar_sign(
        out,
        b"idle",
        x.saturating_add(476),
        y,
        b"queued, does not wait",
    )?;
    put_vertical(
        out,
        b"arrow",
        x.saturating_add(682),
        y,
        y.saturating_add(18),
    )?;
    put_text(
        out,
        b"sign",
        x.saturating_add(696),
        y.saturating_add(13),
        b"ends a wait",
    )
}

/// Appends the signs of the calls.
fn put_markers(out: &mut Vec<u8>, x: u64, y: u64) -> Result<(), AllocError> {
    put_marker_sign(
        out,
        b"marker",
        x.saturating_add(LEFT),
        y,
        (b"r", b"visit to read"),
    )?;
    put_marker_sign(
        out,
        b"marker",
        x.saturating_add(146),
        y,
        (b"w", b"visit to write"),
    )?;
    put_marker_sign(out, b"marker", x.saturating_add(276), y, (b"A", b"acquire"))?;
    put_marker_sign(out, b"marker", x.saturating_add(362), y, (b"U", b"update"))?;
    put_marker_sign(out, b"marker", x.saturating_add(442), y, (b"F", b"finish"))?;
    put_marker_sign(out, b"marker", x.saturating_add(516), y, (b"L", b"leave"))?;
    put_marker_sign(out, b"marker", x.saturating_add(590), y, (b"?", b"look"))?;
    put_marker_sign(
        out,
        b"marker none",
        x.saturating_add(656),
        y,
        (b" ", b"changes nothing"),
    )
}

/// Appends all signs, from this point.
fn put_signs(out: &mut Vec<u8>, x: u64, y: u64) -> Result<(), AllocError> {
    put_bars(out, x, y)?;
    put_markers(out, x, y.saturating_add(50))
}

/// Appends the legend below the lanes, once for each block, and above them too if there are many.
pub(crate) fn put_legend(out: &mut Vec<u8>, grid: Grid) -> Result<(), AllocError> {
    for block in 0..grid.blocks() {
        let x = grid.block(block);
        put_signs(out, x, grid.bottom().saturating_add(58))?;
        if grid.is_tall() {
            put_signs(out, x, 62)?;
        }
    }
    Ok(())
}
