//! How are arbitrary bytes written so that a terminal or a browser only shows them? [`put_printable`] writes a byte that
//! is not printable ASCII as `\xHH`. [`put_escaped`] also replaces the characters that have a meaning in SVG and HTML
//! (`&`, `<`, `>`, `"`) by their names. `specs/Escape.antt` defines both.
ghost use Rattle.std.specs.Prelude.{◌≡◌, ◌++◌, OnOk, All, IsTrue};
ghost use Rattle.std.specs.List.{flat_map};
ghost use Rattle.lt_trace_show.specs.Escape.{is_printable, hex_digit, printable_byte, escaped_byte, IsPrintable, IsMarkupFree};

use std::alloc::AllocError;

/// Whether the byte is a printable ASCII character or a space.
fn is_printable(b: u8) -> bool
    ensures { result ≡ is_printable b }
{
    32 <= b && b <= 126
}

/// The hexadecimal digit of the byte's lower four bits, uppercase.
fn hex_digit(b: u8) -> u8
    ensures { result ≡ hex_digit b }
{
    let value = b % 16;
    if value < 10 {
        b'0' + value
    } else {
        b'A' + (value - 10)
    }
}

/// Appends the byte, or `\xHH` if it is not printable ASCII. It is inlined: almost every byte is printable.
#[inline(always)]
fn put_printable_byte(out: &mut Vec<u8>, b: u8) -> Result<(), AllocError>
    ensures { OnOk result (out.new.items ≡ out.old.items ++ printable_byte b) }
{
    if is_printable(b) {
        out.push(b)?;
        return Ok(());
    }
    out.extend_from_slice(b"\\x")?;
    out.push(hex_digit(b / 16))?;
    out.push(hex_digit(b))?;
    Ok(())
}

/// Whether all bytes are printable ASCII, so that they are written as they are.
fn are_printable(bytes: &[u8]) -> bool
    ensures { IsTrue result → flat_map printable_byte bytes.now ≡ bytes.now }
{
    for &b in bytes {
        if !is_printable(b) {
            return false;
        }
    }
    true
}

/// Appends the bytes, one after the other.
fn put_each_printable(out: &mut Vec<u8>, bytes: &[u8]) -> Result<(), AllocError>
    ensures { OnOk result (out.new.items ≡ out.old.items ++ flat_map printable_byte bytes.now) }
{
    for &b in bytes {
        put_printable_byte(out, b)?;
    }
    Ok(())
}

/// Appends the bytes. A byte that is not printable ASCII becomes `\xHH`, with two uppercase hexadecimal digits.
#[tactic(auto, using(crate::proofs::Printed::all_printable))]
pub fn put_printable(out: &mut Vec<u8>, bytes: &[u8]) -> Result<(), AllocError>
    ensures text { OnOk result (out.new.items ≡ out.old.items ++ flat_map printable_byte bytes.now) }
    ensures printable { All IsPrintable (flat_map printable_byte bytes.now) }
{
    if are_printable(bytes) {
        return out.extend_from_slice(bytes);
    }
    put_each_printable(out, bytes)
}

/// Appends the byte by its name in SVG and HTML, if it has a meaning there, and otherwise as [`put_printable`] does.
fn put_escaped_byte(out: &mut Vec<u8>, b: u8) -> Result<(), AllocError>
    ensures { OnOk result (out.new.items ≡ out.old.items ++ escaped_byte b) }
{
    match b {
        b'&' => out.extend_from_slice(b"&amp;"),
        b'<' => out.extend_from_slice(b"&lt;"),
        b'>' => out.extend_from_slice(b"&gt;"),
        b'"' => out.extend_from_slice(b"&quot;"),
        b => put_printable_byte(out, b),
    }
}

/// Appends the bytes as text of SVG or HTML. It has no raw `<`, `>` or `"`, each `&` in it begins a name, and all of it
/// is printable ASCII.
#[tactic(auto, using(crate::proofs::Printed::all_free))]
pub fn put_escaped(out: &mut Vec<u8>, bytes: &[u8]) -> Result<(), AllocError>
    ensures text { OnOk result (out.new.items ≡ out.old.items ++ flat_map escaped_byte bytes.now) }
    ensures free { All IsMarkupFree (flat_map escaped_byte bytes.now) }
{
    for &b in bytes {
        put_escaped_byte(out, b)?;
    }
    Ok(())
}
