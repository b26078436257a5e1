//! How is a text explained? [`explain_file`] checks a file. Of a legal text it writes the summary (`gather.rt`). Of any
//! other text it writes the first faulty line, what has to stand there instead, and the key's latest lines: it reads the
//! file a second time for that. Whatever it then finds, the verdict is that of the first time.
use crate::failure::TraceFailure;
use crate::follow::{follow_steps, write_text};
use crate::gather::Gatherer;
use crate::input::{is_regular, open_reader};
use lt_checker::{CheckError, Expected, Line};
use lt_rules::KeyState;
use lt_text::lets::put_lets;
use lt_text::put::{put_number_word, put_reply};
use lt_trace_check::{
    AuditError, BadWord, Explained, LineReason, bad_word, explain, read_first_line, rule_of,
};
use lt_trace_show::{put_printable, put_state};
use std::alloc::{AllocError, Global};
use std::fs::Files;
use std::io::{BufRead, Write};

/// How many bytes of a first line are shown.
const MOST_SHOWN: usize = 80;

/// What is said of a text that cannot be read a second time.
const NEEDS_A_FILE: &[u8] =
    b"no explanation: explain reads a faulty text twice, so it needs a file and not a pipe\n";

/// What is said of a file that cannot be read a second time, or says something else then.
const HAS_CHANGED: &[u8] = b"no explanation: read a second time, the file failed or had changed\n";

/// The first faulty line of a text, counted from 1, and the name of its first fault.
#[derive(Clone, Copy)]
struct FaultyLine {
    line: u64,
    fault: &'static str,
}

/// Appends a verdict.
fn put_verdict(out: &mut Vec<u8>, faulty: &FaultyLine) -> Result<(), AllocError> {
    out.extend_from_slice(b"line")?;
    put_number_word(out, faulty.line)?;
    out.extend_from_slice(b": ")?;
    out.extend_from_slice(faulty.fault.as_bytes())?;
    out.push(b'\n')?;
    Ok(())
}

/// Appends bytes of a text, indented. Those that are not printable are shown as `\xHH`.
fn put_shown_bytes(out: &mut Vec<u8>, bytes: &[u8]) -> Result<(), AllocError> {
    out.extend_from_slice(b"    ")?;
    put_printable(out, bytes)?;
    out.push(b'\n')?;
    Ok(())
}

/// Appends what the rules give for a line, the row by which they do, and the record of its key before it.
fn put_rules(
    out: &mut Vec<u8>,
    line: &Line,
    state: &KeyState,
    expected: &Expected,
) -> Result<(), AllocError> {
    let rule = rule_of(state, &line.step.call);
    out.extend_from_slice(b"the rules give:\n    =")?;
    put_reply(out, expected.reply)?;
    put_lets(out, &expected.tickets)?;
    out.extend_from_slice(b"\nby docs/RULES.md, \"")?;
    out.extend_from_slice(rule.section.as_bytes())?;
    out.extend_from_slice(b"\":\n    ")?;
    out.extend_from_slice(rule.row.as_bytes())?;
    out.extend_from_slice(b"\nthe record of the key before it:\n   ")?;
    put_state(out, state)?;
    out.push(b'\n')?;
    Ok(())
}

/// Appends what stands where a word has to be.
fn put_found_word(out: &mut Vec<u8>, bad: &BadWord) -> Result<(), AllocError> {
    let (before, after) = match bad.word {
        None => ("it ends before word", ", which has to be:\n"),
        Some([]) => (
            "one space separates two words, so word",
            " is empty. It has to be:\n",
        ),
        Some(_) => ("word", " is:\n"),
    };
    out.extend_from_slice(before.as_bytes())?;
    put_number_word(out, bad.number as u64)?;
    out.extend_from_slice(after.as_bytes())
}

/// Appends which word cannot stand in its place, and what has to stand there.
fn put_bad_word(out: &mut Vec<u8>, bad: &BadWord) -> Result<(), AllocError> {
    put_found_word(out, bad)?;
    match bad.word {
        None | Some([]) => {}
        Some(word) => {
            put_shown_bytes(out, word)?;
            out.extend_from_slice(b"and has to be:\n")?;
        }
    }
    put_shown_bytes(out, bad.wanted.as_bytes())
}

/// Appends that a line has no line end, if it has none.
fn put_missing_end(out: &mut Vec<u8>, is_ended: bool) -> Result<(), AllocError> {
    if is_ended {
        return Ok(());
    }
    out.extend_from_slice(b"it has no line feed at its end: the text may be cut off\n")
}

/// Appends what is wrong with the words of a line and its end.
fn put_shape(out: &mut Vec<u8>, explained: &Explained) -> Result<(), AllocError> {
    if let Some(bad) = bad_word(&explained.line, explained.version) {
        put_bad_word(out, &bad)?;
    }
    put_missing_end(out, explained.is_ended)
}

/// Appends two keys in the wrong order.
fn put_key_order(out: &mut Vec<u8>, key: &[u8], latest: &[u8]) -> Result<(), AllocError> {
    out.extend_from_slice(b"its key:\n")?;
    put_shown_bytes(out, key)?;
    out.extend_from_slice(b"comes before the key of the line before it:\n")?;
    put_shown_bytes(out, latest)
}

/// Appends the index that is due.
fn put_due(out: &mut Vec<u8>, due: u64) -> Result<(), AllocError> {
    out.extend_from_slice(b"the index that is due:\n   ")?;
    put_number_word(out, due)?;
    out.push(b'\n')?;
    Ok(())
}

/// Appends why the line is refused, and what has to stand there.
fn put_reason(out: &mut Vec<u8>, explained: &Explained) -> Result<(), AllocError> {
    let Some(line) = &explained.asked else {
        return put_shape(out, explained);
    };
    match &explained.reason {
        _ if !explained.is_ended => put_shape(out, explained),
        LineReason::Shape => put_shape(out, explained),
        LineReason::KeyOrder(latest) => put_key_order(out, line.key.as_bytes(), latest),
        LineReason::Index(due) => put_due(out, *due),
        LineReason::Rules(state, expected) => put_rules(out, line, state, expected),
    }
}

/// Appends the latest lines of a key.
fn put_before(out: &mut Vec<u8>, before: &[Vec<u8>]) -> Result<(), AllocError> {
    if before.is_empty() {
        return Ok(());
    }
    out.extend_from_slice(b"the latest lines before it:\n")?;
    for line in before {
        put_shown_bytes(out, line)?;
    }
    Ok(())
}

/// Appends the explanation of a line.
fn put_explanation(out: &mut Vec<u8>, explained: &Explained) -> Result<(), AllocError> {
    put_shown_bytes(out, &explained.line)?;
    put_reason(out, explained)?;
    put_before(out, &explained.before)
}

/// Appends what stands in the first line of a text, and what has to stand there.
fn put_header(out: &mut Vec<u8>, line: &[u8], is_ended: bool) -> Result<(), AllocError> {
    if line.len() > MOST_SHOWN {
        let (front, _) = line.split_at(MOST_SHOWN);
        put_shown_bytes(out, front)?;
        out.extend_from_slice(b"and more. ")?;
    } else {
        put_shown_bytes(out, line)?;
        put_missing_end(out, is_ended)?;
    }
    out.extend_from_slice(
        b"The first line has to be:\n    locks 2\nor, in a text of the first version:\n    locks 1\n",
    )
}

/// The first line of a text and whether it has a line end, or `None` if it is right.
fn wrong_header(line: &[u8]) -> Option<(&[u8], bool)> {
    match line.split_last() {
        Some((b'\n', b"locks 1" | b"locks 2")) => None,
        Some((b'\n', header)) => Some((header, true)),
        _ => Some((line, false)),
    }
}

/// Appends the explanation of the first line of the text. Returns `false` if that line is right.
fn explain_header<R: BufRead>(
    alloc: Global,
    reader: &mut R,
    out: &mut Vec<u8>,
) -> Result<bool, AuditError> {
    let line = read_first_line(alloc, reader)?;
    let Some((header, is_ended)) = wrong_header(&line) else {
        return Ok(false);
    };
    put_header(out, header, is_ended)?;
    Ok(true)
}

/// Appends the explanation of a line, if the line has this fault. Returns whether it has.
fn put_if_same(out: &mut Vec<u8>, explained: &Explained, fault: &str) -> Result<bool, AllocError> {
    match explained.fault() {
        Some(found) if found.name() == fault => {
            put_explanation(out, explained)?;
            Ok(true)
        }
        _ => Ok(false),
    }
}

/// Appends the explanation of a later line of the text. Returns `false` if it does not have this fault.
fn explain_step<R: BufRead>(
    alloc: Global,
    reader: &mut R,
    out: &mut Vec<u8>,
    faulty: &FaultyLine,
) -> Result<bool, AuditError> {
    let explained = explain(alloc, reader, faulty.line as usize)?;
    Ok(put_if_same(out, &explained, faulty.fault)?)
}

/// The explanation of the faulty line. `None` if the text has another fault, or none.
fn explanation<R: BufRead>(
    alloc: Global,
    reader: &mut R,
    faulty: &FaultyLine,
) -> Result<Option<Vec<u8>>, AuditError> {
    let mut text = Vec::new(alloc);
    let is_found = if faulty.line == 1 {
        explain_header(alloc, reader, &mut text)?
    } else {
        explain_step(alloc, reader, &mut text, faulty)?
    };
    Ok(if is_found { Some(text) } else { None })
}

/// Appends the explanation of the line, or why there is none.
fn put_second_reading<F: Files>(
    files: &F,
    name: &str,
    out: &mut Vec<u8>,
    faulty: &FaultyLine,
) -> Result<(), AllocError> {
    let alloc = *out.allocator();
    if !is_regular(files, name) {
        return out.extend_from_slice(NEEDS_A_FILE);
    }
    let mut reader = match open_reader(files, alloc, name) {
        Ok(reader) => reader,
        Err(TraceFailure::Memory) => return Err(AllocError),
        Err(_) => return out.extend_from_slice(HAS_CHANGED),
    };
    match explanation(alloc, &mut reader, faulty) {
        Ok(Some(text)) => out.extend_from_slice(&text),
        Err(AuditError::Check(CheckError::Memory)) => Err(AllocError),
        _ => out.extend_from_slice(HAS_CHANGED),
    }
}

/// Writes the verdict on the file, and the explanation of its first faulty line.
fn explain_verdict<F: Files, W: Write>(
    files: &F,
    alloc: Global,
    name: &str,
    output: &mut W,
    faulty: &FaultyLine,
) -> Result<(), TraceFailure> {
    let mut text = Vec::new(alloc);
    put_verdict(&mut text, faulty)?;
    put_second_reading(files, name, &mut text, faulty)?;
    write_text(output, &text)
}

/// Checks a text, and writes the summary of a legal one.
fn summarize_text<R: BufRead, W: Write>(
    alloc: Global,
    reader: &mut R,
    output: &mut W,
) -> Result<(), TraceFailure> {
    let mut gatherer = Gatherer::new(alloc);
    match follow_steps(alloc, reader, output, &mut gatherer) {
        Ok(report) => write_text(output, &gatherer.text(&report)?),
        Err(failure) => Err(failure),
    }
}

/// Checks a file, and writes the summary of a legal text.
fn summarize_file<F: Files, W: Write>(
    files: &F,
    alloc: Global,
    name: &str,
    output: &mut W,
) -> Result<(), TraceFailure> {
    let mut reader = open_reader(files, alloc, name)?;
    summarize_text(alloc, &mut reader, output)
}

/// Checks the file. Writes the summary of a legal text, or the verdict on another one and the explanation of its first
/// faulty line, and ends with that verdict.
pub fn explain_file<F: Files, W: Write>(
    files: &F,
    alloc: Global,
    name: &str,
    output: &mut W,
) -> Result<(), TraceFailure> {
    match summarize_file(files, alloc, name, output) {
        Err(TraceFailure::Refused { line, name: fault }) => {
            explain_verdict(files, alloc, name, output, &FaultyLine { line, fault })?;
            Err(TraceFailure::Refused { line, name: fault })
        }
        ending => ending,
    }
}
