//! What does the program answer to a text of histories?
//!
//! [`check_text`] writes the numbers of a legal text; [`upgrade_text`] writes the text itself with the first line
//! of the latest version. Both read the whole text and check it with `lt_checker` before they write. Read next:
//! `specs/Check.antt`.
ghost use Rattle.std.specs.Prelude.{◌≡◌, ◌≢◌, ◌++◌, IfOk, IfErr, OnOk};
ghost use Rattle.std.specs.Io.KnownBytes.{Appends};
ghost use Rattle.lt_writer.specs.Puts.{AppendsPrefix};
ghost use Rattle.lt_tool.specs.Check.{IsLegalReport, IsChecked, IsUnchecked, IsCheckStoppedOr, IsUnwrittenOr, IsUpgraded, AnswersLegal, RefusesFaultyText, RefusesLongText, TellsPart, UpgradesPart, report_line, reported, unread};

use crate::input::{Unread, read_text};
use lt_checker::{CheckError, Fault, Report, check, upgrade};
use lt_text::put::{put_number_word, put_word};
use lt_writer::write_out;
use std::alloc::{AllocError, Global};
use std::io::{Read, Write};
use thiserror::Error;

/// Why a text of histories was not answered with its numbers, or was not upgraded.
#[derive(Clone, Copy, Debug, PartialEq, Eq, Drop, Error)]
pub enum CheckTextError {
    /// A read failed. Nothing was written.
    #[error("the histories could not be read")]
    Read,
    /// The text has more than 16,777,216 bytes. Nothing was written.
    #[error("the histories are too long")]
    TooLong,
    /// The text was refused, with its first faulty line and the first fault in it, or memory ran out. Nothing was
    /// written.
    #[error("{0}")]
    Check(CheckError),
    /// The text is legal, but a write failed, was interrupted, or took no byte. A prefix of the line, or of the
    /// upgraded text, was written.
    #[error("the answer could not be written to its end")]
    Write,
}

fn unread(why: Unread) -> CheckTextError
    ensures { result ≡ unread why }
{
    match why {
        Unread::Read => CheckTextError::Read,
        Unread::TooLong => CheckTextError::TooLong,
        Unread::Memory => CheckTextError::Check(CheckError::Memory),
    }
}

/// Reads the text and checks it. Returns the text and its report, if it is legal.
fn legal_text<R: Read>(alloc: Global, reader: &mut R) -> Result<(Vec<u8>, Report), CheckTextError>
    ensures ok { IfOk result (λ taken. IsLegalReport (R.remaining reader.old) taken.0.items taken.1) }
    ensures err { IfErr result (λ e. IsUnchecked e (R.remaining reader.old)) }
    ensures legal { AnswersLegal (R.remaining reader.old) (IsCheckStoppedOr (reported result)) }
    ensures faulty { RefusesFaultyText (R.remaining reader.old) (reported result) }
    ensures too_long { RefusesLongText (R.remaining reader.old) (reported result) }
    ensures unwritten { IfErr result (λ e. e ≢ CheckTextError.Write) }
{
    let text = match read_text(alloc, reader) {
        Ok(text) => text,
        Err(why) => return Err(unread(why)),
    };
    match check(alloc, &text) {
        Ok(report) => Ok((text, report)),
        Err(why) => Err(CheckTextError::Check(why)),
    }
}

/// The line that answers a legal text.
fn line_of(alloc: Global, report: Report) -> Result<Vec<u8>, AllocError>
    ensures { IfOk result (λ line. line.items ≡ report_line report) }
{
    let mut line = Vec::from_slice(alloc, b"ok")?;
    put_number_word(&mut line, report.keys as u64)?;
    put_word(&mut line, b"keys")?;
    put_number_word(&mut line, report.steps as u64)?;
    put_word(&mut line, b"steps")?;
    line.push(b'\n')?;
    Ok(line)
}

/// Reads a text of histories, checks it, and writes one line: `ok`, the number of keys and `keys`, the number of
/// steps and `steps`. Checks the whole text before the first write. A legal text is answered with its numbers. Any
/// other text is answered with its first faulty line and the first fault in it, or as too long. Only a failed read,
/// a failed write or running out of memory can prevent that.
pub fn check_text<R: Read, W: Write>(
    alloc: Global,
    reader: &mut R,
    writer: &mut W,
) -> Result<Report, CheckTextError>
    // The text is legal and has these numbers. The writer has received their line and nothing else.
    ensures done { IfOk result (λ report. IsChecked (R.remaining reader.old) report) }
    ensures told { IfOk result (λ r. Appends (W.contents writer.old) (W.contents writer.new) (report_line r)) }

    // A refused text has this fault on this line, and it is the first one.
    ensures refused { IfErr result (λ e. IsUnchecked e (R.remaining reader.old)) }
    ensures unwritten { IfErr result (λ e. e ≢ CheckTextError.Write → writer.new ≡ writer.old) }

    // If a write failed, the text is legal and the writer has received a prefix of its line.
    ensures write { TellsPart result (R.remaining reader.old) (W.contents writer.old) (W.contents writer.new) }

    // A legal text is answered with its numbers and any other is refused, unless a read, a write or an allocation
    // fails.
    ensures legal { AnswersLegal (R.remaining reader.old) (IsUnwrittenOr result) }
    ensures faulty { RefusesFaultyText (R.remaining reader.old) result }
    ensures too_long { RefusesLongText (R.remaining reader.old) result }
{
    let (_, report) = legal_text(alloc, reader)?;
    let Ok(line) = line_of(alloc, report) else {
        return Err(CheckTextError::Check(CheckError::Memory));
    };
    match write_out(writer, &line) {
        Ok(()) => Ok(report),
        Err(_) => Err(CheckTextError::Write),
    }
}

/// Reads a text of histories, checks it, and writes it as a text of the latest version: its first line becomes
/// `locks 2`, and the rest is unchanged. Checks the whole text before the first write. It answers and refuses as
/// [`check_text`] does; the report is that of the text as read.
pub fn upgrade_text<R: Read, W: Write>(
    alloc: Global,
    reader: &mut R,
    writer: &mut W,
) -> Result<Report, CheckTextError>
    // The text is legal and has these numbers. The writer has received it with its first line changed, and that
    // text is legal too.
    ensures done { IfOk result (IsUpgraded (R.remaining reader.old) (W.contents writer.old) (W.contents writer.new)) }

    // A refused text has this fault on this line, and it is the first one.
    ensures refused { IfErr result (λ e. IsUnchecked e (R.remaining reader.old)) }
    ensures unwritten { IfErr result (λ e. e ≢ CheckTextError.Write → writer.new ≡ writer.old) }

    // If a write failed, the text is legal and the writer has received a prefix of the upgraded text.
    ensures write { UpgradesPart result (R.remaining reader.old) (W.contents writer.old) (W.contents writer.new) }

    // A legal text is written and any other is refused, unless a read, a write or an allocation fails.
    ensures legal { AnswersLegal (R.remaining reader.old) (IsUnwrittenOr result) }
    ensures faulty { RefusesFaultyText (R.remaining reader.old) result }
    ensures too_long { RefusesLongText (R.remaining reader.old) result }
{
    let (mut text, report) = legal_text(alloc, reader)?;
    upgrade(&mut text);
    match write_out(writer, &text) {
        Ok(()) => Ok(report),
        Err(_) => Err(CheckTextError::Write),
    }
}
