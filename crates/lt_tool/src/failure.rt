//! How does the program end if it could not do its work?
//!
//! [`Failure`] collects everything that can go wrong, [`status`] gives the exit status, and [`complain`] writes the
//! line on standard error. Read next: `specs/Program.antt`, which defines both.
ghost use Rattle.std.specs.Prelude.{◌≡◌, OnOk, decimal};
ghost use Rattle.std.specs.Io.KnownBytes.{Appends};
ghost use Rattle.lt_tool.specs.Program.{check_message, check_status, error_message, error_status, status_of, failure_message, message_of, script_fault_name, fault_end, line_message};

use crate::{CheckTextError, Finish, RunError};
use itoa::Buffer;
use lt_checker::CheckError;
use lt_script::ScriptFault;
use lt_writer::{PrintError, write_out};
use std::io::Write;

/// Why the program did not do its work.
#[derive(Clone, Copy, Debug, PartialEq, Eq)]
pub enum Failure {
    /// The words after the program's name are not a command line of the program.
    CommandLine,
    /// Memory ran out before it was known what the words ask for.
    Memory,
    /// The help was not written completely: a write failed, was interrupted, or took no byte.
    Help,
    /// A script was not run, or its output was not written completely. A file that cannot be opened counts as a
    /// failed read.
    Run(RunError),
    /// A text of histories is not legal, or its check or its upgrade did not finish. A file that cannot be opened
    /// counts as a failed read.
    Check(CheckTextError),
}

fn error_status(error: RunError) -> u8
    ensures { result ≡ error_status error }
{
    match error {
        RunError::Script { .. } => 1,
        RunError::TooLong => 1,
        RunError::Memory => 4,
        RunError::Counts => 4,
        RunError::Read => 5,
        RunError::Write => 5,
    }
}

fn check_status(error: CheckTextError) -> u8
    ensures { result ≡ check_status error }
{
    match error {
        CheckTextError::Check(CheckError::Refused { .. }) => 1,
        CheckTextError::Check(CheckError::Memory) => 4,
        CheckTextError::TooLong => 1,
        CheckTextError::Read => 5,
        CheckTextError::Write => 5,
    }
}

/// The exit status of the program: 0 if it did its work, including printing help; 1 if a script or a text of
/// histories was refused or too long; 2 if the command line was refused; 3 if turns were used up; 4 if memory ran
/// out or a table could not be closed; 5 if a read or a write failed.
pub fn status(ending: &Result<Finish, Failure>) -> u8
    ensures { result ≡ status_of ending.now }
{
    match ending {
        Ok(Finish::Done) => 0,
        Ok(Finish::TurnsOut) => 3,
        Err(Failure::CommandLine) => 2,
        Err(Failure::Memory) => 4,
        Err(Failure::Help) => 5,
        Err(Failure::Run(error)) => error_status(*error),
        Err(Failure::Check(error)) => check_status(*error),
    }
}

/// The name of a script's fault.
fn script_fault_name(fault: ScriptFault) -> &'static [u8]
    ensures { result.now ≡ script_fault_name fault }
{
    match fault {
        ScriptFault::BadPass => b"BadPass",
        ScriptFault::BadCall => b"BadCall",
        ScriptFault::BadWords => b"BadWords",
        ScriptFault::BadTxn => b"BadTxn",
        ScriptFault::BadTime => b"BadTime",
        ScriptFault::BadMax => b"BadMax",
        ScriptFault::BadKey => b"BadKey",
        ScriptFault::BadAccess => b"BadAccess",
    }
}

fn write_number<W: Write>(writer: &mut W, n: u64) -> Result<(), PrintError>
    ensures { OnOk result (Appends (W.contents writer.old) (W.contents writer.new) (decimal n)) }
{
    let mut buffer = Buffer::new();
    write_out(writer, buffer.format(n).as_bytes())
}

/// Writes the end of the line that reports the fault of this name.
fn write_fault<W: Write>(writer: &mut W, name: &[u8]) -> Result<(), PrintError>
    ensures { OnOk result (Appends (W.contents writer.old) (W.contents writer.new) (fault_end name.now)) }
{
    write_out(writer, b": ")?;
    write_out(writer, name)?;
    write_out(writer, b"\n")?;
    Ok(())
}

fn complain_of_line<W: Write>(writer: &mut W, line: usize, name: &[u8]) -> Result<(), PrintError>
    ensures { OnOk result (Appends (W.contents writer.old) (W.contents writer.new) (line_message line name.now)) }
{
    write_out(writer, b"lockrun: line ")?;
    write_number(writer, line as u64)?;
    write_fault(writer, name)?;
    Ok(())
}

fn complain_of_script<W: Write>(writer: &mut W, error: RunError) -> Result<(), PrintError>
    ensures { OnOk result (Appends (W.contents writer.old) (W.contents writer.new) (error_message error)) }
{
    match error {
        RunError::Script { line, fault } => complain_of_line(
            writer,
            line,
            script_fault_name(fault),
        ),
        RunError::TooLong => write_out(writer, b"lockrun: text too long\n"),
        RunError::Memory => write_out(writer, b"lockrun: memory\n"),
        RunError::Counts => write_out(writer, b"lockrun: counts\n"),
        RunError::Read => write_out(writer, b"lockrun: read\n"),
        RunError::Write => write_out(writer, b"lockrun: write\n"),
    }
}

fn complain_of_check<W: Write>(writer: &mut W, error: CheckTextError) -> Result<(), PrintError>
    ensures { OnOk result (Appends (W.contents writer.old) (W.contents writer.new) (check_message error)) }
{
    match error {
        CheckTextError::Check(CheckError::Refused { line, fault }) => {
            complain_of_line(writer, line, fault.name().as_bytes())
        }
        CheckTextError::Check(CheckError::Memory) => write_out(writer, b"lockrun: memory\n"),
        CheckTextError::TooLong => write_out(writer, b"lockrun: text too long\n"),
        CheckTextError::Read => write_out(writer, b"lockrun: read\n"),
        CheckTextError::Write => write_out(writer, b"lockrun: write\n"),
    }
}

fn complain_of_failure<W: Write>(writer: &mut W, failure: &Failure) -> Result<(), PrintError>
    ensures { OnOk result (Appends (W.contents writer.old) (W.contents writer.new) (failure_message failure.now)) }
{
    match failure {
        Failure::CommandLine => write_out(writer, b"lockrun: command line\n"),
        Failure::Memory => write_out(writer, b"lockrun: memory\n"),
        Failure::Help => write_out(writer, b"lockrun: write\n"),
        Failure::Run(error) => complain_of_script(writer, *error),
        Failure::Check(error) => complain_of_check(writer, *error),
    }
}

/// Writes the one line that says what went wrong, or that turns were used up. Writes nothing if the work was done.
/// Allocates nothing.
pub fn complain<W: Write>(
    writer: &mut W,
    ending: &Result<Finish, Failure>,
) -> Result<(), PrintError>
    ensures { OnOk result (Appends (W.contents writer.old) (W.contents writer.new) (message_of ending.now)) }
{
    match ending {
        Ok(Finish::Done) => write_out(writer, b""),
        Ok(Finish::TurnsOut) => write_out(writer, b"lockrun: turns\n"),
        Err(failure) => complain_of_failure(writer, failure),
    }
}
