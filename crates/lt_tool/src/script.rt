//! How does the program run a script, from its text to its output?
//!
//! [`run_script_with`] reads and checks the script, runs it, and writes the output that `table_run.rt` composed.
//! Read next: `table_run.rt`, and `specs/Output.antt` for what is written.
ghost use Rattle.std.specs.Prelude.{◌≡◌, ◌≢◌, IfOk, IfErr};
ghost use Rattle.lockrun_words.specs.Options.{AreInRange};
ghost use Rattle.lt_runner.specs.Gates.{open_gate};
ghost use Rattle.lt_tool.specs.Output.{WritesOutput, WritesInPart, IsScriptRefused, AreCommandsOf, RefusesFaultyScript, RefusesLongScript, unread_script, unscripted, unfinished};

use crate::input::{Unread, read_text};
use crate::table_run::run_commands;
use lockrun_words::Options;
use lt_runner::{Finish, Gate, OpenGate, RunFault};
use lt_script::{Script, ScriptError, ScriptFault, read_script};
use lt_writer::write_out;
use std::alloc::Global;
use std::io::{Read, Write};
use std::random::RandomSource;
use std::sync::Wait;
use std::thread::Threads;
use thiserror::Error;

/// Why a script was not run, or its output was not written completely.
#[derive(Clone, Copy, Debug, PartialEq, Eq, Drop, Error)]
pub enum RunError {
    /// A read failed. Nothing was written.
    #[error("the script could not be read")]
    Read,
    /// The script has more than 16,777,216 bytes. Nothing was written.
    #[error("the script is too long")]
    TooLong,
    /// The first faulty line of the script, counted from 1, and the first fault in it. Nothing was written.
    #[error("line {line}: {fault}")]
    Script { line: usize, fault: ScriptFault },
    /// Memory ran out. Nothing was written.
    #[error("out of memory")]
    Memory,
    /// Internal error: the table could not be closed, because its steps do not match its passes (never seen).
    /// Nothing was written.
    #[error("the table could not be closed")]
    Counts,
    /// A write failed, was interrupted, or took no byte. A prefix of the output was written.
    #[error("the output could not be written to its end")]
    Write,
}

fn unread_script(why: Unread) -> RunError
    ensures { result ≡ unread_script why }
{
    match why {
        Unread::Read => RunError::Read,
        Unread::TooLong => RunError::TooLong,
        Unread::Memory => RunError::Memory,
    }
}

fn unscripted(why: ScriptError) -> RunError
    ensures { result ≡ unscripted why }
{
    match why {
        ScriptError::Fault { line, fault } => RunError::Script { line, fault },
        ScriptError::Memory => RunError::Memory,
    }
}

fn unfinished(why: RunFault) -> RunError
    ensures { result ≡ unfinished why }
{
    match why {
        RunFault::Memory => RunError::Memory,
        RunFault::Counts => RunError::Counts,
    }
}

/// Reads and parses the script.
fn script_of<R: Read>(alloc: Global, reader: &mut R) -> Result<Script, RunError>
    ensures ok { IfOk result (λ script. AreCommandsOf script (R.remaining reader.old)) }
    ensures err { IfErr result (λ e. IsScriptRefused e (R.remaining reader.old)) }
    ensures faulty { RefusesFaultyScript (R.remaining reader.old) result }
    ensures too_long { RefusesLongScript (R.remaining reader.old) result }
    ensures unwritten { IfErr result (λ e. e ≢ RunError.Write) }
{
    let text = match read_text(alloc, reader) {
        Ok(text) => text,
        Err(why) => return Err(unread_script(why)),
    };
    match read_script(alloc, &text) {
        Ok(script) => Ok(script),
        Err(why) => Err(unscripted(why)),
    }
}

/// Reads a script, runs it by the public calls of a lock table that is opened for it, and writes the answers of its
/// lines and then the histories of its keys. With threads, each pass runs its lines on a thread of its own, and a
/// line `await` polls at most as often as the turns say. Otherwise the lines run in their order on one thread, and
/// `await` polls once. The gate is asked before each line. The whole script is read and checked before the first
/// line runs, and the whole output is composed before the first write.
pub fn run_script_with<H: Threads + Wait + RandomSource + Sync, R: Read, W: Write, G: Gate + Sync>(
    rt: &H,
    alloc: Global,
    reader: &mut R,
    writer: &mut W,
    options: &Options,
    gate: &G,
) -> Result<Finish, RunError>
    requires { AreInRange options.now }

    // Each line that was run is answered. Then comes a text of legal histories, which a check accepts and which
    // holds everything that the answers tell. Nothing else is written.
    ensures done { IfOk result (λ finish. WritesOutput options.now (G.may_answer gate.now) finish
        (R.remaining reader.old) (W.contents writer.old) (W.contents writer.new)) }

    // A text that is refused has this fault, and that on this line, first.
    ensures refused { IfErr result (λ e. IsScriptRefused e (R.remaining reader.old)) }
    ensures unwritten { IfErr result (λ e. e ≢ RunError.Write → writer.new ≡ writer.old) }

    // If a write failed, the writer has received a prefix of the output.
    ensures write { IfErr result (λ e. e ≡ RunError.Write → WritesInPart options.now (G.may_answer gate.now)
        (R.remaining reader.old) (W.contents writer.old) (W.contents writer.new)) }

    // A faulty script is refused with exactly that fault, and one that is too long as too long, unless a read or an
    // allocation fails.
    ensures faulty { RefusesFaultyScript (R.remaining reader.old) result }
    ensures too_long { RefusesLongScript (R.remaining reader.old) result }
{
    let script = script_of(alloc, reader)?;
    let outcome = match run_commands(rt, alloc, options, gate, script) {
        Ok(outcome) => outcome,
        Err(why) => return Err(unfinished(why)),
    };
    match write_out(writer, &outcome.text) {
        Ok(()) => Ok(outcome.finish),
        Err(_) => Err(RunError::Write),
    }
}

/// Runs a script as [`run_script_with`] does, with the gate that lets every line run.
pub fn run_script<H: Threads + Wait + RandomSource + Sync, R: Read, W: Write>(
    rt: &H,
    alloc: Global,
    reader: &mut R,
    writer: &mut W,
    options: &Options,
) -> Result<Finish, RunError>
    requires { AreInRange options.now }
    ensures done { IfOk result (λ finish. WritesOutput options.now open_gate finish
        (R.remaining reader.old) (W.contents writer.old) (W.contents writer.new)) }
    // A refused script has this fault on this line, and it is the first one.
    ensures refused { IfErr result (λ e. IsScriptRefused e (R.remaining reader.old)) }
    ensures unwritten { IfErr result (λ e. e ≢ RunError.Write → writer.new ≡ writer.old) }
    ensures write { IfErr result (λ e. e ≡ RunError.Write → WritesInPart options.now open_gate
        (R.remaining reader.old) (W.contents writer.old) (W.contents writer.new)) }
    ensures faulty { RefusesFaultyScript (R.remaining reader.old) result }
    ensures too_long { RefusesLongScript (R.remaining reader.old) result }
{
    run_script_with(rt, alloc, reader, writer, options, &OpenGate)
}
