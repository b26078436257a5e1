//! How does the program do what its command line asks for?
//!
//! [`perform`] reads the words, opens the file of the job or takes the input, and does the job by `script.rt` or
//! `check.rt`. Read next: `specs/Work.antt`, which defines when a job is done and why it fails.
ghost use Rattle.std.specs.Prelude.{◌≡◌, None, IfOk, IfErr};
ghost use Rattle.std.specs.Io.KnownBytes.{Appends};
ghost use Rattle.lt_writer.specs.Puts.{AppendsPrefix};
ghost use Rattle.lockrun_words.specs.Options.{AreInRange};
ghost use Rattle.lt_runner.specs.Gates.{open_gate};
ghost use Rattle.lt_tool.specs.Output.{WritesOutput};
ghost use Rattle.lockrun_words.specs.Words.{HasOptionsInRange, texts};
ghost use Rattle.lt_tool.specs.Work.{IsFailedRun, IsFailedCheck, IsFailedUpgrade, ReportIsWritten, Upgraded, LeavesOutput, JobIsDone, IsFailed, ReadsInput, AskForInput, Performs, WorkFails};

use crate::{CheckTextError, Failure, Finish, RunError, check_text, run_script, upgrade_text};
use lockrun_words::{Job, Options, WordsError, read_words};
use lt_writer::write_out;
use std::alloc::Global;
use std::fs::{File, Files};
use std::io::{Read, Write};
use std::random::RandomSource;
use std::sync::Wait;
use std::thread::Threads;

fn run_from<H: Threads + Wait + RandomSource + Sync, R: Read, W: Write>(
    rt: &H,
    alloc: Global,
    input: &mut R,
    output: &mut W,
    options: &Options,
) -> Result<Finish, Failure>
    requires { AreInRange options.now }
    ensures ok { IfOk result (λ finish. WritesOutput options.now open_gate finish
        (R.remaining input.old) (W.contents output.old) (W.contents output.new)) }
    ensures err { IfErr result (λ e. IsFailedRun options.now e
        (R.remaining input.old) (W.contents output.old) (W.contents output.new)) }
    ensures unwritten { IfErr result (λ e. LeavesOutput e → output.new ≡ output.old) }
{
    match run_script(rt, alloc, input, output, options) {
        Ok(finish) => Ok(finish),
        Err(error) => Err(Failure::Run(error)),
    }
}

fn check_from<R: Read, W: Write>(
    alloc: Global,
    input: &mut R,
    output: &mut W,
) -> Result<Finish, Failure>
    ensures ok { IfOk result (λ finish. (finish ≡ Finish.Done) × ReportIsWritten
        (R.remaining input.old) (W.contents output.old) (W.contents output.new)) }
    ensures err { IfErr result (λ e. IsFailedCheck e
        (R.remaining input.old) (W.contents output.old) (W.contents output.new)) }
    ensures unwritten { IfErr result (λ e. LeavesOutput e → output.new ≡ output.old) }
{
    match check_text(alloc, input, output) {
        Ok(_) => Ok(Finish::Done),
        Err(error) => Err(Failure::Check(error)),
    }
}

fn upgrade_from<R: Read, W: Write>(
    alloc: Global,
    input: &mut R,
    output: &mut W,
) -> Result<Finish, Failure>
    ensures ok { IfOk result (λ finish. (finish ≡ Finish.Done) × Upgraded
        (R.remaining input.old) (W.contents output.old) (W.contents output.new)) }
    ensures err { IfErr result (λ e. IsFailedUpgrade e
        (R.remaining input.old) (W.contents output.old) (W.contents output.new)) }
    ensures unwritten { IfErr result (λ e. LeavesOutput e → output.new ≡ output.old) }
{
    match upgrade_text(alloc, input, output) {
        Ok(_) => Ok(Finish::Done),
        Err(error) => Err(Failure::Check(error)),
    }
}

fn run_file<H: Threads + Wait + RandomSource + Sync, F: Files, W: Write>(
    rt: &H,
    alloc: Global,
    files: &F,
    name: &str,
    output: &mut W,
    options: &Options,
) -> Result<Finish, Failure>
    requires { AreInRange options.now }
    ensures ok { IfOk result (λ finish. WritesOutput options.now open_gate finish
        None (W.contents output.old) (W.contents output.new)) }
    ensures err { IfErr result (λ e. IsFailedRun options.now e None (W.contents output.old) (W.contents output.new)) }
    ensures unwritten { IfErr result (λ e. LeavesOutput e → output.new ≡ output.old) }
{
    match File::open(files, name) {
        Ok(mut file) => run_from(rt, alloc, &mut file, output, options),
        Err(_) => Err(Failure::Run(RunError::Read)),
    }
}

fn check_file<F: Files, W: Write>(
    alloc: Global,
    files: &F,
    name: &str,
    output: &mut W,
) -> Result<Finish, Failure>
    ensures ok { IfOk result (λ finish. (finish ≡ Finish.Done)
        × ReportIsWritten None (W.contents output.old) (W.contents output.new)) }
    ensures err { IfErr result (λ e. IsFailedCheck e None (W.contents output.old) (W.contents output.new)) }
    ensures unwritten { IfErr result (λ e. LeavesOutput e → output.new ≡ output.old) }
{
    match File::open(files, name) {
        Ok(mut file) => check_from(alloc, &mut file, output),
        Err(_) => Err(Failure::Check(CheckTextError::Read)),
    }
}

fn upgrade_file<F: Files, W: Write>(
    alloc: Global,
    files: &F,
    name: &str,
    output: &mut W,
) -> Result<Finish, Failure>
    ensures ok { IfOk result (λ finish. (finish ≡ Finish.Done)
        × Upgraded None (W.contents output.old) (W.contents output.new)) }
    ensures err { IfErr result (λ e. IsFailedUpgrade e None (W.contents output.old) (W.contents output.new)) }
    ensures unwritten { IfErr result (λ e. LeavesOutput e → output.new ≡ output.old) }
{
    match File::open(files, name) {
        Ok(mut file) => upgrade_from(alloc, &mut file, output),
        Err(_) => Err(Failure::Check(CheckTextError::Read)),
    }
}

/// Does the job, reading its file if it names one and the input otherwise.
fn work<H: Threads + Wait + RandomSource + Sync, F: Files, R: Read, W: Write>(
    rt: &H,
    alloc: Global,
    files: &F,
    job: Job<'_>,
    input: &mut R,
    output: &mut W,
) -> Result<Finish, Failure>
    requires { HasOptionsInRange job }
    ensures ok { IfOk result (λ finish. JobIsDone job.entry finish
        (R.remaining input.old) (W.contents output.old) (W.contents output.new)) }
    ensures err { IfErr result (λ e. IsFailed job.entry e
        (R.remaining input.old) (W.contents output.old) (W.contents output.new)) }
    ensures unwritten { IfErr result (λ e. LeavesOutput e → output.new ≡ output.old) }
    ensures unread { (ReadsInput job.entry → ⊥) → input.new ≡ input.old }
{
    match job {
        Job::Run(None, options) => run_from(rt, alloc, input, output, &options),
        Job::Run(Some(name), options) => run_file(rt, alloc, files, name, output, &options),
        Job::Check(None) => check_from(alloc, input, output),
        Job::Check(Some(name)) => check_file(alloc, files, name, output),
        Job::Upgrade(None) => upgrade_from(alloc, input, output),
        Job::Upgrade(Some(name)) => upgrade_file(alloc, files, name, output),
    }
}

fn tell_help<W: Write>(output: &mut W, text: &str) -> Result<Finish, Failure>
    ensures ok { IfOk result (λ finish. (finish ≡ Finish.Done)
        × Appends (W.contents output.old) (W.contents output.new) text.now) }
    ensures err { IfErr result (λ e. (e ≡ Failure.Help)
        × AppendsPrefix (W.contents output.old) (W.contents output.new) text.now) }
{
    match write_out(output, text.as_bytes()) {
        Ok(()) => Ok(Finish::Done),
        Err(_) => Err(Failure::Help),
    }
}

/// Reads the words after the program's name and does what they ask for. This is the whole program except for its
/// streams. Help is written to the output, and counts as success. Only a job without a file reads the input. If the
/// words are refused, nothing is read, written or opened.
pub fn perform<'a, H: Threads + Wait + RandomSource + Sync, F: Files, R: Read, W: Write>(
    rt: &H,
    alloc: Global,
    files: &F,
    words: &'a [&'a str],
    input: &mut R,
    output: &mut W,
) -> Result<Finish, Failure>
    ensures done { IfOk result (λ finish. Performs (texts words.now) finish
        (R.remaining input.old) (W.contents output.old) (W.contents output.new)) }
    ensures failed { IfErr result (λ e. WorkFails (texts words.now) e
        (R.remaining input.old) (W.contents output.old) (W.contents output.new)) }
    ensures unwritten { IfErr result (λ e. LeavesOutput e → output.new ≡ output.old) }

    // The input is unchanged if a file is named, help is printed, or the words are refused.
    ensures unread { (AskForInput (texts words.now) → ⊥) → input.new ≡ input.old }
{
    match read_words(alloc, words) {
        Ok(job) => work(rt, alloc, files, job, input, output),
        Err(WordsError::Help(text)) => tell_help(output, &text),
        Err(WordsError::Refused) => Err(Failure::CommandLine),
        Err(WordsError::Memory) => Err(Failure::Memory),
    }
}
