//! Which job do command lines name, and how does the program tell of a failure?
//! tools/gate/compare_runs plays whole command lines. Here is what needs a value or an output that fails.
use lt_history::CheckError;
use lt_script::ScriptFault;
use lt_tool::{
    CheckTextError, Failure, Finish, Job, Options, RunError, complain, perform, read_words, status,
};
use lt_tool_test_kit::streams::{Paper, blank};
use std::alloc::Global;
use std::fs::Files;
use std::random::RandomSource;
use std::sync::Wait;
use std::test::*;
use std::thread::Threads;

/// The words that ask for the help of the program or of a command, and its first eight bytes.
const HELPS: [(&[&str], &str); 5] = [
    (&["--help"], "Runs scr"),
    (&["help"], "Runs scr"),
    (&["run", "--help"], "Runs a s"),
    (&["check", "-h"], "Checks w"),
    (&["upgrade", "-h"], "Writes a"),
];

/// Runs the program, and runs it a second time if it ended with status 4 and has written nothing. A failed
/// allocation has that status.
fn ended<H: Threads + Wait + RandomSource + Sync, F: Files>(
    rt: &H,
    alloc: Global,
    files: &F,
    words: &'static [&'static str],
    output: &mut Paper,
) -> Result<Finish, Failure> {
    for _ in 0..2 {
        let ending = perform(rt, alloc, files, words, &mut b"".as_slice(), output);
        if status(&ending) != 4 || !output.written().is_empty() {
            return ending;
        }
    }
    Err(Failure::Memory)
}

/// Help is written to standard output. If the output fails after eight bytes, it holds that prefix, and the status is 5.
#[test]
fn help_is_printed_as_far_as_it_goes(rt: HostRuntime) {
    for (words, prefix) in HELPS {
        let mut output = blank(1024, 8);
        let ending = ended(&rt, rt.alloc(), &rt, words, &mut output);
        assert_eq!(rt; status(&ending), 5);
        assert_eq!(rt; output.written(), prefix.as_bytes());
    }
}

/// The jobs that words name. `--` ends the options, so the name of a file after it may begin with a hyphen.
#[test]
fn command_lines_are_read(rt: HostRuntime) {
    let options = Options::default();
    let none: &'static [&'static str] = &[];
    let few = Options {
        shards: 1,
        steps: 2,
        threads: false,
        turns: 1000000,
    };
    let threads = Options {
        shards: 4,
        steps: 1000000,
        threads: true,
        turns: 1000000,
    };
    let most = Options {
        shards: 64,
        steps: 4294967296,
        threads: true,
        turns: 1000000000,
    };
    let names: [(&'static [&'static str], Job<'static>); 12] = [
        (none, Job::Run(None, options)),
        (&["run"], Job::Run(None, options)),
        (&["run", "s"], Job::Run(Some("s"), options)),
        (&["check"], Job::Check(None)),
        (&["check", "f"], Job::Check(Some("f"))),
        (&["check", "-"], Job::Check(Some("-"))),
        (&["upgrade"], Job::Upgrade(None)),
        (&["upgrade", "f"], Job::Upgrade(Some("f"))),
        (&["run", "--", "--help"], Job::Run(Some("--help"), options)),
        (
            &["run", "s", "--shards", "1", "--steps", "2"],
            Job::Run(Some("s"), few),
        ),
        (&["run", "--threads"], Job::Run(None, threads)),
        (
            &[
                "run",
                "--turns=1000000000",
                "--steps=4294967296",
                "--threads",
                "--shards=64",
                "s",
            ],
            Job::Run(Some("s"), most),
        ),
    ];
    for (words, job) in names {
        let mut read = read_words(rt.alloc(), words).ok();
        if read.is_none() {
            read = read_words(rt.alloc(), words).ok();
        }
        assert_eq!(rt; read, Some(job));
    }
}

/// The status and the message of each failure.
#[test]
fn failures_are_reported(rt: HostRuntime) {
    let script = RunError::Script {
        line: 18446744073709551615,
        fault: ScriptFault::BadAccess,
    };
    let faulty = CheckTextError::Check(CheckError::Refused {
        line: 10,
        fault: lt_history::Fault::WrongLets,
    });
    let memory = CheckTextError::Check(CheckError::Memory);
    for (failure, code, message) in [
        (Failure::CommandLine, 2, "lockrun: command line\n"),
        (Failure::Memory, 4, "lockrun: memory\n"),
        (Failure::Help, 5, "lockrun: write\n"),
        (
            Failure::Run(script),
            1,
            "lockrun: line 18446744073709551615: BadAccess\n",
        ),
        (
            Failure::Run(RunError::TooLong),
            1,
            "lockrun: text too long\n",
        ),
        (Failure::Run(RunError::Memory), 4, "lockrun: memory\n"),
        (Failure::Run(RunError::Counts), 4, "lockrun: counts\n"),
        (Failure::Run(RunError::Read), 5, "lockrun: read\n"),
        (Failure::Run(RunError::Write), 5, "lockrun: write\n"),
        (Failure::Check(faulty), 1, "lockrun: line 10: WrongLets\n"),
        (Failure::Check(memory), 4, "lockrun: memory\n"),
        (
            Failure::Check(CheckTextError::TooLong),
            1,
            "lockrun: text too long\n",
        ),
        (Failure::Check(CheckTextError::Read), 5, "lockrun: read\n"),
        (Failure::Check(CheckTextError::Write), 5, "lockrun: write\n"),
    ] {
        let mut told = blank(1, 1024);
        let ending = Err(failure);
        assert_eq!(rt; complain(&mut told, &ending), Ok(()));
        assert_eq!(rt; told.written(), message.as_bytes());
        assert_eq!(rt; status(&ending), code);
    }
    assert_eq!(rt; status(&Ok(Finish::TurnsOut)), 3);
}
