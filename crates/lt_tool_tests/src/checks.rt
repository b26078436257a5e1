//! What do the check and the upgrade of a history write, and how do they end if a stream fails?
//! A row of `WORKS` is a job, the version of its text, the text, and what is written for it. The tests play each
//! row with readers and writers that fail. Read next `streams` of `lt_tool_test_kit`; tools/gate/compare_runs has the verdicts on
//! other texts.
use lt_history::{CheckError, Report};
use lt_tool::{CheckTextError, check_text, upgrade_text};
use lt_tool_test_kit::streams::{FAULTS_OF_READS, FAULTS_OF_WRITES, Paper, Torn, blank};
use std::io::{ErrorKind, Read};
use std::test::*;

/// A lock that is taken, a reader that waits for it, and a look at the reader. `OLDER` is the same in the first
/// version.
const THREE_STEPS: &str =
    "locks 2\na 1 1 acquire 7 20.0 = taken\na 2 2 visit 1.1 8 20.0 r = wait\na 3 2 look 1 = first 7 held\n";

const OLDER: &str =
    "locks 1\na 1 1 acquire 7 20.0 = taken\na 2 2 visit 1.1 8 20.0 r = wait\na 3 2 look 1 = first 7 held\n";

const LINE: &str = "ok 1 keys 3 steps\n";

type CheckEnding = Result<Report, CheckTextError>;

/// What is done with a text.
#[derive(Clone, Copy)]
enum TextJob {
    Check,
    Upgrade,
}

/// Each job on each version of the text: the job, the version, the text, and what is written.
const WORKS: [(TextJob, u8, &str, &str); 4] = [
    (TextJob::Check, 1, OLDER, LINE),
    (TextJob::Check, 2, THREE_STEPS, LINE),
    (TextJob::Upgrade, 1, OLDER, THREE_STEPS),
    (TextJob::Upgrade, 2, THREE_STEPS, THREE_STEPS),
];

/// Runs the job, and runs it a second time if it ran out of memory and has written nothing.
fn done<R: Read + Drop>(
    rt: &HostRuntime,
    work: TextJob,
    mut readers: [R; 2],
    writer: &mut Paper,
) -> CheckEnding {
    for reader in &mut readers {
        let ended = match work {
            TextJob::Check => check_text(rt.alloc(), reader, writer),
            TextJob::Upgrade => upgrade_text(rt.alloc(), reader, writer),
        };
        if ended != Err(CheckTextError::Check(CheckError::Memory)) || !writer.written().is_empty() {
            return ended;
        }
    }
    Err(CheckTextError::Check(CheckError::Memory))
}

fn torn(text: &str, fails_at: usize, fault: ErrorKind) -> Torn<'_> {
    Torn {
        rest: text.as_bytes(),
        reads: 0,
        fails_at,
        fault,
    }
}

/// A reader of the text that does not fail.
fn whole(text: &str) -> Torn<'_> {
    torn(text, usize::MAX, ErrorKind::Other)
}

fn three_steps(version: u8) -> CheckEnding {
    Ok(Report {
        version,
        keys: 1,
        steps: 3,
    })
}

/// A text of 97 bytes takes ten reads of up to ten bytes, and an eleventh that finds its end. A read that fails or
/// is interrupted is reported, although the next one would succeed.
#[test]
fn reads_that_fail(rt: HostRuntime) {
    assert_eq!(rt; THREE_STEPS.len(), 97);
    for (work, version, text, told) in WORKS {
        for fault in &FAULTS_OF_READS {
            for fails_at in 0..12 {
                let mut writer = blank(1024, 1024);
                let readers = [torn(text, fails_at, *fault), torn(text, fails_at, *fault)];
                let ended = done(&rt, work, readers, &mut writer);
                let (ending, written) = if fails_at < 11 {
                    (Err(CheckTextError::Read), "")
                } else {
                    (three_steps(version), told)
                };
                assert_eq!(rt; ended, ending);
                assert_eq!(rt; writer.written(), written.as_bytes());
            }
        }
    }
}

/// A writer that fails after `stops_at` bytes holds a prefix of the line, or of the upgraded text, of that length.
/// So does a writer that then takes no bytes or is interrupted, although the next write would succeed.
#[test]
fn writes_that_fail(rt: HostRuntime) {
    for (work, version, text, told) in WORKS {
        for fault in &FAULTS_OF_WRITES {
            for stops_at in 0..told.len().saturating_add(2) {
                let mut writer = blank(7, stops_at);
                writer.fault = *fault;
                let ended = done(&rt, work, [whole(text), whole(text)], &mut writer);
                let held = stops_at.min(told.len());
                assert_eq!(rt;
                    ended,
                    if held == told.len() {
                        three_steps(version)
                    } else {
                        Err(CheckTextError::Write)
                    }
                );
                assert_eq!(rt; Some(writer.written()), told.as_bytes().get(..held));
            }
        }
    }
}
