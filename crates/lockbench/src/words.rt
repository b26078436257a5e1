//! Which job does the command line ask for? [`asked`] reads it with clap and returns the job, or an error with the
//! fault.
//!
//! The first half of the file builds the command line for clap from [`COMMANDS`], a row for each command. The defaults and
//! ranges of the options are in [`load_of`], [`hand_over_of`] and [`soak_of`].
use anyhow::bail;
use clap::error::ErrorKind;
use clap::{Arg, ArgAction, ArgMatches, Command, Error};
use lockbench_hand_over::HandOver;
use lockbench_load::Load;
use lockbench_soak::Soak;
use lt_table::{Keeping, MAX_KEY_BYTES, MAX_PASS, MAX_SHARDS};
use std::alloc::{AllocError, Global};

/// The job that the command line asks for.
#[derive(Drop)]
pub enum BenchJob {
    Soak(Soak),
    /// A load, and the name of the file for its trace.
    Load(Load, Option<String>),
    HandOver(HandOver),
    /// The help text, to be printed.
    Help(String),
}

/// An option of a command.
#[derive(Clone, Copy)]
struct BenchOption<'a> {
    name: &'a str,
    /// What its value is called. A flag has none.
    value: Option<&'a str>,
    help: &'a str,
}

/// A command: its name, and its options in the order of the help.
#[derive(Clone, Copy)]
struct BenchCommand<'a> {
    name: &'a str,
    about: &'a str,
    options: &'a [BenchOption<'a>],
}

const COMMANDS: [BenchCommand; 3] = [
    BenchCommand {
        name: "load",
        about: "Times rounds of enter, scan, acquire, finish and leave on a table",
        options: &[
            BenchOption {
                name: "passes",
                value: Some("N"),
                help: "Callers, 1 to 1024; 4 if left out",
            },
            BenchOption {
                name: "keys",
                value: Some("N"),
                help: "Keys, 1 to 10000000; 1000 if left out",
            },
            BenchOption {
                name: "key-bytes",
                value: Some("N"),
                help: "Bytes of each key, 8 to 64; as few as its number takes if left out",
            },
            BenchOption {
                name: "steps",
                value: Some("N"),
                help: "Key steps of each pass, about; 1000000 if left out",
            },
            BenchOption {
                name: "shards",
                value: Some("N"),
                help: "Shards of the table, 1 to 64; 4 if left out",
            },
            BenchOption {
                name: "held",
                value: Some("N"),
                help: "Locks that a further pass holds meanwhile, 0 to 1000000; 0 if left out. Then --passes is at most 1023",
            },
            BenchOption {
                name: "threads",
                value: None,
                help: "Run each pass on a thread of its own",
            },
            BenchOption {
                name: "wait",
                value: None,
                help: "With --threads: sleep until let through, in place of polling",
            },
            BenchOption {
                name: "history",
                value: Some("WAY"),
                help: "How the table keeps its steps: whole, streamed or unrecorded; whole if left out",
            },
            BenchOption {
                name: "trace",
                value: Some("FILE"),
                help: "With --history streamed: keep what is taken, and write the histories here at the end",
            },
        ],
    },
    BenchCommand {
        name: "hand-over",
        about: "Times how a lock goes from transaction to transaction while requests wait for it",
        options: &[
            BenchOption {
                name: "waiters",
                value: Some("N"),
                help: "Requests that wait to write the key, 1 to 1000; 64 if left out",
            },
            BenchOption {
                name: "rounds",
                value: Some("N"),
                help: "Hand-overs, 1 to 100000000; 200000 if left out",
            },
            BenchOption {
                name: "history",
                value: Some("WAY"),
                help: "How the table keeps its steps: whole or unrecorded; whole if left out",
            },
        ],
    },
    BenchCommand {
        name: "soak",
        about: "Plays random requests on threads, and checks the histories",
        options: &[
            BenchOption {
                name: "seconds",
                value: Some("N"),
                help: "For so long; 60 if left out",
            },
            BenchOption {
                name: "history",
                value: Some("WAY"),
                help: "How the table keeps its steps: whole, streamed or unrecorded; whole if left out",
            },
        ],
    },
];

/// The argument of a row.
fn argument<'a>(alloc: Global, row: &BenchOption<'a>) -> Arg<'a> {
    let named = Arg::new(alloc, row.name).long(row.name).help(row.help);
    match row.value {
        Some(value) => named.value_name(value),
        None => named.action(ArgAction::SetTrue),
    }
}

/// The command of a row.
fn subcommand<'a>(alloc: Global, row: &BenchCommand<'a>) -> Result<Command<'a>, AllocError> {
    let mut command = Command::new(alloc, row.name).about(row.about);
    for row in row.options {
        command = command.arg(argument(alloc, row))?;
    }
    Ok(command)
}

/// The command line of the program, without its commands.
fn program<'a>(alloc: Global) -> Result<Command<'a>, AllocError> {
    Command::new(alloc, "lockbench")
        .no_binary_name(true)
        .about("Times the lock table, and plays at it by chance")
        .bin_name("lockbench")
}

/// The command line of the program.
fn command<'a>(alloc: Global) -> Result<Command<'a>, AllocError> {
    let mut command = program(alloc)?;
    for row in &COMMANDS {
        command = command.subcommand(subcommand(alloc, row)?)?;
    }
    Ok(command)
}

/// The number of an option, from `least` to `most`. None if the option is left out. An error if the value is not such
/// a number.
fn number_between(
    matches: &ArgMatches<'_>,
    name: &str,
    least: u64,
    most: u64,
) -> anyhow::Result<Option<u64>> {
    let Some(word) = matches.get_str(name) else {
        return Ok(None);
    };
    match word.parse::<u64>() {
        Ok(n) if least <= n && n <= most => Ok(Some(n)),
        _ => bail!("--{name} is from {least} to {most}"),
    }
}

/// The number of an option, from 1 to `most`, or the default if the option is left out. An error if the value is
/// not such a number.
fn number_of(matches: &ArgMatches<'_>, name: &str, default: u64, most: u64) -> anyhow::Result<u64> {
    Ok(number_between(matches, name, 1, most)?.unwrap_or(default))
}

/// How the table keeps its steps; whole if the option is left out.
fn keeping_of(matches: &ArgMatches<'_>) -> anyhow::Result<Keeping> {
    match matches.get_str("history") {
        None | Some("whole") => Ok(Keeping::Whole),
        Some("streamed") => Ok(Keeping::Streamed),
        Some("unrecorded") => Ok(Keeping::Unrecorded),
        Some(_) => bail!("--history is whole, streamed or unrecorded"),
    }
}

fn load_of(matches: &ArgMatches<'_>) -> anyhow::Result<Load> {
    Ok(Load {
        passes: number_of(matches, "passes", 4, u64::from(MAX_PASS))? as usize,
        keys: number_of(matches, "keys", 1_000, 10_000_000)? as usize,
        steps: number_of(matches, "steps", 1_000_000, 1 << 32)?,
        shards: number_of(matches, "shards", 4, MAX_SHARDS as u64)? as usize,
        held: number_between(matches, "held", 0, 1_000_000)?,
        key_bytes: number_between(matches, "key-bytes", 8, MAX_KEY_BYTES as u64)?,
        threads: matches.get_flag("threads"),
        waits: matches.get_flag("wait"),
        keeping: keeping_of(matches)?,
        traces: matches.get_str("trace").is_some(),
    })
}

/// An error if the load's options do not go together: `--wait` without `--threads`, `--trace` without
/// `--history streamed`, or more passes than a table has.
fn check_options(load: &Load) -> anyhow::Result<()> {
    if load.waits && !load.threads {
        bail!("--wait needs --threads");
    }
    if load.traces && load.keeping != Keeping::Streamed {
        bail!("--trace needs --history streamed");
    }
    let most = u64::from(MAX_PASS).saturating_sub(load.further_passes() as u64);
    if load.passes as u64 > most {
        bail!("--passes is from 1 to {most} with --held or --history streamed");
    }
    Ok(())
}

/// The job of a load. An error if its options do not go together.
fn load_job(alloc: Global, matches: &ArgMatches<'_>) -> anyhow::Result<BenchJob> {
    let load = load_of(matches)?;
    check_options(&load)?;
    let file = match matches.get_str("trace") {
        Some(name) => Some(String::from_str(alloc, name)?),
        None => None,
    };
    Ok(BenchJob::Load(load, file))
}

/// The job of a hand-over. An error if an option is out of its range, or the table is to be streamed.
fn hand_over_of(matches: &ArgMatches<'_>) -> anyhow::Result<HandOver> {
    let keeping = keeping_of(matches)?;
    if keeping == Keeping::Streamed {
        bail!("--history is whole or unrecorded");
    }
    Ok(HandOver {
        waiters: number_of(matches, "waiters", 64, 1_000)? as usize,
        rounds: number_of(matches, "rounds", 200_000, 100_000_000)?,
        keeping,
    })
}

fn soak_of(matches: &ArgMatches<'_>) -> anyhow::Result<Soak> {
    Ok(Soak {
        seconds: number_of(matches, "seconds", 60, 1_000_000)?,
        keeping: keeping_of(matches)?,
    })
}

fn job_of(alloc: Global, matches: &ArgMatches<'_>) -> anyhow::Result<BenchJob> {
    let Some((name, inner)) = matches.subcommand() else {
        bail!("there is no word");
    };
    Ok(match name {
        "soak" => BenchJob::Soak(soak_of(inner)?),
        "hand-over" => BenchJob::HandOver(hand_over_of(inner)?),
        _ => load_job(alloc, inner)?,
    })
}

/// The job of a command line that clap refuses: help, or an error whose text has no `error: ` prefix.
fn job_of_error(alloc: Global, error: &Error) -> anyhow::Result<BenchJob> {
    let text = format!(in alloc; "{error}")?;
    match error.kind() {
        ErrorKind::DisplayHelp => Ok(BenchJob::Help(text)),
        _ => match text.strip_prefix("error: ") {
            Some(fault) => bail!("{fault}"),
            None => bail!("{text}"),
        },
    }
}

fn read(alloc: Global, words: &[&str]) -> anyhow::Result<BenchJob> {
    match command(alloc)?.try_get_matches_from(words) {
        Ok(matches) => job_of(alloc, &matches),
        Err(error) => job_of_error(alloc, &error),
    }
}

/// The job that the command line asks for; help if it is empty.
pub fn asked(alloc: Global, words: &[&str]) -> anyhow::Result<BenchJob> {
    if words.is_empty() {
        return read(alloc, &["--help"]);
    }
    read(alloc, words)
}
