//! Which task do the words of the command line ask for?
//!
//! The first half of the file builds the command line for clap from [`COMMANDS`], a row for each command. The second
//! half turns clap's matches into a [`Task`]. [`read_task`] combines the two. Read next: `task.rt` of `locktrace`, which
//! performs a task.
use crate::help;
use clap::error::ErrorKind;
use clap::{Arg, ArgAction, ArgMatches, Command, Error};
use lt_text::number::number;
use lt_trace_show::{ColourChoice, Layout, Terminal, choice_of, layout_of, width_of};
use std::alloc::{AllocError, Global};

/// Which steps of a text are wanted.
#[derive(Clone, Copy)]
pub struct WantedSteps<'a> {
    /// The key; all keys if left out.
    pub key: Option<&'a str>,
    /// The index of the first step.
    pub from: u64,
    /// The index of the last step.
    pub to: u64,
}

/// How a trace is to be sorted.
#[derive(Clone, Copy)]
pub struct SortWords<'a> {
    /// Whether the lines are JSON objects.
    pub json: bool,
    /// How many bytes of lines may be in memory.
    pub memory: u64,
    /// The folder of temporary files.
    pub folder: &'a str,
}

/// Where a picture goes, and its form.
#[derive(Clone, Copy)]
pub struct PictureWords<'a> {
    pub out: Option<&'a str>,
    pub html: bool,
}

/// What the program is asked to do. A task without a file reads standard input.
#[derive(Clone, Copy)]
pub enum Task<'a> {
    Sort(Option<&'a str>, SortWords<'a>),
    Check(Option<&'a str>),
    Audit(Option<&'a str>),
    Explain(&'a str),
    Show(Option<&'a str>, WantedSteps<'a>, Layout),
    Picture(Option<&'a str>, WantedSteps<'a>, PictureWords<'a>),
}

/// Why the words name no task.
#[derive(Drop)]
pub enum TaskError {
    /// They ask for help, and this is its text.
    Help(String),
    /// They are not a command line of the program, for this reason.
    Refused(String),
    /// Memory ran out.
    Memory,
}

/// An option of a command.
#[derive(Clone, Copy)]
struct TraceOption<'a> {
    name: &'a str,
    /// Its short form, if it has one.
    short: Option<char>,
    /// What its value is called. A flag has none.
    value: Option<&'a str>,
    is_required: bool,
    help: &'a str,
}

/// A command: its name, its file, and its options in the order of the help.
#[derive(Clone, Copy)]
struct TraceCommand<'a> {
    name: &'a str,
    about: &'a str,
    /// What the help shows below the options.
    after: &'a str,
    needs_file: bool,
    file: &'a str,
    options: &'a [TraceOption<'a>],
}

/// What the help says of a file that may be left out.
const FILE: &str = "The file to read. Without one, the command reads standard input";

/// The help of the option `key`.
const KEY_HELP: &str = "The key whose steps are wanted. Write --key=-x if it begins with a hyphen";

const KEY: TraceOption = TraceOption {
    name: "key",
    short: None,
    value: Some("KEY"),
    is_required: false,
    help: KEY_HELP,
};

const DRAWN_KEY: TraceOption = TraceOption {
    name: "key",
    short: None,
    value: Some("KEY"),
    is_required: true,
    help: KEY_HELP,
};

const FROM: TraceOption = TraceOption {
    name: "from",
    short: None,
    value: Some("I"),
    is_required: false,
    help: "The index of the first step, default 1",
};

const TO: TraceOption = TraceOption {
    name: "to",
    short: None,
    value: Some("J"),
    is_required: false,
    help: "The index of the last step",
};

const COMMANDS: [TraceCommand; 6] = [
    TraceCommand {
        name: "sort",
        about: "Sorts the lines of a trace, in the order in which they happened, into a text of histories",
        after: help::SORT,
        needs_file: false,
        file: FILE,
        options: &[
            TraceOption {
                name: "json",
                short: None,
                value: None,
                is_required: false,
                help: "Each line is a JSON object",
            },
            TraceOption {
                name: "memory",
                short: None,
                value: Some("SIZE"),
                is_required: false,
                help: "The most memory for lines, such as 64M or 2G, default 256M",
            },
            TraceOption {
                name: "temporary",
                short: None,
                value: Some("FOLDER"),
                is_required: false,
                help: "The folder for temporary files, default /tmp",
            },
        ],
    },
    TraceCommand {
        name: "check",
        about: "Checks whether a text of histories is legal, and writes the numbers of its keys and steps",
        after: help::CHECK,
        needs_file: false,
        file: FILE,
        options: &[],
    },
    TraceCommand {
        name: "audit",
        about: "Judges the waits of a trace: who was put to sleep, who was told of a let, and who gave up",
        after: help::AUDIT,
        needs_file: false,
        file: FILE,
        options: &[],
    },
    TraceCommand {
        name: "explain",
        about: "Checks a text of histories. Says what the rules give for its first faulty line, or sums up a legal text",
        after: help::EXPLAIN,
        needs_file: true,
        file: "The file to read. It is read twice if it has a fault",
        options: &[],
    },
    TraceCommand {
        name: "show",
        about: "Checks a text of histories, and writes the steps of its keys as a table with the state after each",
        after: help::SHOW,
        needs_file: false,
        file: FILE,
        options: &[
            KEY,
            FROM,
            TO,
            TraceOption {
                name: "width",
                short: None,
                value: Some("N"),
                is_required: false,
                help: "The width of the table in columns, from 40 to 65535",
            },
            TraceOption {
                name: "colour",
                short: None,
                value: Some("WHEN"),
                is_required: false,
                help: "Whether the table has colours: always, never, or auto, the default",
            },
        ],
    },
    TraceCommand {
        name: "picture",
        about: "Checks a text of histories, and draws the steps of a key",
        after: help::PICTURE,
        needs_file: false,
        file: FILE,
        options: &[
            DRAWN_KEY,
            FROM,
            TO,
            TraceOption {
                name: "out",
                short: Some('o'),
                value: Some("FILE"),
                is_required: false,
                help: "The file for the picture. Without one, the command writes standard output",
            },
            TraceOption {
                name: "html",
                short: None,
                value: None,
                is_required: false,
                help: "Makes a page of HTML instead of an SVG",
            },
        ],
    },
];

/// The option of a row.
fn option<'a>(alloc: Global, row: &TraceOption<'a>) -> Arg<'a> {
    let arg = Arg::new(alloc, row.name)
        .long(row.name)
        .required(row.is_required)
        .help(row.help);
    let arg = match row.short {
        Some(short) => arg.short(short),
        None => arg,
    };
    match row.value {
        Some(value) => arg.value_name(value),
        None => arg.action(ArgAction::SetTrue),
    }
}

/// The command of a row, without its options.
fn reader<'a>(alloc: Global, row: &TraceCommand<'a>) -> Result<Command<'a>, AllocError> {
    let file = Arg::new(alloc, "file")
        .value_name("FILE")
        .required(row.needs_file)
        .help(row.file);
    Command::new(alloc, row.name)
        .about(row.about)
        .after_help(row.after)
        .arg(file)
}

/// The command of a row.
fn subcommand<'a>(alloc: Global, row: &TraceCommand<'a>) -> Result<Command<'a>, AllocError> {
    let mut command = reader(alloc, row)?;
    for row in row.options {
        command = command.arg(option(alloc, row))?;
    }
    Ok(command)
}

/// The command line of the program, without its commands.
fn program<'a>(alloc: Global) -> Result<Command<'a>, AllocError> {
    let about =
        "Works with traces of lock tables: sorts, checks, audits, explains, shows and draws them";
    let named = Command::new(alloc, "locktrace")
        .no_binary_name(true)
        .bin_name("locktrace")?;
    Ok(named.about(about).after_help(help::PROGRAM))
}

/// The command line of the program.
fn command<'a>(alloc: Global) -> Result<Command<'a>, AllocError> {
    let mut command = program(alloc)?;
    for row in &COMMANDS {
        command = command.subcommand(subcommand(alloc, row)?)?;
    }
    Ok(command)
}

/// Whether a flag was given. Its value is then `true`.
fn is_given(value: Option<&str>) -> bool {
    match value {
        Some(value) => value == "true",
        None => false,
    }
}

/// The refusal of a word that is not what its option takes.
fn refused(alloc: Global, option: &str, word: &str, wanted: &str) -> TaskError {
    match format!(in alloc; "--{option} takes {wanted}, and not {word}") {
        Ok(why) => TaskError::Refused(why),
        Err(_) => TaskError::Memory,
    }
}

/// The index that the word of an option spells, from 1 to 2^64 - 1; the default if there is no word.
fn index_or(
    alloc: Global,
    option: &str,
    default: u64,
    word: Option<&str>,
) -> Result<u64, TaskError> {
    let Some(word) = word else {
        return Ok(default);
    };
    match number(word.as_bytes()) {
        Some(n) if n >= 1 => Ok(n),
        _ => Err(refused(alloc, option, word, "a number from 1 to 2^64 - 1")),
    }
}

/// The number of bytes that a word spells: a number, and K, M or G for that many times 1,024, 1,024^2 or 1,024^3.
fn size_of(word: &str) -> Option<u64> {
    let (digits, unit) = match word.strip_suffix('K') {
        Some(digits) => (digits, 1 << 10),
        None => match word.strip_suffix('M') {
            Some(digits) => (digits, 1 << 20),
            None => match word.strip_suffix('G') {
                Some(digits) => (digits, 1 << 30),
                None => (word, 1),
            },
        },
    };
    number(digits.as_bytes())?.checked_mul(unit)
}

fn wanted_of<'a>(alloc: Global, matches: &ArgMatches<'a>) -> Result<WantedSteps<'a>, TaskError> {
    Ok(WantedSteps {
        key: matches.get_str("key"),
        from: index_or(alloc, "from", 1, matches.get_str("from"))?,
        to: index_or(alloc, "to", u64::MAX, matches.get_str("to"))?,
    })
}

/// How many bytes of lines may be in memory, by the word of the option.
fn memory_of(alloc: Global, word: Option<&str>) -> Result<u64, TaskError> {
    let Some(word) = word else {
        return Ok(256 << 20);
    };
    match size_of(word) {
        Some(memory) => Ok(memory),
        None => {
            let wanted = "a number of bytes, or one with K, M or G after it";
            Err(refused(alloc, "memory", word, wanted))
        }
    }
}

fn sort_of<'a>(alloc: Global, matches: &ArgMatches<'a>) -> Result<SortWords<'a>, TaskError> {
    Ok(SortWords {
        json: is_given(matches.get_str("json")),
        memory: memory_of(alloc, matches.get_str("memory"))?,
        folder: matches.get_str("temporary").unwrap_or("/tmp"),
    })
}

/// The width of the table, if it was asked for.
fn asked_width(alloc: Global, word: Option<&str>) -> Result<Option<u16>, TaskError> {
    let Some(word) = word else {
        return Ok(None);
    };
    match width_of(word) {
        Some(width) => Ok(Some(width)),
        None => Err(refused(alloc, "width", word, "a number from 40 to 65535")),
    }
}

/// When the table has colours.
fn asked_colour(alloc: Global, word: Option<&str>) -> Result<ColourChoice, TaskError> {
    let Some(word) = word else {
        return Ok(ColourChoice::Auto);
    };
    match choice_of(word) {
        Some(choice) => Ok(choice),
        None => Err(refused(alloc, "colour", word, "always, never or auto")),
    }
}

/// The layout of the table that is asked for.
fn shown_layout<'a>(
    alloc: Global,
    terminal: &Terminal,
    matches: &ArgMatches<'a>,
) -> Result<Layout, TaskError> {
    let width = asked_width(alloc, matches.get_str("width"))?;
    let choice = asked_colour(alloc, matches.get_str("colour"))?;
    match layout_of(terminal, width, choice) {
        Some(layout) => Ok(layout),
        None => Err(TaskError::Memory),
    }
}

/// The task that the command with this name asks for.
fn task_of<'a>(
    alloc: Global,
    terminal: &Terminal,
    name: &str,
    inner: &ArgMatches<'a>,
) -> Result<Task<'a>, TaskError> {
    let file = inner.get_str("file");
    match name {
        "sort" => Ok(Task::Sort(file, sort_of(alloc, inner)?)),
        "audit" => Ok(Task::Audit(file)),
        "explain" => Ok(Task::Explain(file.unwrap_or(""))),
        "show" => {
            let layout = shown_layout(alloc, terminal, inner)?;
            Ok(Task::Show(file, wanted_of(alloc, inner)?, layout))
        }
        "picture" => {
            let picture = PictureWords {
                out: inner.get_str("out"),
                html: is_given(inner.get_str("html")),
            };
            Ok(Task::Picture(file, wanted_of(alloc, inner)?, picture))
        }
        _ => Ok(Task::Check(file)),
    }
}

/// What clap's message says before its first empty line, in one line.
fn reason_of_clap(alloc: Global, error: &Error) -> Result<String, AllocError> {
    let text = format!(in alloc; "{error}")?;
    let mut reason = String::new(alloc);
    for line in text.lines() {
        if line.is_empty() {
            return Ok(reason);
        }
        let line = line.strip_prefix("error: ").unwrap_or(line);
        match line.strip_prefix("  ") {
            Some(rest) => {
                reason.push_str(" ")?;
                reason.push_str(rest)?;
            }
            None => reason.push_str(line)?,
        }
    }
    Ok(reason)
}

/// Translates an error of clap.
fn translated(alloc: Global, error: &Error) -> TaskError {
    match error.kind() {
        ErrorKind::DisplayHelp => match format!(in alloc; "{error}") {
            Ok(text) => TaskError::Help(text),
            Err(_) => TaskError::Memory,
        },
        ErrorKind::OutOfMemory => TaskError::Memory,
        _ => match reason_of_clap(alloc, error) {
            Ok(reason) => TaskError::Refused(reason),
            Err(_) => TaskError::Memory,
        },
    }
}

/// Reads the words after the program's name: a command, at most one file, and the options of the command. No words at
/// all mean `check`. What the words leave open of a table's layout, the terminal decides.
pub fn read_task<'a>(
    alloc: Global,
    terminal: &Terminal,
    words: &'a [&'a str],
) -> Result<Task<'a>, TaskError> {
    let Ok(command) = command(alloc) else {
        return Err(TaskError::Memory);
    };
    match command.try_get_matches_from(words) {
        // Without a command, it is a check of standard input.
        Ok(matches) => match matches.subcommand() {
            Some((name, inner)) => task_of(alloc, terminal, name, inner),
            None => Ok(Task::Check(None)),
        },
        Err(error) => Err(translated(alloc, &error)),
    }
}
