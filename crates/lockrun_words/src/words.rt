//! Which job do the words of the command line ask for?
//!
//! The first half of the file builds the command line for clap, a command or an option at a time. The second half
//! turns clap's matches into a [`Job`]. [`read_words`] combines the two. Read next: `specs/Words.antt`.
ghost use Rattle.std.specs.Prelude.{◌≡◌, ◌<◌, ◌≤◌, ◌^◌, [], ◌∷◌, List, None, false, IfOk, IfSome, codes, option_map};
ghost use Rattle.clap.specs.Words.{Text, app_of, found_of, new_app, rows_of, rule_of, kind_of, subcommand_rows_of, with_rule};
ghost use Rattle.clap.specs.declared.builder.command.Command.TheViews.{out-Command};
ghost use Rattle.lockrun_words.specs.Options.{AreInRange, default_options, is_set, joined, number_or, options_of_words, with_threads};
ghost use Rattle.lockrun_words.specs.Words.{file_rule, number_rule, threads_rule, program, reader, runner, lockrun, order, order_of, run_of, chosen_of, IsToldBy, run as runs, check as checks, upgrade as upgrades, texts, HasOptionsInRange, IsReadOf, IsCommand, IsStray, IsJobOf, Helps, Refuses, ReadsFile, Accepts, ReadsFileAndOptions, RefusesTwoFiles, RefusesOutOfRange, RefusesOptionsOfRun};

use crate::Options;
use clap::error::ErrorKind;
use clap::{Arg, ArgAction, ArgMatches, Command, Error};
use lt_text::number::number;
use std::alloc::{AllocError, Global};

/// What the program is asked to do. A job without a file name reads standard input.
#[derive(Clone, Copy, Debug, PartialEq, Eq)]
pub enum Job<'a> {
    /// Run a script.
    Run(Option<&'a str>, Options),
    /// Check a text of histories.
    Check(Option<&'a str>),
    /// Rewrite a text of histories as one of the latest version.
    Upgrade(Option<&'a str>),
}

/// Why the words name no job.
#[derive(Debug, Drop)]
pub enum WordsError {
    /// They ask for help, and this is its text.
    Help(String),
    /// They are not a command line of the program.
    Refused,
    /// Memory ran out.
    Memory,
}

/// The argument for the file that a command reads.
fn file<'a>(alloc: Global, name: &'a str, help: &'a str) -> Arg<'a>
    ensures rule { rule_of result ≡ file_rule }
    ensures alone { result.global ≡ false }
{
    Arg::new(alloc, "file").value_name(name).help(help)
}

/// A command that reads a file.
fn reader<'a>(
    alloc: Global,
    name: &'a str,
    about: &'a str,
    file: Arg<'a>,
) -> Result<Command<'a>, AllocError>
    requires rule { rule_of file ≡ file_rule }
    requires alone { file.global ≡ false }
    ensures reads { IfOk result (λ c. app_of c ≡ reader name.now) }
    ensures alone { IfOk result (λ c. (out-Command c).has_globals ≡ false) }
{
    Command::new(alloc, name).about(about).arg(file)
}

/// An option that takes a number.
fn number_option<'a>(alloc: Global, name: &'a str, help: &'a str) -> Arg<'a>
    ensures rule { rule_of result ≡ number_rule name.now }
    ensures alone { result.global ≡ false }
{
    Arg::new(alloc, name).long(name).value_name("N").help(help)
}

/// The option that asks for threads.
fn threads_option<'a>(alloc: Global) -> Arg<'a>
    ensures rule { rule_of result ≡ threads_rule }
    ensures alone { result.global ≡ false }
{
    Arg::new(alloc, "threads")
        .long("threads")
        .action(ArgAction::SetTrue)
        .help("Runs each pass on a thread of its own, instead of all passes on one thread")
}

/// The command that runs a script, without its options.
fn script_reader<'a>(alloc: Global) -> Result<Command<'a>, AllocError>
    ensures reads { IfOk result (λ c. app_of c ≡ reader (codes "run")) }
    ensures alone { IfOk result (λ c. (out-Command c).has_globals ≡ false) }
{
    reader(
        alloc,
        "run",
        "Runs a script, and writes the answers of its lines and the histories of its keys",
        file(
            alloc,
            "SCRIPT",
            "The file of the script. Without one, the command reads standard input",
        ),
    )
}

/// The command that runs a script.
fn runner<'a>(alloc: Global) -> Result<Command<'a>, AllocError>
    ensures reads { IfOk result (λ c. app_of c ≡ runner) }
    ensures alone { IfOk result (λ c. (out-Command c).has_globals ≡ false) }
{
    script_reader(alloc)?
        .arg(number_option(
            alloc,
            "shards",
            "The number of shards of the table: 1 to 64, default 4",
        ))?
        .arg(number_option(
            alloc,
            "steps",
            "The number of key steps that each shard can hold: 1 to 4294967296, default 1000000",
        ))?
        .arg(threads_option(alloc))?
        .arg(number_option(
            alloc,
            "turns",
            "The number of polls that one `await` makes at most, with threads: 1 to 1000000000, default 1000000",
        ))
}

/// What the program's help shows below its options.
const AFTER_HELP: &str = "Examples:
  lockrun run SCRIPT
  lockrun run --threads --turns 1000 SCRIPT
  lockrun check HISTORIES
  lockrun upgrade HISTORIES > NEW

A word after `--` is a file, also if it begins with a hyphen: `lockrun run -- -x`. docs/FORMATS.md describes the texts.

Exit status: 0 done, 1 the text is refused or too long, 2 the command line is refused, 3 turns were used up,
4 out of memory or the table could not be closed, 5 a read or a write failed";

/// The program without its commands.
fn program<'a>(alloc: Global) -> Result<Command<'a>, AllocError>
    ensures { IfOk result (λ c. app_of c ≡ program) }
{
    Command::new(alloc, "lockrun")
        .no_binary_name(true)
        .about(
            "Runs scripts on a lock table, and checks and upgrades texts of histories. Without a command, it runs the script on standard input.",
        )
        .after_help(AFTER_HELP)
        .bin_name("lockrun")
}

/// A command that reads a text of histories.
fn histories_reader<'a>(
    alloc: Global,
    name: &'a str,
    about: &'a str,
) -> Result<Command<'a>, AllocError>
    ensures reads { IfOk result (λ c. app_of c ≡ reader name.now) }
    ensures alone { IfOk result (λ c. (out-Command c).has_globals ≡ false) }
{
    reader(
        alloc,
        name,
        about,
        file(
            alloc,
            "FILE",
            "The file of the text. Without one, the command reads standard input",
        ),
    )
}

/// The command that checks histories.
fn checker<'a>(alloc: Global) -> Result<Command<'a>, AllocError>
    ensures reads { IfOk result (λ c. app_of c ≡ reader (codes "check")) }
    ensures alone { IfOk result (λ c. (out-Command c).has_globals ≡ false) }
{
    histories_reader(
        alloc,
        "check",
        "Checks whether a text of histories is legal, and writes the numbers of its keys and steps",
    )
}

/// The command that rewrites histories as a text of the latest version.
fn upgrader<'a>(alloc: Global) -> Result<Command<'a>, AllocError>
    ensures reads { IfOk result (λ c. app_of c ≡ reader (codes "upgrade")) }
    ensures alone { IfOk result (λ c. (out-Command c).has_globals ≡ false) }
{
    histories_reader(
        alloc,
        "upgrade",
        "Writes a text of legal histories in the latest version",
    )
}

/// The command line of the program.
fn command<'a>(alloc: Global) -> Result<Command<'a>, AllocError>
    ensures { IfOk result (λ c. app_of c ≡ lockrun) }
{
    program(alloc)?
        .subcommand(runner(alloc)?)?
        .subcommand(checker(alloc)?)?
        .subcommand(upgrader(alloc)?)
}

/// The number that an option's word spells, if it is from 1 to `most`; the default if there is no word.
fn number_or(default: u64, most: u64, word: Option<&str>) -> Option<u64>
    requires some { 1 ≤ default }
    requires few { default ≤ most }
    ensures spelt { result ≡ number_or default most (option_map (λ s. s.now) word.entry) }
    ensures range { IfSome result (λ n. (1 ≤ n) × (n ≤ most)) }
{
    let Some(word) = word else {
        return Some(default);
    };
    let n = number(word.as_bytes())?;
    if 1 <= n && n <= most { Some(n) } else { None }
}

/// Whether a flag was given. Its value is then `true`.
fn is_set(value: Option<&str>) -> bool
    ensures { result ≡ is_set (option_map (λ s. s.now) value.entry) }
{
    match value {
        Some(value) => value == "true",
        None => false,
    }
}

/// The options, if each of their numbers is there.
fn joined(
    shards: Option<u64>,
    steps: Option<u64>,
    threads: bool,
    turns: Option<u64>,
) -> Option<Options>
    requires shards { IfSome shards (λ n. (1 ≤ n) × (n ≤ 64)) }
    requires steps { IfSome steps (λ n. (1 ≤ n) × (n ≤ 2 ^ 32)) }
    requires turns { IfSome turns (λ n. (1 ≤ n) × (n ≤ 1000000000)) }
    ensures joined { result ≡ joined shards steps threads turns }
    ensures range { IfSome result AreInRange }
{
    let shards = shards? as usize;
    let steps = steps?;
    let turns = turns?;
    Some(Options {
        shards,
        steps,
        threads,
        turns,
    })
}

/// The options that these words spell, if each number is in its range.
fn options_of(
    shards: Option<&str>,
    steps: Option<&str>,
    threads: Option<&str>,
    turns: Option<&str>,
) -> Option<Options>
    ensures said { result ≡ options_of_words shards.entry steps.entry threads.entry turns.entry }
    ensures range { IfSome result AreInRange }
{
    let usual = Options::default();
    joined(
        number_or(usual.shards as u64, 64, shards),
        number_or(usual.steps, 4_294_967_296, steps),
        is_set(threads),
        number_or(usual.turns, 1_000_000_000, turns),
    )
}

/// The options of `run`, if their numbers are in range.
fn chosen_of(matches: &ArgMatches<'_>) -> Option<Options>
    ensures said { result ≡ chosen_of (rows_of (found_of matches.now)) }
    ensures range { IfSome result AreInRange }
{
    options_of(
        matches.get_str("shards"),
        matches.get_str("steps"),
        matches.get_str("threads"),
        matches.get_str("turns"),
    )
}

/// The job that `run` asks for, if its numbers are in range.
fn run_of<'a>(matches: &ArgMatches<'a>) -> Option<Job<'a>>
    ensures named { option_map order result ≡ run_of (rows_of (found_of matches.now)) }
    ensures options { IfSome result HasOptionsInRange }
{
    let options = chosen_of(matches)?;
    Some(Job::Run(matches.get_str("file"), options))
}

/// The job that the matches name.
fn job_of<'a>(matches: &ArgMatches<'a>) -> Option<Job<'a>>
    ensures named { option_map order result ≡ order_of (subcommand_rows_of matches.now) }
    ensures options { IfSome result HasOptionsInRange }
{
    let Some((name, inner)) = matches.subcommand() else {
        return Some(Job::Run(None, Options::default()));
    };
    if name == "run" {
        return run_of(inner);
    }
    if name == "check" {
        return Some(Job::Check(inner.get_str("file")));
    }
    if name == "upgrade" {
        return Some(Job::Upgrade(inner.get_str("file")));
    }
    None
}

/// Translates an error of clap.
fn told(alloc: Global, error: &Error) -> WordsError
    ensures { IsToldBy (kind_of error.now) result }
{
    match error.kind() {
        ErrorKind::DisplayHelp => match format!(in alloc; "{error}") {
            Ok(text) => WordsError::Help(text),
            Err(_) => WordsError::Memory,
        },
        ErrorKind::OutOfMemory => WordsError::Memory,
        _ => WordsError::Refused,
    }
}

/// The job that clap finds in the words.
fn parsed<'a>(alloc: Global, words: &'a [&'a str]) -> Result<Job<'a>, WordsError>
    ensures read { IsReadOf (texts words.now) result }
    ensures options { IfOk result HasOptionsInRange }
{
    let Ok(command) = command(alloc) else {
        return Err(WordsError::Memory);
    };
    match command.try_get_matches_from(words) {
        Ok(matches) => match job_of(&matches) {
            Some(job) => Ok(job),
            None => Err(WordsError::Refused),
        },
        Err(error) => Err(told(alloc, &error)),
    }
}

/// Reads the words after the program's name: `run`, `check` or `upgrade`, at most one file name, and for `run` its
/// options. No words at all mean `run`.
///
/// The number of an option consists of decimal digits only, as `lt_text` reads numbers: no sign, and no leading
/// zero. A number out of its range, or a word that is not a number, makes the command line refused.
pub fn read_words<'a>(alloc: Global, words: &'a [&'a str]) -> Result<Job<'a>, WordsError>
    // The result is what clap's rules find in the words, if the numbers are in range.
    ensures read { IsReadOf (texts words.now) result }
    ensures options { IfOk result HasOptionsInRange }

    ensures none { texts words.now ≡ [] → IsJobOf result (runs None default_options) }
    ensures run { texts words.now ≡ codes "run" ∷ [] → IsJobOf result (runs None default_options) }
    ensures script { ReadsFile (codes "run") (λ file. runs file default_options) words.now result }
    ensures check { texts words.now ≡ codes "check" ∷ [] → IsJobOf result (checks None) }
    ensures histories { ReadsFile (codes "check") checks words.now result }
    ensures upgrade { texts words.now ≡ codes "upgrade" ∷ [] → IsJobOf result (upgrades None) }
    ensures upgraded { ReadsFile (codes "upgrade") upgrades words.now result }

    // Each option sets its own value, and an option that is left out has its default.
    ensures threads { texts words.now ≡ codes "run" ∷ codes "--threads" ∷ [] → IsJobOf result (runs None with_threads) }
    ensures shards { Accepts (codes "--shards") 64 (λ n. record default_options { shards = n }) words.now result }
    ensures steps { Accepts (codes "--steps") (2 ^ 32) (λ n. record default_options { steps = n }) words.now result }
    ensures turns { Accepts (codes "--turns") 1000000000 (λ n. record default_options { turns = n }) words.now result }
    ensures together { ReadsFileAndOptions words.now result }

    ensures help { texts words.now ≡ codes "--help" ∷ [] → Helps result }
    ensures help_of { (name : Text) → IsCommand name → texts words.now ≡ name ∷ codes "--help" ∷ [] → Helps result }

    // Refused: a first word that is neither a command, nor an option, nor `help`; two files; a number option of run
    // given to check or upgrade; and for run a number out of its range, or a word that is not a number.
    ensures stray { (word : Text) (rest : List Text) → IsStray word → texts words.now ≡ word ∷ rest → Refuses result }
    ensures two { RefusesTwoFiles words.now result }
    ensures out_of_range { RefusesOutOfRange words.now result }
    ensures option_of_check { RefusesOptionsOfRun words.now result }
{
    parsed(alloc, words)
}
