//! How are lines of text played on a whole table, and how do the results become text?
//! [`plays`] reads the calls (`text` has the format), plays them and writes the outcomes, the steps and the counts
//! as text. Read next `worked`, which has the tests.
ghost use Rattle.std.specs.Prelude.{◌≡◌};

use crate::text::rows_of;
use lt_entry::Entry;
use lt_table::{Config, Histories, Ready, open, prepare};
use lt_test_kit::command::{CallOutcome, CommandRow};
use lt_test_kit::play::PlayedCommand;
use lt_test_kit::run::{TableRun, play_all};
use lt_words::Name;
use std::alloc::Global;
use std::marker::Brand;
use std::sync::Wait;

pub fn config(shards: usize, passes: usize) -> Config {
    Config {
        shards,
        passes,
        max_steps: 1000,
        max_requests: 1000,
        max_waits: 1000,
    }
}

/// The results of a run, as text.
#[derive(Drop)]
pub struct Played {
    /// The outcome of each call, a line each, after the index of its step or a hyphen. The outcomes of a scan and
    /// a leave are followed by the replies of their steps.
    pub outcomes: String,
    /// All steps, shard by shard, a line each.
    pub steps: String,
    /// How many steps each shard made, and how many request numbers were drawn.
    pub counts: String,
}

/// Whether the replies that the guard keeps belong to this call.
fn has_replies(outcome: CallOutcome) -> bool {
    match outcome {
        CallOutcome::Scanned(_) | CallOutcome::Left | CallOutcome::NotLeft(_) => true,
        _ => false,
    }
}

/// Appends the index of a call's step, or a hyphen if it has none.
fn put_index(text: &mut String, at: Option<u64>) -> Option<()> {
    match at {
        Some(at) => write!(text, "{at} ").ok(),
        None => write!(text, "- ").ok(),
    }
}

/// Appends a line: the index of a call's step, and the call's outcome.
pub fn put_line(text: &mut String, line: &PlayedCommand) -> Option<()> {
    put_index(text, line.at)?;
    if has_replies(line.outcome) {
        writeln!(text, "{:?} {:?}", line.outcome, line.replies.as_slice()).ok()
    } else {
        writeln!(text, "{:?}", line.outcome).ok()
    }
}

/// The outcome of each call, a line each.
pub fn outcomes_of(alloc: Global, lines: &[PlayedCommand]) -> Option<String> {
    let mut text = String::new(alloc);
    for line in lines {
        put_line(&mut text, line)?;
    }
    Some(text)
}

/// Appends each step, a line each.
pub fn put_steps(text: &mut String, steps: &[Entry]) -> Option<()> {
    for step in steps {
        writeln!(text, "{step:?}").ok()?;
    }
    Some(())
}

fn steps_of(alloc: Global, histories: &Histories) -> Option<String> {
    let mut text = String::new(alloc);
    for history in &histories.shards {
        put_steps(&mut text, history)?;
    }
    Some(text)
}

fn counts_of(alloc: Global, histories: &Histories) -> Option<String> {
    let mut counts = Vec::new(alloc);
    for history in &histories.shards {
        counts.push(history.len()).ok()?;
    }
    format!(in alloc; "{:?} {}", counts.as_slice(), histories.draws).ok()
}

fn played_of(alloc: Global, ran: &TableRun) -> Option<Played> {
    Some(Played {
        outcomes: outcomes_of(alloc, &ran.lines)?,
        steps: steps_of(alloc, &ran.histories)?,
        counts: counts_of(alloc, &ran.histories)?,
    })
}

fn play_named<N: Name, R: Wait>(
    rt: &R,
    alloc: Global,
    ready: Ready,
    rows: &[CommandRow],
) -> Option<TableRun>
    requires { ready.of ≡ N.of }
{
    let (table, passes) = open::<N>(alloc, ready, 0).ok()?;
    play_all(rt, alloc, table, passes, rows, &[])
}

/// Plays the calls of the text on a whole table.
pub fn plays<R: Wait>(rt: &R, alloc: Global, config: Config, text: &str) -> Option<Played> {
    let rows = rows_of(alloc, text)?;
    let ready = prepare(alloc, config).ok()?;
    let ran = play_named::<Brand, R>(rt, alloc, ready, &rows)?;
    played_of(alloc, &ran)
}
