//! Plays commands and questions on a table over linked queues.
ghost use Rattle.std.specs.Prelude.{◌≡◌};

use lt_table::{Config, Ready, open, prepare};
use lt_test_kit::asking::Question;
use lt_test_kit::command::{CommandRow, TableCall};
use lt_test_kit::run::{TableRun, play_all};
use lt_words::Name;
use std::alloc::Global;
use std::marker::Brand;
use std::sync::Wait;

fn run_named<N: Name, R: Wait>(
    rt: &R,
    alloc: Global,
    ready: Ready,
    rows: &[CommandRow],
    questions: &[Option<Question>],
) -> Result<TableRun, TableCall>
    requires { ready.of ≡ N.of }
{
    match open::<N>(alloc, ready, 0) {
        Ok((table, passes)) => {
            play_all(rt, alloc, table, passes, rows, questions).ok_or(TableCall::Beside)
        }
        Err(_) => Err(TableCall::Open),
    }
}

/// Opens a table over linked queues, plays the rows with their questions, and closes the table. An error names
/// what was refused: `Prepare`, `Open` or `Beside`.
pub fn run<R: Wait>(
    rt: &R,
    alloc: Global,
    config: Config,
    rows: &[CommandRow],
    questions: &[Option<Question>],
) -> Result<TableRun, TableCall> {
    match prepare(alloc, config) {
        Ok(ready) => run_named::<Brand, R>(rt, alloc, ready, rows, questions),
        Err(_) => Err(TableCall::Prepare),
    }
}
