//! Plays commands and questions on a table over plain key tables.
ghost use Rattle.std.specs.Prelude.{◌≡◌, length};
ghost use Rattle.std.specs.List.{All};
ghost use Rattle.std.specs.FinMap as finmap;

use lt_plain::PlainTable;
use lt_table::{Config, Ready, open_with, prepare};
use lt_test_kit::asking::Question;
use lt_test_kit::command::{CommandRow, TableCall};
use lt_test_kit::plain::plain_tables;
use lt_test_kit::run::{TableRun, play_all};
use lt_words::Name;
use std::alloc::Global;
use std::marker::Brand;
use std::sync::Wait;

fn run_named<N: Name, R: Wait>(
    rt: &R,
    alloc: Global,
    ready: Ready,
    tables: Vec<PlainTable>,
    rows: &[CommandRow],
    questions: &[Option<Question>],
) -> Result<TableRun, TableCall>
    requires named { ready.of ≡ N.of }
    requires many { length tables.items ≡ N.of.shards }
    requires empty { All (λ t. t ≡ finmap.empty) tables.items }
{
    match open_with::<N, PlainTable>(alloc, ready, tables) {
        Ok((table, passes)) => {
            play_all(rt, alloc, table, passes, rows, questions).ok_or(TableCall::Beside)
        }
        Err(_) => Err(TableCall::OpenWith),
    }
}

/// Opens a table over plain key tables, plays the rows with their questions, and closes the table. An error names
/// what was refused: `Prepare`, `OpenWith` or `Beside`.
pub fn run_plain<R: Wait>(
    rt: &R,
    alloc: Global,
    config: Config,
    rows: &[CommandRow],
    questions: &[Option<Question>],
) -> Result<TableRun, TableCall> {
    let Ok(ready) = prepare(alloc, config) else {
        return Err(TableCall::Prepare);
    };
    let Ok(tables) = plain_tables(alloc, config.shards) else {
        ready.abandon();
        return Err(TableCall::Beside);
    };
    run_named::<Brand, R>(rt, alloc, ready, tables, rows, questions)
}
