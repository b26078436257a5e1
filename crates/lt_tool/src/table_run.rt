//! Runs the commands of a script on a table, and composes the output.
ghost use Rattle.std.specs.Prelude.{◌≡◌, IfOk};
ghost use Rattle.lockrun_words.specs.Options.{AreInRange};
ghost use Rattle.lt_tool.specs.Output.{IsComposed, IsOutput, turns_of};

use crate::answer::put_answers;
use lockrun_words::Options;
use lt_runner::{Finish, Gate, Plan, Ran, RunFault, run};
use lt_script::Script;
use lt_table::{linked_tables, random_start};
use lt_writer::put_histories;
use std::alloc::{AllocError, Global};
use std::random::RandomSource;
use std::sync::Wait;
use std::thread::Threads;

/// What a run writes, and how it ended.
#[derive(Drop)]
pub(crate) struct Outcome {
    pub text: Vec<u8>,
    pub finish: Finish,
}

/// How often a line `await` may poll, if there are threads.
fn turns_of(options: &Options) -> Option<u64>
    ensures { result ≡ turns_of options.now }
{
    if options.threads {
        Some(options.turns)
    } else {
        None
    }
}

/// Composes the output of a run. Drops the answers before it appends the histories, to save memory.
fn composed(alloc: Global, ran: Ran) -> Result<Outcome, AllocError>
    ensures { IfOk result (λ outcome. IsComposed ran outcome.text.items outcome.finish) }
{
    let Ran {
        answers,
        finish,
        histories,
        draws: _,
    } = ran;
    let mut text = Vec::new(alloc);
    put_answers(&mut text, &answers)?;
    drop(answers);
    put_histories(&mut text, &histories)?;
    Ok(Outcome { text, finish })
}

/// Runs the commands and composes the output. Drops the script before it composes the text, to save memory.
pub(crate) fn run_commands<G: Gate + Sync, H: Threads + Wait + RandomSource + Sync>(
    rt: &H,
    alloc: Global,
    options: &Options,
    gate: &G,
    script: Script,
) -> Result<Outcome, RunFault>
    requires { AreInRange options.now }
    ensures { IfOk result (λ o. IsOutput options.now (G.may_answer gate.now) script o.text.items o.finish) }
{
    // Only the time of a run depends on the start, so a run goes on without random bytes.
    let start = random_start(rt).unwrap_or(0);
    let Ok(tables) = linked_tables(alloc, options.shards, start) else {
        return Err(RunFault::Memory);
    };
    let plan = Plan {
        commands: script.as_slice(),
        turns: turns_of(options),
        gate,
    };
    let ran = run(rt, alloc, tables, options.steps, &plan)?;
    drop(script);
    match composed(alloc, ran) {
        Ok(outcome) => Ok(outcome),
        Err(_) => Err(RunFault::Memory),
    }
}
