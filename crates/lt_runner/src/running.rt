//! How do the lines of all passes run: on threads, or in turn on one thread?
//!
//! `run_on_threads` gives each pass a thread of its own. `run_in_turn` executes the lines in the order of the
//! script; before its line, a pass learns everything that the passes before it have seen. Read next: `worker.rt`,
//! and `specs/Turns.antt`.
ghost use Rattle.std.specs.Prelude.{◌≡◌, ◌≤◌, ◌-◌, IfOk, length, map, List, Ok};
ghost use Rattle.std.specs.List.{All, AllByRecursion};
ghost use Rattle.lt_runner.specs.Planned.{PassIsWorked, PlanHasRunInOrder, PlanIsTried, PlanIsWorked, PlanTakesTurn, PlanTurnsTo};
ghost use Rattle.lt_runner.specs.Sessions.{session_pass};
ghost use Rattle.lt_runner.specs.Turns.{AreNumbered, HaveBegun, IsAmong, IsReady, slot_at, somes};

use crate::gate::Gate;
use crate::outcome::{OutOfMemory, StartingPass, Work};
use crate::plan::{Host, Plan};
use crate::worker::{begin, lines_by_pass, lines_of_pass, next_line, work};
use lt_rules::KeyTable;
use lt_script::Command;
use lt_words::{Front, Name, Pass, abandon_all};
use std::alloc::Global;
use std::sync::Wait;
use std::thread;
use std::thread::Threads;

/// Wraps each pass so that it may be dropped.
pub(crate) fn seats_of(alloc: Global, passes: Vec<Pass>) -> Result<Vec<StartingPass>, OutOfMemory>
    ensures { IfOk result (λ seats. seats.items ≡ passes.items) }
{
    let Ok(mut seats) = Vec::with_capacity(alloc, passes.len()) else {
        abandon_all(passes);
        return Err(OutOfMemory);
    };
    let mut rest = passes.into_iter();
    while let Some(pass) = rest.next() {
        seats.push_reserved(StartingPass::new(pass));
    }
    rest.destroy_empty();
    Ok(seats)
}

/// Runs the lines of each pass on a thread of its own.
fn start_all<N: Name + Send + Sync, T: KeyTable + Send, G: Gate + Sync, R: Threads + Wait + Sync>(
    host: &Host<'_, N, T, R>,
    plan: &Plan<'_, G>,
    passes: Vec<StartingPass>,
) -> Result<Vec<Result<Work, OutOfMemory>>, OutOfMemory>
    requires { All (λ p. p.of ≡ N.of) passes.items }
    ensures { IfOk result (PlanIsTried G.may_answer host.now.table.now plan.now passes.items) }
{
    let done = thread::map_vec(
        host.rt,
        passes,
        &|seat: StartingPass| -> Result<Work, OutOfMemory>
            requires { seat.of ≡ N.of }
            ensures { IfOk result (PassIsWorked G.may_answer host.entry.now.table.now plan.entry.now seat) }
        { work(host, plan, seat.into_pass()) },
    );
    match done {
        Ok(works) => Ok(works),
        Err(_) => Err(OutOfMemory),
    }
}

/// The work of all passes, if none of them ran out of memory.
fn collect(alloc: Global, done: Vec<Result<Work, OutOfMemory>>) -> Result<Vec<Work>, OutOfMemory>
    ensures { IfOk result (λ works. done.items ≡ map Ok works.items) }
{
    let mut works = Vec::new(alloc);
    for tried in done {
        let Ok(()) = works.push(tried?) else {
            return Err(OutOfMemory);
        };
    }
    Ok(works)
}

/// Runs the lines of each pass on a thread of its own, and waits for all of them. If no thread can be created, the
/// passes run one after another.
pub(crate) fn run_on_threads<
    N: Name + Send + Sync,
    T: KeyTable + Send,
    G: Gate + Sync,
    R: Threads + Wait + Sync,
>(
    host: &Host<'_, N, T, R>,
    plan: &Plan<'_, G>,
    passes: Vec<StartingPass>,
) -> Result<Vec<Work>, OutOfMemory>
    requires { All (λ p. p.of ≡ N.of) passes.items }
    ensures { IfOk result (PlanIsWorked G.may_answer host.now.table.now plan.now passes.items) }
{
    let done = start_all(host, plan, passes)?;
    collect(host.alloc, done)
}

/// The pass learns what was seen before, and then executes the line.
fn turn_of<N: Name, T: KeyTable, G: Gate, R: Wait>(
    host: &Host<'_, N, T, R>,
    plan: &Plan<'_, G>,
    seen: &mut Front,
    work: &mut Work,
    command: &Command,
) -> Result<(), OutOfMemory>
    requires of { (session_pass work.old.session).of ≡ N.of }
    requires seen { seen.old.of ≡ N.of }
    ensures { IfOk result (λ _. PlanTurnsTo G.may_answer host.now.table.now plan.now command.now
        seen.old work.old work.new seen.new) }
{
    work.session.learn(seen);
    next_line(host, plan, work, command)?;
    *seen = work.session.seen();
    Ok(())
}

/// The pass of the command learns what was seen before, and then executes its line.
fn take_turn<N: Name, T: KeyTable, G: Gate, R: Wait>(
    host: &Host<'_, N, T, R>,
    plan: &Plan<'_, G>,
    seen: &mut Front,
    slots: &mut [Option<Work>],
    command: &Command,
) -> Result<(), OutOfMemory>
    requires low { 1 ≤ command.now.pass }
    requires high { command.now.pass ≤ length slots.old }
    requires ready { IsReady N.of (slot_at slots.old (command.now.pass - 1)) }
    requires seen { seen.old.of ≡ N.of }
    ensures { IfOk result (λ _. PlanTakesTurn G.may_answer host.now.table.now plan.now command.now
        seen.old slots.old slots.new seen.new) }
{
    let number = command.pass.number();
    let index = (number - 1) as usize;
    match &mut slots[index] {
        Some(work) => turn_of(host, plan, seen, work, command),
        None => unreachable!(),
    }
}

fn begin_all(
    alloc: Global,
    passes: Vec<StartingPass>,
    commands: &[Command],
) -> Result<Vec<Option<Work>>, OutOfMemory>
    ensures { IfOk result (λ slots. HaveBegun passes.items slots.items) }
{
    let lines = lines_by_pass(commands);
    let mut slots = Vec::new(alloc);
    for seat in passes {
        let pass = seat.into_pass();
        let room = lines_of_pass(&lines, &pass);
        let begun = begin(alloc, pass, room)?;
        let Ok(()) = slots.push(Some(begun)) else {
            return Err(OutOfMemory);
        };
    }
    Ok(slots)
}

fn finish_all(alloc: Global, slots: Vec<Option<Work>>) -> Result<Vec<Work>, OutOfMemory>
    ensures { IfOk result (λ works. works.items ≡ somes slots.items) }
{
    let mut works = Vec::new(alloc);
    for slot in slots {
        if let Some(work) = slot {
            let Ok(()) = works.push(work) else {
                return Err(OutOfMemory);
            };
        }
    }
    Ok(works)
}

/// Runs the lines in their order on one thread. Before its line, a pass learns what the passes have seen so far.
pub(crate) fn run_in_turn<N: Name, T: KeyTable, G: Gate, R: Wait>(
    host: &Host<'_, N, T, R>,
    plan: &Plan<'_, G>,
    mut seen: Front,
    passes: Vec<StartingPass>,
) -> Result<Vec<Work>, OutOfMemory>
    requires numbered { AreNumbered 0 passes.items }
    requires of { AllByRecursion (λ p. p.of ≡ N.of) passes.items }
    requires among { AllByRecursion (IsAmong (length passes.items)) plan.now.commands.now }
    requires seen { seen.of ≡ N.of }
    ensures { IfOk result (PlanHasRunInOrder G.may_answer host.now.table.now plan.now N.of.shards passes.items) }
{
    let commands = plan.commands;
    let mut slots = begin_all(host.alloc, passes, commands)?;
    for command in commands {
        take_turn(host, plan, &mut seen, &mut slots, command)?;
    }
    finish_all(host.alloc, slots)
}
