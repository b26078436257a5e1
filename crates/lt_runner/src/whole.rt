//! What are the stages of a whole run, from an empty table to its final histories?
//!
//! [`run`] opens a table, has the lines run, collects what the workers return, and closes the table. Read next:
//! `running.rt`, which runs the lines of all passes, and `specs/Ran.antt` for the promise.
ghost use Rattle.std.specs.Prelude.{◌≡◌, ◌≤◌, ◌<◌, ◌^◌, ◌⊎◌, [], IfOk, length, map, vec_capacity};
ghost use Rattle.std.specs.List.{All, AllByRecursion};
ghost use Rattle.std.specs.FinMap as finmap;
ghost use Rattle.lt_walk.specs.Closed.{passes_of};
ghost use Rattle.lt_runner.specs.Sessions.{session_pass};
ghost use Rattle.lt_runner.specs.Turns.{AreNumbered, IsAmong};
ghost use Rattle.lt_runner.specs.Closing.{AreHanded, CountAlike, GainsAtMostOne, IsPut, finish_all, join};
ghost use Rattle.lt_runner.specs.Planned.{PlanHasRun, PlanIsRan, plan_rules};
ghost use Rattle.lt_runner.specs.Ran.{run_rules};
ghost use Rattle.lt_ids.specs.declared.limits.TheConstants.{MAX_SHARDS};

use crate::answer::AnswerLine;
use crate::gate::Gate;
use crate::outcome::{Finish, OutOfMemory, Ran, RunFault, Work};
use crate::plan::{Host, Plan};
use crate::running::{run_in_turn, run_on_threads, seats_of};
use crate::session::Session;
use lt_ids::{MAX_REQUEST, MAX_WAIT};
use lt_rules::KeyTable;
use lt_script::Command;
use lt_table_core::{CloseError, Config, Guard, Ready, open_with, prepare};
use lt_words::{Name, Pass, abandon_all};
use std::alloc::Global;
use std::marker::Brand;
use std::sync::Wait;
use std::thread::Threads;

/// What the workers return: their passes, alone or in a guard, their answers, and how they ended.
struct Handed {
    passes: Vec<Pass>,
    guards: Vec<Guard>,
    answers: Vec<Vec<AnswerLine>>,
    finish: Finish,
}

/// Combines how two passes ended: done only if both are done.
fn join(one: Finish, other: Finish) -> Finish
    ensures { result ≡ join one other }
{
    match one {
        Finish::Done => other,
        Finish::TurnsOut => Finish::TurnsOut,
    }
}

/// Appends the session's pass to the passes, or its guard to the guards. Both lists have room.
fn put(session: Session, passes: &mut Vec<Pass>, guards: &mut Vec<Guard>)
    requires passes { length passes.old.items < vec_capacity passes.old }
    requires guards { length guards.old.items < vec_capacity guards.old }
    ensures put { IsPut session passes.old.items guards.old.items passes.new.items guards.new.items }
    ensures passes { GainsAtMostOne passes.old passes.new }
    ensures guards { GainsAtMostOne guards.old guards.new }
{
    match session {
        Session::Free(pass) => passes.push_reserved(pass),
        Session::Open(guard) => guards.push_reserved(guard),
    }
}

/// Room for what this many workers return.
struct Room {
    passes: Vec<Pass>,
    guards: Vec<Guard>,
    answers: Vec<Vec<AnswerLine>>,
}

fn take_room(alloc: Global, many: usize) -> Result<Room, OutOfMemory>
    ensures passes { IfOk result (λ r. (r.passes.items ≡ []) × (vec_capacity r.passes ≡ many)) }
    ensures guards { IfOk result (λ r. (r.guards.items ≡ []) × (vec_capacity r.guards ≡ many)) }
    ensures answers { IfOk result (λ r. (r.answers.items ≡ []) × (vec_capacity r.answers ≡ many)) }
{
    let Ok(answers) = Vec::with_capacity(alloc, many) else {
        return Err(OutOfMemory);
    };
    let Ok(passes) = Vec::with_capacity(alloc, many) else {
        return Err(OutOfMemory);
    };
    let Ok(guards) = Vec::with_capacity(alloc, many) else {
        abandon_all(passes);
        return Err(OutOfMemory);
    };
    Ok(Room {
        passes,
        guards,
        answers,
    })
}

fn hand_over<N: Name>(alloc: Global, works: Vec<Work>) -> Result<Handed, OutOfMemory>
    requires { All (λ w. (session_pass w.session).of ≡ N.of) works.items }
    ensures passes { IfOk result (λ h. AllByRecursion (λ p. p.of ≡ N.of) h.passes.items) }
    ensures guards { IfOk result (λ h. AllByRecursion (λ g. g.pass.of ≡ N.of) h.guards.items) }
    ensures handed { IfOk result (λ h. AreHanded (passes_of h.passes.items h.guards.items) works.items) }
    ensures counted { IfOk result (λ h. CountAlike (passes_of h.passes.items h.guards.items) works.items) }
    ensures answers { IfOk result (λ h. h.answers.items ≡ map (λ w. w.answers) works.items) }
    ensures finish { IfOk result (λ h. h.finish ≡ finish_all (map (λ w. w.finish) works.items)) }
{
    let room = take_room(alloc, works.len())?;
    let Room {
        mut passes,
        mut guards,
        mut answers,
    } = room;
    let mut finish = Finish::Done;
    for work in works {
        let (session, lines, end) = work.into_parts();
        put(session, &mut passes, &mut guards);
        answers.push_reserved(lines);
        finish = join(finish, end);
    }
    Ok(Handed {
        passes,
        guards,
        answers,
        finish,
    })
}

/// Runs the lines: with turns each pass on a thread of its own, otherwise in their order on one thread.
fn run_lines<N: Name + Send + Sync, T: KeyTable + Send, G: Gate + Sync, R: Threads + Wait + Sync>(
    host: &Host<'_, N, T, R>,
    plan: &Plan<'_, G>,
    passes: Vec<Pass>,
) -> Result<Vec<Work>, OutOfMemory>
    requires some { 0 < length passes.items }
    requires numbered { AreNumbered 0 passes.items }
    requires of { AllByRecursion (λ p. p.of ≡ N.of) passes.items }
    requires among { AllByRecursion (IsAmong (length passes.items)) plan.now.commands.now }
    ensures { IfOk result (PlanHasRun G.may_answer host.now.table.now plan.now N.of.shards passes.items) }
{
    let seen = passes[0].seen();
    let seats = seats_of(host.alloc, passes)?;
    if plan.turns.is_some() {
        run_on_threads(host, plan, seats)
    } else {
        run_in_turn(host, plan, seen, seats)
    }
}

fn run_named<
    N: Name + Send + Sync,
    T: KeyTable + Drop + Send,
    G: Gate + Sync,
    R: Threads + Wait + Sync,
>(rt: &R, alloc: Global, ready: Ready, tables: Vec<T>, plan: &Plan<'_, G>) -> Result<Ran, RunFault>
    requires named { ready.of ≡ N.of }
    requires shards { ready.config.shards ≡ N.of.shards }
    requires many { length tables.items ≡ N.of.shards }
    requires empty { All (λ t. T.records t ≡ finmap.empty) tables.items }
    requires passes { ready.config.passes ≡ N.of.passes }
    requires some { 0 < N.of.shards }
    requires some_passes { 0 < N.of.passes }
    requires among { AllByRecursion (IsAmong ready.config.passes) plan.now.commands.now }
    ensures { IfOk result (PlanIsRan G.may_answer (plan_rules ready.config plan.now) ready.config.shards plan.now) }
{
    let Ok((table, passes)) = open_with::<N, T>(alloc, ready, tables) else {
        return Err(RunFault::Memory);
    };
    let works = run_lines(
        &Host {
            rt,
            alloc,
            table: &table,
        },
        plan,
        passes,
    )?;
    let Handed {
        passes,
        guards,
        answers,
        finish,
    } = hand_over::<N>(alloc, works)?;
    match table.close(rt, alloc, passes, guards) {
        Ok(histories) => Ok(Ran {
            answers,
            finish,
            histories: histories.shards,
            draws: histories.draws,
        }),
        Err(refused) => {
            let error = refused.error;
            refused.abandon();
            match error {
                CloseError::Memory => Err(RunFault::Memory),
                _ => Err(RunFault::Counts),
            }
        }
    }
}

fn greater(one: usize, other: usize) -> usize
    ensures first { one ≤ result }
    ensures second { other ≤ result }
    ensures either { (result ≡ one) ⊎ (result ≡ other) }
{
    if one < other { other } else { one }
}

/// The greatest pass number among the commands, at least 1.
fn most_passes(commands: &[Command]) -> usize
    ensures low { 1 ≤ result }
    ensures high { result ≤ 64 }
    ensures among { AllByRecursion (IsAmong result) commands.now }
{
    let mut most = 1;
    for command in commands {
        most = greater(most, command.pass.number() as usize);
    }
    most
}

/// Opens a table over `tables`, one for each shard, with at most `max_steps` steps for each; runs the plan's lines
/// by the table's public calls; and closes the table. With turns, each pass runs its lines on a thread of its own,
/// and a line `await` polls at most that often. Otherwise the lines run in their order on one thread, and `await`
/// polls once. The gate is asked before each line. The histories that come back are legal, within the limit and such that
/// they can be written, and each is a prefix of its shard's part of one legal history.
pub fn run<T: KeyTable + Drop + Send, G: Gate + Sync, R: Threads + Wait + Sync>(
    rt: &R,
    alloc: Global,
    tables: Vec<T>,
    max_steps: u64,
    plan: &Plan<'_, G>,
) -> Result<Ran, RunFault>
    requires some_shards { 1 ≤ length tables.items }
    requires few_shards { length tables.items ≤ MAX_SHARDS }
    requires empty { All (λ t. T.records t ≡ finmap.empty) tables.items }
    requires some_steps { 1 ≤ max_steps }
    requires few_steps { max_steps ≤ 2 ^ 32 }
    ensures { IfOk result (PlanIsRan G.may_answer (run_rules max_steps plan.now.turns) (length tables.items) plan.now) }
{
    let config = Config {
        shards: tables.len(),
        passes: most_passes(plan.commands),
        max_steps,
        max_requests: MAX_REQUEST,
        max_waits: MAX_WAIT,
    };
    let Ok(ready) = prepare(alloc, config) else {
        return Err(RunFault::Memory);
    };
    run_named::<Brand, T, G, R>(rt, alloc, ready, tables, plan)
}
