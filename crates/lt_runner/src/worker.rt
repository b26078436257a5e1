//! How does one pass get through its lines, one after the other?
//!
//! [`work`] executes all lines of a pass; `next_line` executes one of them, after asking the gate. Read next:
//! `act.rt` for what a single line does, and `specs/Worked.antt`.
ghost use Rattle.std.specs.Prelude.{◌≡◌, IfOk};
ghost use Rattle.lt_runner.specs.Sessions.{session_pass};
ghost use Rattle.lt_runner.specs.Planned.{LineTaken, PassIsWorked, PlanGoesOn, PlanTakesOn};
ghost use Rattle.lt_runner.specs.Worked.{is_turns, finish_of, IsBegun};

use crate::act::act;
use crate::answer::{AnswerLine, LineAnswer};
use crate::gate::Gate;
use crate::outcome::{Finish, OutOfMemory, Work};
use crate::plan::{Host, Plan};
use crate::session::Session;
use lt_rules::KeyTable;
use lt_script::Command;
use lt_words::{Name, Pass};
use std::alloc::Global;
use std::sync::Wait;

fn is_turns(answer: &LineAnswer) -> bool
    ensures { result ≡ is_turns answer.now }
{
    matches!(answer, LineAnswer::Turns)
}

fn finish_of(out: bool) -> Finish
    ensures { result ≡ finish_of out }
{
    if !out { Finish::Done } else { Finish::TurnsOut }
}

/// Executes the line and appends its answer. Returns whether the line used up the turns.
fn take_line<N: Name, T: KeyTable, R: Wait>(
    host: &Host<'_, N, T, R>,
    turns: Option<u64>,
    session: &mut Session,
    command: &Command,
    answers: &mut Vec<AnswerLine>,
) -> Result<bool, OutOfMemory>
    requires { (session_pass session.old).of ≡ N.of }
    ensures { IfOk result (LineTaken host.now.table.now turns command.now
        session.old answers.old.items session.new answers.new.items) }
{
    let answer = act(host, turns, session, &command.action)?;
    let out = is_turns(&answer);
    let answer = AnswerLine {
        line: command.line,
        answer,
    };
    match answers.push(answer) {
        Ok(()) => Ok(out),
        Err(_) => Err(OutOfMemory),
    }
}

/// Executes the next line of a pass that has not ended, if the gate lets it run.
fn live_line<N: Name, T: KeyTable, G: Gate, R: Wait>(
    host: &Host<'_, N, T, R>,
    plan: &Plan<'_, G>,
    work: &mut Work,
    command: &Command,
) -> Result<(), OutOfMemory>
    requires { (session_pass work.old.session).of ≡ N.of }
    ensures { IfOk result (λ _. PlanTakesOn G.may_answer host.now.table.now plan.now
        work.old.session work.old.answers.items command.now work.new) }
{
    let number = command.pass.number();
    if !plan.gate.before(number, command.line) {
        work.finish = Finish::TurnsOut;
        return Ok(());
    }
    let out = take_line(
        host,
        plan.turns,
        &mut work.session,
        command,
        &mut work.answers,
    )?;
    plan.gate.after(number, command.line);
    work.finish = finish_of(out);
    Ok(())
}

/// Executes the next line of a pass, unless the pass has ended.
pub(crate) fn next_line<N: Name, T: KeyTable, G: Gate, R: Wait>(
    host: &Host<'_, N, T, R>,
    plan: &Plan<'_, G>,
    work: &mut Work,
    command: &Command,
) -> Result<(), OutOfMemory>
    requires { (session_pass work.old.session).of ≡ N.of }
    ensures { IfOk result (λ _. PlanGoesOn G.may_answer host.now.table.now plan.now work.old command.now work.new) }
{
    match work.finish {
        Finish::TurnsOut => Ok(()),
        Finish::Done => live_line(host, plan, work, command),
    }
}

/// The work of a pass that has not executed a line yet. Allocates room for the answers of this many lines.
pub(crate) fn begin(alloc: Global, pass: Pass, lines: usize) -> Result<Work, OutOfMemory>
    ensures { IfOk result (IsBegun pass) }
{
    let Ok(answers) = Vec::with_capacity(alloc, lines) else {
        pass.abandon();
        return Err(OutOfMemory);
    };
    Ok(Work {
        session: Session::Free(pass),
        answers,
        finish: Finish::Done,
    })
}

/// How many lines each pass has, from pass 1 on. The counts only say how much room to allocate; no contract depends
/// on them.
pub(crate) fn lines_by_pass(commands: &[Command]) -> [usize; 64] {
    let mut lines: [usize; 64] = [0; 64];
    for command in commands {
        let index = (command.pass.number() - 1) as usize;
        lines[index] = lines[index].saturating_add(1);
    }
    lines
}

/// How many lines the pass has. A table may have more passes than a script; those have no lines.
pub(crate) fn lines_of_pass(lines: &[usize; 64], pass: &Pass) -> usize {
    match lines.get((pass.number() - 1) as usize) {
        Some(count) => *count,
        None => 0,
    }
}

/// Executes those of the plan's lines that belong to the pass, in their order. Stops after a line that uses up the
/// turns, and before a line that the gate does not let run.
pub fn work<N: Name, T: KeyTable, G: Gate, R: Wait>(
    host: &Host<'_, N, T, R>,
    plan: &Plan<'_, G>,
    pass: Pass,
) -> Result<Work, OutOfMemory>
    requires { pass.of ≡ N.of }
    ensures { IfOk result (PassIsWorked G.may_answer host.now.table.now plan.now pass) }
{
    let commands = plan.commands;
    let number = pass.number();
    let lines = lines_of_pass(&lines_by_pass(commands), &pass);
    let begun = begin(host.alloc, pass, lines)?;
    let mut work = begun;
    for command in commands {
        if command.pass.number() == number {
            next_line(host, plan, &mut work, command)?;
        }
    }
    Ok(work)
}
