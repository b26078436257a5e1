//! Which commands does a random schedule have, and what does it expect of each?
//! [`random_schedule`] draws commands and questions of several passes and evaluates each at once (`table`).
//! Limits, keys and transactions are few, so that requests meet and limits are reached. Read next `tests`, which
//! plays the schedules.
ghost use Rattle.std.specs.Prelude.{◌<◌, ◌≤◌};

use crate::schedules::cases::ScheduleCaseCounts;
use crate::schedules::standing::ExpectedAnswer;
use crate::schedules::table::SecondTable;
use lt_ids::Access;
use lt_random::Random;
use lt_table::Config;
use lt_test_kit::asking::Question;
use lt_test_kit::command::{CommandRow, TableCommand};
use lt_test_kit::play::PlayedCommand;
use std::alloc::Global;

/// How many commands a schedule has.
const COMMANDS: usize = 80;

/// A schedule: the limits of its table, the commands with their expected outcomes, the questions after some of
/// them, and the table that evaluated the rules.
#[derive(Drop)]
pub struct Schedule {
    pub config: Config,
    pub rows: Vec<CommandRow>,
    pub lines: Vec<PlayedCommand>,
    /// The question after the command at the same index.
    pub questions: Vec<Option<Question>>,
    /// The expected answers, question after question.
    pub wanted: Vec<ExpectedAnswer>,
    pub second: SecondTable,
}

/// A limit of 1 to `few` in half of the cases, so that it is often met; else 1000.
fn random_limit(random: &mut Random, few: u64) -> u64
    requires some { 0 < few }
    requires small { few ≤ 1000 }
    ensures { result ≤ 1000 }
{
    if random.below(2) == 0 {
        1 + random.below(few)
    } else {
        1000
    }
}

/// 1 to 4 passes, and 4 more often than the others: one request waits behind another only with three passes or
/// more.
fn random_passes(random: &mut Random) -> usize
    ensures { 0 < result }
{
    if random.below(2) == 0 {
        1 + random.below(4) as usize
    } else {
        4
    }
}

fn random_config(random: &mut Random) -> Config
    ensures shards { 0 < result.shards }
    ensures passes { 0 < result.passes }
{
    Config {
        shards: 1 + random.below(4) as usize,
        passes: random_passes(random),
        max_steps: random_limit(random, 30),
        max_requests: random_limit(random, 6),
        max_waits: random_limit(random, 2) as u32,
    }
}

/// A number below 5. Smaller ones are more frequent, so that requests meet at few keys.
fn random_index(random: &mut Random) -> u64
    ensures { result < 5 }
{
    let mut limit = 5;
    for _ in 0..3 {
        limit = 1 + random.below(limit);
    }
    limit - 1
}

/// A letter that names a key: A, b, C, d or E. The keys of capital letters are stored on the heap, so that each
/// call that stores a step of one allocates.
fn random_key(random: &mut Random) -> u8 {
    match random_index(random) {
        0 => b'A',
        1 => b'b',
        2 => b'C',
        3 => b'd',
        _ => b'E',
    }
}

/// One to three accesses, or none at all.
fn random_accesses(alloc: Global, random: &mut Random) -> Option<Vec<(u8, Access)>> {
    let mut accesses = Vec::new(alloc);
    if random.below(16) == 0 {
        return Some(accesses);
    }
    for _ in 0..1 + random.below(3) {
        let access = if random.below(4) < 3 {
            Access::Write
        } else {
            Access::Read
        };
        accesses.push((random_key(random), access)).ok()?;
    }
    Some(accesses)
}

/// A transaction, or none in one of four cases.
fn random_owner(random: &mut Random) -> Option<u64> {
    if random.below(4) == 0 {
        None
    } else {
        Some(1 + random.below(4))
    }
}

/// A bound of 1 or 2 in half of the cases, and else none.
fn random_bound(random: &mut Random) -> u32 {
    if random.below(2) == 0 {
        1 + random.below(2) as u32
    } else {
        0
    }
}

fn random_entry(alloc: Global, random: &mut Random) -> Option<TableCommand> {
    Some(TableCommand::Enter {
        txn: random_owner(random),
        wall: random.below(4),
        accesses: random_accesses(alloc, random)?,
        longest: random_bound(random),
    })
}

/// A call on the lock of a key, often by the transaction that holds it.
fn random_lock_call(random: &mut Random, second: &SecondTable) -> TableCommand {
    let key = random_key(random);
    let wall = random.below(4);
    let mut txn = 1 + random.below(4);
    if let Some(holder) = second.holder(key) {
        if random.below(2) == 0 {
            txn = holder;
        }
    }
    match random.below(6) {
        0 | 1 => TableCommand::Acquire { txn, wall, key },
        2 => TableCommand::Update { txn, wall, key },
        _ => TableCommand::Finish { txn, key },
    }
}

/// A call of a request that has entered.
fn random_call(random: &mut Random, second: &SecondTable) -> TableCommand {
    match random.below(20) {
        0..=6 => TableCommand::Scan,
        7 | 8 => TableCommand::Poll,
        9..=12 => TableCommand::Look {
            index: random_index(random) as usize,
        },
        13 | 14 => TableCommand::Leave,
        _ => random_lock_call(random, second),
    }
}

/// A command that the pass can make, with a request or without one. In one of 25 cases it is a command of the
/// other kind.
fn random_command(
    alloc: Global,
    random: &mut Random,
    second: &SecondTable,
    is_open: bool,
) -> Option<TableCommand> {
    let is_reversed = random.below(25) == 0;
    if is_open != is_reversed {
        return Some(random_call(random, second));
    }
    if random.below(5) < 2 {
        return Some(random_lock_call(random, second));
    }
    random_entry(alloc, random)
}

/// A schedule for a new table, without commands.
fn random_start(alloc: Global, random: &mut Random) -> Schedule
    ensures { 0 < result.config.passes }
{
    let config = random_config(random);
    Schedule {
        config,
        rows: Vec::new(alloc),
        lines: Vec::new(alloc),
        questions: Vec::new(alloc),
        wanted: Vec::new(alloc),
        second: SecondTable::new(alloc, config),
    }
}

/// A question for the state of a key in one of four cases. In one of eight it is for the keys of a shard that have
/// a record, if the pass has no request.
fn random_question(random: &mut Random, is_open: bool) -> Option<Question> {
    match random.below(8) {
        0 | 1 => Some(Question::State(random_key(random))),
        2 if !is_open => Some(Question::Keys(random_key(random))),
        _ => None,
    }
}

/// The answer that the rules give to a question.
fn wanted_of(second: &SecondTable, question: Question) -> Option<ExpectedAnswer> {
    match question {
        Question::State(key) => Some(ExpectedAnswer::State(second.standing(key)?)),
        Question::Keys(key) => Some(ExpectedAnswer::Keys(second.keys_beside(key)?)),
    }
}

/// Adds the question, if any, that the pass at this index asks after its latest command, and the expected answer.
fn add_question(
    random: &mut Random,
    index: usize,
    schedule: &mut Schedule,
    counts: &mut ScheduleCaseCounts,
) -> Option<()> {
    let question = random_question(random, schedule.second.stands(index).is_open);
    if let Some(question) = question {
        let wanted = wanted_of(&schedule.second, question)?;
        counts.add_wanted(&wanted);
        schedule.wanted.push(wanted).ok()?;
    }
    schedule.questions.push(question).ok()?;
    Some(())
}

/// Adds a command by the pass at this index, and its expected outcome.
fn add_command(
    alloc: Global,
    random: &mut Random,
    index: usize,
    schedule: &mut Schedule,
    counts: &mut ScheduleCaseCounts,
) -> Option<()> {
    let before = schedule.second.stands(index);
    let command = random_command(alloc, random, &schedule.second, before.is_open)?;
    let line = schedule.second.play(index, &command)?;
    counts.add_line(before, &command, &line);
    schedule.rows.push((index, command, line.outcome)).ok()?;
    schedule.lines.push(line).ok()?;
    Some(())
}

/// The schedule of this seed. `None` if an allocation fails.
pub fn random_schedule(
    alloc: Global,
    seed: u64,
    counts: &mut ScheduleCaseCounts,
) -> Option<Schedule> {
    let mut random = Random::new(seed);
    let mut schedule = random_start(alloc, &mut random);
    let passes = schedule.config.passes as u64;
    for _ in 0..COMMANDS {
        let index = random.below(passes) as usize;
        add_command(alloc, &mut random, index, &mut schedule, counts)?;
        add_question(&mut random, index, &mut schedule, counts)?;
    }
    for step in schedule.second.steps() {
        counts.add_step(step);
    }
    Some(schedule)
}
