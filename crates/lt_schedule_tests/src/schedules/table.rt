//! What does a table answer to each call, by a second evaluation of the rules?
//! [`SecondTable`] plays the commands of several passes, with none of the code of `lt_table`. Read next `request`,
//! which has the rules of a request, and `steps`, which makes the key steps.
ghost use Rattle.std.specs.Prelude.{◌<◌};

use crate::schedules::cases::Before;
use crate::schedules::request::PlainRequest;
use crate::schedules::standing::Standing;
use crate::schedules::steps::{AskedCall, PlainStep, Steps};
use crate::second::Time;
use lt_ids::Access;
use lt_rules::Reply;
use lt_table::{Config, EnterError, StepError};
use lt_test_kit::command::{CallOutcome, TableCommand};
use lt_test_kit::play::PlayedCommand;
use std::alloc::Global;
use std::collections::BTreeMap;

/// A table of several keys and passes, in plain numbers.
#[derive(Drop)]
pub struct SecondTable {
    alloc: Global,
    max_requests: u64,
    max_waits: u32,
    draws: u64,
    steps: Steps,
    /// The request of each pass that has one, by the index of the pass, from 0.
    requests: BTreeMap<usize, PlainRequest>,
}

/// The outcome of a call, and the index of its step.
type ToldAndIndex = (CallOutcome, Option<u64>);

/// The number of the pass at an index.
fn pass_at(index: usize) -> Option<u32> {
    u32::try_from(index).ok()?.checked_add(1)
}

/// The key and the call of a command that acquires, updates or finishes a lock. A command's times have the logical
/// part 0.
fn lock_call(command: &TableCommand) -> Option<(u8, AskedCall)> {
    match command {
        TableCommand::Acquire { txn, wall, key } => {
            let time = (*wall, 0);
            Some((*key, AskedCall::Acquire { txn: *txn, time }))
        }
        TableCommand::Update { txn, wall, key } => {
            let time = (*wall, 0);
            Some((*key, AskedCall::Update { txn: *txn, time }))
        }
        TableCommand::Finish { txn, key } => Some((*key, AskedCall::Finish { txn: *txn })),
        _ => None,
    }
}

impl SecondTable {
    pub fn new(alloc: Global, config: Config) -> Self
        requires { 0 < config.shards }
    {
        SecondTable {
            alloc,
            max_requests: config.max_requests,
            max_waits: config.max_waits,
            draws: 0,
            steps: Steps::new(alloc, config.shards as u64, config.max_steps),
            requests: BTreeMap::new(alloc),
        }
    }

    /// How many request numbers were drawn.
    pub fn draws(&self) -> u64 {
        self.draws
    }

    /// The steps of all shards, in order.
    pub fn steps(&self) -> &[PlainStep] {
        self.steps.all()
    }

    /// The shard of a key, from 0.
    pub fn shard_of(&self, key: u8) -> u64 {
        self.steps.shard_of(key)
    }

    /// The transaction that holds the lock of this key, if any.
    pub fn holder(&self, key: u8) -> Option<u64> {
        self.steps.holder(key)
    }

    /// The state of this key. `None` if an allocation fails.
    pub fn standing(&self, key: u8) -> Option<Standing> {
        self.steps.standing(key).ok()
    }

    /// The letters of the keys in this key's shard that have a record, in byte order. `None` if an allocation
    /// fails.
    pub fn keys_beside(&self, key: u8) -> Option<Vec<u8>> {
        self.steps.keys_beside(key).ok()
    }

    /// The state of the pass at this index and of its request.
    pub fn stands(&self, index: usize) -> Before {
        match self.requests.get(&index) {
            Some(request) => Before {
                is_open: true,
                goes_on: request.goes_on(&self.steps),
                is_leaving: request.is_leaving(),
            },
            None => Before {
                is_open: false,
                goes_on: false,
                is_leaving: false,
            },
        }
    }

    /// Makes one step.
    fn step(&mut self, pass: u32, key: u8, asked: AskedCall) -> Option<ToldAndIndex> {
        match self.steps.make(pass, key, asked).ok()? {
            Some(made) => Some((CallOutcome::Stepped(made.reply), Some(made.at))),
            None => Some((CallOutcome::NotStepped(StepError::HistoryFull), None)),
        }
    }

    /// A request enters. The refusals come in this order: the request has no keys; no number is left. Numbers are
    /// 1, 2 and so on.
    fn enter(
        &mut self,
        index: usize,
        txn: Option<u64>,
        time: Time,
        accesses: &[(u8, Access)],
        longest: u32,
    ) -> Option<CallOutcome> {
        if accesses.is_empty() {
            return Some(CallOutcome::NotEntered(EnterError::NoKeys));
        }
        if self.draws >= self.max_requests {
            return Some(CallOutcome::NotEntered(EnterError::NumbersOut));
        }
        self.draws += 1;
        let number = self.draws;
        let pass = pass_at(index)?;
        let request = PlainRequest::new(
            self.alloc, pass, number, txn, time, accesses, longest,
        ).ok()?;
        self.requests.insert(index, request).ok()?;
        Some(CallOutcome::Entered(number))
    }

    /// A call of a pass without a request.
    fn by_pass(&mut self, index: usize, command: &TableCommand) -> Option<ToldAndIndex> {
        match command {
            TableCommand::Enter {
                txn,
                wall,
                accesses,
                longest,
            } => Some((
                self.enter(index, *txn, (*wall, 0), accesses, *longest)?,
                None,
            )),
            TableCommand::EnterMany { .. } => None,
            _ => match lock_call(command) {
                Some((key, asked)) => self.step(pass_at(index)?, key, asked),
                None => Some((CallOutcome::Nothing, None)),
            },
        }
    }

    /// A call of a pass with this request.
    fn by_request(
        &mut self,
        index: usize,
        request: &mut PlainRequest,
        command: &TableCommand,
    ) -> Option<ToldAndIndex> {
        let call = match command {
            TableCommand::Scan => {
                return Some((request.scan(&mut self.steps, self.max_waits).ok()?, None));
            }
            TableCommand::Poll => return Some((
                CallOutcome::Polled(request.poll(&self.steps)),
                None,
            )),
            TableCommand::Leave => return Some((request.leave(&mut self.steps).ok()?, None)),
            TableCommand::Look { index } => request.look_call(*index),
            _ => lock_call(command),
        };
        match call {
            Some((key, asked)) => self.step(pass_at(index)?, key, asked),
            None => Some((CallOutcome::Nothing, None)),
        }
    }

    /// Plays a command by the pass at this index, from 0. `None` if an allocation fails, or for a command that no
    /// schedule has.
    pub fn play(&mut self, index: usize, command: &TableCommand) -> Option<PlayedCommand> {
        let Some(mut request) = self.requests.remove(&index) else {
            let (outcome, at) = self.by_pass(index, command)?;
            let replies: Vec<Reply> = Vec::new(self.alloc);
            return Some(PlayedCommand {
                outcome,
                replies,
                at,
            });
        };
        let (outcome, at) = self.by_request(index, &mut request, command)?;
        let replies = Vec::from_slice(self.alloc, request.replies()).ok()?;
        if outcome != CallOutcome::Left {
            self.requests.insert(index, request).ok()?;
        }
        Some(PlayedCommand {
            outcome,
            replies,
            at,
        })
    }
}
