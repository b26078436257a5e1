//! How are the statistics of a text gathered? [`Statistics::take`] takes one step, and [`Statistics::finish`] gives the
//! summary. `queue.rt`, `waits.rt` and `hottest.rt` have the parts; `specs/Findings.antt` says what each figure is.
ghost use Rattle.std.specs.Prelude.{◌≡◌, ◌+◌, ◌++◌, ◌∷◌, [], List, OnOk, IfOk, length, count_by, sum_by};
ghost use Rattle.lt_trace_statistics.specs.Findings.{TracedStep, Findings, traced_step, capped, wait_count, with_key, with_step};
ghost use Rattle.lt_trace_statistics.specs.Taken.{AreFindings, HasGathered, Summarizes, KeepsSums, StartsKey};

use crate::hottest::{count_step, is_key_of, rank_latest};
use crate::queue::note_queue;
use crate::summary::{HotKey, LongestQueue, LongestWait, StepCounts, TextSummary};
use crate::waits::{Pending, begin_wait, drop_ended, drop_mover, note_ended, wait_count};
use lt_checker::Line;
use lt_ids::Key;
use std::alloc::{AllocError, Global};
use std::collections::BTreeMap;
use std::mem;

/// The statistics of the steps that were taken so far. It holds the open waits at the latest key, and at most
/// [`MOST_KEYS`](crate::MOST_KEYS) keys before it. After an error it is of no more use.
#[derive(Drop)]
pub struct Statistics {
    counts: StepCounts,
    /// The latest key.
    latest: Option<HotKey>,
    /// The hottest of the keys before it.
    earlier: Vec<HotKey>,
    /// The open waits at the latest key.
    pending: Pending,
    longest_queue: Option<LongestQueue>,
    longest_wait: Option<LongestWait>,
}

/// Counts the step, its wait and its lets.
fn counted(counts: StepCounts, line: &Line) -> StepCounts
    ensures keys { result.keys ≡ counts.keys }
    ensures steps { result.steps ≡ capped (counts.steps + 1) }
    ensures waits { result.waits ≡ capped (counts.waits + wait_count line.now.step.reply) }
    ensures lets { result.lets ≡ capped (counts.lets + length line.now.tickets.items) }
{
    StepCounts {
        keys: counts.keys,
        steps: counts.steps.saturating_add(1),
        waits: counts.waits.saturating_add(wait_count(&line.step.reply)),
        lets: counts.lets.saturating_add(line.tickets.len() as u64),
    }
}

impl Statistics {
    /// The statistics of no steps.
    pub fn new(alloc: Global) -> Statistics
        ensures { HasGathered result [] }
    {
        Statistics {
            counts: StepCounts {
                keys: 0,
                steps: 0,
                waits: 0,
                lets: 0,
            },
            latest: None,
            earlier: Vec::new(alloc),
            pending: BTreeMap::new(alloc),
            longest_queue: None,
            longest_wait: None,
        }
    }

    /// Makes this key the latest one.
    fn begin_key(&mut self, key: &Key) -> Result<(), AllocError>
        ensures fresh { OnOk result (StartsKey self.old self.new key.now) }
        ensures sums { OnOk result (KeepsSums self.old.counts self.new.counts) }
    {
        let next = HotKey {
            key: key.copy()?,
            steps: 0,
            waits: 0,
        };
        rank_latest(
            &mut self.earlier,
            mem::replace(&mut self.latest, Some(next)),
        )?;
        self.pending.clear();
        self.counts.keys = self.counts.keys.saturating_add(1);
        Ok(())
    }

    /// Makes this key the latest one, unless it is.
    fn enter_key(&mut self, key: &Key) -> Result<(), AllocError>
        ensures findings { OnOk result ((f : Findings) → AreFindings self.old f → AreFindings self.new (with_key f key.now)) }
        ensures sums { OnOk result (KeepsSums self.old.counts self.new.counts) }
    {
        if is_key_of(&self.latest, key) {
            return Ok(());
        }
        self.begin_key(key)
    }

    /// Notes a step of the latest key, after which so many requests are queued.
    fn note_step(&mut self, line: &Line, queue: u64) -> Result<(), AllocError>
        ensures findings { OnOk result ((f : Findings) → AreFindings self.old f →
            AreFindings self.new (with_step f (traced_step line.now queue))) }
        ensures counts { self.new.counts ≡ self.old.counts }
    {
        drop_mover(&mut self.pending, &line.step.call);
        note_ended(
            &mut self.longest_wait,
            &self.pending,
            &line.key,
            line.step.index,
            &line.tickets,
        )?;
        drop_ended(&mut self.pending, &line.tickets);
        begin_wait(&mut self.pending, &line.step)?;
        note_queue(&mut self.longest_queue, line, queue)?;
        count_step(&mut self.latest, &line.step.reply);
        Ok(())
    }

    /// Takes the next line of the text, after which so many requests are queued at its key: the writers, active or not, and
    /// the readers. The lines of a key come one after the other.
    pub fn take(&mut self, line: &Line, queue: u64) -> Result<(), AllocError>
        ensures { OnOk result ((steps : List TracedStep) → HasGathered self.old steps →
            HasGathered self.new (steps ++ traced_step line.now queue ∷ [])) }
    {
        self.enter_key(&line.key)?;
        self.note_step(line, queue)?;
        self.counts = counted(self.counts, line);
        Ok(())
    }

    /// The summary of the steps that were taken.
    pub fn finish(self) -> Result<TextSummary, AllocError>
        ensures { IfOk result (λ summary. (steps : List TracedStep) → HasGathered self steps → Summarizes steps summary) }
    {
        let Statistics {
            counts,
            latest,
            earlier,
            longest_queue,
            longest_wait,
            ..
        } = self;
        let mut hottest = earlier;
        rank_latest(&mut hottest, latest)?;
        Ok(TextSummary {
            counts,
            longest_queue,
            longest_wait,
            hottest,
        })
    }
}
