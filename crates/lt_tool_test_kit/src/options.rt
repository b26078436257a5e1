//! Options for the runs of the tests.
ghost use Rattle.lockrun_words.specs.Options.{AreInRange};

use lt_tool::Options;

/// Options with these values, each number clamped to its range.
pub fn options(shards: usize, steps: u64, threads: bool, turns: u64) -> Options
    ensures { AreInRange result }
{
    Options {
        shards: shards.max(1).min(64),
        steps: steps.max(1).min(4294967296),
        threads,
        turns: turns.max(1).min(1000000000),
    }
}
