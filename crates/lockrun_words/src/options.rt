//! The options of a run, with their defaults.
ghost use Rattle.std.specs.Prelude.{◌≡◌, false};

/// How a script is run. Shards range from 1 to 64, steps from 1 to 2^32, turns from 1 to 1,000,000,000.
#[derive(Clone, Copy, Debug, PartialEq, Eq)]
pub struct Options {
    /// The number of shards of the table.
    pub shards: usize,
    /// How many key steps each shard can hold.
    pub steps: u64,
    /// Whether each pass runs on a thread of its own.
    pub threads: bool,
    /// How often one line `await` polls at most, with threads.
    pub turns: u64,
}

impl Default for Options {
    ghost is_default = { λ o. o ≡ record { shards = 4; steps = 1000000; threads = false; turns = 1000000 } };

    /// 4 shards, 1,000,000 steps for each, no threads, 1,000,000 turns.
    fn default() -> Options {
        Options {
            shards: 4,
            steps: 1_000_000,
            threads: false,
            turns: 1_000_000,
        }
    }
}
