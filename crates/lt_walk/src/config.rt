//! With which numbers is a table opened, in which ranges, and what is allocated before it opens? Read next
//! `specs/Configs.antt`. `docs/LIMITS.md` says what happens at each limit.
ghost use Rattle.std.specs.Prelude.{◌≡◌, None, IfOk, IfErr, OnOk};
ghost use Rattle.lt_words.specs.Row.{fresh_passes};
ghost use Rattle.lt_walk.specs.Configs.{is_between, fault, IsOpened, IsUnprepared};

use lt_ids::{MAX_PASS, MAX_REQUEST, MAX_SHARDS, MAX_STEPS, MAX_WAIT};
use lt_words::{Book, Keeping, Pass, abandon_all};
use std::alloc::{AllocError, Global};
use std::marker::Model;
use thiserror::Error;

/// The numbers with which a table is opened.
#[derive(Clone, Copy, Debug, PartialEq, Eq)]
pub struct Config {
    /// The number of shards: 1 to [`MAX_SHARDS`]. Each has a lock of its own.
    pub shards: usize,
    /// The number of passes: 1 to [`MAX_PASS`]. Each serves one caller at a time.
    pub passes: usize,
    /// How many steps a shard may hold: 1 to [`MAX_STEPS`]. If each step is held until the close, this is also how many
    /// steps a shard may make.
    pub max_steps: u64,
    /// How many requests may enter: 1 to [`MAX_REQUEST`].
    pub max_requests: u64,
    /// How many waits a request may begin: 1 to [`MAX_WAIT`].
    pub max_waits: u32,
}

/// Why nothing was prepared: the first number that is out of its range, in this order, or out of memory.
#[derive(Clone, Copy, Debug, PartialEq, Eq, Drop, Error)]
pub enum PrepareError {
    #[error("a table has 1 to {} shards", MAX_SHARDS)]
    Shards,
    #[error("a table has 1 to {} passes", MAX_PASS)]
    Passes,
    #[error("a shard makes 1 to 2^32 steps")]
    Steps,
    #[error("a table takes 1 to 2^40 - 1 requests")]
    Requests,
    #[error("a request begins 1 to 2^24 - 1 waits")]
    Waits,
    #[error("out of memory")]
    Memory,
}

impl From<AllocError> for PrepareError {
    ghost use Rattle.std.specs.Prelude.{◌≡◌};
    ghost use Rattle.lt_walk.specs.declared.config.PrepareError.TheVariants.{Memory};

    ghost from_gives = { λ _ e. e ≡ Memory };

    fn from(_: AllocError) -> PrepareError {
        PrepareError::Memory
    }
}

fn is_between(low: u64, high: u64, n: u64) -> bool
    ensures { result ≡ is_between low high n }
{
    low <= n && n <= high
}

/// The first number that is out of its range.
fn fault(config: Config) -> Option<PrepareError>
    ensures fault { result ≡ fault config }
{
    if is_between(1, MAX_SHARDS as u64, config.shards as u64) {
        if is_between(1, u64::from(MAX_PASS), config.passes as u64) {
            if is_between(1, MAX_STEPS, config.max_steps) {
                if is_between(1, MAX_REQUEST, config.max_requests) {
                    if is_between(1, u64::from(MAX_WAIT), u64::from(config.max_waits)) {
                        None
                    } else {
                        Some(PrepareError::Waits)
                    }
                } else {
                    Some(PrepareError::Requests)
                }
            } else {
                Some(PrepareError::Steps)
            }
        } else {
            Some(PrepareError::Passes)
        }
    } else {
        Some(PrepareError::Shards)
    }
}

/// A book and its passes, ready for a table to be opened over them. A `Ready` is not `Drop`: it is opened or given
/// up by name ([`Ready::abandon`]).
pub struct Ready {
    pub(crate) config: Config,
    pub(crate) book: Book,
    pub(crate) passes: Vec<Pass>,
}

impl Model for Ready {
    ghost use Rattle.std.specs.Prelude.{◌≡◌};
    ghost use Rattle.lt_words.specs.Row.{fresh_passes};
    ghost use Rattle.lt_walk.specs.Configs.{ReadyState, IsOpened};

    ghost Value = { ReadyState };

    ghost view = { λ r. record { config = r.config; of = r.book } };

    ghost invariant = { λ r. IsOpened r.config r.book × (r.passes.items ≡ fresh_passes r.book r.config.passes) };
}

impl Ready {
    /// The numbers that the table will have. The book has the same number of shards.
    pub fn config(&self) -> Config
        ensures config { result ≡ self.now.config }
        ensures shards { self.now.of.shards ≡ result.shards }
    {
        self.config
    }

    /// Gives up the book and its passes.
    pub fn abandon(self) {
        let Ready {
            config: _,
            book: _,
            passes,
        } = self;
        abandon_all(passes);
    }
}

/// What a table is opened over: its numbers, its words, and its passes.
pub struct ReadyParts {
    pub config: Config,
    pub book: Book,
    pub passes: Vec<Pass>,
}

/// Takes apart what was prepared, to open a table over it.
pub fn parts_of(ready: Ready) -> ReadyParts
    ensures config { result.config ≡ ready.config }
    ensures book { result.book ≡ ready.of }
    ensures passes { result.passes.items ≡ fresh_passes ready.of ready.config.passes }
    ensures opened { IsOpened ready.config ready.of }
{
    let Ready {
        config,
        book,
        passes,
    } = ready;
    ReadyParts {
        config,
        book,
        passes,
    }
}

/// Checks the numbers, and allocates the table's words and passes. The table will keep each step until it is
/// closed.
pub fn prepare(alloc: Global, config: Config) -> Result<Ready, PrepareError>
    ensures ok { OnOk result (fault config ≡ None) }
    ensures config { IfOk result (λ ready. ready.config ≡ config) }
    // The book has the numbers of shards and passes that the configuration asks for.
    ensures opened { IfOk result (λ ready. IsOpened config ready.of) }
    ensures refused { IfErr result (λ e. IsUnprepared config e) }
    // Each step is stored until the table is closed.
    ensures whole { IfOk result (λ ready. ready.of.keeping ≡ Keeping.Whole) }
{
    prepare_with(alloc, config, Keeping::Whole)
}

/// [`prepare`] for a table that keeps its steps in the given way. A table that streams holds at most `max_steps`
/// steps of a shard at a time. A table that records none ignores `max_steps`, which must still be in its range.
pub fn prepare_with(alloc: Global, config: Config, keeping: Keeping) -> Result<Ready, PrepareError>
    ensures ok { OnOk result (fault config ≡ None) }
    ensures config { IfOk result (λ ready. ready.config ≡ config) }
    ensures opened { IfOk result (λ ready. IsOpened config ready.of) }
    ensures keeping { IfOk result (λ ready. ready.of.keeping ≡ keeping) }
    ensures refused { IfErr result (λ e. IsUnprepared config e) }
{
    if let Some(error) = fault(config) {
        return Err(error);
    }
    let (book, passes) = Book::open_keeping(alloc, config.shards, config.passes, keeping)?;
    Ok(Ready {
        config,
        book,
        passes,
    })
}
