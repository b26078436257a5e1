use lt_shard::OnceError;
use thiserror::Error;

/// Why a step was refused. The pass or the guard is as it was. After `Lost` the shard is a new one, over an empty table; after
/// the others no step was made.
#[derive(Clone, Copy, Debug, PartialEq, Eq, Drop, Error)]
pub enum TryError {
    /// The shard holds as many steps as it may.
    #[error("the shard has stored as many steps as it may")]
    HistoryFull,
    /// An allocation failed.
    #[error("out of memory")]
    Memory,
    /// Another caller is in the shard. Call again.
    #[error("another caller is in the shard")]
    Busy,
    /// Another value of this shard made a step in the book, or somebody was in a shard at the close. No table that was
    /// opened has two values of one shard, but no contract knows that: it cannot see what a slot holds.
    #[error("the shard is not the one of its table")]
    Lost,
}

impl From<OnceError> for TryError {
    ghost use Rattle.std.specs.Prelude.{◌≡◌};
    ghost use Rattle.lt_try.specs.Refused.{of_once};

    ghost from_gives = { λ e r. r ≡ of_once e };

    fn from(e: OnceError) -> TryError {
        match e {
            OnceError::HistoryFull => TryError::HistoryFull,
            OnceError::Memory => TryError::Memory,
            OnceError::Lost => TryError::Lost,
        }
    }
}
