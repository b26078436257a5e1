//! The content of a [`crate::seat::Seat`].
use lt_table_core::Guard;
use lt_words::Pass;

/// A pass, either free or inside a guard.
pub enum Holds {
    Free(Pass),
    Open(Guard),
}

impl Holds {
    /// Gives up the pass or the guard.
    pub fn abandon(self) {
        match self {
            Holds::Free(pass) => pass.abandon(),
            Holds::Open(guard) => guard.abandon(),
        }
    }
}
