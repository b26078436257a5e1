//! How is a table ended that no other handle knows? With its passes, which are all back. If there is no memory for its end, the
//! handle holds it so until the next try.
ghost use Rattle.std.specs.Prelude.{◌≡◌, All};

use crate::codes::DONE;
use crate::content::Content;
use crate::seated::SharedTable;
use crate::shapes::LtEnd;
use crate::shared_codes::{LOST, close_code};
use lt_try::{CloseError, Pass, TryCloseRefused, abandon_all, abandon_guards};
use std::alloc::Global;

/// A table that no other handle knows, with its passes.
pub struct HeldEnding {
    pub table: SharedTable,
    pub passes: Vec<Pass>,
    pub ghost named: { All (λ p. p.of ≡ table.of) passes.items },
}

impl Drop for HeldEnding {
    fn drop(self) {
        let HeldEnding { table, passes } = self;
        abandon_all(passes);
        drop(table);
    }
}

/// What an end that was refused tells.
pub fn told(error: CloseError) -> LtEnd {
    let none = LtEnd {
        draws: 0,
        passes_out: 0,
        shard: 0,
    };
    match error {
        CloseError::PassesOut(missing) => LtEnd {
            passes_out: missing,
            ..none
        },
        CloseError::Counts(shard) => LtEnd { shard, ..none },
        CloseError::Memory => none,
    }
}

impl HeldEnding {
    ghost use Rattle.std.specs.Prelude.{◌≢◌, Some};
    ghost use Rattle.lt_handles.specs.Ending.{EndsHere, IsEndedUnless, StaysOpen};

    /// Ends the table.
    pub fn end(self, alloc: Global, out: &mut LtEnd) -> (Content, u32)
        ensures ended { result.1 ≡ DONE → EndsHere (Some self.table) (Some result.0) out.new.draws }
        ensures refused { IsEndedUnless (Some self.table) result.1 }
        ensures kept { result.1 ≢ DONE → result.1 ≢ LOST → StaysOpen (Some (Content.Ending self)) (Some result.0) }
        ensures lost { result.1 ≡ LOST → result.0 ≡ Content.Nothing }
    {
        let HeldEnding { table, passes } = self;
        match table.close_rest(alloc, passes, Vec::new(alloc)) {
            Ok(Ok(rests)) => {
                *out = LtEnd {
                    draws: rests.draws,
                    passes_out: 0,
                    shard: 0,
                };
                (Content::Ended(rests), DONE)
            }
            Ok(Err(refused)) => {
                let TryCloseRefused {
                    table,
                    passes,
                    guards,
                    error,
                } = refused;
                abandon_guards(guards);
                *out = told(error);
                (
                    Content::Ending(HeldEnding { table, passes }),
                    close_code(error),
                )
            }
            Err(_) => (Content::Nothing, LOST),
        }
    }
}
