//! What does a handle of a shared table hold? The table with the passes that it has still to give out, a pass, or the guard
//! of a request, which has its pass. The table is freed with the last handle that knows it. Read next `ending.rt`.
ghost use Rattle.std.specs.Prelude.{◌≡◌, [], All};
ghost use Rattle.std.specs.Arc.{arc_value};
ghost use Rattle.lt_words.specs.Row.{AreTelling};

use crate::codes::{CLOSED, DONE, MEMORY};
use crate::content::Content;
use crate::held_ending::HeldEnding;
use crate::seated::SeatedTable;
use crate::shared_codes::{BUSY, LOST, enter_code, try_code};
use lt_ids::{Access, Key};
use lt_shard::Answer;
use lt_try::{EnterRefused, Guard, Left, Pass, abandon_all};
use lt_walk::{Terms, into_left, leave_on};
use std::alloc::Global;
use std::sync::Arc;

/// A table, and the passes that no handle has yet.
pub struct HeldShared {
    pub table: Arc<SeatedTable>,
    pub passes: Vec<Pass>,
    pub ghost named: { All (λ p. p.of ≡ (arc_value table).of) passes.items },
    pub ghost telling: { AreTelling passes.items },
}

impl Drop for HeldShared {
    fn drop(self) {
        let HeldShared { table, passes } = self;
        abandon_all(passes);
        drop(table);
    }
}

/// A pass of a table, the accesses that its next request asks for, and the room for the answers of that request.
pub struct HeldPass {
    pub table: Arc<SeatedTable>,
    pub pass: Pass,
    pub wants: Vec<(Key, Access)>,
    pub answers: Vec<Answer>,
    pub ghost of: { pass.of ≡ (arc_value table).of },
}

impl Drop for HeldPass {
    fn drop(self) {
        let HeldPass {
            table,
            pass,
            wants,
            answers,
        } = self;
        pass.abandon();
        drop(answers);
        drop(wants);
        drop(table);
    }
}

/// The guard of a request, and the room for the accesses of the next one.
pub struct HeldGuard {
    pub table: Arc<SeatedTable>,
    pub guard: Guard,
    pub room: Vec<(Key, Access)>,
    pub ghost empty: { room.items ≡ [] },
    pub ghost of: { guard.pass.of ≡ (arc_value table).of },
}

impl Drop for HeldGuard {
    fn drop(self) {
        let HeldGuard { table, guard, room } = self;
        guard.abandon();
        drop(room);
        drop(table);
    }
}

impl HeldShared {
    ghost use Rattle.std.specs.Prelude.{◌≢◌, Some, IfOk, IfErr};
    ghost use Rattle.lt_handles.specs.Ending.{IsEndedUnless};

    /// Takes the table out of the share that the handles have of it, with its passes, if no other handle knows it.
    pub fn alone(self, alloc: Global) -> Result<HeldEnding, (HeldShared, u32)>
        ensures alone { IfOk result (λ ending. ending.table ≡ arc_value self.table) }
        ensures kept { IfErr result (λ e. (e.0 ≡ self) × IsEndedUnless (Some (arc_value self.table)) e.1 × (e.1 ≢ DONE) × (e.1 ≢ LOST)) }
    {
        let many = self.table.shared.passes() + self.passes.len();
        let Ok(room) = Vec::with_capacity(alloc, many) else {
            return Err((self, MEMORY));
        };
        let HeldShared { table, passes } = self;
        match Arc::try_unwrap(table) {
            Ok(SeatedTable { shared, seats }) => {
                let passes = seats.into_passes(passes, room);
                Ok(HeldEnding {
                    table: shared,
                    passes,
                })
            }
            Err(table) => {
                room.destroy_empty();
                Err((HeldShared { table, passes }, BUSY))
            }
        }
    }
}

/// What a request that enters brings, beside the accesses that its pass has named.
#[derive(Clone, Copy)]
pub struct Entering {
    pub alloc: Global,
    pub terms: Terms,
}

impl HeldPass {
    ghost use Rattle.std.specs.Prelude.{◌≢◌, Some, IfErr};
    ghost use Rattle.lt_handles.specs.Shared.{Enters};

    /// Enters the request that the pass's accesses ask for.
    pub fn enter(self, by: &Entering) -> (Content, u32)
        ensures entered { Enters by.now.terms.txn by.now.terms.ts by.now.terms.longest result.1 (Some (Content.Pass self)) (Some result.0) }
        ensures opened { result.1 ≢ CLOSED }
    {
        let HeldPass {
            table,
            pass,
            mut wants,
            answers,
        } = self;
        let left = Left { pass, answers };
        match table
            .shared
            .enter_again(by.alloc, left, by.terms, wants.as_slice())
        {
            Ok(guard) => {
                wants.clear();
                let room = wants;
                (Content::Guard(HeldGuard { table, guard, room }), DONE)
            }
            Err(EnterRefused { pass, error }) => {
                let answers = Vec::new(by.alloc);
                let held = HeldPass {
                    table,
                    pass,
                    wants,
                    answers,
                };
                (Content::Pass(held), enter_code(error))
            }
        }
    }

    /// Leaves the pass in its seat.
    pub fn go_back(self) -> Result<(), HeldPass>
        ensures { IfErr result (λ held. held ≡ self) }
    {
        let HeldPass {
            table,
            pass,
            wants,
            answers,
        } = self;
        match table.seats.leave(pass) {
            Ok(()) => {
                drop(answers);
                drop(wants);
                drop(table);
                Ok(())
            }
            Err(pass) => Err(HeldPass {
                table,
                pass,
                wants,
                answers,
            }),
        }
    }
}

impl HeldGuard {
    ghost use Rattle.std.specs.Prelude.{◌≢◌};
    ghost use Rattle.lt_walk.specs.Reported.{AllLeft, GuardStays, StoppedLeaving};
    ghost use Rattle.lt_try.specs.declared.error.TryError.{TryError};
    ghost use Rattle.lt_try.specs.Refused.{RefusesForOthers};
    ghost use Rattle.lt_handles.specs.SharedCodes.{try_code};

    /// Makes the leave steps of the request that are left. If one is refused, the request stays at its key.
    pub fn leave_keys(&mut self) -> u32
        ensures left { result ≡ DONE → AllLeft self.old.guard self.new.guard.pass self.new.guard.walk.answers }
        ensures refused { result ≢ DONE → (e : TryError) × (result ≡ try_code e) × RefusesForOthers (arc_value self.old.table).of.keeping e }
        ensures stopped { result ≢ DONE → StoppedLeaving self.old.guard self.new.guard }
        ensures stays { GuardStays self.old.guard self.new.guard }
        ensures table { self.new.table ≡ self.old.table }
        ensures opened { result ≢ CLOSED }
    {
        match leave_on(&self.table.shared, &mut self.guard) {
            Ok(()) => DONE,
            Err(error) => try_code(error),
        }
    }

    /// The pass of a request that has left. It names no key yet.
    pub fn into_pass(self) -> HeldPass
        ensures pass { result.pass ≡ self.guard.pass }
        ensures nothing { result.wants.items ≡ [] }
        ensures table { result.table ≡ self.table }
    {
        let HeldGuard { table, guard, room } = self;
        let Left { pass, answers } = into_left(guard);
        HeldPass {
            table,
            pass,
            wants: room,
            answers,
        }
    }
}
