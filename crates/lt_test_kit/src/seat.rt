//! What holds a pass between two commands of a test?
ghost use Rattle.std.specs.Prelude.{◌≡◌, IfSome};
ghost use Rattle.lt_test_kit.specs.Seats.{of_holds};

use crate::holds::Holds;
use lt_table_core::Guard;
use lt_words::{Name, Pass};
use std::marker::PhantomData;

/// A pass of the book that `N` names, either free or inside a guard. Unlike a pass, a seat can be dropped: it then
/// gives up the pass or the guard.
pub struct Seat<N: Name> {
    pub holds: Holds,
    name: PhantomData<N>,
    pub ghost of: { of_holds holds ≡ N.of },
}

impl<N: Name> Drop for Seat<N> {
    fn drop(self) {
        let Seat { holds, name: _ } = self;
        holds.abandon();
    }
}

impl<N: Name> Seat<N> {
    /// A seat with a free pass.
    pub fn free(pass: Pass) -> Self
        requires { pass.of ≡ N.of }
    {
        Seat {
            holds: Holds::Free(pass),
            name: PhantomData,
        }
    }

    /// A seat with a guard.
    pub fn open(guard: Guard) -> Self
        requires { guard.pass.of ≡ N.of }
    {
        Seat {
            holds: Holds::Open(guard),
            name: PhantomData,
        }
    }

    /// Whether the pass is inside a guard.
    pub fn is_open(&self) -> bool {
        match &self.holds {
            Holds::Open(_) => true,
            Holds::Free(_) => false,
        }
    }

    /// The pass or the guard in the seat.
    pub fn into_holds(self) -> Holds
        ensures { of_holds result ≡ N.of }
    {
        let Seat { holds, name: _ } = self;
        holds
    }

    /// The pass, if it is free. Otherwise the guard is given up.
    pub fn into_pass(self) -> Option<Pass>
        ensures { IfSome result (λ pass. pass.of ≡ N.of) }
    {
        match self.into_holds() {
            Holds::Free(pass) => Some(pass),
            Holds::Open(guard) => {
                guard.abandon();
                None
            }
        }
    }

    /// The guard, if the pass is inside one. Otherwise the pass is given up.
    pub fn into_guard(self) -> Option<Guard>
        ensures { IfSome result (λ guard. guard.pass.of ≡ N.of) }
    {
        match self.into_holds() {
            Holds::Open(guard) => Some(guard),
            Holds::Free(pass) => {
                pass.abandon();
                None
            }
        }
    }
}
