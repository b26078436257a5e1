ghost use Rattle.std.specs.Prelude.{◌≡◌};

use lt_ids::{Through, Ticket};
use std::marker::Model;

/// Called for each let, for stores whose callers do not sleep: an executor or an event loop that serves many
/// requests with few threads. The code that opens a table passes in its waker; `()` is the waker that does nothing.
///
/// A caller first registers its interest in a pass, then polls, and then turns to other work. A let that comes
/// after the poll finds the caller registered; the poll sees a let that came before.
pub trait Waker {
    /// The request that waits through this pass with this ticket was let through. The thread whose call let the
    /// request through calls this, once for each let: after the let was shown to the pass, so that a poll sees it;
    /// with no lock of the table held; and before that thread's own call returns.
    ///
    /// It gets no handle to wait with, so it cannot block: it may set an atomic word, write to a pipe or wake a
    /// thread. By the time it runs, the request may have been polled, have scanned again or have left.
    fn wake(&self, pass: u32, ticket: Ticket);
}

impl Waker for () {
    fn wake(&self, _pass: u32, _ticket: Ticket) {}
}

/// A let that was shown, and for which the waker is still to be called. Such a value cannot be dropped: it is handed to the
/// waker, or its pass calls none.
pub(crate) struct OwedLet {
    through: Through,
}

impl Model for OwedLet {
    ghost use Rattle.lt_ids.specs.declared.ticket.Through.{Through};

    ghost Value = { Through };

    ghost view = { λ o. o.through };
}

impl OwedLet {
    /// For a let that was shown to the pass that waits.
    pub fn of(through: Through) -> OwedLet
        ensures { result ≡ through }
    {
        OwedLet { through }
    }

    /// The number of the pass that waits.
    pub fn pass(&self) -> u32
        ensures { result ≡ self.now.pass }
    {
        self.through.pass
    }

    /// The let.
    pub fn through(&self) -> &Through
        ensures { result.now ≡ self.now }
    {
        &self.through
    }

    /// Calls the waker.
    pub fn hand_to<W: Waker>(self, waker: &W) {
        let OwedLet { through } = self;
        waker.wake(through.pass, through.ticket);
    }

    /// Its pass is given up, or calls no waker.
    pub fn end(self) {
        let OwedLet { through: _ } = self;
    }
}
