//! Where a caller sleeps until it is let through or interrupted, and why no wake-up is lost.
ghost use Rattle.std.specs.Prelude.{◌≡◌, IfSome};

use std::sync::Wait;
use std::sync::atomic::{AtomicU64, Ordering};
use std::time::Duration;

/// The caller is awake.
const AWAKE: u64 = 0;

/// The caller sleeps, or is about to.
const ASLEEP: u64 = 1;

/// Somebody interrupted the caller, and it has not noticed yet.
const INTERRUPTED: u64 = 2;

/// Where the caller of one pass sleeps: one atomic word. No call allocates.
///
/// The caller announces that it will sleep, checks once more whether it still has to wait, and then sleeps. A
/// thread that ends the wait first shows the let, and then checks whether the caller has announced its sleep. One
/// of the two sees the other, so no wake-up is lost. A wake-up may also come for no reason, so the caller checks
/// again after each one.
///
/// An interrupt stays in the word until its caller takes it. So it ends the sleep that it finds, or the next one.
#[derive(Drop)]
pub(crate) struct Parking {
    state: AtomicU64,
}

/// A caller announced that it will sleep. Before it may, it has to look once more whether it still has to wait
/// ([`Book::look_again`](crate::Book::look_again)). Such a value cannot be dropped.
pub struct Announced {
    _announced: (),
}

/// A caller announced that it will sleep, and has looked once more. Now it either sleeps or takes the announcement back.
/// Such a value cannot be dropped.
pub struct LookedAgain {
    _looked: (),
}

/// A caller was found asleep, or about to sleep. Somebody has to wake it. Such a value cannot be dropped.
pub(crate) struct Sleeper {
    pass: u32,
}

impl Sleeper {
    /// The number of its pass.
    pub fn into_pass(self) -> u32
        ensures { result ≡ self.pass }
    {
        let Sleeper { pass } = self;
        pass
    }
}

impl Announced {
    pub(crate) fn new() -> Announced {
        Announced { _announced: () }
    }

    pub(crate) fn looked(self) -> LookedAgain {
        let Announced { _announced } = self;
        LookedAgain { _looked: () }
    }
}

impl LookedAgain {
    pub(crate) fn end(self) {
        let LookedAgain { _looked } = self;
    }
}

impl Parking {
    pub fn new() -> Parking {
        Parking {
            state: AtomicU64::new(AWAKE),
        }
    }

    /// Writes `new` if the word is `old`, and says whether it was.
    fn change(&self, old: u64, new: u64) -> bool {
        self.state
            .compare_exchange(old, new, Ordering::SeqCst, Ordering::SeqCst)
            .is_ok()
    }

    /// Announces that the caller is about to sleep, unless it was interrupted: then it will not sleep.
    pub fn prepare(&self) {
        self.change(AWAKE, ASLEEP);
    }

    /// Takes the announcement back: the caller does not sleep after all.
    pub fn cancel(&self) {
        self.change(ASLEEP, AWAKE);
    }

    /// Sleeps until woken. Returns at once if the caller was woken or interrupted since `prepare`.
    pub fn sleep<R: Wait>(&self, rt: &R) {
        self.state.park(rt, ASLEEP as u32);
    }

    /// `sleep`, for at most `time`.
    pub fn sleep_for<R: Wait>(&self, rt: &R, time: Duration) {
        self.state.park_timeout(rt, ASLEEP as u32, time);
    }

    /// The caller of the pass with this number, which this parking is of, if it sleeps or is about to.
    pub fn sleeper(&self, pass: u32) -> Option<Sleeper>
        ensures { IfSome result (λ s. s.pass ≡ pass) }
    {
        if self.state.load(Ordering::SeqCst) == ASLEEP {
            Some(Sleeper { pass })
        } else {
            None
        }
    }

    /// Wakes the caller if it sleeps or is about to.
    pub fn wake(&self) {
        if self.change(ASLEEP, AWAKE) {
            self.state.wake_one();
        }
    }

    /// Ends the caller's sleep, or its next one.
    pub fn interrupt(&self) {
        if self.state.swap(INTERRUPTED, Ordering::SeqCst) == ASLEEP {
            self.state.wake_one();
        }
    }

    /// Whether the caller was interrupted. The interrupt is then over.
    pub fn take_interrupt(&self) -> bool {
        self.change(INTERRUPTED, AWAKE)
    }
}
