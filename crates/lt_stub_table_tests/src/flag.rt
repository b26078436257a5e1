//! How does a thread wait for another one in these tests? It spins on a flag, for a bounded number of turns.
use std::hint::spin_loop;
use std::sync::atomic::{AtomicBool, Ordering};

/// The most turns that a wait spins, so that a test whose flag is never set fails and does not hang.
const TURNS: u32 = 100_000_000;

/// A flag that one thread sets and another waits for.
#[derive(Drop)]
pub struct Flag {
    set: AtomicBool,
}

impl Flag {
    /// A flag that is not set yet.
    pub fn new() -> Self {
        Flag {
            set: AtomicBool::new(false),
        }
    }

    pub fn set(&self) {
        self.set.store(true, Ordering::SeqCst);
    }

    pub fn is_set(&self) -> bool {
        self.set.load(Ordering::SeqCst)
    }

    /// Spins until the flag is set. False if it is not set within 100,000,000 turns.
    pub fn wait(&self) -> bool {
        for _ in 0..TURNS {
            if self.is_set() {
                return true;
            }
            spin_loop();
        }
        false
    }
}
