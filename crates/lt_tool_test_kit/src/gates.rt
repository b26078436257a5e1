//! How do the tests observe and order the lines of a run?
//! [`GateNotes`] notes the calls of a gate and can end a pass. The other gates hold the line of one pass until
//! another pass has come far enough. Read next `scripts`, which runs scripts with them.
ghost use Rattle.std.specs.Prelude.{true};

use lt_tool::Gate;
use std::array;
use std::hint::spin_loop;
use std::sync::atomic::{AtomicBool, AtomicU64, AtomicUsize, Ordering};
use std::thread::yield_now;

/// How many turns a gate holds a line at most.
const TURNS: u32 = 5_000_000;

/// Yields the processor until the flag is set. False if it is not set within `TURNS` turns.
fn is_set_in_time(flag: &AtomicBool) -> bool {
    for _ in 0..TURNS {
        if flag.load(Ordering::SeqCst) {
            return true;
        }
        yield_now();
    }
    false
}

/// Spins for `TURNS` turns, unless the flag is set before. It does not yield the processor, so that it takes as
/// long on a busy one.
fn linger(flag: &AtomicBool) {
    for _ in 0..TURNS {
        if flag.load(Ordering::SeqCst) {
            return;
        }
        spin_loop();
    }
}

/// Notes each call of the gate, and answers false before the line `refused`. A note has three digits: the pass,
/// the line, and 0 for the call before the line or 1 for the call after it.
#[derive(Drop)]
pub struct GateNotes {
    refused: usize,
    count: AtomicUsize,
    notes: [AtomicU64; 16],
}

impl GateNotes {
    pub fn new(refused: usize) -> Self {
        GateNotes {
            refused,
            count: AtomicUsize::new(0),
            notes: array::from_fn(|_place: usize| AtomicU64::new(0)),
        }
    }

    fn note(&self, pass: u32, line: usize, is_told: bool) {
        let index = self.count.fetch_add(1, Ordering::SeqCst);
        let digits = u64::from(pass)
            .wrapping_mul(100)
            .wrapping_add((line as u64).wrapping_mul(10))
            .wrapping_add(u64::from(is_told));
        if let Some(note) = self.notes.get(index) {
            note.store(digits, Ordering::SeqCst);
        }
    }

    /// Whether the notes of the pass, or of all passes if none is named, are these, in order.
    pub fn are(&self, pass: Option<u64>, expected: &[u64]) -> bool {
        let mut rest = expected;
        for note in &self.notes {
            let digits = note.load(Ordering::SeqCst);
            if digits != 0 && (pass.is_none() || pass == Some(digits / 100)) {
                match rest.split_first() {
                    Some((first, others)) if *first == digits => rest = others,
                    _ => return false,
                }
            }
        }
        rest.is_empty()
    }
}

impl Gate for GateNotes {
    ghost use Rattle.std.specs.Prelude.{◌==◌, if◌then◌else◌, not};

    ghost may_answer = { λ notes _ line answer. if line == notes.refused then not answer else answer };

    fn before(&self, pass: u32, line: usize) -> bool {
        self.note(pass, line, false);
        line != self.refused
    }

    fn after(&self, pass: u32, line: usize) {
        self.note(pass, line, true);
    }
}

/// Holds line 1 until line 4 is answered, and line 4 until the gate was asked for line 1. Answers false if it held
/// a line too long.
#[derive(Drop)]
pub struct Crossed {
    asked: AtomicBool,
    answered: AtomicBool,
}

impl Crossed {
    pub fn new() -> Self {
        Crossed {
            asked: AtomicBool::new(false),
            answered: AtomicBool::new(false),
        }
    }
}

impl Gate for Crossed {
    ghost may_answer = { λ _ _ _ _. true };

    fn before(&self, _pass: u32, line: usize) -> bool {
        match line {
            1 => {
                self.asked.store(true, Ordering::SeqCst);
                is_set_in_time(&self.answered)
            }
            4 => is_set_in_time(&self.asked),
            _ => true,
        }
    }

    fn after(&self, _pass: u32, line: usize) {
        if line == 4 {
            self.answered.store(true, Ordering::SeqCst);
        }
    }
}

/// Holds each line until the line before it is answered, so that passes on threads take turns as without threads.
/// Answers false if it held a line too long.
#[derive(Drop)]
pub struct Between {
    answered: AtomicUsize,
}

impl Between {
    pub fn new() -> Self {
        Between {
            answered: AtomicUsize::new(0),
        }
    }
}

impl Gate for Between {
    ghost may_answer = { λ _ _ _ _. true };

    fn before(&self, _pass: u32, line: usize) -> bool {
        for _ in 0..TURNS {
            if self.answered.load(Ordering::SeqCst).wrapping_add(1) >= line {
                return true;
            }
            yield_now();
        }
        false
    }

    fn after(&self, _pass: u32, line: usize) {
        self.answered.store(line, Ordering::SeqCst);
    }
}

/// Holds line 1 until the gate is told of line 2, and the pass that tells it until the gate is asked for line 3.
/// So line 2 takes effect first if the gate is told of a line only once it is answered, and last otherwise.
/// Answers false if it held line 1 too long.
#[derive(Drop)]
pub struct GateTold {
    told: AtomicBool,
    asked: AtomicBool,
}

impl GateTold {
    pub fn new() -> Self {
        GateTold {
            told: AtomicBool::new(false),
            asked: AtomicBool::new(false),
        }
    }
}

impl Gate for GateTold {
    ghost may_answer = { λ _ _ _ _. true };

    fn before(&self, _pass: u32, line: usize) -> bool {
        match line {
            1 => is_set_in_time(&self.told),
            3 => {
                self.asked.store(true, Ordering::SeqCst);
                true
            }
            _ => true,
        }
    }

    fn after(&self, _pass: u32, line: usize) {
        if line == 2 {
            self.told.store(true, Ordering::SeqCst);
            let _is_asked = is_set_in_time(&self.asked);
        }
    }
}

/// Holds line 3 until line 1 is answered. Holds line 5 until the gate was asked for line 4, and then for many
/// turns more unless line 4 is answered before. Answers false if it held a line too long.
#[derive(Drop)]
pub struct Late {
    first: AtomicBool,
    asked: AtomicBool,
    answered: AtomicBool,
}

impl Late {
    pub fn new() -> Self {
        Late {
            first: AtomicBool::new(false),
            asked: AtomicBool::new(false),
            answered: AtomicBool::new(false),
        }
    }
}

impl Gate for Late {
    ghost may_answer = { λ _ _ _ _. true };

    fn before(&self, _pass: u32, line: usize) -> bool {
        match line {
            3 => is_set_in_time(&self.first),
            4 => {
                self.asked.store(true, Ordering::SeqCst);
                true
            }
            5 => {
                let is_asked = is_set_in_time(&self.asked);
                linger(&self.answered);
                is_asked
            }
            _ => true,
        }
    }

    fn after(&self, _pass: u32, line: usize) {
        match line {
            1 => self.first.store(true, Ordering::SeqCst),
            4 => self.answered.store(true, Ordering::SeqCst),
            _ => (),
        }
    }
}
