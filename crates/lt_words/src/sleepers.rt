//! Whom does a pass have to wake once it holds no lock? A set of passes, with one bit for each pass that a book may have.
ghost use Rattle.std.specs.Prelude.{◌≡◌, ◌≤◌, ◌↔◌, IsTrue};
ghost use Rattle.lt_ids.specs.declared.limits.TheConstants.{MAX_PASS};

use crate::parking::Sleeper;

/// How many words have a bit for each pass, from 0 to 1,024. No pass has number 0.
const WORDS: usize = 17;

/// A set of passes. It takes no memory to add one.
#[derive(Drop)]
pub(crate) struct Sleepers {
    words: [u64; WORDS],
    /// How many passes were added since the set was empty. At 2^32 - 1 it stays.
    pub many: u32,
}

impl Sleepers {
    pub fn none() -> Sleepers
        ensures { result.many ≡ 0 }
    {
        Sleepers {
            words: [0; WORDS],
            many: 0,
        }
    }

    pub fn is_empty(&self) -> bool
        ensures { IsTrue result ↔ (self.now.many ≡ 0) }
    {
        self.many == 0
    }

    /// Adds the pass of a caller that sleeps. There is none above 1,024.
    pub fn add(&mut self, sleeper: Sleeper)
        ensures more { self.old.many ≤ self.new.many }
    {
        let pass = sleeper.into_pass();
        if let Some(word) = self.words.get_mut(pass as usize / 64) {
            *word |= 1_u64 << (pass % 64);
            self.many = self.many.saturating_add(1);
        }
    }

    /// Calls `wake` with each pass in the set, in order, and empties the set.
    pub fn take_each<F: Fn(u32)>(&mut self, wake: F)
        requires { F.IsAlwaysCallable wake }
        ensures { self.new.many ≡ 0 }
    {
        for i in 0..WORDS {
            let mut left = self.words[i];
            self.words[i] = 0;
            for _ in 0..left.count_ones() {
                let bit = left.trailing_zeros();
                wake(i as u32 * 64 + bit);
                left &= left.wrapping_sub(1);
            }
        }
        self.many = 0;
    }
}
