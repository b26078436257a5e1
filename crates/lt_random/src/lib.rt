//! Pseudorandom numbers, the same in each run, for tests and for `lockbench`.
#![tactic(auto)]

mod random;

pub use random::Random;
