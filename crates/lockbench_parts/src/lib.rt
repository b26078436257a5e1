//! What the jobs of `lockbench` have in common. [`taking`] takes the steps of a streamed table while others are made,
//! [`closing`] closes a table, and [`spent`] measures and prints times. `lockbench_load`, `lockbench_hand_over` and
//! `lockbench_soak` have a job each.
#![tactic(auto)]

pub mod answers;
pub mod closing;
pub mod keeping;
pub mod spent;
pub mod taking;
