//! The hand-over of `lockbench`: [`report`] times how a lock goes from transaction to transaction while requests wait for
//! it.
#![tactic(auto)]

mod hand_over;

pub use hand_over::{HandOver, report};
