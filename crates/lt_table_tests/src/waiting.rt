//! Do callers that sleep wake up when they are let through, or when their time is up?
//!
//! [`queue_player`] has threads wait at one key that is held: they sleep, and take their turns once it comes free.
//! [`timed_player`] has a wait that ends at a time. In [`handing_player`] two threads take turns at one lock. In
//! [`waking_player`] a waker notes each let. [`tests`] has the tests.
//!
//! Threads get their passes in two ways: [`queue_player`] moves them in seats, and [`lent_player`] lends them.

mod handing_player;
mod lent_player;
mod queue_player;
mod tests;
mod timed_player;
mod waking_player;
