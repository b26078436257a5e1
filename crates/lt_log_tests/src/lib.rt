//! Does a book work on real threads? Read [`race`] first: threads draw request numbers and commit steps through
//! one book.
//!
//! [`shard`] makes the steps of a shard and reads the lets that a pass is shown. [`named`] shows how to call a
//! function that is generic over a book's name. [`tests`] has the tests of the book.
#![tactic(auto)]

#[cfg(test)]
mod named;
#[cfg(test)]
mod race;
#[cfg(test)]
mod seat;
#[cfg(test)]
mod shard;
#[cfg(test)]
mod sharding;
#[cfg(test)]
mod tests;
