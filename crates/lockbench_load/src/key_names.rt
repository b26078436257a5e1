//! What are the names of a load's keys? A letter and a number. [`keys_of`] makes the keys that the rounds draw from;
//! [`key_of`] makes one key.
//!
//! If the load says how many bytes each key has, zeros stand between the letter and the number: `k0000007`. Otherwise
//! a key is as short as its number: `k7`. Read [`crate::holding`] for the keys of the letter `h`.
use crate::load::Load;
use lt_ids::Key;
use std::alloc::Global;

/// The least number of digits after the letter of each key.
fn digits_of(load: &Load) -> usize {
    match load.key_bytes {
        Some(bytes) => (bytes as usize).saturating_sub(1),
        None => 0,
    }
}

/// The key of this letter and number. None if an allocation fails.
pub fn key_of(alloc: Global, letter: char, index: u64, load: &Load) -> Option<Key> {
    let digits = digits_of(load);
    let name = format!(in alloc; "{letter}{index:0digits$}").ok()?;
    Key::from_bytes(alloc, name.as_bytes()).ok()
}

/// The keys of the rounds: those of the letter `k` and the numbers from 0. None if an allocation fails.
pub fn keys_of(alloc: Global, load: &Load) -> Option<Vec<Key>> {
    let mut list = Vec::new(alloc);
    for index in 0..load.keys as u64 {
        list.push(key_of(alloc, 'k', index, load)?).ok()?;
    }
    Some(list)
}
