//! Does a transaction find what the one before it left? [`commits`] plays transactions on a table with cells.
#![tactic(auto)]

#[cfg(test)]
mod commits;
