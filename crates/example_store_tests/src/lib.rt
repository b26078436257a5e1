//! Does the store keep what was committed, and nothing else? [`turns`] plays calls of two sessions in turn. [`waits`] has two
//! threads, one of which waits for the other or gives way to it.
#![tactic(auto)]

#[cfg(test)]
mod turns;
#[cfg(test)]
mod waits;
