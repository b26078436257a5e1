//! What do the calls of a table answer while its key table stops, or if it fails? Here a stub stands for the key table.
//!
//! Read [`beside`] first: it has three runs in which a thread is inside a shard. A call at another shard still works,
//! and a poll of a request that waits in the same shard. While a waker is called for a let, a call at the shard of that
//! let works too. [`watched::Watched`] is a key table whose acquire of one key stops, while it holds the shard's lock,
//! until another thread sets a flag ([`flag`]). That thread sets the flag only after its own call has returned. So if
//! that call had to wait for the lock, the test fails.
//!
//! [`scarce::Scarce`] is a key table in which one call runs out of memory. [`out_of_memory`] checks the answers that
//! the callers get.
#![tactic(auto)]

#[cfg(test)]
mod beside;
#[cfg(test)]
mod flag;
#[cfg(test)]
mod out_of_memory;
#[cfg(test)]
mod scarce;
#[cfg(test)]
mod tests;
#[cfg(test)]
mod watched;
