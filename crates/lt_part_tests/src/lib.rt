//! Which parts of a shard's locked keys does a table give? [`parts`] asks for them part by part.
#![tactic(auto)]

#[cfg(test)]
mod parts;
