//! The limits of the numbers and of the lengths that callers choose. Code, contracts and messages use these names.

/// The most bytes of a key.
pub const MAX_KEY_BYTES: usize = 64;

/// The greatest number of a request, 2^40 - 1. A table takes at most so many requests.
pub const MAX_REQUEST: u64 = 1099511627775;

/// The greatest number of a wait of a request, 2^24 - 1. A request begins at most so many waits.
pub const MAX_WAIT: u32 = 16777215;

/// The greatest number of a pass. A table has at most so many passes.
pub const MAX_PASS: u32 = 1024;

/// The most steps that a shard of a table may hold, 2^32.
pub const MAX_STEPS: u64 = 4294967296;

/// The most shards of a table.
pub const MAX_SHARDS: usize = 64;
