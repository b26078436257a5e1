//! To which shard does a key belong?
use lt_ids::Key;
use lt_words::shard_of;
use std::alloc::Global;

/// The index of the key's shard if there are 1, 2, 11 and 64 shards. None if the bytes are no key, or an
/// allocation fails.
pub fn shards_of(alloc: Global, bytes: &[u8]) -> Option<(usize, usize, usize, usize)> {
    let key = Key::from_bytes(alloc, bytes).ok()?;
    Some((
        shard_of(&key, 1),
        shard_of(&key, 2),
        shard_of(&key, 11),
        shard_of(&key, 64),
    ))
}
