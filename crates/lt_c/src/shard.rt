//! Which shard has a key, if a store spreads its keys over tables? A store in C can have one table per shard, each
//! behind a lock of its own.
ghost use Rattle.std.specs.Prelude.{◌≡◌, ◌≤◌, ◌<◌, length};
ghost use Rattle.lt_handles.specs.Shard.{shard_of_bytes};

use lt_ids::MAX_KEY_BYTES;

/// The shard of a key, from 0: the sum of its bytes modulo the number of shards. It is 0 if the bytes are more than
/// 64, which no key has, and if the number of shards is 0.
#[unsafe(no_mangle)]
pub extern "C" fn lt_shard_of(key: &[u8], shards: usize) -> usize
    ensures shard { length key.now ≤ MAX_KEY_BYTES → 0 < shards → result ≡ shard_of_bytes key.now shards }
    ensures below { 0 < shards → result < shards }
{
    if key.len() > MAX_KEY_BYTES || shards == 0 {
        return 0;
    }
    let mut total = 0;
    for byte in key {
        total += usize::from(*byte);
    }
    total % shards
}
