ghost use Rattle.std.specs.Prelude.{◌≡◌, ◌<◌, ◌≤◌};
ghost use Rattle.lt_words.specs.History.{shard_of};

use lt_ids::Key;

/// The shard of a key, from 0: the sum of the key's bytes modulo the number of shards.
pub fn shard_of(key: &Key, shards: usize) -> usize
    requires { 0 < shards }
    ensures shard { result ≡ shard_of key.now shards }
    ensures below { result < shards }
{
    if shards == 1 {
        return 0;
    }
    usize::from(key.byte_sum()) % shards
}
