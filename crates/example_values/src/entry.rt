//! What does an entry of the log say?
use lt_ids::Key;
use std::marker::Model;

/// The bytes of a value. No code makes one: it exists in the proofs alone.
pub struct ValueBytes {
    bytes: Vec<u8>,
}

impl Model for ValueBytes {
    ghost use Rattle.std.specs.Prelude.{ℕ, List};

    ghost Value = { List ℕ };

    ghost view = { λ v. v.bytes.items };
}

/// The step with this index of this shard freed the lock of this key, and the key then had this value, or none. No code
/// makes one: it exists in the proofs alone.
pub struct LeftValue {
    /// The shard's index.
    pub shard: usize,
    pub key: Key,
    /// The index of the step among those of the shard.
    pub at: u64,
    pub value: Option<ValueBytes>,
}
