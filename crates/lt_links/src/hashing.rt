//! How are the keys of a hash map hashed, be they the keys of a table or numbers? By the kit's hasher, from a start that each table has for itself. So whoever
//! chooses the keys does not know which of them meet, unless he knows the start. The hash is not cryptographic.
ghost use Rattle.std.specs.Prelude.{◌≡◌};

use std::hash::{BuildHasher, FoldHasher, Hasher};

/// Makes the hasher for each key: one that has read the table's start.
#[derive(Clone, Copy)]
pub struct KeyHashing {
    first: FoldHasher,
}

impl KeyHashing {
    /// The hashing of a table that has this start.
    pub fn new(start: u64) -> Self {
        let mut first = FoldHasher::default();
        first.write_u64(start);
        KeyHashing { first }
    }
}

impl BuildHasher for KeyHashing {
    type Hasher = FoldHasher;

    ghost build_hasher = { λ hashing. hashing.first };

    #[inline(always)]
    fn build_hasher(&self) -> FoldHasher {
        self.first
    }
}
