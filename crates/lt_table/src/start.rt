//! From where are the keys of a table hashed?
use std::io;
use std::random::RandomSource;

/// A start that nobody can guess, from the system: for [`open`](crate::open), for each table anew. It fails only if the
/// system gives no random bytes.
pub fn random_start(rt: &impl RandomSource) -> io::Result<u64> {
    let mut bytes = [0; 8];
    rt.fill_bytes(&mut bytes)?;
    Ok(u64::from_le_bytes(bytes))
}
