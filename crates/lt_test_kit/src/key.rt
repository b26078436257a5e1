//! Which key does a byte name in a test?
use lt_ids::Key;
use std::alloc::Global;

/// The length in bytes of the key that this byte names. A capital letter names a key of 61 copies of it, which is
/// too long to be stored without an allocation. Any other byte names the key of that single byte.
pub fn key_length(byte: u8) -> usize {
    if byte.is_ascii_uppercase() { 61 } else { 1 }
}

/// The key that this byte names. None if a key cannot contain the byte, or an allocation fails.
pub fn key_of(alloc: Global, byte: u8) -> Option<Key> {
    let bytes = [byte; 61];
    if byte.is_ascii_uppercase() {
        Key::from_bytes(alloc, bytes.as_slice()).ok()
    } else {
        Key::from_bytes(alloc, &[byte]).ok()
    }
}
