//! How much memory does the process use?
use std::alloc::Alloc;
use std::fs::{Files, read_to_string};

/// The size of a memory page, in KiB.
const PAGE: u64 = 4;

/// The resident memory of the process, in KiB. None if the system does not report it.
pub fn resident<R: Files + Alloc>(rt: &R) -> Option<u64> {
    let text = read_to_string(rt, "/proc/self/statm").ok()?;
    let pages = text.split(' ').nth(1)?.parse::<u64>().ok()?;
    Some(pages.saturating_mul(PAGE))
}
