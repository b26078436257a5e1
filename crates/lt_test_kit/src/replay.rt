//! Is a history legal? Its steps are repeated on a fresh plain table and compared.
use lt_entry::Entry;
use lt_ids::{MAX_PASS, Through};
use lt_plain::PlainTable;
use lt_rules::KeyTable;
use std::alloc::Global;

/// Repeats the entry's step on the table, and compares the reply and the lets. None if an allocation fails.
fn is_made_again<T: KeyTable>(alloc: Global, table: &mut T, entry: &Entry) -> Option<bool> {
    let pass = entry.pass();
    if pass < 1 || MAX_PASS < pass {
        return Some(false);
    }
    let mut lets: Vec<Through> = Vec::new(alloc);
    let reply = table
        .step(entry.key(), pass, &entry.call(), &mut lets)
        .ok()?;
    Some(reply == entry.reply() && lets.as_slice() == entry.lets())
}

/// Whether the entries are a legal history of each of their keys: an initially empty plain table gives the same
/// replies and lets. None if an allocation fails.
pub fn is_legal(alloc: Global, entries: &[Entry]) -> Option<bool> {
    let mut table = PlainTable::new(alloc);
    for entry in entries {
        if !is_made_again(alloc, &mut table, entry)? {
            return Some(false);
        }
    }
    Some(true)
}
