//! How does a table give a part of its keys, when its rows are in no order? One pass over the rows keeps the least keys
//! that come after a given one, in byte order. It never keeps more than were asked for, and one more while it puts a
//! key in its place.
ghost use Rattle.std.specs.Prelude.{◌≡◌, ◌≤◌, [], ◌∷◌, IfOk, OnOk, IsTrue, length, take, filter};
ghost use Rattle.std.specs.Ordering.{nat_cmp};
ghost use Rattle.std.specs.Cmp.Lexicographic.{slice_cmp};
ghost use Rattle.std.specs.Option.{option_copied};
ghost use Rattle.std.specs.BTreeSet.{insert_key};
ghost use Rattle.lt_rules.specs.Table.{comes_after, keys_after};
ghost use Rattle.lt_lock.specs.Linked.{records_of};

use crate::row_table::Rows;
use lt_ids::Key;
use lt_links::Links;
use lt_rules::comes_after;
use std::alloc::{AllocError, Global};
use std::collections::BTreeSet;

/// Whether this key has no place among the `at_most` least: as many are kept already, and none of them comes after it.
fn has_no_place(least: &BTreeSet<Key>, key: &Key, at_most: usize) -> bool
    requires { length least.now.keys ≤ at_most }
    ensures { IsTrue result → take at_most (insert_key (slice_cmp nat_cmp) least.now.keys key.now) ≡ least.now.keys }
{
    if least.len() < at_most {
        return false;
    }
    match least.last() {
        None => true,
        Some(last) => *last <= *key,
    }
}

/// Puts a copy of the key in its place, if it is one of the `at_most` least. Then the greatest may have to go.
pub(crate) fn put_least(
    least: &mut BTreeSet<Key>,
    key: &Key,
    at_most: usize,
) -> Result<(), AllocError>
    requires { length least.old.keys ≤ at_most }
    ensures { OnOk result (least.new.keys ≡ take at_most (insert_key (slice_cmp nat_cmp) least.old.keys key.now)) }
{
    if has_no_place(least, key, at_most) {
        return Ok(());
    }
    least.insert(key.copy()?)?;
    if least.len() > at_most {
        least.pop_last();
    }
    Ok(())
}

/// The first keys that have a row and come after the key `after`: at most `at_most`.
pub(crate) fn least_keys(
    links: &Links,
    rows: &Rows,
    alloc: Global,
    after: Option<&Key>,
    at_most: usize,
) -> Result<BTreeSet<Key>, AllocError>
    ensures { IfOk result (λ least. least.keys ≡ keys_after (records_of links.now rows.now) (option_copied after.entry) at_most) }
{
    let mut least = BTreeSet::new(alloc);
    for key in rows.keys() {
        if comes_after(after, key) {
            put_least(&mut least, key, at_most)?;
        }
    }
    Ok(least)
}

/// The keys as a list.
pub(crate) fn listed(alloc: Global, keys: BTreeSet<Key>) -> Result<Vec<Key>, AllocError>
    ensures { IfOk result (λ all. all.items ≡ keys.keys) }
{
    let mut all = Vec::with_capacity(alloc, keys.len())?;
    for key in keys {
        all.push(key)?;
    }
    Ok(all)
}

/// The first keys that have a row and come after the key `after`: at most `at_most`, in byte order.
pub(crate) fn keys_after(
    links: &Links,
    rows: &Rows,
    alloc: Global,
    after: Option<&Key>,
    at_most: usize,
) -> Result<Vec<Key>, AllocError>
    ensures { IfOk result (λ all. all.items ≡ keys_after (records_of links.now rows.now) (option_copied after.entry) at_most) }
{
    listed(alloc, least_keys(links, rows, alloc, after, at_most)?)
}

/// The list of this key alone, if it comes after the key `after` and a key is asked for.
pub(crate) fn one_key_after(
    alloc: Global,
    key: &Key,
    after: Option<&Key>,
    at_most: usize,
) -> Result<Vec<Key>, AllocError>
    ensures { IfOk result (λ all. all.items ≡ take at_most (filter (comes_after (option_copied after.entry)) (key.now ∷ []))) }
{
    let mut all = Vec::new(alloc);
    if at_most != 0 && comes_after(after, key) {
        all.push(key.copy()?)?;
    }
    Ok(all)
}
