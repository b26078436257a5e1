//! Which keys does a request visit, and in which order? `IsKeyList` in `specs/Keys.antt` is the definition, and
//! `key_list` below computes it: for one or two accesses without a sort. Read next `src/entering.rt`.
ghost use Rattle.std.specs.Prelude.{◌≡◌, ◌≢◌, ◌≤◌, ◌<◌, ◌↔◌, ◌++◌, ◌∷◌, [], map, length, IfOk, Contains, IsTrue};
ghost use Rattle.std.specs.List.Sorted.{IsStrictlySortedBy};
ghost use Rattle.std.specs.Cmp.Lexicographic.{slice_cmp};
ghost use Rattle.std.specs.Ordering.{nat_cmp};
ghost use Rattle.lt_walk.specs.Keys.{AreTheKeys, IsKeyList, IsOnlyRead, IsReadOnlyKey, Among, either_access, is_first_of_two};

use lt_ids::{Access, Key};
use std::alloc::{AllocError, Global};
use std::cmp::Ordering;
use thiserror::Error;

/// Why a request did not enter.
#[derive(Clone, Copy, Debug, PartialEq, Eq, Drop, Error)]
pub enum EnterError {
    /// The request names no key.
    #[error("a request names at least one key")]
    NoKeys,
    /// The request names more than 256 accesses. A key that is named twice counts twice.
    #[error("a request names at most 256 accesses")]
    TooManyKeys,
    /// An allocation failed, for the key list or for the answers of scans.
    #[error("out of memory")]
    Memory,
    /// As many requests have entered as the table takes: all numbers are drawn.
    #[error("all numbers are drawn")]
    NumbersOut,
}

impl From<AllocError> for EnterError {
    ghost use Rattle.lt_walk.specs.declared.keys.EnterError.TheVariants.{Memory};

    ghost from_gives = { λ _ e. e ≡ Memory };

    fn from(_: AllocError) -> EnterError {
        EnterError::Memory
    }
}

/// Sorts the keys in byte order and removes repeats.
fn distinct(mut keys: Vec<Key>) -> Result<Vec<Key>, AllocError>
    ensures { IfOk result (λ sorted. AreTheKeys sorted.items (Among keys.items)) }
{
    keys.sort()?;
    keys.dedup();
    Ok(keys)
}

/// The keys that some access writes.
fn written(alloc: Global, accesses: &[(Key, Access)]) -> Result<Vec<Key>, AllocError>
    ensures { IfOk result (λ keys. AreTheKeys keys.items (λ k. Contains accesses.now (k, Access.Write))) }
{
    let mut keys = Vec::new(alloc);
    for (key, access) in accesses {
        if *access == Access::Write {
            keys.push(key.copy()?)?;
        }
    }
    distinct(keys)
}

/// Whether the key is among these, which are sorted.
fn is_among(keys: &[Key], key: &Key) -> bool
    requires { IsStrictlySortedBy (slice_cmp nat_cmp) keys.now }
    ensures { IsTrue result ↔ Contains keys.now key.now }
{
    keys.binary_search(key).is_ok()
}

/// Whether the access reads and the key is not among those to write.
fn is_only_read(writes: &[Key], key: &Key, access: Access) -> bool
    requires { IsStrictlySortedBy (slice_cmp nat_cmp) writes.now }
    ensures { IsTrue result ↔ IsOnlyRead writes.now key.now access }
{
    access == Access::Read && !is_among(writes, key)
}

/// The keys that accesses only read.
fn only_read(
    alloc: Global,
    accesses: &[(Key, Access)],
    writes: &[Key],
) -> Result<Vec<Key>, AllocError>
    requires { AreTheKeys writes.now (λ k. Contains accesses.now (k, Access.Write)) }
    ensures { IfOk result (λ keys. AreTheKeys keys.items (IsReadOnlyKey accesses.now)) }
{
    let mut keys = Vec::new(alloc);
    for (key, access) in accesses {
        if is_only_read(writes, key, *access) {
            keys.push(key.copy()?)?;
        }
    }
    distinct(keys)
}

/// Appends the keys, each with this access.
fn add_all(list: &mut Vec<(Key, Access)>, keys: Vec<Key>, access: Access) -> Result<(), AllocError>
    ensures { IfOk result (λ _. list.new.items ≡ list.old.items ++ map (λ k. (k, access)) keys.items) }
{
    for key in keys {
        list.push((key, access))?;
    }
    Ok(())
}

/// The key list, by a sort. It serves any number of accesses.
fn many_keys(
    alloc: Global,
    mut list: Vec<(Key, Access)>,
    accesses: &[(Key, Access)],
) -> Result<Vec<(Key, Access)>, AllocError>
    requires { list.items ≡ [] }
    ensures { IfOk result (λ list. IsKeyList accesses.now list.items) }
{
    let writes = written(alloc, accesses)?;
    let reads = only_read(alloc, accesses, writes.as_slice())?;
    add_all(&mut list, writes, Access::Write)?;
    add_all(&mut list, reads, Access::Read)?;
    Ok(list)
}

/// A list of one key.
fn one_key(
    mut list: Vec<(Key, Access)>,
    key: &Key,
    access: Access,
) -> Result<Vec<(Key, Access)>, AllocError>
    requires { list.items ≡ [] }
    ensures { IfOk result (λ list. list.items ≡ (key.now, access) ∷ []) }
{
    list.reserve(1)?;
    list.push_reserved((key.copy()?, access));
    Ok(list)
}

/// The key list of one access.
fn single_key(
    list: Vec<(Key, Access)>,
    only: &(Key, Access),
) -> Result<Vec<(Key, Access)>, AllocError>
    requires { list.items ≡ [] }
    ensures { IfOk result (λ list. IsKeyList (only.now ∷ []) list.items) }
{
    one_key(list, &only.0, only.1)
}

/// A list of two keys.
fn two_keys(
    mut list: Vec<(Key, Access)>,
    first: &(Key, Access),
    second: &(Key, Access),
) -> Result<Vec<(Key, Access)>, AllocError>
    requires { list.items ≡ [] }
    ensures { IfOk result (λ list. list.items ≡ first.now ∷ second.now ∷ []) }
{
    list.reserve(2)?;
    list.push_reserved((first.0.copy()?, first.1));
    list.push_reserved((second.0.copy()?, second.1));
    Ok(list)
}

/// The access of a key that is named twice: a write if either of the two writes.
fn either_access(first: Access, second: Access) -> Access
    ensures { result ≡ either_access first second }
{
    match first {
        Access::Write => Access::Write,
        Access::Read => second,
    }
}

/// Whether the first of two accesses comes first in the key list. Its key is the lesser one, if `is_less`.
fn is_first_of_two(first: Access, second: Access, is_less: bool) -> bool
    ensures { result ≡ is_first_of_two first second is_less }
{
    match first {
        Access::Write => is_less || second == Access::Read,
        Access::Read => is_less && second == Access::Read,
    }
}

/// The key list of two accesses.
fn pair_of_keys(
    list: Vec<(Key, Access)>,
    first: &(Key, Access),
    second: &(Key, Access),
) -> Result<Vec<(Key, Access)>, AllocError>
    requires { list.items ≡ [] }
    ensures { IfOk result (λ list. IsKeyList (first.now ∷ second.now ∷ []) list.items) }
{
    let order = first.0.cmp(&second.0);
    if order == Ordering::Equal {
        return one_key(list, &first.0, either_access(first.1, second.1));
    }
    if is_first_of_two(first.1, second.1, order == Ordering::Less) {
        two_keys(list, first, second)
    } else {
        two_keys(list, second, first)
    }
}

/// The key list, however many accesses there are.
fn listed(
    alloc: Global,
    list: Vec<(Key, Access)>,
    accesses: &[(Key, Access)],
) -> Result<Vec<(Key, Access)>, AllocError>
    requires { list.items ≡ [] }
    ensures { IfOk result (λ list. IsKeyList accesses.now list.items) }
{
    match accesses {
        [only] => single_key(list, only),
        [first, second] => pair_of_keys(list, first, second),
        _ => many_keys(alloc, list, accesses),
    }
}

/// The keys that a request with these accesses visits, each once. A key is visited as a write if any of its
/// accesses writes. Keys to write come first, in byte order, and then the others, in byte order. They are put into
/// `list`, which is empty.
pub fn key_list(
    alloc: Global,
    list: Vec<(Key, Access)>,
    accesses: &[(Key, Access)],
) -> Result<Vec<(Key, Access)>, EnterError>
    requires { list.items ≡ [] }
    ensures keys { IfOk result (λ keys. IsKeyList accesses.now keys.items) }
    ensures none { (result ≡ Err EnterError.NoKeys) ↔ (accesses.now ≡ []) }
    ensures many { (result ≡ Err EnterError.TooManyKeys) ↔ (256 < length accesses.now) }
    ensures drawn { result ≢ Err EnterError.NumbersOut }
{
    if accesses.is_empty() {
        return Err(EnterError::NoKeys);
    }
    if accesses.len() > 256 {
        return Err(EnterError::TooManyKeys);
    }
    Ok(listed(alloc, list, accesses)?)
}
