//! What is a key, and when does one allocate? [`Key`] is the public type; `Bytes` is its storage, which no
//! contract outside this crate mentions. `specs/Key.antt` defines which byte strings are keys and the order of the
//! faults.
ghost use Rattle.std.specs.Prelude.{◌≡◌, ◌==◌, ◌≤◌, ◌<◌, [], ◌∷◌, length, take, IfOk, IsOk, IfSome, IfNone, IsNone, All, IsTrue, true, false, not, position, sum, drop};
ghost use Rattle.std.specs.List.{AllByRecursion};
ghost use Rattle.std.specs.Ordering.{nat_cmp, as_partial_cmp};
ghost use Rattle.std.specs.Cmp.{partial_order_from_own_ties};
ghost use Rattle.std.specs.Cmp.Rules.{comparing, hashing};
ghost use Rattle.std.specs.Cmp.Lexicographic.{slice_cmp, pointwise};
ghost use Rattle.std.proofs.Common.{rules};
ghost use Rattle.lt_ids.specs.Key.{IsKey, IsKeyUnlessMemory, key_fault, is_key_byte};
ghost use Rattle.lt_ids.specs.Bytes.{bytes_of, hash_writes, AreWithin, NeedTheirRoom, ArePadded};

use crate::IdError;
use crate::limits::MAX_KEY_BYTES;
use std::alloc::{AllocError, Global};
use std::cmp::Ordering;
use std::fmt::{self, Debug, Formatter, Write};
use std::hash::{Hash, Hasher};
use std::marker::Model;

/// The storage of a key: its length and its bytes. Up to 22 bytes lie inline, more in an allocation.
#[derive(Drop)]
pub(crate) enum Bytes {
    Short(u8, [u8; 22]),
    Long(u8, Box<[u8; 64]>),
}

impl Bytes {
    /// Stores these bytes, from 23 to 64, in an allocation.
    fn from_long(alloc: Global, bytes: &[u8]) -> Result<Bytes, AllocError>
        requires fits { length bytes.now ≤ MAX_KEY_BYTES }
        requires long { 22 < length bytes.now }
        ensures bytes { IfOk result (λ b. bytes_of b ≡ bytes.now) }
        ensures within { IfOk result AreWithin }
        ensures needed { IfOk result NeedTheirRoom }
        ensures padded { IfOk result ArePadded }
    {
        match Box::new(alloc, cells_of_64(bytes)) {
            Ok(long) => Ok(Bytes::Long(bytes.len() as u8, long)),
            Err(_) => Err(AllocError),
        }
    }

    #[inline]
    fn copy(&self) -> Result<Bytes, AllocError>
        requires within { AreWithin self.now }
        requires needed { NeedTheirRoom self.now }
        requires padded { ArePadded self.now }
        ensures bytes { IfOk result (λ b. bytes_of b ≡ bytes_of self.now) }
        ensures within { IfOk result AreWithin }
        ensures needed { IfOk result NeedTheirRoom }
        ensures padded { IfOk result ArePadded }
        ensures short { length (bytes_of self.now) ≤ 22 → IsOk result }
    {
        match self {
            Bytes::Short(len, bytes) => Ok(Bytes::Short(*len, *bytes)),
            Bytes::Long(len, bytes) => Ok(Bytes::Long(*len, copy_long(bytes)?)),
        }
    }

    #[inline]
    fn as_slice(&self) -> &[u8]
        requires { AreWithin self.now }
        ensures { result.now ≡ bytes_of self.now }
    {
        match self {
            Bytes::Short(len, bytes) => &bytes[..*len as usize],
            Bytes::Long(len, bytes) => &bytes[..*len as usize],
        }
    }

    /// The sum of the bytes. The unused cells are 0, so it adds all cells, which a processor does at once.
    #[inline]
    fn sum(&self) -> u16
        requires { ArePadded self.now }
        ensures { result ≡ sum (bytes_of self.now) }
    {
        match self {
            Bytes::Short(_, bytes) => sum_of_22(bytes),
            Bytes::Long(_, bytes) => sum_of_64(bytes),
        }
    }
}

/// Copies the bytes of a short key into its cells, which are 0, and returns the index of the first byte that a key cannot
/// contain. It tests and copies eight bytes at once, and the rest one after the other.
#[inline(always)]
fn copy_short(cells: &mut [u8; 22], bytes: &[u8]) -> Option<usize>
    requires few { length bytes.now ≤ 22 }
    requires empty { AllByRecursion (λ b. b ≡ 0) cells.old }
    ensures bytes { IfNone result (take (length bytes.now) cells.new ≡ bytes.now) }
    ensures padded { IfNone result (AllByRecursion (λ b. b ≡ 0) (drop (length bytes.now) cells.new)) }
    ensures place { result ≡ position (λ b. not (is_key_byte b)) bytes.now }
    ensures each { IfNone result (All (λ b. IsTrue (is_key_byte b)) bytes.now) }
{
    let mut done = 0;
    for _i in 0..bytes.len() / 8 {
        if !are_eight_in_key(&bytes[done..]) {
            break;
        }
        cells[done..done + 8].copy_from_slice(&bytes[done..done + 8]);
        done += 8;
    }
    for j in done..bytes.len() {
        let b = bytes[j];
        if !is_in_key(b) {
            return Some(j);
        }
        cells[j] = b;
    }
    None
}

/// The cells of a long key with these bytes.
fn cells_of_64(bytes: &[u8]) -> [u8; 64]
    requires { length bytes.now ≤ MAX_KEY_BYTES }
    ensures bytes { take (length bytes.now) result ≡ bytes.now }
    ensures padded { AllByRecursion (λ b. b ≡ 0) (drop (length bytes.now) result) }
{
    let mut long = [0; 64];
    long[..bytes.len()].copy_from_slice(bytes);
    long
}

/// The sum of the cells of a short key.
#[inline(always)]
fn sum_of_22(bytes: &[u8; 22]) -> u16
    ensures { result ≡ sum bytes.now }
{
    let mut total = 0;
    for i in 0..22 {
        total += u16::from(bytes[i]);
    }
    total
}

/// The sum of the cells of a long key.
fn sum_of_64(bytes: &[u8; 64]) -> u16
    ensures { result ≡ sum bytes.now }
{
    let mut total = 0;
    for i in 0..64 {
        total += u16::from(bytes[i]);
    }
    total
}

/// Whether two short keys have the same cells. All cells are compared, at once and not one after the other.
#[inline(always)]
fn are_same_22(one: &[u8; 22], other: &[u8; 22]) -> bool
    ensures { result ≡ pointwise ◌==◌ one.now other.now }
{
    let mut same = true;
    for i in 0..22 {
        same &= one[i] == other[i];
    }
    same
}

/// Whether two short keys, each given by its length and its cells, have the same bytes.
#[inline(always)]
fn are_same_short(len: u8, cells: &[u8; 22], other_len: u8, other_cells: &[u8; 22]) -> bool
    requires within { len ≤ 22 }
    requires other_within { other_len ≤ 22 }
    requires padded { AllByRecursion (λ b. b ≡ 0) (drop len cells.now) }
    requires other_padded { AllByRecursion (λ b. b ≡ 0) (drop other_len other_cells.now) }
    ensures { result ≡ pointwise ◌==◌ (take len cells.now) (take other_len other_cells.now) }
{
    len == other_len && are_same_22(cells, other_cells)
}

/// Hashes the bytes of a long key. It stays out of line, so that the hash of a short key is a few instructions.
#[cold]
#[inline(never)]
fn hash_long<H: Hasher>(bytes: &[u8], state: &mut H)
    ensures { state.new ≡ H.write state.old bytes.now }
{
    state.write(bytes);
}

/// A copy of the bytes of a long key. It stays out of line, so that the copy of a short key is a few instructions
/// wherever a key is copied.
#[cold]
#[inline(never)]
fn copy_long(bytes: &Box<[u8; 64]>) -> Result<Box<[u8; 64]>, AllocError>
    ensures { IfOk result (λ copy. copy.value ≡ bytes.now.value) }
{
    bytes.clone()
}

/// The name of a lockable item: 1 to 64 printable ASCII bytes (0x21 to 0x7E), ordered bytewise. A key of up to 22
/// bytes is stored inline and allocates nothing. In a contract, a key is the list of its bytes.
#[derive(Drop)]
pub struct Key {
    bytes: Bytes,
}

impl Model for Key {
    ghost use Rattle.std.specs.Prelude.{ℕ, List};
    ghost use Rattle.lt_ids.specs.Key.{IsKey};
    ghost use Rattle.lt_ids.specs.Bytes.{bytes_of, AreWithin, NeedTheirRoom, ArePadded};

    ghost Value = { List ℕ };

    ghost view = { λ k. bytes_of k.bytes };

    ghost invariant = { λ k. IsKey (bytes_of k.bytes) × AreWithin k.bytes × NeedTheirRoom k.bytes × ArePadded k.bytes };
}

impl Key {
    /// The key with these bytes, or the first fault in the order of [`IdError`]. If the bytes have no other fault,
    /// the call fails only when an allocation fails. Up to 22 bytes allocate nothing.
    #[inline(always)]
    pub fn from_bytes(alloc: Global, bytes: &[u8]) -> Result<Key, IdError>
        ensures fault { IfSome (key_fault bytes.now) (λ fault. result ≡ Err fault) }
        ensures key { IfNone (key_fault bytes.now) (IsKeyUnlessMemory bytes.now result) }
        ensures is_key { IfOk result IsKey }
        ensures short { IsNone (key_fault bytes.now) → length bytes.now ≤ 22 → IsOk result }
    {
        if bytes.is_empty() {
            return Err(IdError::KeyEmpty);
        }
        if bytes.len() > MAX_KEY_BYTES {
            return Err(IdError::KeyTooLong);
        }
        if bytes.len() <= 22 {
            let mut cells = [0; 22];
            if let Some(place) = copy_short(&mut cells, bytes) {
                return Err(IdError::KeyByte(place));
            }
            let bytes = Bytes::Short(bytes.len() as u8, cells);
            return Ok(Key { bytes });
        }
        Key::from_long(alloc, bytes)
    }

    /// The key with these bytes, from 23 to 64. It stays out of line, so that a short key takes few instructions wherever one is made.
    #[inline(never)]
    fn from_long(alloc: Global, bytes: &[u8]) -> Result<Key, IdError>
        requires fits { length bytes.now ≤ MAX_KEY_BYTES }
        requires long { 22 < length bytes.now }
        ensures fault { IfSome (key_fault bytes.now) (λ fault. result ≡ Err fault) }
        ensures key { IfNone (key_fault bytes.now) (IsKeyUnlessMemory bytes.now result) }
        ensures is_key { IfOk result IsKey }
    {
        if let Some(place) = bad_byte(bytes) {
            return Err(IdError::KeyByte(place));
        }
        let bytes = Bytes::from_long(alloc, bytes).map_err(|_| IdError::Memory)?;
        Ok(Key { bytes })
    }

    /// A copy of this key. It fails only when an allocation fails; up to 22 bytes allocate nothing.
    #[inline]
    pub fn copy(&self) -> Result<Key, AllocError>
        ensures same { IfOk result (λ key. key ≡ self.now) }
        ensures short { length self.now ≤ 22 → IsOk result }
    {
        let bytes = self.bytes.copy()?;
        Ok(Key { bytes })
    }

    /// The bytes of the key.
    #[inline]
    pub fn as_bytes(&self) -> &[u8]
        ensures bytes { result.now ≡ self.now }
        ensures is_key { IsKey result.now }
    {
        self.bytes.as_slice()
    }

    /// The sum of the key's bytes, which tells its shard.
    #[inline]
    pub fn byte_sum(&self) -> u16
        ensures { result ≡ sum self.now }
    {
        self.bytes.sum()
    }
}

/// A key is shown as the text that it is.
impl Debug for Key {
    fn fmt<W: Write>(&self, f: &mut Formatter<W>) -> fmt::Result {
        match str::from_utf8(self.as_bytes()) {
            Ok(text) => Debug::fmt(text, f),
            Err(_) => self.as_bytes().fmt(f),
        }
    }
}

/// Whether a key can contain the first eight bytes. All of them are tested, at once and not one after the other.
#[inline]
fn are_eight_in_key(bytes: &[u8]) -> bool
    requires { 8 ≤ length bytes.now }
    ensures { result ≡ true → All (λ b. IsTrue (is_key_byte b)) (take 8 bytes.now) }
{
    let mut all = true;
    for i in 0..8 {
        all &= is_in_key(bytes[i]);
    }
    all
}

/// Whether a key can contain these bytes.
fn are_in_key(bytes: &[u8]) -> bool
    ensures { result ≡ true → All (λ b. IsTrue (is_key_byte b)) bytes.now }
{
    let mut tested = 0;
    for i in 0..bytes.len() / 8 {
        if !are_eight_in_key(&bytes[tested..]) {
            return false;
        }
        tested += 8;
    }
    for j in tested..bytes.len() {
        if !is_in_key(bytes[j]) {
            return false;
        }
    }
    true
}

/// The index of the first byte that a key cannot contain.
fn bad_byte(bytes: &[u8]) -> Option<usize>
    ensures place { result ≡ position (λ b. not (is_key_byte b)) bytes.now }
    ensures none { IfNone result (All (λ b. IsTrue (is_key_byte b)) bytes.now) }
{
    if are_in_key(bytes) {
        return None;
    }
    bytes.iter().position(|b| !is_in_key(*b))
}

fn is_in_key(b: u8) -> bool
    ensures { result ≡ is_key_byte b }
{
    33 <= b && b <= 126
}

impl PartialEq for Key {
    ghost eq = { pointwise ◌==◌ };

    ghost laws = { Prim.search (comparing, rules) };

    #[inline]
    fn eq(&self, other: &Key) -> bool {
        match (&self.bytes, &other.bytes) {
            (Bytes::Short(len, cells), Bytes::Short(other_len, other_cells)) => {
                are_same_short(*len, cells, *other_len, other_cells)
            }
            _ => self.as_bytes() == other.as_bytes(),
        }
    }
}

impl Eq for Key {
    ghost laws = { Prim.search (comparing, rules) };
}

impl Ord for Key {
    ghost cmp = { slice_cmp nat_cmp };

    ghost total = { Prim.search (comparing, rules) };

    ghost matches_partial_cmp = { Prim.search (comparing, rules) };

    ghost matches_eq = { Prim.search (comparing, rules) };

    fn cmp(&self, other: &Key) -> Ordering {
        self.as_bytes().cmp(other.as_bytes())
    }
}

impl PartialOrd for Key {
    ghost partial_cmp = { as_partial_cmp (slice_cmp nat_cmp) };

    ghost laws = { partial_order_from_own_ties (Prim.search (comparing, rules)) (Prim.search (comparing, rules)) };

    fn partial_cmp(&self, other: &Key) -> Option<Ordering> {
        Some(self.cmp(other))
    }
}

impl Hash for Key {
    ghost hash_input = { hash_writes };

    ghost respects_eq = { Prim.search (comparing, hashing, rules) };

    #[inline]
    fn hash<H: Hasher>(&self, state: &mut H) {
        match &self.bytes {
            Bytes::Short(_, cells) => state.write(cells),
            Bytes::Long(..) => hash_long(self.as_bytes(), state),
        }
    }
}
