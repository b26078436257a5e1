//! How do the stored entries of a table become the text of its histories?
//!
//! [`put_histories`] collects the entries of all shards, sorts them by key without changing the order within a key,
//! and writes one line for each. [`compose`] does the same into a new vector. Read next: `specs/Histories.antt`,
//! which defines the text of a list of entries, and `printer.rt`, which writes it to a stream.
ghost use Rattle.std.specs.Prelude.{◌≡◌, IsTrue, ◌%◌, ◌+◌, ◌<◌, ◌≤◌, ◌^◌, ◌++◌, [], OnOk, IfOk, map, length};
ghost use Rattle.lt_checker.specs.Lines.{line_text};
ghost use Rattle.lt_checker.specs.Histories.{parts_of_entry, stored_entries, IsOnlyText, IsTextOf};
ghost use Rattle.lt_entry.specs.Legal.{key_part};
ghost use Rattle.lt_writer.specs.Puts.{PutsOnlyText, PutsText};
ghost use Rattle.lt_checker.specs.Sorted.{AppendsBy, RiseFrom, HaveSameParts, next_index, lines_text};
ghost use Rattle.std.specs.List.Sorted.{IsSortedByKey, IsStableByKey};
ghost use Rattle.std.specs.Ordering.{nat_cmp};
ghost use Rattle.std.specs.Cmp.Lexicographic.{slice_cmp};
ghost use Rattle.lt_checker.specs.Text.{header};
ghost use Rattle.lt_writer.specs.Rank.{byte_or_0, rank_of};
ghost use Rattle.lt_ids.specs.Key.{IsKey};

use crate::Entry;
use lt_ids::Key;
use lt_text::lets::put_lets;
use lt_text::put::{put_call, put_number_word, put_reply, put_word};
use lt_text::words::is_name;
use std::alloc::{AllocError, Global};
use std::cmp::Ordering;

/// An entry with its rank: the first eight bytes of its key as one number. Comparing ranks decides most comparisons
/// without reading the entry.
#[derive(Drop)]
struct Ranked<'a> {
    rank: u64,
    entry: &'a Entry,
    ghost ranked: { rank ≡ rank_of entry.now.key },
    ghost is_key: { IsKey entry.now.key },
}

/// The byte at this index, or 0 past the end.
fn byte_or_0(bytes: &[u8], index: usize) -> u8
    ensures { result ≡ byte_or_0 bytes.now index }
{
    match bytes.get(index) {
        Some(byte) => *byte,
        None => 0,
    }
}

/// The first eight bytes as one big-endian number.
fn rank_of(bytes: &[u8]) -> u64
    ensures { result ≡ rank_of bytes.now }
{
    u64::from_be_bytes([
        byte_or_0(bytes, 0),
        byte_or_0(bytes, 1),
        byte_or_0(bytes, 2),
        byte_or_0(bytes, 3),
        byte_or_0(bytes, 4),
        byte_or_0(bytes, 5),
        byte_or_0(bytes, 6),
        byte_or_0(bytes, 7),
    ])
}

fn with_rank<'a>(entry: &'a Entry) -> Ranked<'a>
    ensures { result.entry.now ≡ entry.now }
{
    let rank = rank_of(entry.key().as_bytes());
    Ranked { rank, entry }
}

/// Whether the rank spells a whole key: its last byte is 0, and no byte of a key is.
fn is_whole(rank: u64) -> bool
    ensures { IsTrue result → rank % 256 ≡ 0 }
{
    rank % 256 == 0
}

/// Compares two keys, of which most are equal.
fn compare_keys(a: &Key, b: &Key) -> Ordering
    ensures { result ≡ slice_cmp nat_cmp a.now b.now }
{
    if a == b { Ordering::Equal } else { a.cmp(b) }
}

/// Compares two entries by key: by their ranks first. Keys of the same rank are the same if the rank ends in a zero byte,
/// because then it spells both whole. Otherwise the keys are compared.
fn compare(a: &Ranked, b: &Ranked) -> Ordering
    ensures { result ≡ slice_cmp nat_cmp a.now.entry.now.key b.now.entry.now.key }
{
    match a.rank.cmp(&b.rank) {
        Ordering::Equal if is_whole(a.rank) => Ordering::Equal,
        Ordering::Equal => compare_keys(a.entry.key(), b.entry.key()),
        unequal => unequal,
    }
}

/// Appends the entries of one shard.
fn push_all<'a>(entries: &mut Vec<Ranked<'a>>, shard: &'a [Entry]) -> Result<(), AllocError>
    ensures { OnOk result (AppendsBy (λ e. e.entry.now) entries.old.items entries.new.items shard.now) }
{
    for entry in shard {
        entries.push(with_rank(entry))?;
    }
    Ok(())
}

/// The number of entries in all shards, so that room for them is allocated once.
fn count(shards: &[Vec<Entry>]) -> usize {
    let mut count: usize = 0;
    for shard in shards {
        count = count.saturating_add(shard.len());
    }
    count
}

/// All entries, shard after shard.
fn entries_of<'a>(alloc: Global, shards: &'a [Vec<Entry>]) -> Result<Vec<Ranked<'a>>, AllocError>
    ensures { IfOk result (λ v. map (λ e. e.entry.now) v.items ≡ stored_entries shards.now) }
{
    let mut entries = Vec::with_capacity(alloc, count(shards))?;
    for shard in shards {
        push_all(&mut entries, shard)?;
    }
    Ok(entries)
}

/// Sorts the entries by key. Entries of the same key keep their order.
fn sort_by_key(entries: &mut Vec<Ranked>) -> Result<(), AllocError>
    ensures sorted { OnOk result (IsSortedByKey (λ e. e.entry.now.key) (slice_cmp nat_cmp) entries.new.items) }
    ensures stable { IsStableByKey (λ e. e.entry.now.key) (slice_cmp nat_cmp) entries.old.items entries.new.items }
{
    entries.sort_by(|a, b| compare(a, b))?;
    Ok(())
}

/// All entries in the order of their keys. Entries of the same key keep their order.
fn by_key<'a>(alloc: Global, shards: &'a [Vec<Entry>]) -> Result<Vec<Ranked<'a>>, AllocError>
    ensures rising { IfOk result (λ v. RiseFrom [] (map (λ e. e.entry.now) v.items)) }
    ensures parts { IfOk result (λ v. HaveSameParts (map (λ e. e.entry.now) v.items) (stored_entries shards.now)) }
{
    let mut entries = entries_of(alloc, shards)?;
    sort_by_key(&mut entries)?;
    Ok(entries)
}

/// Appends the line of this entry, which is its key's step of this index.
#[tactic(auto, using(crate::proofs::Composed::line_is))]
fn put_line(out: &mut Vec<u8>, index: u64, entry: &Entry) -> Result<(), AllocError>
    ensures { OnOk result (out.new.items ≡ out.old.items ++ line_text (parts_of_entry index entry.now)) }
{
    out.extend_from_slice(entry.key().as_bytes())?;
    put_number_word(out, index)?;
    put_number_word(out, entry.pass() as u64)?;
    put_call(out, entry.call())?;
    put_word(out, b"=")?;
    put_reply(out, entry.reply())?;
    put_lets(out, entry.lets())?;
    out.push(b'\n')?;
    Ok(())
}

/// The index of an entry of `key`, if the previous entry has the key `before` and this index.
fn next_index(before: &[u8], index: u64, key: &[u8]) -> u64
    requires { index + 1 < 2 ^ 64 }
    ensures { result ≡ next_index before.now index key.now }
{
    if is_name(key, before) { index + 1 } else { 1 }
}

/// Appends the lines of the entries, which are sorted by key.
fn put_lines(out: &mut Vec<u8>, entries: &[Ranked]) -> Result<(), AllocError>
    ensures { OnOk result (out.new.items ≡ out.old.items ++ lines_text (map (λ e. e.entry.now) entries.now)) }
{
    let mut key: &[u8] = b"";
    let mut index = 0;
    for ranked in entries {
        let entry = ranked.entry;
        index = next_index(key, index, entry.key().as_bytes());
        key = entry.key().as_bytes();
        put_line(out, index, entry)?;
    }
    Ok(())
}

/// Appends the text of the histories of these shards: the line `locks 2`, and then the keys in rising order, each
/// with its entries in the order in which the shards hold them. Needs 16 bytes for each entry, the same again for
/// the sort, and the time of one sort of the entries.
pub fn put_histories(out: &mut Vec<u8>, shards: &[Vec<Entry>]) -> Result<(), AllocError>
    ensures text { OnOk result (PutsText out.old.items out.new.items (stored_entries shards.now)) }
    // No other text is the text of these entries.
    ensures alone { OnOk result (PutsOnlyText out.old.items out.new.items (stored_entries shards.now)) }
{
    let entries = by_key(*out.allocator(), shards)?;
    out.extend_from_slice(b"locks 2\n")?;
    put_lines(out, &entries)?;
    Ok(())
}

/// Returns the text of the histories of these shards, as [`put_histories`] writes it.
pub fn compose(alloc: Global, shards: &[Vec<Entry>]) -> Result<Vec<u8>, AllocError>
    ensures text { IfOk result (λ text. IsTextOf text.items (stored_entries shards.now)) }
    // No other text is the text of these entries.
    ensures alone { IfOk result (λ text. IsOnlyText text.items (stored_entries shards.now)) }
{
    let mut text = Vec::new(alloc);
    put_histories(&mut text, shards)?;
    Ok(text)
}
