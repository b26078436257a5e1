//! How does a shard's table make a step?
ghost use Rattle.std.specs.Prelude.{◌≡◌, ◌≤◌, [], vec_capacity, IfOk, IsOk, OnErr};
ghost use Rattle.lt_rules.specs.Table.{AreSound, record_at};
ghost use Rattle.lt_rules.specs.Memory.{MayLack, HasRoom};
ghost use Rattle.lt_entry.specs.Ranges.{IsInRange, NamesNumber};
ghost use Rattle.lt_words.specs.Row.{made};
ghost use Rattle.lt_shard.specs.Shards.{IsMade, StepTakesNoMemory};
ghost use Rattle.lt_ids.specs.declared.limits.TheConstants.{MAX_PASS};

use lt_entry::Entry;
use lt_ids::{Key, Through};
use lt_rules::{Call, KeyTable, Reply};
use lt_words::EntryParts;
use std::alloc::AllocError;

/// Where the next step goes: its shard, and its index among the shard's steps.
#[derive(Clone, Copy, Debug)]
pub(crate) struct Place {
    pub shard: usize,
    pub at: u64,
}

/// A step that the table has made, on its way into the history: its place, its entry, and what the entry has besides
/// its pass and its lets.
#[derive(Drop)]
pub(crate) struct MadeStep<'a> {
    pub place: Place,
    pub entry: EntryParts,
    pub key: &'a Key,
    pub call: &'a Call,
    pub reply: Reply,
    ghost parts: { entry ≡ made key.now entry.pass call.now reply entry.lets },
}

/// Makes the call at the table, with a list that takes the lets. Everything is allocated before the table changes. If
/// memory runs out, the list stays empty.
#[inline(always)]
pub(crate) fn make_step<'a, T: KeyTable>(
    lets: &mut Vec<Through>,
    table: &mut T,
    place: Place,
    key: &'a Key,
    pass: u32,
    call: &'a Call,
) -> Result<MadeStep<'a>, AllocError>
    requires lets { lets.old.items ≡ [] }
    requires low { 1 ≤ pass }
    requires high { pass ≤ MAX_PASS }
    requires number { NamesNumber call.now }
    ensures made { IfOk result (λ s. IsMade (T.records table.old) key.now pass call.now s.entry (T.records table.new)) }
    ensures place { IfOk result (λ s. s.place ≡ place) }
    ensures lets { IfOk result (λ s. lets.new.items ≡ s.entry.lets) }
    ensures reply { IfOk result (λ s. s.reply ≡ s.entry.reply) }
    ensures sound { AreSound (T.records table.new) }
    ensures in_range { IfOk result (λ s. IsInRange s.entry) }
    ensures err { OnErr result (T.records table.new ≡ T.records table.old) }
    ensures empty { OnErr result (lets.new.items ≡ []) }
    // The parts of an entry need no memory of their own.
    ensures no_memory { StepTakesNoMemory (record_at (T.records table.old) key.now) pass call.now → IsOk result }
    ensures full { OnErr result (MayLack (record_at (T.records table.old) key.now) call.now (vec_capacity lets.old)) }
    ensures room { HasRoom (T.records table.old) (vec_capacity lets.old) →
        HasRoom (T.records table.new) (vec_capacity lets.new) }
{
    let reply = table.step(key, pass, call, lets)?;
    // Ghost call: tells the prover that the types keep each number in its range.
    Entry::parts_in_range(key, pass, call, &reply, lets);
    Ok(MadeStep {
        place,
        entry: EntryParts::new(key, pass, call, &reply, lets),
        key,
        call,
        reply,
    })
}
