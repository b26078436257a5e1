//! What does a handle of a table hold? [`HeldTable`] has a lock table, and the lets of its last step until C has taken
//! them all. Its methods make a step and give its lets, or look at a key, and answer a code.
ghost use Rattle.std.specs.Prelude.{◌≡◌, ◌≢◌, ◌≤◌, ◌<◌, ◌++◌, [], IfOk, OnErr, IsOk, length, map, drop};
ghost use Rattle.std.specs.Option.{option_copied};
ghost use Rattle.lt_rules.specs.Rules.{TakesNoMemory};
ghost use Rattle.lt_rules.specs.Step.{look};
ghost use Rattle.lt_rules.specs.Table.{record_at, keys_after};
ghost use Rattle.lt_handles.specs.OneTable.{new_table};
ghost use Rattle.lt_handles.specs.Shapes.{raw_let};
ghost use Rattle.lt_handles.specs.Steps.{StepsHeld, GivesLets, KeepsOut, MakesStep, AllocatesNothing, GivesUp, held_refusal};
ghost use Rattle.lt_handles.specs.Calls.{act_of};
ghost use Rattle.lt_rules.specs.Memory.{Begins};
ghost use Rattle.lt_handles.specs.Codes.{IsReplyUnless};

use crate::codes::{FIRST_REPLY, LETS_LEFT, MEMORY, key_code, reply_code};
use crate::pass_call::PassCall;
use crate::shapes::{LtThrough, raw_let};
use lt_ids::{Key, Through};
use lt_lock::LinkedTable;
use lt_rules::laws::releases_need_no_memory;
use lt_rules::{KeyState, KeyTable, Reply};
use std::alloc::{AllocError, Global};
use std::marker::Model;

/// A lock table, and the lets of its last step: the first `given` of them have been given to C. The vector is kept
/// from one step to the next, so that it is allocated once.
#[derive(Drop)]
pub struct HeldTable {
    table: LinkedTable,
    lets: Vec<Through>,
    given: usize,
}

impl Model for HeldTable {
    ghost use Rattle.std.specs.Prelude.{◌≤◌, drop, length};
    ghost use Rattle.lt_handles.specs.OneTable.{OneTableState, one_table_code};

    ghost Value = { OneTableState };

    ghost coded = { one_table_code };

    ghost view = { λ t. record { records = t.table; lets = drop t.given t.lets.items } };

    ghost use Rattle.std.specs.Prelude.{vec_capacity};
    ghost use Rattle.lt_rules.specs.Memory.{HasRoom};

    ghost invariant = { λ t. (t.given ≤ length t.lets.items) × HasRoom t.table (vec_capacity t.lets) };
}

/// Writes these lets to the front of the array, which has room for them.
pub fn write_lets(lets: &[Through], array: &mut [LtThrough])
    requires { length lets.now ≤ length array.old }
    ensures { array.new ≡ map raw_let lets.now ++ drop (length lets.now) array.old }
{
    for i in 0..lets.len() {
        array[i] = raw_let(&lets[i]);
    }
}

impl HeldTable {
    /// A table without keys, whose keys are hashed from this start. This call allocates nothing.
    pub fn new(alloc: Global, start: u64) -> HeldTable
        ensures { result ≡ new_table }
    {
        HeldTable {
            table: LinkedTable::new(alloc, start),
            lets: Vec::new(alloc),
            given: 0,
        }
    }

    /// Makes the call at the key. All lets of the step are then left to give.
    fn make(&mut self, key: &Key, by: &PassCall) -> Result<Reply, AllocError>
        requires { self.old.lets ≡ [] }
        ensures ok { IfOk result (StepsHeld self.old self.new key.now (act_of by.now)) }
        ensures err { OnErr result (self.new ≡ self.old) }
        ensures no_memory { TakesNoMemory (record_at self.old.records key.now)
            (act_of by.now (record_at self.old.records key.now)) → IsOk result }
        ensures begins { OnErr result (Begins (record_at self.old.records key.now) by.now.call) }
    {
        // Ghost call: tells the prover which calls fail while the list of lets has room.
        releases_need_no_memory();
        self.lets.clear();
        self.given = 0;
        self.table.step(key, by.pass, &by.call, &mut self.lets)
    }

    /// Gives as many of the lets that are left as fit into the array, and returns how many.
    pub fn give(&mut self, array: &mut [LtThrough]) -> usize
        ensures { GivesLets array.old array.new result self.old self.new }
    {
        let left = &self.lets[self.given..];
        let count = left.len().min(array.len());
        write_lets(&left[..count], array);
        self.given += count;
        count
    }

    /// Makes the call at the key with these bytes, and gives its lets.
    pub fn step(
        &mut self,
        alloc: Global,
        key: &[u8],
        by: &PassCall,
        array: &mut [LtThrough],
        count: &mut usize,
    ) -> u32
        ensures refused { IsReplyUnless (held_refusal self.old key.now) result }
        ensures stepped { FIRST_REPLY ≤ result → MakesStep key.now (act_of by.now) result
            array.old array.new count.new self.old self.new }
        ensures table_kept { result < FIRST_REPLY → self.new ≡ self.old }
        ensures out_kept { result < FIRST_REPLY → KeepsOut array.old array.new count.old count.new }
        ensures no_memory { AllocatesNothing key.now (act_of by.now) self.old → result ≢ MEMORY }
        ensures gives_up { GivesUp key.now by.now.call self.old → result ≢ MEMORY }
    {
        if self.given < self.lets.len() {
            return LETS_LEFT;
        }
        let key = match Key::from_bytes(alloc, key) {
            Ok(key) => key,
            Err(error) => return key_code(&error),
        };
        match self.make(&key, by) {
            Ok(reply) => {
                *count = self.give(array);
                reply_code(&reply)
            }
            Err(_) => MEMORY,
        }
    }

    /// What the request with this number finds at the key.
    pub fn look(&self, key: &Key, number: u64) -> Reply
        ensures { result ≡ look (record_at self.now.records key.now) number }
    {
        self.table.look(key, number)
    }

    /// A copy of the key's record. It fails only when an allocation fails.
    pub fn state(&self, alloc: Global, key: &Key) -> Result<KeyState, AllocError>
        ensures { IfOk result (λ state. state ≡ record_at self.now.records key.now) }
    {
        self.table.state(alloc, key)
    }

    /// The first keys that have a record and come after the key `after`, or after none: at most `at_most`, in byte order.
    /// It fails only when an allocation fails.
    pub fn keys_after(
        &self,
        alloc: Global,
        after: Option<&Key>,
        at_most: usize,
    ) -> Result<Vec<Key>, AllocError>
        ensures { IfOk result (λ all. all.items ≡ keys_after self.now.records (option_copied after.entry) at_most) }
    {
        self.table.keys_after(alloc, after, at_most)
    }
}
