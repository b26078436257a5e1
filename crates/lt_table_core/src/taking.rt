//! How are a table's steps taken out while it runs? Read next `specs/Taken.antt` of
//! `lt_walk`.
ghost use Rattle.std.specs.Prelude.{◌≡◌, ◌≢◌, ◌<◌, [], length, IfErr, OnErr, OnOk};
ghost use Rattle.lt_words.specs.Row.{SeesMore, MakesNoStep, TakesOut, AreGone};
ghost use Rattle.lt_walk.specs.Taken.{IsTaken, reader_after};

use crate::shard_value::ShardValue;
use crate::table::Table;
use lt_entry::Entry;
use lt_rules::KeyTable;
use lt_walk::{Gone, Reader};
use lt_words::{Keeping, Name, Pass, Waker};
use std::sync::Wait;

impl<N: Name, T: KeyTable, W: Waker, V: ShardValue> Table<N, T, W, V> {
    /// Takes out the steps that the shard holds, under the shard's lock, and returns how many steps of the shard
    /// were made before them. The table must not keep its steps whole. The held steps and the room of `steps`,
    /// which is empty, change places: nothing is copied, nothing is allocated, and the next steps go into that
    /// room. The steps taken out are all of the shard's steps from there on in what the pass has then seen.
    ///
    /// If `steps` has room for `max_steps` steps, no step before the next take has to grow it.
    pub fn take_history<R: Wait>(
        &self,
        rt: &R,
        pass: &mut Pass,
        shard: usize,
        steps: &mut Vec<Entry>,
    ) -> u64
        requires pass { pass.old.of ≡ N.of }
        requires shard { shard < N.of.shards }
        requires keeping { N.of.keeping ≢ Keeping.Whole }
        requires empty { steps.old.items ≡ [] }
        ensures taken { IsTaken shard pass.new.seen result steps.new.items }
        // A streamed table gives each step out once: the take begins where the takes before it ended.
        ensures took { N.of.keeping ≡ Keeping.Streamed → TakesOut pass.old pass.new shard result (length steps.new.items) }
        ensures none { N.of.keeping ≢ Keeping.Streamed → SeesMore pass.old pass.new }
        ensures more { MakesNoStep pass.old pass.new }
    {
        let lock = &self.shards[shard].lock;
        for _ in rt.forever() {
            let mut locked = lock.lock(rt);
            let inside = &mut *locked;
            if inside.shard.index() == shard {
                return inside.shard.take(rt, &self.book, pass, steps);
            }
        }
        unreachable!()
    }

    /// Takes out the steps that the reader was not given yet: all from `next` on in what the pass has then seen. So
    /// the pieces that a reader is given, one after the other, are the shard's history from its first step on,
    /// without a gap and with no step twice. `steps` is empty, and its room goes to the shard, as in
    /// [`Table::take_history`]. On an `Err` nothing was taken, and the reader stays where it was.
    pub fn take_next<R: Wait>(
        &self,
        rt: &R,
        pass: &mut Pass,
        reader: &mut Reader,
        steps: &mut Vec<Entry>,
    ) -> Result<(), Gone>
        requires pass { pass.old.of ≡ N.of }
        requires shard { reader.old.shard < N.of.shards }
        requires keeping { N.of.keeping ≢ Keeping.Whole }
        requires empty { steps.old.items ≡ [] }
        ensures taken { OnOk result (IsTaken reader.old.shard pass.new.seen reader.old.next steps.new.items) }
        ensures next { OnOk result (reader.new ≡ reader_after reader.old steps.new.items) }
        ensures took { OnOk result (N.of.keeping ≡ Keeping.Streamed → TakesOut pass.old pass.new reader.old.shard reader.old.next (length steps.new.items)) }
        ensures none { N.of.keeping ≢ Keeping.Streamed → SeesMore pass.old pass.new }
        ensures more { MakesNoStep pass.old pass.new }
        // So many steps are gone in what the pass has then seen, and the reader was not given so many.
        ensures gone { IfErr result (λ e. AreGone N.of.keeping pass.new reader.old.shard e.0 × (e.0 ≢ reader.old.next)) }
        ensures err { OnErr result ((reader.new ≡ reader.old) × SeesMore pass.old pass.new × (steps.new ≡ steps.old)) }
    {
        let index = reader.shard;
        let lock = &self.shards[index].lock;
        for _ in rt.forever() {
            let mut locked = lock.lock(rt);
            let inside = &mut *locked;
            if inside.shard.index() == index {
                let count = match inside
                    .shard
                    .take_next(rt, &self.book, pass, reader.next, steps)
                {
                    Ok(count) => count,
                    Err(gone) => return Err(Gone(gone)),
                };
                reader.next = count;
                return Ok(());
            }
        }
        unreachable!()
    }
}
