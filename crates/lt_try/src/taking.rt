//! How are a table's steps taken out while it runs? Read next `specs/Taken.antt` of `lt_walk`.
ghost use Rattle.std.specs.Prelude.{◌≡◌, ◌≢◌, ◌<◌, [], length, IfOk, IfErr, OnOk, OnErr};
ghost use Rattle.lt_words.specs.Row.{SeesMore, MakesNoStep, TakesOut, AreGone};
ghost use Rattle.lt_walk.specs.Taken.{IsTaken, reader_after};

use crate::error::TryError;
use crate::table::TryTable;
use lt_entry::Entry;
use lt_rules::KeyTable;
use lt_shard::EmptyTables;
use lt_walk::{Gone, Reader};
use lt_words::{Keeping, Pass, Waker};

impl<T: KeyTable + Drop, M: EmptyTables<T>, W: Waker> TryTable<T, M, W> {
    /// Takes out the steps that the shard holds, and returns how many steps of the shard were made before them. The
    /// table must not keep its steps whole. The held steps and the room of `steps`, which is empty, change places:
    /// nothing is copied, nothing is allocated, and the next steps go into that room. The steps taken out are all of the
    /// shard's steps from there on in what the pass has then seen.
    ///
    /// If `steps` has room for `max_steps` steps, no step before the next take has to grow it.
    ///
    /// The only errors are `Busy` and `Lost`. After both the shard holds what it held. After `Busy` the pass is as it
    /// was, too; after `Lost` it has made no step, but it may have noted a take of steps that nobody was given.
    pub fn take_history(
        &self,
        pass: &mut Pass,
        shard: usize,
        steps: &mut Vec<Entry>,
    ) -> Result<u64, TryError>
        requires pass { pass.old.of ≡ self.now.of }
        requires shard { shard < self.now.of.shards }
        requires keeping { self.now.of.keeping ≢ Keeping.Whole }
        requires empty { steps.old.items ≡ [] }
        ensures taken { IfOk result (λ from. IsTaken shard pass.new.seen from steps.new.items) }
        // A streamed table gives each step out once: the take begins where the takes before it ended.
        ensures took { IfOk result (λ from. self.now.of.keeping ≡ Keeping.Streamed → TakesOut pass.old pass.new shard from (length steps.new.items)) }
        ensures none { self.now.of.keeping ≢ Keeping.Streamed → SeesMore pass.old pass.new }
        ensures more { MakesNoStep pass.old pass.new }
        ensures err { OnErr result (steps.new ≡ steps.old) }
        ensures busy { IfErr result (λ e. e ≢ TryError.Lost → (e ≡ TryError.Busy) × (pass.new ≡ pass.old)) }
    {
        let Some(mut inside) = self.enter_shard(shard) else {
            return Err(TryError::Busy);
        };
        let slot = inside.slot;
        let entered = inside.seat.slot_mut(&slot.place.shared, 0);
        let taken = entered.take_once(&self.book, pass, steps);
        inside.leave();
        match taken {
            Some(from) => Ok(from),
            None => Err(TryError::Lost),
        }
    }

    /// Takes out the steps that the reader was not given yet: all from `next` on in what the pass has then seen. So
    /// the pieces that a reader is given, one after the other, are the shard's history from its first step on,
    /// without a gap and with no step twice. `steps` is empty, and its room goes to the shard, as in
    /// [`TryTable::take_history`]. If steps are gone, nothing was taken, and the reader stays where it was.
    ///
    /// The outer `Err` is `Busy` or `Lost`, as of [`TryTable::take_history`].
    pub fn take_next(
        &self,
        pass: &mut Pass,
        reader: &mut Reader,
        steps: &mut Vec<Entry>,
    ) -> Result<Result<(), Gone>, TryError>
        requires pass { pass.old.of ≡ self.now.of }
        requires shard { reader.old.shard < self.now.of.shards }
        requires keeping { self.now.of.keeping ≢ Keeping.Whole }
        requires empty { steps.old.items ≡ [] }
        ensures taken { IfOk result (λ r. OnOk r (IsTaken reader.old.shard pass.new.seen reader.old.next steps.new.items)) }
        ensures next { IfOk result (λ r. OnOk r (reader.new ≡ reader_after reader.old steps.new.items)) }
        ensures took { IfOk result (λ r. OnOk r (self.now.of.keeping ≡ Keeping.Streamed → TakesOut pass.old pass.new reader.old.shard reader.old.next (length steps.new.items))) }
        ensures none { self.now.of.keeping ≢ Keeping.Streamed → SeesMore pass.old pass.new }
        ensures more { MakesNoStep pass.old pass.new }
        // So many steps are gone in what the pass has then seen, and the reader was not given so many.
        ensures gone { IfOk result (λ r. IfErr r (λ e. AreGone self.now.of.keeping pass.new reader.old.shard e.0 × (e.0 ≢ reader.old.next))) }
        ensures stays { IfOk result (λ r. OnErr r ((reader.new ≡ reader.old) × SeesMore pass.old pass.new × (steps.new ≡ steps.old))) }
        ensures err { OnErr result ((reader.new ≡ reader.old) × (steps.new ≡ steps.old)) }
        ensures busy { IfErr result (λ e. e ≢ TryError.Lost → (e ≡ TryError.Busy) × (pass.new ≡ pass.old)) }
    {
        let index = reader.shard;
        let Some(mut inside) = self.enter_shard(index) else {
            return Err(TryError::Busy);
        };
        let slot = inside.slot;
        let entered = inside.seat.slot_mut(&slot.place.shared, 0);
        let taken = entered.take_next_once(&self.book, pass, reader.next, steps);
        inside.leave();
        match taken {
            Some(Ok(count)) => {
                reader.next = count;
                Ok(Ok(()))
            }
            Some(Err(gone)) => Ok(Err(Gone(gone))),
            None => Err(TryError::Lost),
        }
    }
}
