//! How does a caller know that what it read is what another transaction put? Both are in the log of values, which says one
//! value of a step.
ghost use Rattle.std.specs.Prelude.{◌≡◌, ℕ, true, Some, Option, List};
ghost use Rattle.example_cells.specs.declared.cell.CellReading.{CellReading};
ghost use Rattle.example_cells.specs.declared.cell.PastTenure.{PastTenure};
ghost use Rattle.example_cells.specs.Knowing.{value_bytes};
ghost use Rattle.example_cells.specs.Leaving.{LeftAt, IsReadingLeft};

use crate::committed::LockTenure;
use crate::held::HeldLock;
use example_values::{ValueName, entries_stay};
use lt_words::Name;

impl<N: Name + ValueName> HeldLock<N> {
    /// Ghost call: tells the prover that a reading under this lock (`left` of `CellTable::take`) is what the tenure left that
    /// ended last, if that is this one (`left` of `CellTable::commit` says what it left).
    pub fn reads_what_was_left(&self, tenure: &LockTenure)
        requires { tenure.now.values.book ≡ N.values }
        ensures { (r : CellReading) (t : PastTenure) (bytes : Option (List ℕ)) →
            IsReadingLeft N.of.shards self.now.values.log self.now.key r → r.left ≡ true → r.last ≡ Some t →
            self.now.key ≡ tenure.now.key → t.freed ≡ tenure.now.freed →
            LeftAt N.of.shards tenure.now.values.log tenure.now.key tenure.now.freed bytes →
            value_bytes r.value ≡ bytes }
    {
        entries_stay();
        self.was_taken();
        let mut both = self.values.again();
        both.learn(&tenure.values);
    }
}
