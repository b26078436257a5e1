//! What is a transaction called? By a number that the table draws, so no two transactions have one name.
ghost use Rattle.std.specs.Prelude.{◌≡◌, ◌<◌, IfSome};
ghost use mathlib.Core.List.{IsPrefix};
ghost use Rattle.lt_words.specs.History.{draws_of, DrewIn};
ghost use Rattle.lt_words.specs.Row.{SeesMore};

use crate::cell_table::CellTable;
use example_values::ValueName;
use lt_ids::TxnId;
use lt_rules::KeyTable;
use lt_words::{Front, Name, Pass};
use std::marker::PhantomData;

/// A name that was drawn for a transaction.
#[derive(Drop)]
pub struct DrawnName<N: Name> {
    /// The name.
    pub id: TxnId,
    /// The number of the pass that drew it.
    pub pass: u32,
    /// What the pass had seen before.
    pub began: Front,
    /// What it had seen afterwards.
    pub seen: Front,
    name: PhantomData<N>,
    pub ghost of: { began.of ≡ N.of },
    pub ghost of_seen: { seen.of ≡ N.of },
    pub ghost above: { draws_of began.seen < id },
    pub ghost counted: { draws_of seen.seen ≡ id },
    pub ghost drew: { ∥ DrewIn seen.seen pass id ∥₁ },
}

impl<N: Name + ValueName, T: KeyTable> CellTable<N, T> {
    /// Draws a name for a transaction of this pass. `None` if the numbers are used up.
    pub fn name(&self, pass: &mut Pass) -> Option<DrawnName<N>>
        requires of { pass.old.of ≡ N.of }
        ensures more { SeesMore pass.old pass.new }
        ensures pass { IfSome result (λ n. n.pass ≡ pass.old.number) }
        ensures began { IfSome result (λ n. n.began.seen ≡ pass.old.seen) }
        ensures seen { IfSome result (λ n. n.seen.seen ≡ pass.new.seen) }
    {
        let began = pass.seen();
        let number = self.table.draw(pass)?;
        let id = TxnId::new(number)?;
        Some(DrawnName {
            id,
            pass: pass.number(),
            began,
            seen: pass.seen(),
            name: PhantomData,
        })
    }
}
