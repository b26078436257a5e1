//! Which lines are in memory, and in which order? A [`Batch`] collects lines of a trace, counts the bytes that they
//! take, and sorts them by key.
ghost use Rattle.std.specs.Prelude.{◌≡◌, ◌++◌, ◌∷◌, [], OnOk, IfOk, length, vec_len};
ghost use Rattle.std.specs.List.Sorted.{IsSortedByKey, IsStableByKey};
ghost use Rattle.std.specs.Ordering.{nat_cmp};
ghost use Rattle.std.specs.Cmp.Lexicographic.{slice_cmp};

use crate::line::TraceLine;
use std::alloc::{AllocError, Global};

/// How many bytes a line takes beside its own: its entry in a list that may have room for twice its lines, an entry
/// in the list that the sort needs, and what an allocator adds to two allocations.
const ENTRY: usize = 176;

#[derive(Drop)]
pub(crate) struct Batch {
    lines: Vec<TraceLine>,
    held: usize,
}

/// Sorts the lines by key. Lines of the same key keep their order.
fn sort_lines(lines: &mut Vec<TraceLine>) -> Result<(), AllocError>
    ensures sorted { OnOk result (IsSortedByKey (λ l. l.key) (slice_cmp nat_cmp) lines.new.items) }
    ensures stable { IsStableByKey (λ l. l.key) (slice_cmp nat_cmp) lines.old.items lines.new.items }
    ensures len { vec_len lines.new ≡ vec_len lines.old }
{
    lines.sort_by(|a, b| a.key.cmp(&b.key))?;
    Ok(())
}

impl Batch {
    pub fn new(alloc: Global) -> Batch
        ensures { result.lines.items ≡ [] }
    {
        Batch {
            lines: Vec::new(alloc),
            held: 0,
        }
    }

    /// Appends the line.
    pub fn push(&mut self, line: TraceLine) -> Result<(), AllocError>
        ensures { OnOk result (self.new.lines.items ≡ self.old.lines.items ++ line ∷ []) }
    {
        let held = self.held.saturating_add(ENTRY).saturating_add(line.size());
        self.lines.push(line)?;
        self.held = held;
        Ok(())
    }

    pub fn is_empty(&self) -> bool {
        self.lines.is_empty()
    }

    /// How many bytes the lines take.
    pub fn held(&self) -> usize {
        self.held
    }

    /// The lines, sorted by key. Lines of the same key keep their order.
    pub fn sorted(&mut self) -> Result<&[TraceLine], AllocError>
        ensures sorted { IfOk result (λ s. IsSortedByKey (λ l. l.key) (slice_cmp nat_cmp) s.now) }
        ensures stable { IfOk result (λ s. IsStableByKey (λ l. l.key) (slice_cmp nat_cmp) self.old.lines.items s.now) }
        ensures count { IfOk result (λ s. length s.now ≡ length self.old.lines.items) }
    {
        sort_lines(&mut self.lines)?;
        Ok(&self.lines)
    }

    pub fn clear(&mut self)
        ensures { self.new.lines.items ≡ [] }
    {
        self.lines.clear();
        self.held = 0;
    }
}
