//! Of which lets was a caller not told yet? [`Untold`] has the ticket of the latest let of each pass, until it is taken out.
ghost use Rattle.std.specs.Prelude.{ℕ, ◌≡◌, ◌≤◌, ◌<◌, ◌+◌, [], length, replicate, get_or, slice_get, slice_set, Some, None, IfOk, IfSome, IfNone};
ghost use Rattle.lt_ids.specs.declared.limits.TheConstants.{MAX_PASS};
ghost use Rattle.lt_words.specs.Row.{NoneLeft};

use lt_ids::{Through, Ticket};
use std::alloc::{AllocError, Global};

/// For each pass, at the index of its number, the ticket of the latest let of which nobody was told. There is nothing below
/// `from`, and nothing from `until` on, so that whoever takes the lets out does not go over all of the passes.
#[derive(Drop)]
pub(crate) struct Untold {
    pub tickets: Vec<Option<Ticket>>,
    from: usize,
    until: usize,
    pub ghost few: { length tickets.items ≤ MAX_PASS + 1 },
    pub ghost below: { (i : ℕ) → i < from → get_or tickets.items i None ≡ None },
    pub ghost above: { (i : ℕ) → until ≤ i → get_or tickets.items i None ≡ None },
}

impl Untold {
    /// Of a pass that keeps no lets.
    pub fn none(alloc: Global) -> Untold
        ensures { result.tickets.items ≡ [] }
    {
        Untold {
            tickets: Vec::new(alloc),
            from: 0,
            until: 0,
        }
    }

    /// Of a pass that keeps the lets of the passes 1 to `passes`.
    pub fn of_passes(alloc: Global, passes: usize) -> Result<Untold, AllocError>
        requires { passes ≤ MAX_PASS }
        ensures { IfOk result (λ u. u.tickets.items ≡ replicate (passes + 1) None) }
    {
        let tickets = vec![in alloc; None; passes + 1]?;
        Ok(Untold {
            tickets,
            from: 0,
            until: 0,
        })
    }

    /// Keeps the let, if the pass keeps lets.
    pub fn add(&mut self, through: &Through)
        ensures { self.new.tickets.items ≡ slice_set self.old.tickets.items through.now.pass (Some through.now.ticket) }
    {
        let at = through.pass as usize;
        if at < self.tickets.len() {
            self.tickets[at] = Some(through.ticket);
            self.from = self.from.min(at);
            self.until = self.until.max(at + 1);
        }
    }

    /// Takes out the let of the lowest pass.
    pub fn take(&mut self) -> Option<Through>
        ensures some { IfSome result (λ t. slice_get self.old.tickets.items t.pass ≡ Some (Some t.ticket)) }
        ensures taken { IfSome result (λ t. self.new.tickets.items ≡ slice_set self.old.tickets.items t.pass None) }
        ensures none { IfNone result (NoneLeft self.old.tickets.items) }
        ensures same { IfNone result (self.new.tickets.items ≡ self.old.tickets.items) }
    {
        while self.from < self.until && self.from < self.tickets.len() {
            let at = self.from;
            self.from += 1;
            if let Some(ticket) = self.tickets[at] {
                self.tickets[at] = None;
                return Some(Through {
                    pass: at as u32,
                    ticket,
                });
            }
        }
        None
    }
}
