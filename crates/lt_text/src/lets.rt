//! How are the lets of a step written?
//!
//! `specs/Lets.antt` defines the words: `let` and the tickets, or no words. [`put_lets`] appends them. It takes lets or
//! tickets alone, since only the ticket of a let is written.
ghost use Rattle.std.specs.Prelude.{◌≡◌, ◌++◌, ◌∷◌, OnOk, map};
ghost use Rattle.std.specs.List.{flat_map};
ghost use Rattle.lt_text.specs.Fields.{ticket_word};
ghost use Rattle.lt_text.specs.Lets.{lets_words};
ghost use Rattle.lt_text.specs.Compose.{spaced};

use crate::put::{put_ticket, put_word};
use lt_ids::{Through, Ticket};
use std::alloc::AllocError;

/// A ticket, or a let, which has one.
pub trait HasTicket {
    ghost use Rattle.lt_ids.specs.Ids.{Wait};

    ghost ticket: { Self → Wait };

    fn ticket(&self) -> Ticket
        ensures { result ≡ ticket self.now };
}

impl HasTicket for Ticket {
    ghost ticket = { λ t. t };

    fn ticket(&self) -> Ticket {
        *self
    }
}

impl HasTicket for Through {
    ghost ticket = { λ t. t.ticket };

    fn ticket(&self) -> Ticket {
        self.ticket
    }
}

/// Appends the tickets, with a space before each.
pub fn put_tickets<T: HasTicket>(out: &mut Vec<u8>, lets: &[T]) -> Result<(), AllocError>
    ensures { OnOk result (out.new.items ≡ out.old.items ++ flat_map (λ t. 32 ∷ ticket_word (T.ticket t)) lets.now) }
{
    for one in lets {
        put_ticket(out, one.ticket())?;
    }
    Ok(())
}

/// Appends `let` and the tickets, with a space before each word. Appends nothing if there are no lets.
#[tactic(auto, using(crate::proofs::LetLaws::lets_are))]
pub fn put_lets<T: HasTicket>(out: &mut Vec<u8>, lets: &[T]) -> Result<(), AllocError>
    ensures { OnOk result (out.new.items ≡ out.old.items ++ spaced (lets_words (map T.ticket lets.now))) }
{
    if lets.is_empty() {
        return Ok(());
    }
    put_word(out, b"let")?;
    put_tickets(out, lets)
}
