//! What does a caller keep of what it was told?
ghost use Rattle.std.specs.Prelude.{◌≡◌, ◌++◌, ◌∷◌, [], IsTrue};

use lt_entry::Entry;
use lt_table_core::Answer;
use std::alloc::Global;

/// The answers that a caller's calls gave it, and the numbers of the requests that it read as let through: both in order,
/// since the table was opened. Beside them are the steps that the caller took out of the table, of whichever caller.
#[derive(Drop)]
pub struct Notes {
    pub answers: Vec<Answer>,
    pub lets: Vec<u64>,
    pub taken: Vec<Entry>,
}

impl Notes {
    /// The notes of a caller that was told nothing.
    pub fn new(alloc: Global) -> Notes
        ensures answers { result.answers.items ≡ [] }
        ensures lets { result.lets.items ≡ [] }
    {
        Notes {
            answers: Vec::new(alloc),
            lets: Vec::new(alloc),
            taken: Vec::new(alloc),
        }
    }
}

/// Notes these answers. False if an allocation fails.
pub fn note_all(noted: &mut Vec<Answer>, answers: &[Answer]) -> bool
    ensures { IsTrue result → noted.new.items ≡ noted.old.items ++ answers.now }
{
    noted.extend_from_slice(answers).is_ok()
}

/// Notes that the request with this number was let through. False if an allocation fails.
pub fn note_let(noted: &mut Vec<u64>, number: u64) -> bool
    ensures { IsTrue result → noted.new.items ≡ noted.old.items ++ number ∷ [] }
{
    noted.push(number).is_ok()
}
