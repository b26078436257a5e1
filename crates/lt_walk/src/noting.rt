//! For whom do the passes of a new table note the lets of their steps? For a waker, or for their own callers.
ghost use Rattle.std.specs.Prelude.{◌≡◌, ◌≤◌, IfOk, length, map};
ghost use Rattle.std.specs.List.{All};
ghost use Rattle.lt_ids.specs.declared.limits.TheConstants.{MAX_PASS};
ghost use Rattle.lt_words.specs.Row.{AreNoting, AreTelling, OwesNoWakeUp, quiet};

use lt_words::{Book, Pass, abandon_all};
use std::alloc::{AllocError, Global};

/// Lets each pass note every let, for a waker. If an allocation fails, the passes are given up.
pub fn noting_lets(passes: Vec<Pass>) -> Result<Vec<Pass>, AllocError>
    requires { All (λ p. OwesNoWakeUp p) passes.items }
    ensures same { IfOk result (λ noting. map quiet noting.items ≡ map quiet passes.items) }
    ensures noting { IfOk result (λ noting. AreNoting (length passes.items) noting.items) }
{
    let mut noting = passes;
    let room = noting.len();
    for index in 0..noting.len() {
        if noting[index].note_each_let(room).is_err() {
            abandon_all(noting);
            return Err(AllocError);
        }
    }
    Ok(noting)
}

/// Lets each pass of the book keep every let, for its caller. If an allocation fails, the passes are given up.
pub fn keeping_lets(alloc: Global, book: &Book, passes: Vec<Pass>) -> Result<Vec<Pass>, AllocError>
    requires of { All (λ p. p.of ≡ book.now) passes.items }
    requires all { length passes.items ≡ book.now.passes }
    requires few { length passes.items ≤ MAX_PASS }
    requires owe { All (λ p. OwesNoWakeUp p) passes.items }
    ensures same { IfOk result (λ keeping. map quiet keeping.items ≡ map quiet passes.items) }
    ensures telling { IfOk result (λ keeping. AreTelling keeping.items) }
{
    let mut keeping = passes;
    let many = keeping.len();
    for index in 0..keeping.len() {
        if keeping[index].keep_lets(alloc, many).is_err() {
            abandon_all(keeping);
            return Err(AllocError);
        }
    }
    Ok(keeping)
}
