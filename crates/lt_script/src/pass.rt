//! The pass of a script's line.
ghost use Rattle.std.specs.Prelude.{◌≡◌, ◌<◌, ◌≤◌, ◌↔◌, IsSome, IfSome};

use std::marker::Model;

/// The pass that makes the calls of a line: a number from 1 to 64. In a contract it is that number.
#[derive(Clone, Copy, Debug, PartialEq, Eq)]
pub struct ScriptPass {
    number: u32,
}

impl Model for ScriptPass {
    ghost use Rattle.std.specs.Prelude.{ℕ, ◌≤◌};

    ghost Value = { ℕ };

    ghost view = { λ p. p.number };

    ghost invariant = { λ p. (1 ≤ p.number) × (p.number ≤ 64) };

    ghost inverse = { λ n. record { number = n } };
}

impl ScriptPass {
    /// The pass of this number, or `None` if the number is not from 1 to 64.
    pub fn new(number: u32) -> Option<ScriptPass>
        ensures some { IsSome result ↔ ((1 ≤ number) × (number ≤ 64)) }
        ensures value { IfSome result (λ pass. pass ≡ number) }
    {
        if number == 0 || number > 64 {
            return None;
        }
        Some(ScriptPass { number })
    }

    pub fn number(self) -> u32
        ensures value { result ≡ self }
        ensures low { 1 ≤ result }
        ensures high { result ≤ 64 }
    {
        self.number
    }
}
