//! What does a script consist of?
//!
//! A [`Script`] is a list of [`Command`]s, and a command is an [`Action`] with its line number and its pass. Read
//! next: `line.rt`, which parses an action.
ghost use Rattle.std.specs.Prelude.{◌≡◌};
ghost use Rattle.std.specs.Cmp.{partial_equiv_from_equiv};
ghost use Rattle.std.specs.Cmp.Lexicographic.{pointwise, lists_equiv};
ghost use Rattle.lt_script.specs.Same.{same_access, same_access_equiv};

use crate::ScriptPass;
use lt_ids::{Access, Key, Timestamp, TxnId};
use std::marker::Model;

/// The keys that a request names, each with its access, in the order of the line. A key may occur more than once.
/// In a contract it is the list of these pairs.
#[derive(Debug, Drop)]
pub struct Accesses {
    accesses: Vec<(Key, Access)>,
}

impl Model for Accesses {
    ghost use Rattle.std.specs.Prelude.{ℕ, List};
    ghost use Rattle.lt_ids.specs.declared.request.Access.{Access};

    ghost Value = { List (List ℕ × Access) };

    ghost view = { λ a. a.accesses.items };
}

impl Accesses {
    /// Wraps this list unchanged. Allocates nothing.
    pub fn new(accesses: Vec<(Key, Access)>) -> Self
        ensures { result ≡ accesses.items }
    {
        Accesses { accesses }
    }

    pub fn as_slice(&self) -> &[(Key, Access)]
        ensures { result.now ≡ self.now }
    {
        &self.accesses
    }
}

impl PartialEq for Accesses {
    ghost eq = { pointwise same_access };

    ghost laws = { partial_equiv_from_equiv (lists_equiv same_access_equiv) };

    fn eq(&self, other: &Accesses) -> bool {
        self.accesses == other.accesses
    }
}

impl Eq for Accesses {
    ghost laws = { lists_equiv same_access_equiv };
}

/// What a line of a script asks for.
#[derive(Debug, PartialEq, Eq, Drop)]
pub enum Action {
    /// Open a request for these keys, for the transaction or for none. The request joins the writers of a key only
    /// if they are fewer than `longest`; 0 means no bound.
    Open {
        txn: Option<TxnId>,
        ts: Timestamp,
        accesses: Accesses,
        longest: u32,
    },
    /// Visit the keys of the pass's request.
    Scan,
    /// Ask whether the pass's request was let through.
    Await,
    /// Report the state of the pass's request at the key: whether it waits there, and for what.
    Look {
        key: Key,
    },
    /// Take the lock of the key for the transaction.
    Acquire {
        txn: TxnId,
        ts: Timestamp,
        key: Key,
    },
    /// Raise the timestamp of the transaction's lock on the key.
    Update {
        txn: TxnId,
        ts: Timestamp,
        key: Key,
    },
    /// Release the transaction's lock on the key.
    Finish {
        txn: TxnId,
        key: Key,
    },
    /// End the pass's request.
    Leave,
}

/// A line of a script that is neither a comment nor blank. Its number counts from 1 over all lines.
#[derive(Debug, PartialEq, Eq, Drop)]
pub struct Command {
    pub line: usize,
    pub pass: ScriptPass,
    pub action: Action,
}

/// The commands of a text, in their order. In a contract it is the list of them.
#[derive(Debug, Drop)]
pub struct Script {
    commands: Vec<Command>,
}

impl Model for Script {
    ghost use Rattle.std.specs.Prelude.{List};
    ghost use Rattle.lt_script.specs.declared.command.Command.{Command};

    ghost Value = { List Command };

    ghost view = { λ s. s.commands.items };
}

impl Script {
    pub(crate) fn new(commands: Vec<Command>) -> Self
        ensures { result ≡ commands.items }
    {
        Script { commands }
    }

    pub fn as_slice(&self) -> &[Command]
        ensures { result.now ≡ self.now }
    {
        &self.commands
    }

    pub fn into_vec(self) -> Vec<Command>
        ensures { result.items ≡ self }
    {
        self.commands
    }
}
