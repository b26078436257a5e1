//! What does a caller of the store hold? A [`StoreSession`]: a pass of the table, the transaction that it has begun, and
//! the log of those that it has committed.
//!
//! A pass is not `Drop`, and the library's threads take only values that are. So the session keeps its pass in a
//! [`PassSlot`], whose own `Drop` gives the pass up by name. A request takes the pass out and puts it back when it
//! leaves.
ghost use Rattle.std.specs.Prelude.{◌≡◌, ◌<◌, Some, None, IfSome, length};
ghost use Rattle.std.specs.Option.{ForSome};
ghost use Rattle.std.specs.List.{All};
ghost use Rattle.example_store.specs.Sessions.{IsSeenIn};

use example_cells::{ActiveTxn, CommitLog};
use example_values::ValueName;
use lt_words::{Name, Pass, abandon_all};
use std::alloc::{AllocError, Global};
use std::marker::PhantomData;
use std::mem;

/// A slot for a pass of the table that `N` names. It may be dropped: the pass in it is then given up, and the table
/// can never be closed.
pub struct PassSlot<N: Name + ValueName> {
    /// The pass. `None` while a request has it, and after it was given up.
    pub pass: Option<Pass>,
    name: PhantomData<N>,
    pub ghost of: { ForSome pass (λ p. p.of ≡ N.of) },
}

impl<N: Name + ValueName> Drop for PassSlot<N> {
    fn drop(self) {
        let PassSlot { pass, name: _ } = self;
        give_up(pass);
    }
}

fn give_up(pass: Option<Pass>) {
    if let Some(pass) = pass {
        pass.abandon();
    }
}

impl<N: Name + ValueName> PassSlot<N> {
    /// A slot with this pass.
    pub fn new(pass: Pass) -> PassSlot<N>
        requires { pass.of ≡ N.of }
        ensures { result.pass ≡ Some pass }
    {
        PassSlot {
            pass: Some(pass),
            name: PhantomData,
        }
    }

    /// Takes the pass out, if there is one.
    pub fn take(&mut self) -> Option<Pass>
        ensures of { IfSome result (λ pass. pass.of ≡ N.of) }
        ensures took { result ≡ self.old.pass }
        ensures none { self.new.pass ≡ None }
    {
        self.pass.take()
    }

    /// Puts the pass back. A pass that the slot still has is given up.
    pub fn put(&mut self, pass: Pass)
        requires { pass.of ≡ N.of }
        ensures { self.new.pass ≡ Some pass }
    {
        give_up(mem::replace(&mut self.pass, Some(pass)));
    }
}

/// A caller of the store. It has at most one transaction at a time.
#[derive(Drop)]
pub struct StoreSession<N: Name + ValueName> {
    /// The pass that makes the session's calls.
    pub slot: PassSlot<N>,
    /// The transaction, from its begin to its commit or abort.
    pub txn: Option<ActiveTxn<N>>,
    /// The transactions that the session has committed, in order.
    pub log: CommitLog<N>,
    // The log is that of the pass, which has seen all that the log has.
    pub ghost number: { ForSome slot.pass (λ p. p.number ≡ log.pass) },
    pub ghost seen: { ForSome slot.pass (λ p. IsSeenIn log.seen p.seen) },
    // The pass drew the transaction's name after the log's latest transaction was done, and the log has room for one more.
    pub ghost own: { ForSome txn (λ t. t.name.pass ≡ log.pass) },
    pub ghost after: { ForSome txn (λ t. IsSeenIn log.seen t.name.began.seen) },
    pub ghost room: { ForSome txn (λ t. length log.commits < log.capacity) },
}

impl<N: Name + ValueName> StoreSession<N> {
    ghost use Rattle.std.specs.Prelude.{◌≡◌, []};

    /// A session with this pass, which has committed nothing.
    pub fn new(alloc: Global, pass: Pass) -> StoreSession<N>
        requires { pass.of ≡ N.of }
        ensures none { result.log.commits ≡ [] }
    {
        let log = CommitLog::new(alloc, pass.number(), pass.seen());
        StoreSession {
            slot: PassSlot::new(pass),
            txn: None,
            log,
        }
    }
}

/// A session for each pass, in order. If an allocation fails, the passes are given up.
pub fn sessions_of<N: Name + ValueName>(
    alloc: Global,
    passes: Vec<Pass>,
) -> Result<Vec<StoreSession<N>>, AllocError>
    requires { All (λ p. p.of ≡ N.of) passes.items }
{
    let Ok(mut sessions) = Vec::with_capacity(alloc, passes.len()) else {
        abandon_all(passes);
        return Err(AllocError);
    };
    let mut rest = passes.into_iter();
    while let Some(pass) = rest.next() {
        sessions.push_reserved(StoreSession::new(alloc, pass));
    }
    rest.destroy_empty();
    Ok(sessions)
}
