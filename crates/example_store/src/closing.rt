//! How is a store closed, and what does the close say of all transactions? [`Store::close`] closes the lock table with the
//! passes of the sessions, and gives the sessions' logs. Their transactions went one after the other (`in_order`).
ghost use Rattle.std.specs.Prelude.{◌≡◌, ◌≢◌, true, List, IfOk, IfSome, map};
ghost use Rattle.std.specs.List.{All, AllZip, AllByRecursion};
ghost use Rattle.lt_words.specs.Row.{PassState};
ghost use Rattle.example_store.specs.Closing.{IsLogOf, PassNumbersDiffer, ClosedInOrder};

use crate::error::CloseFault;
use crate::session::StoreSession;
use crate::store::Store;
use example_cells::{CommitLog, commits_went_in_order};
use example_values::ValueName;
use lt_table::Rests;
use lt_words::{Name, Pass, abandon_all};
use std::alloc::{AllocError, Global};
use std::sync::Wait;

/// What is left of a store: the steps of the lock table that nobody has taken out, and the logs of the sessions.
#[derive(Drop)]
pub struct ClosedStore<N: Name + ValueName> {
    /// What is left of each shard of the table.
    pub rests: Rests,
    /// What each session has committed, in the order of the sessions.
    pub logs: Vec<CommitLog<N>>,
}

/// The pass of a session and its log. `None` if it has no pass.
fn parts_of<N: Name + ValueName>(session: StoreSession<N>) -> Option<(Pass, CommitLog<N>)>
    ensures of { IfSome result (λ r. r.0.of ≡ N.of) }
    ensures log { IfSome result (λ r. IsLogOf r.0 r.1) }
    ensures same { IfSome result (λ r. r.1 ≡ session.log) }
{
    let StoreSession {
        mut slot,
        txn: _,
        log,
        ..
    } = session;
    let pass = slot.take()?;
    Some((pass, log))
}

/// The passes of these sessions and their logs. After an error the passes are given up.
fn all_parts_of<N: Name + ValueName>(
    alloc: Global,
    sessions: Vec<StoreSession<N>>,
) -> Result<(Vec<Pass>, Vec<CommitLog<N>>), CloseFault>
    ensures of { IfOk result (λ r. All (λ p. p.of ≡ N.of) r.0.items) }
    ensures each { IfOk result (λ r. AllZip IsLogOf r.0.items r.1.items) }
    ensures logs { IfOk result (λ r. r.1.items ≡ map (λ s. s.log) sessions.items) }
{
    let mut logs = Vec::with_capacity(alloc, sessions.len())?;
    let mut passes = Vec::with_capacity(alloc, sessions.len())?;
    for session in sessions {
        let Some((pass, log)) = parts_of(session) else {
            abandon_all(passes);
            return Err(CloseFault::NoPass);
        };
        passes.push_reserved(pass);
        logs.push_reserved(log);
    }
    Ok((passes, logs))
}

/// Whether none of these passes has this number.
fn is_new(passes: &[Pass], number: u32) -> bool
    ensures { result ≡ true → AllByRecursion (λ q. number ≢ q.number) passes.now }
{
    passes.iter().all(|pass| number != pass.number())
}

/// Whether these passes have different numbers.
fn differ(passes: &[Pass]) -> bool
    ensures { result ≡ true → PassNumbersDiffer passes.now }
{
    match passes.split_first() {
        None => true,
        Some((first, rest)) => is_new(rest, first.number()) && differ(rest),
    }
}

/// The passes of these sessions, which have different numbers, and their logs. After an error the passes are given up.
fn different_parts_of<N: Name + ValueName>(
    alloc: Global,
    sessions: Vec<StoreSession<N>>,
) -> Result<(Vec<Pass>, Vec<CommitLog<N>>), CloseFault>
    ensures of { IfOk result (λ r. All (λ p. p.of ≡ N.of) r.0.items) }
    ensures each { IfOk result (λ r. AllZip IsLogOf r.0.items r.1.items) }
    ensures logs { IfOk result (λ r. r.1.items ≡ map (λ s. s.log) sessions.items) }
    ensures differ { IfOk result (λ r. PassNumbersDiffer r.0.items) }
{
    let (passes, logs) = all_parts_of(alloc, sessions)?;
    if differ(passes.as_slice()) {
        return Ok((passes, logs));
    }
    abandon_all(passes);
    Err(CloseFault::SamePass)
}

impl<N: Name + ValueName> Store<N> {
    /// Closes the store's table with the passes of all sessions. After an error they are given up.
    pub fn close<R: Wait>(
        self,
        rt: &R,
        sessions: Vec<StoreSession<N>>,
    ) -> Result<ClosedStore<N>, CloseFault>
        ensures logs { IfOk result (λ c. c.logs.items ≡ map (λ s. s.log) sessions.items) }
        ensures in_order { IfOk result (λ c. (passes : List PassState) × ClosedInOrder N.of passes c.rests c.logs.items) }
    {
        let Store { alloc, cells, .. } = self;
        let (passes, logs) = different_parts_of(alloc, sessions)?;
        commits_went_in_order(&logs);
        match cells
            .into_table()
            .close_rest(rt, alloc, passes, Vec::new(alloc))
        {
            Ok(rests) => Ok(ClosedStore { rests, logs }),
            Err(refused) => {
                let error = refused.error;
                refused.abandon();
                Err(CloseFault::Table(error))
            }
        }
    }
}
