//! How does each call add to what its caller was told?
ghost use Rattle.std.specs.Prelude.{◌≡◌, ◌≢◌, ◌<◌, IfSome};
ghost use Rattle.lt_walk.specs.Taken.{IsTaken};
ghost use Rattle.lt_theorem_callers.specs.Heard.{HasNoted, NotesMore, IsStaying};

use crate::notes::{Notes, note_all, note_let};
use lt_ids::{Access, Key, Timestamp, TxnId};
use lt_rules::KeyTable;
use lt_table_core::laws::hearing_goes_on;
use lt_table_core::{EnterRefused, Guard, LeaveStopped, Left, Poll, Scan, Table};
use lt_words::{Keeping, Name, Pass};
use std::alloc::Global;
use std::sync::Wait;

/// When each lock of this crate is taken.
pub const TIME: Timestamp = Timestamp {
    wall: 1,
    logical: 0,
};

/// How often a request scans at most.
pub const SCANS: u32 = 1_000;

/// A caller between two requests: its pass, and its notes of what it was told. A caller that is dropped gives its pass up.
pub struct NotingCaller {
    pub pass: Pass,
    pub notes: Notes,
}

impl Drop for NotingCaller {
    fn drop(self) {
        let NotingCaller { pass, notes: _ } = self;
        pass.abandon();
    }
}

impl NotingCaller {
    /// The pass and the notes.
    pub fn into_parts(self) -> (Pass, Notes)
        ensures pass { result.0 ≡ self.pass }
        ensures notes { result.1 ≡ self.notes }
    {
        let NotingCaller { pass, notes } = self;
        (pass, notes)
    }
}

/// A caller whose request is in the table: the request's guard, and the caller's notes. A requester that is dropped gives
/// its request up.
pub struct NotingRequester {
    pub guard: Guard,
    pub notes: Notes,
}

impl Drop for NotingRequester {
    fn drop(self) {
        let NotingRequester { guard, notes: _ } = self;
        guard.abandon();
    }
}

impl NotingRequester {
    /// The guard and the notes.
    fn into_parts(self) -> (Guard, Notes)
        ensures guard { result.0 ≡ self.guard }
        ensures notes { result.1 ≡ self.notes }
    {
        let NotingRequester { guard, notes } = self;
        (guard, notes)
    }
}

/// Notes what a scan of this guard told.
fn scanned<N: Name, T: KeyTable, R: Wait>(
    rt: &R,
    table: &Table<N, T>,
    guard: &mut Guard,
    notes: &mut Notes,
) -> Option<Scan>
    requires noted { HasNoted N.of guard.old.pass notes.old }
    ensures noted { IfSome result (λ s. NotesMore N.of guard.old.pass guard.new.pass notes.new) }
    ensures staying { IfSome result (λ s. IsStaying guard.new) }
{
    hearing_goes_on();
    let Ok(scan) = table.scan(rt, guard) else {
        return None;
    };
    if note_all(&mut notes.answers, guard.answers()) {
        Some(scan)
    } else {
        None
    }
}

/// Notes what a wait of this guard told. `None` if the request was not let through.
fn waited<N: Name, T: KeyTable, R: Wait>(
    rt: &R,
    table: &Table<N, T>,
    guard: &mut Guard,
    notes: &mut Notes,
) -> Option<()>
    requires noted { HasNoted N.of guard.old.pass notes.old }
    requires staying { IsStaying guard.old }
    ensures noted { IfSome result (λ s. NotesMore N.of guard.old.pass guard.new.pass notes.new) }
    ensures staying { IfSome result (λ s. IsStaying guard.new) }
{
    hearing_goes_on();
    let Poll::Through = table.wait(rt, guard) else {
        return None;
    };
    if note_let(&mut notes.lets, guard.number()) {
        Some(())
    } else {
        None
    }
}

/// Notes what an acquire by this guard answered.
fn acquired<N: Name, T: KeyTable, R: Wait>(
    rt: &R,
    table: &Table<N, T>,
    guard: &mut Guard,
    notes: &mut Notes,
    key: &Key,
    txn: TxnId,
) -> Option<()>
    requires noted { HasNoted N.of guard.old.pass notes.old }
    requires staying { IsStaying guard.old }
    ensures noted { IfSome result (λ s. NotesMore N.of guard.old.pass guard.new.pass notes.new) }
    ensures staying { IfSome result (λ s. IsStaying guard.new) }
{
    hearing_goes_on();
    let Ok(answer) = table.acquire_in(rt, guard, key, txn, TIME) else {
        return None;
    };
    if note_all(&mut notes.answers, &[answer]) {
        Some(())
    } else {
        None
    }
}

/// Notes what a finish by this pass answered.
fn finished<N: Name, T: KeyTable, R: Wait>(
    rt: &R,
    table: &Table<N, T>,
    pass: &mut Pass,
    notes: &mut Notes,
    key: &Key,
    txn: TxnId,
) -> Option<()>
    requires noted { HasNoted N.of pass.old notes.old }
    ensures noted { IfSome result (λ s. NotesMore N.of pass.old pass.new notes.new) }
{
    hearing_goes_on();
    let Ok(answer) = table.finish(rt, pass, key, txn) else {
        return None;
    };
    if note_all(&mut notes.answers, &[answer]) {
        Some(())
    } else {
        None
    }
}

/// A request of the caller enters, to write the key. `None` if it is refused.
pub fn enter<N: Name, T: KeyTable>(
    alloc: Global,
    table: &Table<N, T>,
    caller: NotingCaller,
    key: &Key,
    txn: TxnId,
) -> Option<NotingRequester>
    requires noted { HasNoted N.of caller.pass caller.notes }
    ensures noted { IfSome result (λ r. NotesMore N.of caller.pass r.guard.pass r.notes) }
    ensures staying { IfSome result (λ r. IsStaying r.guard) }
{
    hearing_goes_on();
    let mut accesses = Vec::new(alloc);
    accesses.push((key.copy().ok()?, Access::Write)).ok()?;
    let (pass, notes) = caller.into_parts();
    match table.enter(alloc, pass, Some(txn), TIME, &accesses, 0) {
        Ok(guard) => Some(NotingRequester { guard, notes }),
        Err(EnterRefused { pass, error: _ }) => {
            pass.abandon();
            None
        }
    }
}

/// Scans once.
pub fn scan<N: Name, T: KeyTable, R: Wait>(
    rt: &R,
    table: &Table<N, T>,
    requester: &mut NotingRequester,
) -> Option<Scan>
    requires noted { HasNoted N.of requester.old.guard.pass requester.old.notes }
    ensures noted { IfSome result (λ s. NotesMore N.of requester.old.guard.pass requester.new.guard.pass requester.new.notes) }
    ensures staying { IfSome result (λ s. IsStaying requester.new.guard) }
{
    scanned(rt, table, &mut requester.guard, &mut requester.notes)
}

/// Waits until the request is let through.
pub fn wait<N: Name, T: KeyTable, R: Wait>(
    rt: &R,
    table: &Table<N, T>,
    requester: &mut NotingRequester,
) -> Option<()>
    requires noted { HasNoted N.of requester.old.guard.pass requester.old.notes }
    requires staying { IsStaying requester.old.guard }
    ensures noted { IfSome result (λ s. NotesMore N.of requester.old.guard.pass requester.new.guard.pass requester.new.notes) }
    ensures staying { IfSome result (λ s. IsStaying requester.new.guard) }
{
    waited(rt, table, &mut requester.guard, &mut requester.notes)
}

/// The transaction takes the lock of the key.
pub fn acquire<N: Name, T: KeyTable, R: Wait>(
    rt: &R,
    table: &Table<N, T>,
    requester: &mut NotingRequester,
    key: &Key,
    txn: TxnId,
) -> Option<()>
    requires noted { HasNoted N.of requester.old.guard.pass requester.old.notes }
    requires staying { IsStaying requester.old.guard }
    ensures noted { IfSome result (λ s. NotesMore N.of requester.old.guard.pass requester.new.guard.pass requester.new.notes) }
    ensures staying { IfSome result (λ s. IsStaying requester.new.guard) }
{
    acquired(
        rt,
        table,
        &mut requester.guard,
        &mut requester.notes,
        key,
        txn,
    )
}

/// Scans until the request proceeds, and waits whenever it has to. `None` after [`SCANS`] scans.
pub fn proceed<N: Name, T: KeyTable, R: Wait>(
    rt: &R,
    table: &Table<N, T>,
    requester: &mut NotingRequester,
) -> Option<()>
    requires noted { HasNoted N.of requester.old.guard.pass requester.old.notes }
    ensures noted { IfSome result (λ s. NotesMore N.of requester.old.guard.pass requester.new.guard.pass requester.new.notes) }
    ensures staying { IfSome result (λ s. IsStaying requester.new.guard) }
{
    for _ in 0..SCANS {
        match scan(rt, table, requester)? {
            Scan::Proceed => return Some(()),
            Scan::Rescan => {}
            Scan::Waiting(_) => wait(rt, table, requester)?,
            Scan::TooLong(_) => return None,
        }
    }
    None
}

/// The request leaves.
pub fn leave<N: Name, T: KeyTable, R: Wait>(
    rt: &R,
    table: &Table<N, T>,
    requester: NotingRequester,
) -> Option<NotingCaller>
    requires noted { HasNoted N.of requester.guard.pass requester.notes }
    requires staying { IsStaying requester.guard }
    ensures noted { IfSome result (λ c. NotesMore N.of requester.guard.pass c.pass c.notes) }
{
    hearing_goes_on();
    let (guard, mut notes) = requester.into_parts();
    match table.leave(rt, guard) {
        Ok(Left { pass, answers }) => {
            if note_all(&mut notes.answers, &answers) {
                Some(NotingCaller { pass, notes })
            } else {
                pass.abandon();
                None
            }
        }
        Err(LeaveStopped { guard, error: _ }) => {
            guard.abandon();
            None
        }
    }
}

/// The transaction frees the lock of the key.
pub fn finish<N: Name, T: KeyTable, R: Wait>(
    rt: &R,
    table: &Table<N, T>,
    caller: &mut NotingCaller,
    key: &Key,
    txn: TxnId,
) -> Option<()>
    requires noted { HasNoted N.of caller.old.pass caller.old.notes }
    ensures noted { IfSome result (λ s. NotesMore N.of caller.old.pass caller.new.pass caller.new.notes) }
{
    finished(rt, table, &mut caller.pass, &mut caller.notes, key, txn)
}

/// Takes out the steps that the shard holds, and returns how many of the shard's steps were made before them. What the
/// caller was told stands: a take is no step.
pub fn take_out<N: Name, T: KeyTable, R: Wait>(
    rt: &R,
    alloc: Global,
    table: &Table<N, T>,
    caller: &mut NotingCaller,
    shard: usize,
) -> u64
    requires noted { HasNoted N.of caller.old.pass caller.old.notes }
    requires shard { shard < N.of.shards }
    requires keeping { N.of.keeping ≢ Keeping.Whole }
    ensures noted { NotesMore N.of caller.old.pass caller.new.pass caller.new.notes }
    ensures taken { IsTaken shard caller.new.pass.seen result caller.new.notes.taken.items }
{
    hearing_goes_on();
    let mut steps = Vec::new(alloc);
    let before = table.take_history(rt, &mut caller.pass, shard, &mut steps);
    caller.notes.taken = steps;
    before
}
