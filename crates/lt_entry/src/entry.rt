//! How does a history keep one step of a key? [`Entry`] takes the call and the reply apart and stores their fields
//! side by side, to be small; `specs/Entry.antt` puts them together again. Read `specs/Ranges.antt` next for the
//! numbers that an entry can have, and `specs/Legal.antt` for the legal histories.
ghost use Rattle.std.specs.Prelude.{◌≡◌, ◌≤◌, All};
ghost use Rattle.lt_entry.specs.Entry.{call_of, reply_of, entry_with, lets_in, txn_in};
ghost use Rattle.lt_entry.specs.Ranges.{IsTxn, IsOwner, IsTicket, IsTime, IsCall, IsReply, IsInRange, NamesNumber};
ghost use Rattle.lt_ids.specs.declared.limits.TheConstants.{MAX_PASS};

use lt_ids::{Access, Key, Through, Ticket, Timestamp, TxnId};
use lt_rules::{Call, Reply};
use std::alloc::{AllocError, Global};
use std::fmt::{self, Debug, Formatter, Write};
use std::marker::Model;
use std::snapshot::Snapshot;

/// The kind of an entry's call. A visit with a transaction and one without are different kinds.
#[derive(Clone, Copy, Debug, PartialEq, Eq)]
enum CallKind {
    OwnedVisit,
    UnownedVisit,
    Acquire,
    Update,
    Finish,
    Leave,
    Look,
}

/// The kind of an entry's reply.
#[derive(Clone, Copy, Debug, PartialEq, Eq)]
enum ReplyKind {
    Passed,
    MustWait,
    TooLong,
    Taken,
    Kept,
    Raised,
    Other,
    Freed,
    Left,
    Absent,
    Nothing,
    Reserved,
    Idle,
    WaitFor,
    WaitFirst,
    WaitOwn,
}

/// A call in parts. A part that the kind does not have may hold any value. The number of a leave or a look is
/// stored as the wall time.
#[derive(Clone, Copy, Debug)]
struct CallParts {
    kind: CallKind,
    ticket: Ticket,
    txn: TxnId,
    ts: Timestamp,
    access: Access,
    longest: u32,
}

/// A reply in parts. A part that the kind does not have may hold any value.
#[derive(Clone, Copy, Debug)]
struct ReplyParts {
    kind: ReplyKind,
    txn: TxnId,
    held: bool,
}

/// The ticket of a call that has none. No code looks at it.
fn any_ticket() -> Ticket {
    Ticket::new(1, 1).unwrap()
}

/// The transaction of a call or a reply that has none. No code looks at it.
fn any_txn() -> TxnId {
    TxnId::new(1).unwrap()
}

/// The parts of a call.
#[inline(always)]
fn call_parts(call: &Call) -> CallParts
    ensures { call_of result.kind result.ticket result.txn result.ts result.access result.longest ≡ call.now }
{
    let parts = CallParts {
        kind: CallKind::Look,
        ticket: any_ticket(),
        txn: any_txn(),
        ts: Timestamp {
            wall: 0,
            logical: 0,
        },
        access: Access::Read,
        longest: 0,
    };
    match *call {
        Call::Visit {
            ticket,
            txn: Some(txn),
            ts,
            access,
            longest,
        } => CallParts {
            kind: CallKind::OwnedVisit,
            ticket,
            txn,
            ts,
            access,
            longest,
        },
        Call::Visit {
            ticket,
            txn: None,
            ts,
            access,
            longest,
        } => CallParts {
            kind: CallKind::UnownedVisit,
            ticket,
            ts,
            access,
            longest,
            ..parts
        },
        Call::Acquire { txn, ts } => CallParts {
            kind: CallKind::Acquire,
            txn,
            ts,
            ..parts
        },
        Call::Update { txn, ts } => CallParts {
            kind: CallKind::Update,
            txn,
            ts,
            ..parts
        },
        Call::Finish { txn } => CallParts {
            kind: CallKind::Finish,
            txn,
            ..parts
        },
        Call::Leave { number } => CallParts {
            kind: CallKind::Leave,
            ts: wall(number),
            ..parts
        },
        Call::Look { number } => CallParts {
            kind: CallKind::Look,
            ts: wall(number),
            ..parts
        },
    }
}

/// A number, stored as a wall time.
fn wall(number: u64) -> Timestamp
    ensures { result ≡ record { wall = number; logical = 0 } }
{
    Timestamp {
        wall: number,
        logical: 0,
    }
}

/// A reply that names no transaction.
fn plain(kind: ReplyKind) -> ReplyParts
    ensures { result.kind ≡ kind }
{
    ReplyParts {
        kind,
        txn: any_txn(),
        held: false,
    }
}

/// The parts of a reply.
#[inline(always)]
fn reply_parts(reply: Reply) -> ReplyParts
    ensures { reply_of result.kind result.txn result.held ≡ reply }
{
    match reply {
        Reply::Passed => plain(ReplyKind::Passed),
        Reply::MustWait => plain(ReplyKind::MustWait),
        Reply::TooLong => plain(ReplyKind::TooLong),
        Reply::Taken => plain(ReplyKind::Taken),
        Reply::Kept => plain(ReplyKind::Kept),
        Reply::Raised => plain(ReplyKind::Raised),
        Reply::Other => plain(ReplyKind::Other),
        Reply::Freed => plain(ReplyKind::Freed),
        Reply::Left => plain(ReplyKind::Left),
        Reply::Absent => plain(ReplyKind::Absent),
        Reply::Nothing => plain(ReplyKind::Nothing),
        Reply::Reserved => plain(ReplyKind::Reserved),
        Reply::Idle => plain(ReplyKind::Idle),
        Reply::WaitFor(txn, held) => ReplyParts {
            kind: ReplyKind::WaitFor,
            txn,
            held,
        },
        Reply::WaitFirst(txn, held) => ReplyParts {
            kind: ReplyKind::WaitFirst,
            txn,
            held,
        },
        Reply::WaitOwn(txn) => ReplyParts {
            kind: ReplyKind::WaitOwn,
            txn,
            held: false,
        },
    }
}

/// The lets of a step that lets requests through, and the transaction that its reply names.
#[derive(Drop)]
struct LettingReply {
    txn: TxnId,
    lets: Vec<Through>,
}

/// The lets of a step, and the transaction that its reply names. Few steps let a request through, so only those have
/// an allocation for it.
#[derive(Drop)]
enum ReplyRest {
    NoLets(TxnId),
    Lets(Box<LettingReply>),
}

/// Room for the lets of one step. A shard allocates it before the step is made, so that the entry of a step that has
/// been made needs no memory.
#[derive(Drop)]
pub struct LetsRoom {
    alloc: Global,
    room: Box<LettingReply>,
}

impl LetsRoom {
    /// Allocates the room. Error: `AllocError` if the allocation fails.
    pub fn new(alloc: Global) -> Result<Self, AllocError> {
        let room = LettingReply {
            txn: any_txn(),
            lets: Vec::new(alloc),
        };
        match Box::new(alloc, room) {
            Ok(room) => Ok(LetsRoom { alloc, room }),
            Err(_) => Err(AllocError),
        }
    }

    /// Puts these lets into the room. The call allocates nothing.
    pub fn fill(self, lets: Vec<Through>) -> Lets
        ensures { result ≡ lets.items }
    {
        let LetsRoom { alloc, mut room } = self;
        room.lets = lets;
        Lets {
            alloc,
            rest: ReplyRest::Lets(room),
        }
    }
}

/// The lets of a step, as an entry takes them. In a contract, they are the list of them.
#[derive(Drop)]
pub struct Lets {
    alloc: Global,
    rest: ReplyRest,
}

impl Model for Lets {
    ghost use Rattle.std.specs.Prelude.{List};
    ghost use Rattle.lt_ids.specs.declared.ticket.Through.{Through};
    ghost use Rattle.lt_entry.specs.Entry.{lets_in};

    ghost Value = { List Through };

    ghost view = { λ l. lets_in l.rest };
}

impl Lets {
    ghost use Rattle.std.specs.Prelude.{◌≡◌, []};

    /// The lets of a step that lets nobody through. The call allocates nothing.
    #[inline(always)]
    pub fn none(alloc: Global) -> Self
        ensures { result ≡ [] }
    {
        Lets {
            alloc,
            rest: ReplyRest::NoLets(any_txn()),
        }
    }
}

/// The same lets, for a reply that names this transaction.
#[inline(always)]
fn naming(txn: TxnId, rest: ReplyRest) -> ReplyRest
    ensures txn { txn_in result ≡ txn }
    ensures lets { lets_in result ≡ lets_in rest }
{
    match rest {
        ReplyRest::NoLets(_) => ReplyRest::NoLets(txn),
        ReplyRest::Lets(mut room) => {
            room.txn = txn;
            ReplyRest::Lets(room)
        }
    }
}

/// The transaction that a reply with this rest names.
fn txn_in(rest: &ReplyRest) -> TxnId
    ensures { result ≡ txn_in rest.now }
{
    match rest {
        ReplyRest::NoLets(txn) => *txn,
        ReplyRest::Lets(room) => room.txn,
    }
}

/// One step of a key, as a history keeps it. Its fields are laid out to take 80 bytes, because a table may keep
/// every step until it is closed. In a contract, it is a record of its key, pass, call, reply and lets.
#[derive(Drop)]
pub struct Entry {
    alloc: Global,
    key: Key,
    call_kind: CallKind,
    reply_kind: ReplyKind,
    access: Access,
    held: bool,
    longest: u32,
    pass: u32,
    logical: u32,
    wall: u64,
    ticket: Ticket,
    txn: TxnId,
    rest: ReplyRest,
}

impl Model for Entry {
    ghost use Rattle.lt_rules.specs.Step.{EntryState};
    ghost use Rattle.lt_entry.specs.Entry.{call_of, reply_of, entry_with, lets_in, txn_in};

    ghost Value = { EntryState };

    ghost view = { λ e. entry_with e.key e.pass
        (call_of e.call_kind e.ticket e.txn (record { wall = e.wall; logical = e.logical }) e.access e.longest)
        (reply_of e.reply_kind (txn_in e.rest) e.held)
        (lets_in e.rest) };
}

impl Entry {
    /// The step at this key by the pass with this number, 1 to 1024. The call allocates nothing.
    #[inline(always)]
    pub fn new(key: Key, pass: u32, call: &Call, reply: Reply, lets: Lets) -> Self
        ensures { result ≡ record { key = key; pass = pass; call = call.now; reply = reply; lets = lets } }
    {
        let asked = call_parts(call);
        let told = reply_parts(reply);
        let Lets { alloc, rest } = lets;
        Entry {
            alloc,
            key,
            call_kind: asked.kind,
            reply_kind: told.kind,
            access: asked.access,
            held: told.held,
            longest: asked.longest,
            pass,
            logical: asked.ts.logical,
            wall: asked.ts.wall,
            ticket: asked.ticket,
            txn: asked.txn,
            rest: naming(told.txn, rest),
        }
    }

    /// The key of the step.
    pub fn key(&self) -> &Key
        ensures { result.now ≡ self.now.key }
    {
        &self.key
    }

    /// The pass that made the call, from 1 to 1024.
    pub fn pass(&self) -> u32
        ensures { result ≡ self.now.pass }
    {
        self.pass
    }

    /// The call of the step.
    pub fn call(&self) -> Call
        ensures { result ≡ self.now.call }
    {
        let ts = Timestamp {
            wall: self.wall,
            logical: self.logical,
        };
        match self.call_kind {
            CallKind::OwnedVisit => Call::Visit {
                ticket: self.ticket,
                txn: Some(self.txn),
                ts,
                access: self.access,
                longest: self.longest,
            },
            CallKind::UnownedVisit => Call::Visit {
                ticket: self.ticket,
                txn: None,
                ts,
                access: self.access,
                longest: self.longest,
            },
            CallKind::Acquire => Call::Acquire { txn: self.txn, ts },
            CallKind::Update => Call::Update { txn: self.txn, ts },
            CallKind::Finish => Call::Finish { txn: self.txn },
            CallKind::Leave => Call::Leave { number: self.wall },
            CallKind::Look => Call::Look { number: self.wall },
        }
    }

    /// The reply of the step.
    pub fn reply(&self) -> Reply
        ensures { result ≡ self.now.reply }
    {
        match self.reply_kind {
            ReplyKind::Passed => Reply::Passed,
            ReplyKind::MustWait => Reply::MustWait,
            ReplyKind::TooLong => Reply::TooLong,
            ReplyKind::Taken => Reply::Taken,
            ReplyKind::Kept => Reply::Kept,
            ReplyKind::Raised => Reply::Raised,
            ReplyKind::Other => Reply::Other,
            ReplyKind::Freed => Reply::Freed,
            ReplyKind::Left => Reply::Left,
            ReplyKind::Absent => Reply::Absent,
            ReplyKind::Nothing => Reply::Nothing,
            ReplyKind::Reserved => Reply::Reserved,
            ReplyKind::Idle => Reply::Idle,
            ReplyKind::WaitFor => Reply::WaitFor(txn_in(&self.rest), self.held),
            ReplyKind::WaitFirst => Reply::WaitFirst(txn_in(&self.rest), self.held),
            ReplyKind::WaitOwn => Reply::WaitOwn(txn_in(&self.rest)),
        }
    }

    /// The lets of the step, in order.
    pub fn lets(&self) -> &[Through]
        ensures { result.now ≡ self.now.lets }
    {
        match &self.rest {
            ReplyRest::NoLets(_) => &[],
            ReplyRest::Lets(room) => &room.lets,
        }
    }

    /// Tells the prover that all numbers of the entry are in their ranges, so that a text of histories can contain
    /// it. The types ensure this for every number except the pass and the number of a leave or a look. At run
    /// time, the call does nothing.
    pub fn in_range(&self)
        requires low { 1 ≤ self.now.pass }
        requires high { self.now.pass ≤ MAX_PASS }
        requires number { NamesNumber self.now.call }
        ensures { IsInRange self.now }
    {
        let _ = self.key().as_bytes();
        call_in_range(&self.call());
        reply_in_range(&self.reply());
        lets_in_range(self.lets());
    }

    /// Tells the prover the same about an entry that is given by its parts and need not exist.
    pub fn parts_in_range(key: &Key, pass: u32, call: &Call, reply: &Reply, lets: &[Through])
        requires low { 1 ≤ pass }
        requires high { pass ≤ MAX_PASS }
        requires number { NamesNumber call.now }
        ensures { IsInRange (entry_with key.now pass call.now reply.now lets.now) }
    {
        let _ = key.as_bytes();
        call_in_range(call);
        reply_in_range(reply);
        lets_in_range(lets);
    }

    /// The lets of the step, for the proofs alone. At run time, the call does nothing.
    pub fn snapshot_of_lets(&self) -> Snapshot<Vec<Through>>
        ensures { result.value.items ≡ self.now.lets }
    {
        match &self.rest {
            ReplyRest::NoLets(_) => Snapshot::of(&Vec::new(self.alloc)),
            ReplyRest::Lets(room) => Snapshot::of(&room.lets),
        }
    }
}

impl Debug for Entry {
    fn fmt<W: Write>(&self, f: &mut Formatter<W>) -> fmt::Result {
        write!(
            f,
            "{:?} {} {:?} = {:?} {:?}",
            self.key(),
            self.pass(),
            self.call(),
            self.reply(),
            self.lets()
        )
    }
}

fn ticket_in_range(ticket: Ticket)
    ensures { IsTicket ticket }
{
    let _ = (ticket.number(), ticket.wait());
}

fn txn_in_range(txn: TxnId)
    ensures { IsTxn txn }
{
    let _ = txn.number();
}

fn owner_in_range(txn: Option<TxnId>)
    ensures { IsOwner txn }
{
    match txn {
        None => {}
        Some(txn) => txn_in_range(txn),
    }
}

fn time_in_range(ts: Timestamp)
    ensures { IsTime ts }
{
    let _ = (ts.wall, ts.logical);
}

fn call_in_range(call: &Call)
    ensures { NamesNumber call.now → IsCall call.now }
{
    match *call {
        Call::Visit {
            ticket,
            txn,
            ts,
            longest,
            ..
        } => {
            ticket_in_range(ticket);
            owner_in_range(txn);
            time_in_range(ts);
            // Tells the prover that a bound has the range of its type.
            let _bound = longest;
        }
        Call::Acquire { txn, ts } | Call::Update { txn, ts } => {
            txn_in_range(txn);
            time_in_range(ts);
        }
        Call::Finish { txn } => txn_in_range(txn),
        Call::Leave { .. } | Call::Look { .. } => {}
    }
}

fn reply_in_range(reply: &Reply)
    ensures { IsReply reply.now }
{
    match *reply {
        Reply::WaitFor(txn, _) | Reply::WaitFirst(txn, _) | Reply::WaitOwn(txn) => {
            txn_in_range(txn)
        }
        _ => {}
    }
}

fn lets_in_range(lets: &[Through])
    ensures { All (λ t. IsTicket t.ticket) lets.now }
{
    for through in lets {
        ticket_in_range(through.ticket);
    }
}
