//! What crosses to C? These structs have the fields that C declares, in the same order. 0 stands for no transaction
//! and for no request.
ghost use Rattle.std.specs.Prelude.{◌≡◌};
ghost use Rattle.lt_handles.specs.Taking.{is_write, raw_call, raw_step};
ghost use Rattle.lt_handles.specs.Shapes.{raw_let, raw_queued, raw_writer, raw_reader, raw_reservation, raw_holder, raw_key, raw_key_name, txn_time};

use crate::codes::{reply_code, reply_txn, txn_number};
use lt_entry::Entry;
use lt_ids::{Access, Key, MAX_KEY_BYTES, Through, Timestamp};
use lt_rules::{Call, Holder, KeyState, QueuedRequest, QueuedWriter};

/// A transaction at a timestamp.
#[repr(C)]
#[derive(Clone, Copy)]
pub struct LtTxn {
    pub txn: u64,
    pub wall: u64,
    pub logical: u32,
}

/// A request that visits a key. `txn` is 0 for a request without a transaction, and `longest` is 0 for no bound.
#[repr(C)]
#[derive(Clone, Copy)]
pub struct LtRequest {
    pub number: u64,
    pub txn: u64,
    pub wall: u64,
    pub logical: u32,
    pub wait: u32,
    pub pass: u32,
    pub longest: u32,
    pub writes: bool,
}

/// The numbers with which a shared table is opened.
#[repr(C)]
#[derive(Clone, Copy)]
pub struct LtConfig {
    pub shards: usize,
    pub passes: usize,
    pub max_requests: u64,
    pub max_waits: u32,
}

/// How a shared table keeps its steps: 0 not at all, 1 until they are taken out, 2 until it is closed. A shard holds at most
/// `max_steps` steps at a time.
#[repr(C)]
#[derive(Clone, Copy)]
pub struct LtKeeping {
    pub max_steps: u64,
    pub way: u32,
}

/// What a request of a shared table asks for beside its keys. `txn` is 0 for a request without a transaction, and `longest`
/// is 0 for no bound.
#[repr(C)]
#[derive(Clone, Copy)]
pub struct LtTerms {
    pub txn: u64,
    pub wall: u64,
    pub logical: u32,
    pub longest: u32,
}

/// A let: it ends this wait of this request, which waits in this pass.
#[repr(C)]
#[derive(Clone, Copy)]
pub struct LtThrough {
    pub number: u64,
    pub wait: u32,
    pub pass: u32,
}

/// A queued request, or the one that holds the reservation. `number` is 0 if there is none.
#[repr(C)]
#[derive(Clone, Copy)]
pub struct LtQueued {
    pub number: u64,
    pub txn: u64,
    pub wall: u64,
    pub logical: u32,
    pub wait: u32,
    pub pass: u32,
    pub active: bool,
}

/// What the table knows of a key. `holder` is 0 if nobody holds the lock, and `distinguished` is 0 if there is no
/// distinguished waiter.
#[repr(C)]
#[derive(Clone, Copy)]
pub struct LtKey {
    pub holder: u64,
    pub wall: u64,
    pub logical: u32,
    pub distinguished: u64,
    pub reservation: LtQueued,
    pub writers: usize,
    pub readers: usize,
}

/// A key: its first `len` bytes, which are 1 to 64, and zeros after them.
#[repr(C)]
#[derive(Clone, Copy)]
pub struct LtKeyName {
    pub len: usize,
    pub bytes: [u8; MAX_KEY_BYTES],
}

/// What `lt_check` says of a text: of a legal one the version and the numbers of keys and steps, of another one the
/// first faulty line, counted from 1.
#[repr(C)]
#[derive(Clone, Copy)]
pub struct LtReport {
    pub version: u8,
    pub keys: usize,
    pub steps: usize,
    pub line: usize,
}

/// A call of the rules. `kind` is 1 for a visit, 2 for an acquire, 3 for an update, 4 for a finish, 5 for a leave and 6 for a
/// look. What a call does not name is 0.
#[repr(C)]
#[derive(Clone, Copy)]
pub struct LtCall {
    pub number: u64,
    pub txn: u64,
    pub wall: u64,
    pub logical: u32,
    pub wait: u32,
    pub longest: u32,
    pub kind: u32,
    pub writes: bool,
}

/// A key step: the pass made this call at the key, and was given the reply. `reply_txn` is the transaction that the reply names,
/// or 0, and `lets` is how many requests the step let through.
#[repr(C)]
#[derive(Clone, Copy)]
pub struct LtStep {
    pub key: LtKeyName,
    pub call: LtCall,
    pub pass: u32,
    pub reply: u32,
    pub reply_txn: u64,
    pub lets: usize,
}

/// What an end tells: how many numbers were drawn, if the table was ended; how many passes are out, if some are; and the shard
/// whose steps are not those of the passes, if there is one. The others are 0.
#[repr(C)]
#[derive(Clone, Copy)]
pub struct LtEnd {
    pub draws: u64,
    pub passes_out: usize,
    pub shard: usize,
}

pub fn raw_let(through: &Through) -> LtThrough
    ensures { result ≡ raw_let through.now }
{
    LtThrough {
        number: through.ticket.number(),
        wait: through.ticket.wait(),
        pass: through.pass,
    }
}

pub fn raw_queued(request: &QueuedRequest, active: bool) -> LtQueued
    ensures { result ≡ raw_queued request.now active }
{
    LtQueued {
        number: request.ticket.number(),
        txn: txn_number(request.txn),
        wall: request.ts.wall,
        logical: request.ts.logical,
        wait: request.ticket.wait(),
        pass: request.pass,
        active,
    }
}

pub fn raw_writer(writer: &QueuedWriter) -> LtQueued
    ensures { result ≡ raw_writer writer.now }
{
    raw_queued(&writer.request, writer.active)
}

/// A reader is active: it waits as long as it is queued.
pub fn raw_reader(reader: &QueuedRequest) -> LtQueued
    ensures { result ≡ raw_reader reader.now }
{
    raw_queued(reader, true)
}

pub fn raw_key_name(key: &Key) -> LtKeyName
    ensures { result ≡ raw_key_name key.now }
{
    let key = key.as_bytes();
    let len = key.len();
    let mut bytes = [0; MAX_KEY_BYTES];
    bytes[..len].copy_from_slice(key);
    LtKeyName { len, bytes }
}

fn raw_reservation(reservation: &Option<QueuedRequest>) -> LtQueued
    ensures { result ≡ raw_reservation reservation.now }
{
    match reservation {
        None => LtQueued {
            number: 0,
            txn: 0,
            wall: 0,
            logical: 0,
            wait: 0,
            pass: 0,
            active: false,
        },
        Some(request) => raw_queued(request, false),
    }
}

fn raw_holder(holder: &Option<Holder>) -> LtTxn
    ensures { result ≡ raw_holder holder.now }
{
    match holder {
        None => LtTxn {
            txn: 0,
            wall: 0,
            logical: 0,
        },
        Some(holder) => LtTxn {
            txn: holder.txn.number(),
            wall: holder.ts.wall,
            logical: holder.ts.logical,
        },
    }
}

/// What C sees of a key's record.
pub fn raw_key(state: &KeyState) -> LtKey
    ensures { result ≡ raw_key state.now }
{
    let holder = raw_holder(&state.holder);
    LtKey {
        holder: holder.txn,
        wall: holder.wall,
        logical: holder.logical,
        distinguished: state.distinguished.unwrap_or(0),
        reservation: raw_reservation(&state.reservation),
        writers: state.writers.len(),
        readers: state.readers.len(),
    }
}

/// The timestamp of a transaction that C names.
pub fn txn_time(by: &LtTxn) -> Timestamp
    ensures { result ≡ txn_time by.now }
{
    Timestamp {
        wall: by.wall,
        logical: by.logical,
    }
}

fn is_write(access: Access) -> bool
    ensures { result ≡ is_write access }
{
    match access {
        Access::Write => true,
        Access::Read => false,
    }
}

fn raw_call(call: Call) -> LtCall
    ensures { result ≡ raw_call call }
{
    let raw = LtCall {
        number: 0,
        txn: 0,
        wall: 0,
        logical: 0,
        wait: 0,
        longest: 0,
        kind: 0,
        writes: false,
    };
    match call {
        Call::Visit {
            ticket,
            txn,
            ts,
            access,
            longest,
        } => LtCall {
            number: ticket.number(),
            txn: txn_number(txn),
            wall: ts.wall,
            logical: ts.logical,
            wait: ticket.wait(),
            longest,
            kind: 1,
            writes: is_write(access),
        },
        Call::Acquire { txn, ts } => LtCall {
            txn: txn.number(),
            wall: ts.wall,
            logical: ts.logical,
            kind: 2,
            ..raw
        },
        Call::Update { txn, ts } => LtCall {
            txn: txn.number(),
            wall: ts.wall,
            logical: ts.logical,
            kind: 3,
            ..raw
        },
        Call::Finish { txn } => LtCall {
            txn: txn.number(),
            kind: 4,
            ..raw
        },
        Call::Leave { number } => LtCall {
            number,
            kind: 5,
            ..raw
        },
        Call::Look { number } => LtCall {
            number,
            kind: 6,
            ..raw
        },
    }
}

/// What C sees of a step, beside its lets.
pub fn raw_step(entry: &Entry) -> LtStep
    ensures { result ≡ raw_step entry.now }
{
    LtStep {
        key: raw_key_name(entry.key()),
        call: raw_call(entry.call()),
        pass: entry.pass(),
        reply: reply_code(&entry.reply()),
        reply_txn: reply_txn(&entry.reply()),
        lets: entry.lets().len(),
    }
}
