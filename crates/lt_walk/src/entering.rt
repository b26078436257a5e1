//! How does a request enter? Its keys are listed, room for answers is allocated, and its number is drawn last. Read
//! next `src/scan_and_poll.rt`.
ghost use Rattle.std.specs.Prelude.{◌≡◌, ◌≢◌, ◌<◌, ◌≤◌, ◌^◌, ◌↔◌, [], length, IfOk, IfErr, vec_capacity, Err};
ghost use Rattle.lt_walk.specs.Keys.{IsKeyList};
ghost use Rattle.lt_walk.specs.Entered.{IsEntered, IsRefused};

use crate::guard::{Guard, guard_of};
use crate::keys::{EnterError, key_list};
use crate::leaving::Left;
use crate::walk::Walk;
use lt_ids::{Access, Key, Timestamp, TxnId};
use lt_shard::Answer;
use lt_words::{Book, Pass};
use std::alloc::Global;

/// A request that did not enter: its pass comes back, and no number was drawn.
pub struct EnterRefused {
    pub pass: Pass,
    pub error: EnterError,
}

/// What a request asks for beside its keys: `txn` is its transaction, or `None`, and it joins the writers of a key only
/// if they are fewer than `longest`; 0 means no bound.
#[derive(Clone, Copy)]
pub struct Terms {
    pub txn: Option<TxnId>,
    pub ts: Timestamp,
    pub longest: u32,
}

/// A key list, and room for one answer for each key.
#[derive(Drop)]
pub(crate) struct EnterRoom {
    pub keys: Vec<(Key, Access)>,
    pub answers: Vec<Answer>,
    pub ghost roomy: { length keys.items ≤ vec_capacity answers },
    pub ghost free: { length answers.items ≡ 0 },
}

impl EnterRoom {
    ghost use Rattle.std.specs.Prelude.{◌≡◌, ◌≢◌, ◌<◌, ◌↔◌, [], length, IfOk};
    ghost use Rattle.lt_walk.specs.Keys.{IsKeyList};

    #[inline(always)]
    fn new(
        alloc: Global,
        list: Vec<(Key, Access)>,
        mut answers: Vec<Answer>,
        accesses: &[(Key, Access)],
    ) -> Result<EnterRoom, EnterError>
        requires list { list.items ≡ [] }
        requires answers { answers.items ≡ [] }
        ensures keys { IfOk result (λ room. IsKeyList accesses.now room.keys.items) }
        ensures none { (result ≡ Err EnterError.NoKeys) ↔ (accesses.now ≡ []) }
        ensures many { (result ≡ Err EnterError.TooManyKeys) ↔ (256 < length accesses.now) }
        ensures drawn { result ≢ Err EnterError.NumbersOut }
    {
        let keys = key_list(alloc, list, accesses)?;
        answers.reserve_exact(keys.len())?;
        Ok(EnterRoom { keys, answers })
    }
}

/// Enters a request with these accesses through the pass: lists its keys, and draws its number last. So none is drawn if
/// the accesses are refused or an allocation fails. Its guard keeps the pass until the request leaves.
///
/// The answers that an earlier request left are dropped, and their room serves this request.
#[inline(always)]
pub fn enter_on(
    book: &Book,
    max_requests: u64,
    alloc: Global,
    left: Left,
    terms: Terms,
    accesses: &[(Key, Access)],
) -> Result<Guard, EnterRefused>
    requires pass { left.pass.of ≡ book.now }
    requires few { max_requests < 2 ^ 40 }
    ensures entered { IfOk result (λ g. IsEntered left.pass accesses.now terms.txn terms.ts terms.longest max_requests g) }
    ensures refused { IfErr result (λ e. IsRefused e.error left.pass accesses.now max_requests e.pass) }
{
    let Left {
        mut pass,
        mut answers,
    } = left;
    answers.clear();
    let list = pass.take_list(alloc);
    let room = match EnterRoom::new(alloc, list, answers, accesses) {
        Ok(room) => room,
        Err(error) => return Err(EnterRefused { pass, error }),
    };
    let Some(number) = book.draw(&mut pass, max_requests) else {
        let error = EnterError::NumbersOut;
        return Err(EnterRefused { pass, error });
    };
    let EnterRoom { keys, answers } = room;
    let walk = Walk::at_start(keys, answers, number, terms.txn, terms.ts, terms.longest);
    Ok(guard_of(pass, walk))
}
