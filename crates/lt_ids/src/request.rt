ghost use Rattle.std.specs.Prelude.{◌≡◌, ◌<◌, ◌≤◌, ◌^◌, ◌↔◌, IsSome, IfSome};
ghost use Rattle.lt_ids.specs.Ids.{IsNumber};
ghost use Rattle.lt_ids.specs.declared.limits.TheConstants.{MAX_PASS};

use crate::limits::{MAX_PASS, MAX_REQUEST};
use crate::{Timestamp, TxnId};

/// What a request does with a key.
#[derive(Clone, Copy, Debug, PartialEq, Eq)]
pub enum Access {
    Read,
    Write,
}

/// A request, with or without a transaction. Its number orders it among the requests: a smaller number came
/// earlier. The pass names the caller that makes its calls.
#[derive(Clone, Copy, Debug, PartialEq, Eq)]
pub struct Request {
    pub number: u64,
    pub txn: Option<TxnId>,
    pub ts: Timestamp,
    pub pass: u32,
    /// The request joins the writers of a key only if they are fewer than this. 0 means no bound.
    pub longest: u32,
    pub ghost number_in_range: { IsNumber number },
    pub ghost pass_in_range: { (1 ≤ pass) × (pass ≤ MAX_PASS) },
}

impl Request {
    /// The request, or `None` unless its number is 1 to [`MAX_REQUEST`] and its pass is 1 to [`MAX_PASS`].
    pub fn new(
        number: u64,
        txn: Option<TxnId>,
        ts: Timestamp,
        pass: u32,
        longest: u32,
    ) -> Option<Request>
        ensures some { IsSome result ↔ (IsNumber number × (1 ≤ pass) × (pass ≤ MAX_PASS)) }
        ensures number { IfSome result (λ r. r.number ≡ number) }
        ensures txn { IfSome result (λ r. r.txn ≡ txn) }
        ensures ts { IfSome result (λ r. r.ts ≡ ts) }
        ensures pass { IfSome result (λ r. r.pass ≡ pass) }
        ensures longest { IfSome result (λ r. r.longest ≡ longest) }
    {
        if number == 0 || number > MAX_REQUEST || pass == 0 || pass > MAX_PASS {
            return None;
        }
        Some(Request {
            number,
            txn,
            ts,
            pass,
            longest,
        })
    }
}
