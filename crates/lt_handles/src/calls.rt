//! Which visit does C ask for? Its numbers have ranges, and the first one out of its range is refused.
ghost use Rattle.std.specs.Prelude.{◌≡◌, ◌≤◌, IfOk, IsOk, IfSome, IsNone, Err};
ghost use Rattle.lt_handles.specs.Calls.{visit_act, visit_fault, act_of};

use crate::codes::{BAD_NUMBER, BAD_PASS, BAD_WAIT};
use crate::pass_call::PassCall;
use crate::shapes::LtRequest;
use lt_ids::{Access, MAX_PASS, MAX_REQUEST, MAX_WAIT, Ticket, Timestamp, TxnId};
use lt_rules::Call;

/// The visit that C asks for, or the code of its first fault.
pub fn visit_of(request: &LtRequest) -> Result<PassCall, u32>
    ensures fault { IfSome (visit_fault request.now) (λ code. result ≡ Err code) }
    ensures sound { IsNone (visit_fault request.now) → IsOk result }
    ensures call { IfOk result (λ c. act_of c ≡ visit_act request.now) }
{
    let number = request.number;
    if number == 0 || number > MAX_REQUEST {
        return Err(BAD_NUMBER);
    }
    let wait = request.wait;
    if wait == 0 || wait > MAX_WAIT {
        return Err(BAD_WAIT);
    }
    let pass = request.pass;
    if pass == 0 || pass > MAX_PASS {
        return Err(BAD_PASS);
    }
    Ok(PassCall {
        pass,
        call: Call::Visit {
            ticket: Ticket::new(number, wait).unwrap(),
            txn: TxnId::new(request.txn),
            ts: Timestamp {
                wall: request.wall,
                logical: request.logical,
            },
            access: if request.writes {
                Access::Write
            } else {
                Access::Read
            },
            longest: request.longest,
        },
    })
}
