//! What may a request do next? [`next`] takes a move of a request and gives its open wait after the move, or the rule that
//! the move breaks. `specs/Waits.antt` defines the same. Read next: `moves.rt`.
ghost use Rattle.std.specs.Prelude.{◌≡◌};
ghost use Rattle.lt_trace_waits.specs.Waits.{begin, visit, let_through, ask, tell, give_up, next};

/// How far a wait has come.
#[derive(Clone, Copy, Debug, PartialEq, Eq)]
pub enum WaitPhase {
    /// A visit was answered `wait`. The request does not sleep yet.
    Begun,
    /// The request sleeps.
    Asked,
    /// A step let its ticket through.
    Let,
    /// The request was told of the let, and has not visited again.
    Told,
    /// The request gave up, and has not left.
    GaveUp,
}

/// A wait that has not come to its end. It ends when its request, told of a let, visits again without having to wait, or
/// when the request leaves.
#[derive(Clone, Copy, Debug, PartialEq, Eq)]
pub struct RequestWait {
    /// The wait number of its ticket.
    pub wait: u32,
    pub phase: WaitPhase,
    /// The line that led to the phase, counted from 1.
    pub line: u64,
}

/// Which rule a line breaks.
#[derive(Clone, Copy, Debug, PartialEq, Eq)]
pub enum WaitFault {
    /// The line is neither the line of a step nor one of the waiting layer.
    Shape,
    /// The request visits with a wait number that is not above that of its open wait.
    TicketAgain,
    /// The request visits before its wait has come to an end: it was not put to sleep, was not told, or gave up and has
    /// not left.
    Unfinished,
    /// The request has no such wait: it did not have to wait, sleeps already, or was let through before.
    NoWait,
    /// A step lets a request through that has to wait and does not sleep yet.
    NotAsleep,
    /// The request is told of a let that there was not, is told again, or has given up.
    NotLet,
}

impl WaitFault {
    /// The name of the fault, as a program prints it.
    pub fn name(self) -> &'static str {
        match self {
            WaitFault::Shape => "Shape",
            WaitFault::TicketAgain => "TicketAgain",
            WaitFault::Unfinished => "Unfinished",
            WaitFault::NoWait => "NoWait",
            WaitFault::NotAsleep => "NotAsleep",
            WaitFault::NotLet => "NotLet",
        }
    }
}

/// What a line says of a request.
#[derive(Clone, Copy, Debug, PartialEq, Eq)]
pub(crate) enum MoveKind {
    /// It visits and has to wait, with this ticket.
    Waits,
    /// It visits and does not have to wait.
    Passes,
    /// It leaves.
    Leaves,
    /// A step lets its ticket through.
    Lets,
    /// It sleeps until this ticket is let through.
    Asks,
    /// It is told that this ticket was let through.
    IsTold,
    /// It no longer waits for this ticket.
    GivesUp,
}

/// A move of a request.
#[derive(Clone, Copy, Debug, PartialEq, Eq)]
pub(crate) struct WaitMove {
    pub kind: MoveKind,
    /// The number of the request.
    pub number: u64,
    /// The wait number of the ticket, or 0 if the move names no ticket.
    pub wait: u32,
}

/// A visit that does not have to wait.
fn visit(current: Option<RequestWait>, wait: u32) -> Result<Option<RequestWait>, WaitFault>
    ensures { result ≡ visit current wait }
{
    let Some(before) = current else {
        return Ok(None);
    };
    if wait <= before.wait {
        return Err(WaitFault::TicketAgain);
    }
    if before.phase != WaitPhase::Told {
        return Err(WaitFault::Unfinished);
    }
    Ok(None)
}

/// A visit that has to wait.
fn begin(
    line: u64,
    current: Option<RequestWait>,
    wait: u32,
) -> Result<Option<RequestWait>, WaitFault>
    ensures { result ≡ begin line current wait }
{
    match visit(current, wait) {
        Ok(_) => Ok(Some(RequestWait {
            wait,
            phase: WaitPhase::Begun,
            line,
        })),
        Err(fault) => Err(fault),
    }
}

/// A let of the ticket with this wait number.
fn let_through(
    line: u64,
    current: Option<RequestWait>,
    wait: u32,
) -> Result<Option<RequestWait>, WaitFault>
    ensures { result ≡ let_through line current wait }
{
    let Some(before) = current else {
        return Err(WaitFault::NoWait);
    };
    if before.wait != wait {
        return Err(WaitFault::NoWait);
    }
    match before.phase {
        WaitPhase::Begun => Err(WaitFault::NotAsleep),
        WaitPhase::Asked => Ok(Some(RequestWait {
            wait,
            phase: WaitPhase::Let,
            line,
        })),
        WaitPhase::GaveUp => Ok(current),
        _ => Err(WaitFault::NoWait),
    }
}

/// The request goes to sleep.
fn ask(line: u64, current: Option<RequestWait>, wait: u32) -> Result<Option<RequestWait>, WaitFault>
    ensures { result ≡ ask line current wait }
{
    match current {
        Some(before) if before.wait == wait && before.phase == WaitPhase::Begun => {
            Ok(Some(RequestWait {
                wait,
                phase: WaitPhase::Asked,
                line,
            }))
        }
        _ => Err(WaitFault::NoWait),
    }
}

/// The request is told of its let.
fn tell(
    line: u64,
    current: Option<RequestWait>,
    wait: u32,
) -> Result<Option<RequestWait>, WaitFault>
    ensures { result ≡ tell line current wait }
{
    match current {
        Some(before) if before.wait == wait && before.phase == WaitPhase::Let => {
            Ok(Some(RequestWait {
                wait,
                phase: WaitPhase::Told,
                line,
            }))
        }
        _ => Err(WaitFault::NotLet),
    }
}

/// The request gives up.
fn give_up(
    line: u64,
    current: Option<RequestWait>,
    wait: u32,
) -> Result<Option<RequestWait>, WaitFault>
    ensures { result ≡ give_up line current wait }
{
    let Some(before) = current else {
        return Err(WaitFault::NoWait);
    };
    if before.wait != wait {
        return Err(WaitFault::NoWait);
    }
    match before.phase {
        WaitPhase::Asked | WaitPhase::Let | WaitPhase::Told => Ok(Some(RequestWait {
            wait,
            phase: WaitPhase::GaveUp,
            line,
        })),
        _ => Err(WaitFault::NoWait),
    }
}

/// The open wait of a request after a move in this line, or the rule that the move breaks.
pub(crate) fn next(
    line: u64,
    current: Option<RequestWait>,
    step: WaitMove,
) -> Result<Option<RequestWait>, WaitFault>
    ensures { result ≡ next line current step }
{
    match step.kind {
        MoveKind::Waits => begin(line, current, step.wait),
        MoveKind::Passes => visit(current, step.wait),
        MoveKind::Leaves => Ok(None),
        MoveKind::Lets => let_through(line, current, step.wait),
        MoveKind::Asks => ask(line, current, step.wait),
        MoveKind::IsTold => tell(line, current, step.wait),
        MoveKind::GivesUp => give_up(line, current, step.wait),
    }
}
