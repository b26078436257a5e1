//! The answers that a line of a script can have.
use lt_ids::Key;
use lt_rules::Reply;

/// Why a call was refused. The contract of the call says in which state this leaves the request. Running out of
/// memory is never the answer of a line.
#[derive(Clone, Copy, Debug, PartialEq, Eq)]
pub enum Refusal {
    /// The request names no key.
    NoKeys,
    /// The request has more than 256 accesses.
    TooManyKeys,
    /// All request numbers are used up.
    NumbersOut,
    /// The request has begun to leave.
    Leaving,
    /// The request waits and has not been let through.
    StillWaiting,
    /// The request has used up all its waits.
    WaitsOut,
    /// The shard of the key has as many steps as it may have.
    HistoryFull,
}

/// The answer of a line of a script.
#[derive(Debug, PartialEq, Eq, Drop)]
pub enum LineAnswer {
    /// The pass now has a request, with this number.
    Request(u64),
    /// The pass already has a request.
    Busy,
    /// The request passed at every key.
    Proceed,
    /// The request got to the end of its keys, but had to wait on the way.
    Rescan,
    /// The request waits at this key.
    WaitingAt(Key),
    /// This key has too many writers for the request. The request starts again at its first key.
    TooLongAt(Key),
    /// The request was let through.
    Let,
    /// The request waits.
    Waiting,
    /// The request does not wait.
    Idle,
    /// The request still waited after as many polls as a line may make.
    Turns,
    /// The reply of the key.
    Replied(Reply),
    /// The request did not name this key.
    Stranger,
    /// The request has ended.
    Done,
    /// The pass has no request.
    NoRequest,
    Refused(Refusal),
}

/// An answer, with the number of its line, from 1. The list that holds it says whose line it is.
#[derive(Debug, PartialEq, Eq, Drop)]
pub struct AnswerLine {
    pub line: usize,
    pub answer: LineAnswer,
}
