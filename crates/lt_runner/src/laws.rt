//! Laws of the machine of a pass.
//!
//! Each law is the contract of a function that does nothing. It speaks of the definitions alone.
ghost use Rattle.lt_runner.specs.Laws.{NumbersAreLatest, WaitingHasVisit, LongHasVisit, LetHasTicket, ReplyHasStep};

/// At each line, the request of the pass has the number of the latest `request` answer before that line.
pub fn numbers_are_latest()
    ensures { NumbersAreLatest }
{}

/// A line that is answered `waiting KEY` has visited that key, and the reply was that the request must wait.
pub fn waiting_has_visit()
    ensures { WaitingHasVisit }
{}

/// A line that is answered `long KEY` has visited that key, and the reply was that the key has too many writers.
pub fn long_has_visit()
    ensures { LongHasVisit }
{}

/// A line that is answered `let` proceeds with the ticket of its request's latest wait.
pub fn let_has_ticket()
    ensures { LetHasTicket }
{}

/// An answer that is a reply has its step. Only acquire, update, finish and look have such answers.
pub fn reply_has_step()
    ensures { ReplyHasStep }
{}
