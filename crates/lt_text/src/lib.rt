//! How are the numbers and words read and written that scripts, answers and histories have in common?
//!
//! A number is decimal digits without a leading zero. A timestamp is `WALL.LOGICAL`, and a ticket is
//! `NUMBER.WAIT`. A call is its name and its arguments, such as `visit 1.1 8 20.0 r`; `visit 1.1 - 20.0 w max=2`
//! is a visit without a transaction and with a bound. A reply is its name. If it tells what a request waits for, a
//! transaction follows, and then `held` or `reserved` unless it is the request's own transaction. The lets of a step are
//! `let` and their tickets, or no words. Single spaces separate the words of a line.
//!
//! Each kind of word has one definition of how it is written and one of how it is read (`specs/Fields.antt`,
//! `specs/Calls.antt`, `specs/Replies.antt`), and each function here follows its definition. [`call::call`] and
//! [`reply::reply`] read words from a [`words::Words`], and [`put`] appends to a `Vec<u8>`. Lets are written here, in
//! [`lets`], and read by `lt_checker`.
//!
//! `lt_history` relies on two facts: whatever is written reads back as the same value, and whatever is read is
//! what writing its value gives. `proofs/FieldLaws.antt`, `CallLaws.antt` and `ReplyLaws.antt` prove them.
#![tactic(auto)]

pub mod call;
pub mod field;
pub mod lets;
pub mod number;
pub mod put;
pub mod reply;
pub mod words;
