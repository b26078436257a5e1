//! What does a handle of the C library hold, and which structs and codes cross to C? `lt_c` has the exports over it.
//!
//! [`handle`] is what C holds: a flag and a pointer. [`slot`] owns what the pointer points to, and [`content`] says what that is: a
//! table of one thread ([`held`]), a check in pieces ([`held_check`]), or a share of a table that threads share ([`held_shared`],
//! [`held_ending`]). [`opening`], [`requests`] and [`ending`] make the calls on what is held. [`shapes`] has the structs
//! that C declares too, and [`codes`] and [`shared_codes`] have what a call answers.
//!
//! Read next: `src/handle.rt`. In `specs/`, `Steps`, `Looks`, `Lists`, `CheckPieces`, `Shared`, `PassLooks`, `Taking`, `Lines` and
//! `Ending` define what the contracts of the exports say.
#![tactic(auto)]

pub mod calls;
pub mod codes;
pub mod content;
pub mod ending;
pub mod handle;
pub mod held;
pub mod held_check;
pub mod held_ending;
pub mod held_shared;
pub mod opening;
pub mod pass_call;
pub mod requests;
pub mod seated;
pub mod shapes;
pub mod shared_codes;
pub mod slot;
