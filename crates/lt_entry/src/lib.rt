//! What does a history keep of each step, and which histories are legal?
//!
//! A history is the list of the steps of a lock table. Each step is an [`Entry`]: its key, pass, call, reply and
//! lets. A history is legal if, for each key by itself, the rules of one key (`lt_rules`) give each reply and each
//! let of its steps (`AreLegalKeys` in `specs/Legal.antt`). The growing history, the shards and the table keep
//! such lists; `lt_history` writes them as text.
//!
//! Read next: `specs/Ranges.antt` has the numbers that an entry can have. `proofs/OneMore.antt` serves code that
//! keeps a table together with its history: the history stays legal after one more step, and replaying its steps
//! from the empty table gives the table.
#![tactic(auto)]

mod entry;

pub use entry::{Entry, Lets, LetsRoom};
