//! The check of histories, the lock table of one thread, and a lock table that threads share, for C and for Rust.
//!
//! This static library has an export for each call. [`lt_check`](check::lt_check) decides whether a text is the text of
//! legal histories, and `lt_check_begin` begins a check of a text in pieces. `lt_table_open` puts an empty table behind a
//! handle, and the other calls that begin with `lt_table_` make its steps, give the lets of a step, look into the table and
//! close it. A store keeps the handle behind a lock of its own, because two calls at once must not have one handle.
//! `lt_shared_open` opens a table that threads share, and each of them makes its calls, which begin with `lt_pass_`, through a
//! handle of its own. If it keeps its steps, it gives them to handles of their own, while it runs or at its end; the calls that
//! begin with `lt_steps_` show them.
//!
//! What is promised:
//!
//! - Each step of the table of one thread is the step of the rules (`lt_rules`) on its key alone, and its code is that of the
//!   reply.
//! - What the calls on a shared table report through a pass stands in what the pass has then seen, and that is legal. Of several
//!   passes the law `theorem_so_far` of `lt_walk` speaks, if one legal history extends what each of them has seen; while
//!   the table is open, no clause of an export gives that history.
//! - The end of a shared table tells of such a history, with passes of the table. That these are as their callers gave them back,
//!   no clause says.
//! - A call that answers a refusal has changed neither the handle nor what it was to write its answer to, with two exceptions:
//!   a refused scan and a refused leave of the shared table have made the steps before the refused one, and the scan has set
//!   its index to 0; a check in pieces that got no memory is over.
//! - No let of the table of one thread is lost or given twice: the lets that do not fit into the caller's array stay in the
//!   handle, and no other step is made until the caller has taken them.
//! - No let of a step of the shared table is lost on the way to the pass that made it: of each pass that was let through the
//!   latest let is left to be told until it is taken out.
//! - Every argument is tested. A call requires nothing of a key, a number or a length.
//!
//! What C must do, because no proof covers it: declare the structs of `shapes.rt` of `lt_handles` and the functions as they are here,
//! pass pointers to memory of these types that the call alone uses, set a handle to zero before its first call, and
//! neither copy nor write a handle. A pointer and a length are a slice; the pointer is not null, even if the length
//! is 0. `alloc` takes no bytes, so C does not pass it. The library takes memory by the three functions that begin
//! with `rattle_`.
//!
//! Read next: `steps.rt`, `looks.rt`, `lists.rt`, `check.rt` and `shard.rt` have the exports. `opening.rt`, `requests.rt`,
//! `pass_steps.rt`, `letting.rt`, `pass_looks.rt` and `pass_keys.rt` have those of the shared table, and `taking.rt`, `ending.rt`,
//! `taken_steps.rt` and `step_lines.rt` those of its history. `lt_handles` has what a handle holds, the structs and the codes, and
//! its `specs/` define what the contracts of the exports say.
#![tactic(auto)]

mod check;
mod ending;
mod letting;
mod lists;
mod looks;
mod opening;
mod pass_keys;
mod pass_looks;
mod pass_steps;
mod requests;
mod shard;
mod step_lines;
mod steps;
mod taken_steps;
mod taking;
mod version;
