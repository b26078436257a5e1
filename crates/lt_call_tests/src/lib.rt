//! Does the plain key table follow the rules of one key? What do the table's public calls answer at their limits, in
//! each way of keeping the history, and when an allocation fails?
//!
//! - **One key.** [`rules`] plays examples that were worked by hand on a plain key table.
//! - **Lines of text.** [`text`] reads calls from lines. [`playing`] plays them on a whole table, which stores all
//!   its steps, and [`keeping`] on a table that streams its steps or records none. [`worked`], [`kept`] and
//!   [`learning`] have the tests. [`closing`] tries to close a table without its last pass.
//! - **Failed allocations.** The tests of [`refusals`] and [`rules`] pass under any single allocation failure.
//!   [`refusing`] plays the script of the former. [`valuing`] has finishes refused that would have lent a value. Calls where
//!   memory has ended are in `lt_memory_tests`.
//!
//! Worked schedules are scripts of the tool (`lt_tool_tests`).
#![tactic(auto)]

#[cfg(test)]
mod closing;
#[cfg(test)]
mod keeping;
#[cfg(test)]
mod kept;
#[cfg(test)]
mod learning;
#[cfg(test)]
mod playing;
#[cfg(test)]
mod refusals;
#[cfg(test)]
mod refusing;
#[cfg(test)]
mod rules;
#[cfg(test)]
mod text;
#[cfg(test)]
mod valuing;
#[cfg(test)]
mod worked;
