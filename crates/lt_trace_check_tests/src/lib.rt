//! Do the check of a trace and its explanation do what no contract of theirs says? [`audits`] cuts texts at every byte and compares
//! the verdicts. [`explanations`] compares what is said of faulty lines with what was worked out by hand.
#![tactic(auto)]

#[cfg(test)]
mod audits;
#[cfg(test)]
mod explanations;
