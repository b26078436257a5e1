//! Do the crates for traces do what no contract of theirs says? [`sorting`] sorts traces through temporary files that
//! fail and fill up. [`pictures`] compares tables and pictures with what was worked out by hand, and [`summaries`] the
//! figures of a text. The tests of the check are in `lt_trace_check_tests`.
#![tactic(auto)]

#[cfg(test)]
mod pictures;
#[cfg(test)]
mod sorting;
#[cfg(test)]
mod summaries;
