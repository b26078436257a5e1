//! Tests of the program of `lt_theorem_callers`: it comes to its end.
#![tactic(auto)]

#[cfg(test)]
mod tests;
