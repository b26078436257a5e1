//! Who wakes, and when? In [`readers`] one step lets many sleeping readers through. In [`interrupted`] a wait ends by an
//! interrupt. [`tests`] has the tests.
#![tactic(auto)]

#[cfg(test)]
mod interrupted;
#[cfg(test)]
mod readers;
#[cfg(test)]
mod tests;
