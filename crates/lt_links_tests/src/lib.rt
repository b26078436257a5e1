//! What do the contracts of the linked queues leave open? That their calls succeed while memory lasts: the tests say so.
#![tactic(auto)]

#[cfg(test)]
mod tests;
