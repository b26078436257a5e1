//! How the first version of the texts relates to the second.
ghost use Rattle.lt_checker.specs.First.{FirstRulesHold};

/// A history whose visits all have a transaction and no bound is legal exactly if it was legal by the rules of the
/// first version.
pub fn first_rules_hold()
    ensures { FirstRulesHold }
{}
