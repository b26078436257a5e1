//! What follows from the definitions of the statistics? No queue and no wait is longer than the longest one, and the
//! hottest keys come first. `specs/Laws.antt` has the laws.
ghost use Rattle.lt_trace_statistics.specs.Laws.{LongestWaits, NoLongerQueue, RankingIsHottestFirst};

/// After no step is a queue longer than the longest one.
pub fn no_longer_queue()
    ensures { NoLongerQueue }
{}

/// A ranking of keys has the same keys, and none is hotter than one before it.
pub fn ranking_is_hottest_first()
    ensures { RankingIsHottestFirst }
{}

/// The longest wait is a wait that a step ended, and no such wait is longer.
pub fn longest_waits()
    ensures { LongestWaits }
{}
