//! What follows from the rule of the words, for every history that any caller has seen?
//!
//! Each law is the contract of a function that does no work; `specs/Laws.antt` has the statements. What a pass or a
//! front has seen is a legal history (`Pass::legal`, `Front::legal`), and what it sees later extends it. So the
//! laws say what a caller may conclude from what it was told at different times, and from what others were told.
ghost use Rattle.lt_words.specs.Laws.{DrawsGiveTheNext, NumbersRise, NumbersAreOfDraws, NumbersAreDrawnOnce, NumbersAreOfOnePass, PrefixesAreLegal, PartsBegin, StepsStay, DrawsStay, LetsStay, WordsRise, ShownStays, WordsAreLets, AllStepsAreInTheirShards, PartsAreLegal};
ghost use Rattle.lt_words.specs.History.{OneHolderAtEachKey, ReadsPassAtEachKey};

use lt_rules::laws::{one_holder, reads_pass};

/// A draw gives one more than the number of draws before it.
pub fn draws_give_the_next()
    ensures { DrawsGiveTheNext }
{}

/// Of two draws the later one gives the greater number.
pub fn numbers_rise()
    ensures { NumbersRise }
{}

/// A number that was drawn is at least 1, and at most the number of draws.
pub fn numbers_are_of_draws()
    ensures { NumbersAreOfDraws }
{}

/// Two draws of one number are the same draw: by one pass, at one index.
pub fn numbers_are_drawn_once()
    ensures { NumbersAreDrawnOnce }
{}

/// Each number was drawn by one pass only.
pub fn numbers_are_of_one_pass()
    ensures { NumbersAreOfOnePass }
{}

/// A prefix of a legal history is legal.
pub fn prefixes_are_legal()
    ensures { PrefixesAreLegal }
{}

/// A shard's part of a prefix is a prefix of the shard's part.
pub fn parts_begin()
    ensures { PartsBegin }
{}

/// A step keeps its index in its shard's part.
pub fn steps_stay()
    ensures { StepsStay }
{}

/// A draw is in every later history.
pub fn draws_stay()
    ensures { DrawsStay }
{}

/// A let is in every later history.
pub fn lets_stay()
    ensures { LetsStay }
{}

/// The status word of a pass never falls.
pub fn words_rise()
    ensures { WordsRise }
{}

/// A ticket that was shown stays shown.
pub fn shown_stays()
    ensures { ShownStays }
{}

/// A status word is 0 or a ticket of its pass that was let through.
pub fn words_are_lets()
    ensures { WordsAreLets }
{}

/// Each step of a shard's part is at a key of that shard.
pub fn steps_are_in_their_shards()
    ensures { AllStepsAreInTheirShards }
{}

/// The steps of each key in a shard's part are a legal history of that key.
pub fn parts_are_legal()
    ensures { PartsAreLegal }
{}

/// No two transactions hold a key's lock at the same point of its history.
pub fn one_holder_at_each_key()
    ensures { OneHolderAtEachKey }
{
    one_holder();
}

/// A read passes exactly when each other holder's stamp is above the read's timestamp; otherwise it has to wait.
pub fn reads_pass_at_each_key()
    ensures { ReadsPassAtEachKey }
{
    reads_pass();
}
