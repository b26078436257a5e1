//! How does a take of stored steps enter the log of the book?
ghost use Rattle.std.specs.Prelude.{◌≡◌, ◌≢◌, ◌+◌, ◌<◌, ◌^◌, IsTrue, IsFalse};
ghost use Rattle.lt_words.specs.Takes.{taken_of};
ghost use Rattle.lt_words.specs.Row.{MakesNoStep, TakesOut};
ghost use Rattle.lt_shard.specs.Shards.{is_streamed};

use crate::exchange::Exchange;
use crate::making::Place;
use lt_words::{Book, Front, Keeping, Pass};

/// Whether steps are stored until they are taken out.
pub(crate) fn is_streamed(keeping: Keeping) -> bool
    ensures { result ≡ is_streamed keeping }
{
    match keeping {
        Keeping::Streamed => true,
        Keeping::Whole | Keeping::Unrecorded => false,
    }
}

/// Notes a take in the log of a streamed table's book: `many` steps, after as many as the place says. Otherwise nothing
/// changes. Says whether the exchange succeeded, if there was one. If not, the pass and the front are as they were.
#[inline(always)]
pub(crate) fn note_take<X: Exchange>(
    by: &X,
    book: &Book,
    pass: &mut Pass,
    taken: &mut Front,
    place: Place,
    many: u64,
) -> bool
    requires pass_of { book.now ≡ pass.old.of }
    requires taken_of { book.now ≡ taken.old.of }
    requires shard { place.shard < book.now.shards }
    requires room { place.at + many < 2 ^ 64 }
    ensures took { IsTrue result → book.now.keeping ≡ Keeping.Streamed → TakesOut pass.old pass.new place.shard place.at many }
    ensures exact { IsTrue result → book.now.keeping ≡ Keeping.Streamed → taken_of place.shard taken.new.takes ≡ place.at + many }
    ensures same { book.now.keeping ≢ Keeping.Streamed → (pass.new ≡ pass.old) × (taken.new ≡ taken.old) }
    ensures more { MakesNoStep pass.old pass.new }
    ensures of { taken.new.of ≡ book.now }
    ensures lost { IsFalse result → (pass.new ≡ pass.old) × (taken.new ≡ taken.old) }
    ensures rare { IsFalse result → X.may_lose by.now }
{
    if !is_streamed(book.keeping()) {
        return true;
    }
    if !by.take(book, pass, taken, place, many) {
        return false;
    }
    true
}
