//! How does a caller draw a number that names a transaction, or anything else that needs a name of its own?
ghost use Rattle.std.specs.Prelude.{◌≡◌, ◌≤◌, IfSome, IfNone};
ghost use Rattle.lt_words.specs.History.{draws_of, DrewIn};
ghost use Rattle.lt_words.specs.Row.{SeesMore, IsNextDraw};

use crate::shard_value::ShardValue;
use crate::table::Table;
use lt_rules::KeyTable;
use lt_words::{Name, Pass, Waker};

impl<N: Name, T: KeyTable, W: Waker, V: ShardValue> Table<N, T, W, V> {
    /// Draws a number, 1 to [`Config::max_requests`](crate::Config), that no other draw gives. Requests draw theirs when they
    /// enter, so a number that is drawn here is no request's. `None` if the numbers are used up. Takes no lock and no memory.
    pub fn draw(&self, pass: &mut Pass) -> Option<u64>
        requires pass { pass.old.of ≡ N.of }
        ensures some { IfSome result (λ n. IsNextDraw pass.old.seen pass.old.number self.now.max_requests n pass.new.seen) }
        ensures drew { IfSome result (λ n. DrewIn pass.new.seen pass.old.number n) }
        ensures none { IfNone result (self.now.max_requests ≤ draws_of pass.new.seen) }
        ensures more { SeesMore pass.old pass.new }
    {
        self.book.draw(pass, self.config.max_requests)
    }
}
