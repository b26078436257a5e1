/// Names one opened book, by its numbers alone. A value behind a lock is known only by its type. So a shard and a
/// table take a parameter `N: Name`, and a function over `N`, called at `Brand`, makes and uses them. The trait has
/// no function, so the same code runs for every name.
pub trait Name {
    ghost use Rattle.lt_words.specs.Row.{Opening};

    ghost of: { Opening };
}

impl Name for std::marker::Brand {
    ghost use Rattle.lt_words.specs.Row.{brand_opening};

    ghost of = { brand_opening };
}
