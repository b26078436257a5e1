/// Names one opened log of values, as `lt_words::Name` names a book: a value behind a lock is known only by its type.
pub trait ValueName {
    ghost use Rattle.logbook.specs.Pages.{Book};

    ghost values: { Book };
}

impl ValueName for std::marker::Brand {
    ghost use Rattle.example_values.specs.Values.{brand_book};

    ghost values = { brand_book };
}
