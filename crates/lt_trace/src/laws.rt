//! How a line of a trace relates to a line of histories.
ghost use Rattle.lt_trace.specs.Laws.{NumberedIsLine};

/// A line of a trace with an index after its key is the text of a line of histories that has this key and this index.
pub fn numbered_is_line()
    ensures { NumberedIsLine }
{}
