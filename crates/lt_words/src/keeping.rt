/// How a table keeps its steps. In all three ways the one legal history has every step.
#[derive(Clone, Copy, Debug, PartialEq, Eq)]
pub enum Keeping {
    /// Each step is stored until the table is closed.
    Whole,
    /// Each step is stored until it is taken out.
    Streamed,
    /// No step is stored.
    Unrecorded,
}
