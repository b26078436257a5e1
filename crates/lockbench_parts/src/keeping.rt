//! What are the ways to keep steps called?
use lt_table::Keeping;

/// The name of a way to keep steps, as on the command line.
pub fn name_of(keeping: Keeping) -> &'static str {
    match keeping {
        Keeping::Whole => "whole",
        Keeping::Streamed => "streamed",
        Keeping::Unrecorded => "unrecorded",
    }
}
