//! How does a caller learn how far a check is?
use lt_checker::Report;

/// Learns how far a check is. A check calls it on the thread that called the check, once for each chunk or for some
/// pieces.
pub trait CheckProgress {
    /// The check has read this many bytes more, and `report` counts the keys and the steps that it has taken so far.
    fn advance(&mut self, bytes: u64, report: &Report);
}

/// Ignores how far the check is.
impl CheckProgress for () {
    fn advance(&mut self, _bytes: u64, _report: &Report) {}
}
