//! How the answer lines and the histories of an output relate.
//!
//! The law is the contract of a function that does nothing. It speaks of the definitions alone.
ghost use Rattle.lt_tool.specs.Laws.{OutputTells};

/// In every output:
///
/// - Each line of the script is of a pass that is answered. Each pass is answered for its lines in order, up to a line
///   `turns` or one that the gate may refuse, and for all of them if the run is done. The gate may let each of them run.
/// - Each answer that is a reply has its step in the histories, and each `waiting KEY` and each `long KEY` has a
///   visit with that reply. These steps have the pass of the line; visits and looks have the number of the pass's
///   latest request. Each `let` has its let in the histories, for that pass and that request.
/// - Each step of the histories belongs to exactly one line. Of one pass and key, the steps of a later line come
///   later.
/// - No number is answered twice.
/// - If the run is done, no line is answered `turns`. Otherwise the last answer of some pass is `turns`, or the gate may
///   refuse the pass's next line. So with a gate that refuses no line, a run ends as `TurnsOut` exactly if the last
///   answer of some pass is `turns`.
pub fn output_tells()
    ensures { OutputTells }
{}
