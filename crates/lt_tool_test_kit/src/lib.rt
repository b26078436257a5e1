//! On which readers, writers and gates do the tests of the tool run?
//!
//! [`streams`] has readers and writers that fail, and those of long texts. [`gates`] has the gates of a run, and [`options`] makes
//! options in their ranges. `lt_tool_tests` and `lt_text_tests` use them.
#![tactic(auto)]

pub mod gates;
pub mod options;
pub mod streams;
