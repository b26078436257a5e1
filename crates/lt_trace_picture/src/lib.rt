//! How does the life of one key look? This crate draws what `lt_trace_show` has computed of a key's steps: as an SVG
//! picture, and as a page of HTML.
//!
//! [`picture`] writes the SVG of a `ShownRange`, and [`html`] the page, whose rows are in [`PageRows`], for at most
//! `MOST_STEPS` steps.
//!
//! Read next: `grid.rt` has the measures; `svg.rt` draws the lanes, their bars and the calls, with the shapes of
//! `drawing.rt` and the legend of `legend.rt`; `page.rt` puts the picture and the table of the steps on a page.
#![tactic(auto)]

mod drawing;
mod grid;
mod legend;
mod page;
mod svg;

pub use page::{PageRows, html};
pub use svg::picture;
