//! Does a shard make its steps and show its lets? The tests open a book for it.

mod run;
mod tests;
