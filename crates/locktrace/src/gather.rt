//! How are the steps of a legal text summarized? [`Gatherer`] gives each step to the statistics, and
//! [`Gatherer::text`] is the summary. docs/LOCKTRACE.md, "The summary of a legal text", describes its lines.
use crate::failure::TraceFailure;
use crate::follow::StepTaker;
use lt_checker::{Checker, Line, Report};
use lt_ids::Key;
use lt_rules::QueueLengths;
use lt_trace_statistics::{HotKey, LongestQueue, LongestWait, Statistics, StepCounts, TextSummary};
use std::alloc::{AllocError, Global};

/// Gives the steps of a text to the statistics.
#[derive(Drop)]
pub struct Gatherer {
    alloc: Global,
    statistics: Statistics,
}

impl StepTaker for Gatherer {
    fn take(&mut self, checker: &Checker, line: Line) -> Result<Vec<u8>, TraceFailure> {
        let QueueLengths { writers, readers } = checker.lengths();
        let queue = (writers as u64).saturating_add(readers as u64);
        self.statistics.take(&line, queue)?;
        Ok(Vec::new(self.alloc))
    }
}

/// Appends the line of the waits.
fn put_waits(out: &mut Vec<u8>, counts: &StepCounts) -> Result<(), AllocError> {
    let line = format!(in *out.allocator();
        "waits {}, let through {}, never let through {}\n",
        counts.waits,
        counts.lets,
        counts.unended()
    )?;
    out.extend_from_slice(line.as_bytes())
}

/// Appends a key, and what stands before and after it.
fn put_around(out: &mut Vec<u8>, begin: &str, key: &Key, end: &str) -> Result<(), AllocError> {
    out.extend_from_slice(begin.as_bytes())?;
    out.extend_from_slice(key.as_bytes())?;
    out.extend_from_slice(end.as_bytes())
}

/// Appends the line of the longest queue.
fn put_queue(out: &mut Vec<u8>, longest: &Option<LongestQueue>) -> Result<(), AllocError> {
    let Some(longest) = longest else {
        return out.extend_from_slice(b"longest queue 0\n");
    };
    let alloc = *out.allocator();
    let begin = format!(in alloc; "longest queue {}, at ", longest.requests)?;
    let end = format!(in alloc; " after step {}\n", longest.index)?;
    put_around(out, begin.as_str(), &longest.key, end.as_str())
}

/// The end of a noun of which there are so many.
fn plural(count: u64) -> &'static str {
    if count == 1 { "" } else { "s" }
}

/// Appends the line of the longest wait.
fn put_wait(out: &mut Vec<u8>, longest: &Option<LongestWait>) -> Result<(), AllocError> {
    let Some(longest) = longest else {
        return out.extend_from_slice(b"longest wait 0 steps\n");
    };
    let alloc = *out.allocator();
    let len = longest.to.saturating_sub(longest.from);
    let begin = format!(in alloc;
        "longest wait {} step{}, of ticket {:?} at ",
        len,
        plural(len),
        longest.ticket
    )?;
    let end = format!(in alloc; " from step {} to {}\n", longest.from, longest.to)?;
    put_around(out, begin.as_str(), &longest.key, end.as_str())
}

/// Appends the line of a hot key. Its name takes this many columns.
fn put_hot(out: &mut Vec<u8>, hot: &HotKey, width: usize) -> Result<(), AllocError> {
    let key = hot.key.as_bytes();
    out.extend_from_slice(b"    ")?;
    out.extend_from_slice(key)?;
    for _ in key.len()..width {
        out.push(b' ')?;
    }
    let end = format!(in *out.allocator();
        "  {} step{}, {} wait{}\n",
        hot.steps,
        plural(hot.steps),
        hot.waits,
        plural(hot.waits)
    )?;
    out.extend_from_slice(end.as_bytes())
}

/// Appends the lines of the hottest keys.
fn put_hottest(out: &mut Vec<u8>, hottest: &[HotKey]) -> Result<(), AllocError> {
    if hottest.is_empty() {
        return Ok(());
    }
    let mut width = 0;
    for hot in hottest {
        width = width.max(hot.key.as_bytes().len());
    }
    out.extend_from_slice(b"hottest keys:\n")?;
    for hot in hottest {
        put_hot(out, hot, width)?;
    }
    Ok(())
}

/// Appends the lines of a summary.
fn put_summary(out: &mut Vec<u8>, summary: &TextSummary) -> Result<(), AllocError> {
    put_waits(out, &summary.counts)?;
    put_queue(out, &summary.longest_queue)?;
    put_wait(out, &summary.longest_wait)?;
    put_hottest(out, &summary.hottest)
}

/// The line with the numbers of a report, and the summary below it.
fn text_of(alloc: Global, report: &Report, summary: &TextSummary) -> Result<Vec<u8>, AllocError> {
    let line = format!(in alloc; "ok {} keys {} steps\n", report.keys, report.steps)?;
    let mut out = Vec::from_slice(alloc, line.as_bytes())?;
    put_summary(&mut out, summary)?;
    Ok(out)
}

impl Gatherer {
    pub fn new(alloc: Global) -> Gatherer {
        Gatherer {
            alloc,
            statistics: Statistics::new(alloc),
        }
    }

    /// The summary of the steps that were taken, below the line with these numbers.
    pub fn text(self, report: &Report) -> Result<Vec<u8>, AllocError> {
        let Gatherer { alloc, statistics } = self;
        let summary = statistics.finish()?;
        text_of(alloc, report, &summary)
    }
}
