//! How do sorted runs become one? [`merge`] takes the least of the lines at their heads, line by line.
ghost use Rattle.std.specs.Prelude.{IfErr, OnOk};
ghost use Rattle.lt_trace.specs.Errors.{IsOfOutput};
ghost use Rattle.lt_trace.specs.Sorting.{WritesSomeLines};

use crate::error::{SortError, stream_error};
use crate::heads::least_of;
use crate::line::TraceLine;
use crate::page::Page;
use std::alloc::Global;
use std::io::{BufRead, BufReader, Read, Write};
use std::mem;

/// Reads the next line of a run, or `None` at its end. A line that is none of a trace was not written by this sort.
fn next_line<R: BufRead>(
    alloc: Global,
    run: &mut R,
    bytes: &mut Vec<u8>,
) -> Result<Option<TraceLine>, SortError>
    ensures { IfErr result IsOfOutput }
{
    bytes.clear();
    match run.read_until(b'\n', bytes) {
        Ok(0) => return Ok(None),
        Ok(_) => {}
        Err(e) => return Err(stream_error(&e, SortError::Temporary)),
    }
    let Some(text) = bytes.strip_suffix(b"\n") else {
        return Err(SortError::Temporary);
    };
    match TraceLine::read(alloc, text)? {
        Some(line) => Ok(Some(line)),
        None => Err(SortError::Temporary),
    }
}

/// The first line of each run.
fn first_lines<T: Read + Drop>(
    alloc: Global,
    runs: &mut Vec<BufReader<T>>,
    bytes: &mut Vec<u8>,
) -> Result<Vec<Option<TraceLine>>, SortError>
    ensures { IfErr result IsOfOutput }
{
    let mut heads = Vec::new(alloc);
    for i in 0..runs.len() {
        let Some(run) = runs.get_mut(i) else {
            break;
        };
        let head = next_line(alloc, run, bytes)?;
        heads.push(head)?;
    }
    Ok(heads)
}

/// Takes the line at this head, and puts the next line of its run there.
fn take_head<T: Read + Drop>(
    alloc: Global,
    runs: &mut Vec<BufReader<T>>,
    heads: &mut Vec<Option<TraceLine>>,
    index: usize,
    bytes: &mut Vec<u8>,
) -> Result<Option<TraceLine>, SortError>
    ensures { IfErr result IsOfOutput }
{
    let (Some(run), Some(head)) = (runs.get_mut(index), heads.get_mut(index)) else {
        return Ok(None);
    };
    let next = next_line(alloc, run, bytes)?;
    Ok(mem::replace(head, next))
}

/// Merges the runs, which stand in the order in which their lines were read, and writes their lines. `fault` is the
/// error of a failed write.
#[tactic(auto, using(crate::proofs::SortLaws::none_taken, crate::proofs::SortLaws::one_taken))]
pub(crate) fn merge<T: Read + Drop, W: Write>(
    alloc: Global,
    runs: &mut Vec<BufReader<T>>,
    page: &mut Page,
    writer: &mut W,
    fault: SortError,
) -> Result<(), SortError>
    ensures failed { IsOfOutput fault → IfErr result IsOfOutput }
    // Whatever comes out of the runs, each line that is written has the index that is due.
    ensures written { OnOk result (WritesSomeLines (W.contents writer.old) (W.contents writer.new) page.old page.new) }
{
    let mut bytes = Vec::new(alloc);
    let mut heads = first_lines(alloc, runs, &mut bytes)?;
    for _ in 0..u64::MAX {
        let Some(index) = least_of(&heads) else {
            return page.write(writer, fault);
        };
        let Some(line) = take_head(alloc, runs, &mut heads, index, &mut bytes)? else {
            return Err(SortError::Temporary);
        };
        page.put(&line)?;
        page.write_if_full(writer, fault)?;
    }
    Err(fault)
}
