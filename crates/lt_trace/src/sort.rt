//! How is a trace of any length sorted? [`sort_trace`] reads all lines first. When the lines in memory reach the
//! limit, they become a run. When there are as many runs of one level as a merge may read, they become one run of the
//! next level. At the end the runs that are left are merged into the output.
//!
//! Read next `specs/Form.antt`, what a line says, and `specs/Sorting.antt`, which text the lines become and which line is
//! refused. A sort with temporary files refuses the same line. That its lines come back from them as they went in is
//! tested.
ghost use Rattle.std.specs.Prelude.{◌≡◌, ◌≢◌, ◌≤◌, [], ◌++◌, ◌∷◌, true, IfOk, IfErr, IfSome, OnOk};
ghost use Rattle.std.specs.Io.KnownBytes.{Appends};
ghost use Rattle.lt_trace.specs.Errors.{is_input_error, IsOfOutput};
ghost use Rattle.lt_trace.specs.Form.{IsReadInForm, IsInputLine, IsInputRefusal};
ghost use Rattle.lt_trace.specs.Sorting.{TellsLineFault, RefusesFirstFault, TakesInputLine, RefusesNextLine, TakesBytes, IsNoRefusal, WritesInOrder, WritesSomeLines, IsNumberedInto, IsSortedInto, HaveSteps, HasCollected, counted, line_error, page_lines};

use crate::error::{SortError, TraceFault, TraceLineError, stream_error};
use crate::line::TraceLine;
use crate::lines::Batch;
use crate::merge::merge;
use crate::object::read_object;
use crate::page::Page;
use crate::runs::{RunStack, create};
use std::alloc::Global;
use std::io::{BufRead, Write};
use std::rt::Files;

/// The form of the lines of a trace.
#[derive(Clone, Copy)]
pub enum TraceForm {
    /// `KEY PASS CALL = REPLY` or `KEY PASS CALL = REPLY let TICKET ..`: a line of histories without its index.
    Words,
    /// A JSON object with the members `key`, `pass`, `call`, `reply` and, if the step let requests through, `let`, a
    /// list of tickets. `pass` is a number, and all else are texts: the words of the other form. If a member occurs
    /// twice, the last one counts.
    Json,
}

/// How a trace is sorted.
#[derive(Clone, Copy)]
pub struct SortOptions<'a> {
    pub form: TraceForm,
    /// How many bytes the lines in memory may take, with their entries. One line is always held. Not counted are a
    /// page of some 64 KiB, the longest line, and 8 KiB and a line for each run that is merged.
    pub memory: usize,
    /// How many runs are merged at once. Less than 2 counts as 2.
    pub ways: usize,
    /// The folder of temporary files.
    pub folder: &'a str,
}

/// What was sorted: how many lines were written, and how many of them begin a key.
#[derive(Clone, Copy, Debug, PartialEq, Eq)]
pub struct SortReport {
    pub keys: u64,
    pub steps: u64,
    /// How many runs were written from memory; 0 if all lines fitted into it.
    pub runs: u64,
}

/// Reads a line of the trace in its form, given without its line end.
fn read_form(alloc: Global, form: TraceForm, bytes: &[u8]) -> Result<TraceLine, TraceLineError>
    ensures { IsReadInForm form bytes.now result }
{
    match form {
        TraceForm::Json => read_object(alloc, bytes),
        TraceForm::Words => match TraceLine::read(alloc, bytes)? {
            Some(line) => Ok(line),
            None => Err(TraceLineError::Fault(TraceFault::Shape)),
        },
    }
}

/// Reads a line of the trace, given with its line end. `None` if it is empty.
#[tactic(auto, using(crate::proofs::LineEnds::refused_form, crate::proofs::LineEnds::unended))]
fn read_line(
    alloc: Global,
    form: TraceForm,
    bytes: &[u8],
) -> Result<Option<TraceLine>, TraceLineError>
    ensures line { IfOk result (IsInputLine form bytes.now) }
    ensures fault { IfErr result (IsInputRefusal form bytes.now) }
    ensures told { IfErr result (TellsLineFault form bytes.now) }
{
    let Some(text) = bytes.strip_suffix(b"\n") else {
        return Err(TraceLineError::Fault(TraceFault::Shape));
    };
    if text.is_empty() {
        return Ok(None);
    }
    match read_form(alloc, form, text) {
        Ok(line) => Ok(Some(line)),
        Err(e) => Err(e),
    }
}

/// Reads the bytes of the next line, with its line end. Returns whether there is one.
fn next_bytes<R: BufRead>(input: &mut R, bytes: &mut Vec<u8>) -> Result<bool, SortError>
    ensures line { IfOk result (λ more. TakesBytes (R.remaining input.old) (R.remaining input.new) bytes.new.items more) }
    ensures failed { IfErr result IsNoRefusal }
{
    bytes.clear();
    match input.read_until(b'\n', bytes) {
        Ok(n) => Ok(n != 0),
        Err(e) => Err(stream_error(&e, SortError::Read)),
    }
}

/// The error of the line with this number.
fn line_error(number: u64, error: TraceLineError) -> SortError
    ensures { result ≡ line_error number error }
{
    match error {
        TraceLineError::Memory => SortError::Memory,
        TraceLineError::Fault(fault) => SortError::Refused {
            line: number,
            fault,
        },
    }
}

/// Takes the next line of the input, which has this number. The inner option is `None` if the line is empty, and the outer
/// one at the end of the input.
fn take_line<R: BufRead>(
    alloc: Global,
    form: TraceForm,
    input: &mut R,
    bytes: &mut Vec<u8>,
    number: u64,
) -> Result<Option<Option<TraceLine>>, SortError>
    ensures taken { IfOk result (TakesInputLine form (R.remaining input.old) (R.remaining input.new)) }
    ensures refused { IfErr result (RefusesNextLine form (R.remaining input.old) number) }
{
    if !next_bytes(input, bytes)? {
        return Ok(None);
    }
    match read_line(alloc, form, bytes) {
        Ok(line) => Ok(Some(line)),
        Err(error) => Err(line_error(number, error)),
    }
}

/// Opens a new file for the lines of a run.
fn new_file<F: Files>(
    files: &F,
    alloc: Global,
    options: &SortOptions,
    stack: &mut RunStack<F::File>,
) -> Result<F::File, SortError>
    ensures failed { IfErr result IsOfOutput }
    ensures stored { stack.new.stored ≡ stack.old.stored }
{
    let mut name = stack.next_name();
    let file = create(files, alloc, options.folder, &mut name)?;
    stack.set_next_name(name);
    Ok(file)
}

/// Merges the last runs, this many, into one of the next level.
fn merge_last<F: Files>(
    files: &F,
    alloc: Global,
    options: &SortOptions,
    count: usize,
    stack: &mut RunStack<F::File>,
) -> Result<(), SortError>
    ensures failed { IfErr result IsOfOutput }
    ensures some { OnOk result (stack.new.runs.items ≢ []) }
    ensures stored { stack.old.stored ≤ stack.new.stored }
{
    let (_, level) = stack.last_level();
    let mut runs = stack.take_last(alloc, count)?;
    let mut file = new_file(files, alloc, options, stack)?;
    let mut page = Page::plain(alloc);
    merge(alloc, &mut runs, &mut page, &mut file, SortError::Temporary)?;
    stack.push(file, level.saturating_add(1))
}

/// Writes what is on the page, and then these lines.
fn write_lines<W: Write>(
    lines: &[TraceLine],
    page: &mut Page,
    writer: &mut W,
    fault: SortError,
) -> Result<(), SortError>
    ensures failed { IsOfOutput fault → IfErr result IsOfOutput }
    ensures written { OnOk result (Appends (W.contents writer.old) (W.contents writer.new)
        (page.old.bytes.items ++ page_lines page.old.counter lines.now)) }
    ensures counts { OnOk result (counted page.new.counter [] ≡ counted page.old.counter lines.now) }
{
    for line in lines {
        page.put(line)?;
        page.write_if_full(writer, fault)?;
    }
    page.write(writer, fault)
}

/// Writes what is on the page, and then the lines of the batch, sorted.
fn write_batch<W: Write>(
    batch: &mut Batch,
    page: &mut Page,
    writer: &mut W,
    fault: SortError,
) -> Result<(), SortError>
    ensures failed { IsOfOutput fault → IfErr result IsOfOutput }
    ensures written { OnOk result (WritesInOrder (W.contents writer.old) (W.contents writer.new) page.old page.new batch.old.lines.items) }
{
    write_lines(batch.sorted()?, page, writer, fault)
}

/// Makes a run of the lines in memory, and then merges each level that is full.
fn store<F: Files>(
    files: &F,
    alloc: Global,
    options: &SortOptions,
    batch: &mut Batch,
    stack: &mut RunStack<F::File>,
) -> Result<(), SortError>
    ensures failed { IfErr result IsOfOutput }
    ensures some { OnOk result (stack.new.runs.items ≢ []) }
    ensures stored { OnOk result (1 ≤ stack.new.stored) }
{
    let mut file = new_file(files, alloc, options, stack)?;
    let mut page = Page::plain(alloc);
    write_batch(batch, &mut page, &mut file, SortError::Temporary)?;
    stack.push(file, 0)?;
    batch.clear();
    let ways = options.ways.max(2);
    for _ in 0..64 {
        let (count, _) = stack.last_level();
        if count < ways {
            break;
        }
        merge_last(files, alloc, options, ways, stack)?;
    }
    Ok(())
}

/// Adds the line to those in memory. If they then fill it, they become a run.
fn keep<F: Files>(
    files: &F,
    alloc: Global,
    options: &SortOptions,
    batch: &mut Batch,
    stack: &mut RunStack<F::File>,
    line: TraceLine,
) -> Result<(), SortError>
    ensures failed { IfErr result IsOfOutput }
    ensures kept { OnOk result (stack.new.runs.items ≡ [] →
        (stack.old.runs.items ≡ []) × (batch.new.lines.items ≡ batch.old.lines.items ++ line ∷ [])) }
    ensures stored { OnOk result (stack.new.runs.items ≢ [] → (stack.old.runs.items ≢ [] → 1 ≤ stack.old.stored) → 1 ≤ stack.new.stored) }
{
    batch.push(line)?;
    if batch.held() < options.memory {
        return Ok(());
    }
    store(files, alloc, options, batch, stack)
}

/// Reads all lines. Those that do not fit into memory become runs. Returns how many lines there are.
#[tactic(auto, using(crate::proofs::SortLaws::begins, crate::proofs::SortLaws::skips_line, crate::proofs::SortLaws::keeps_line, crate::proofs::SortLaws::collected, crate::proofs::SortLaws::all_read, crate::proofs::SortLaws::refused_next, crate::proofs::SortLaws::of_output))]
fn collect<F: Files, R: BufRead>(
    files: &F,
    alloc: Global,
    options: &SortOptions,
    input: &mut R,
    batch: &mut Batch,
    stack: &mut RunStack<F::File>,
) -> Result<u64, SortError>
    ensures collected { OnOk result (stack.new.runs.items ≡ [] →
        HasCollected options.now.form (R.remaining input.old) batch.old.lines.items batch.new.lines.items) }
    ensures read { IfOk result (λ steps. IfSome (R.remaining input.old) (HaveSteps options.now.form steps)) }
    ensures stored { OnOk result (stack.new.runs.items ≢ [] → (stack.old.runs.items ≢ [] → 1 ≤ stack.old.stored) → 1 ≤ stack.new.stored) }
    ensures refused { IfErr result (RefusesFirstFault options.now.form (R.remaining input.old)) }
{
    let mut bytes = Vec::new(alloc);
    let mut steps: u64 = 0;
    for number in 1..u64::MAX {
        match take_line(alloc, options.form, input, &mut bytes, number)? {
            None => return Ok(steps),
            Some(None) => {}
            Some(Some(line)) => {
                steps = steps.saturating_add(1);
                keep(files, alloc, options, batch, stack, line)?;
            }
        }
    }
    Err(SortError::Read)
}

/// Merges all runs and the lines in memory into the output.
fn merge_all<F: Files, W: Write>(
    files: &F,
    alloc: Global,
    options: &SortOptions,
    stack: &mut RunStack<F::File>,
    page: &mut Page,
    output: &mut W,
) -> Result<(), SortError>
    ensures failed { IfErr result IsOfOutput }
    ensures stored { stack.old.stored ≤ stack.new.stored }
    ensures written { OnOk result (WritesSomeLines (W.contents output.old) (W.contents output.new) page.old page.new) }
{
    let ways = options.ways.max(2);
    for _ in 0..u64::MAX {
        if stack.len() <= ways {
            break;
        }
        merge_last(files, alloc, options, ways, stack)?;
    }
    let mut runs = stack.take_last(alloc, ways)?;
    merge(alloc, &mut runs, page, output, SortError::Write)
}

/// Sorts a trace and writes the text of its histories, version 2: the keys in rising order, each with its steps in
/// the order of the lines and numbered from 1. Each line ends with LF, the last one too. Empty lines are skipped and
/// counted.
///
/// Reads all lines before it writes the first byte, so a refused trace leaves the output as it was. Uses temporary
/// files in the given folder if the lines do not fit into memory, and leaves none behind, however it ends. Does not
/// flush the output.
#[tactic(auto, using(crate::proofs::SortLaws::sorted_into, crate::proofs::SortLaws::numbered_in_order, crate::proofs::SortLaws::numbered_some, crate::proofs::SortLaws::steps_in_order, crate::proofs::SortLaws::of_output))]
pub fn sort_trace<F: Files, R: BufRead, W: Write>(
    files: &F,
    alloc: Global,
    options: &SortOptions,
    input: &mut R,
    output: &mut W,
) -> Result<SortReport, SortError>
    // If a line is refused or a read fails, the output is unchanged.
    ensures unchanged { IfErr result (λ e. is_input_error e ≡ true → output.new ≡ output.old) }
    // Only a trace without a faulty line is sorted, and as many lines are reported as it has. A refusal names the first
    // faulty line and its fault.
    ensures read { IfOk result (λ report. IfSome (R.remaining input.old) (HaveSteps options.now.form report.steps)) }
    ensures refused { IfErr result (RefusesFirstFault options.now.form (R.remaining input.old)) }
    // Whatever the temporary files gave back, the text has the header and as many lines as are reported, each with the
    // index that is due. As many keys are reported as lines have the index 1.
    ensures numbered { IfOk result (IsNumberedInto (W.contents output.old) (W.contents output.new)) }
    // If no run was made, the lines were written in order.
    ensures sorted { IfOk result (λ report. report.runs ≡ 0 → IfSome (R.remaining input.old)
        (IsSortedInto options.now.form (W.contents output.old) (W.contents output.new))) }
{
    let mut batch = Batch::new(alloc);
    let mut stack = RunStack::new(alloc);
    let steps = collect(files, alloc, options, input, &mut batch, &mut stack)?;
    let mut page = Page::numbered(alloc)?;
    if stack.is_empty() {
        write_batch(&mut batch, &mut page, output, SortError::Write)?;
        return Ok(page.report(0));
    }
    if !batch.is_empty() {
        store(files, alloc, options, &mut batch, &mut stack)?;
    }
    merge_all(files, alloc, options, &mut stack, &mut page, output)?;
    let report = page.report(stack.stored());
    if report.steps != steps {
        return Err(SortError::Temporary);
    }
    Ok(report)
}
