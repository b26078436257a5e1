//! What does each command do? [`perform`] opens the file of a task, or takes standard input, and does the task.
use crate::audit::audit;
use crate::check::check_reader;
use crate::explain::explain_file;
use crate::failure::{TraceFailure, fault_of, of_picture, of_sort};
use crate::follow::{StepTaker, follow_steps, write_text};
use crate::input::{buffered, open};
use crate::output::{Output, ending_of};
use crate::progress_line::ProgressLine;
use locktrace_words::{PictureWords, SortWords, Task, WantedSteps};
use lt_checker::{Checker, Line};
use lt_ids::Key;
use lt_rules::KeyState;
use lt_trace::{SortOptions, TraceForm, sort_trace};
use lt_trace_picture::{PageRows, html, picture};
use lt_trace_show::{
    Layout, MOST_QUEUED, MOST_STEPS, ShownRange, ShownStep, put_heading, put_key, put_shown,
};
use std::alloc::{AllocError, Global};
use std::fs::{File, Files};
use std::io::{BufRead, BufWriter, Read, Write};

/// How many runs a sort merges at once.
const WAYS: usize = 64;

/// How many bytes one write takes.
const PIECE: usize = 1 << 16;

/// Whether steps of this key are wanted.
fn is_of_key(wanted: &WantedSteps, key: &Key) -> bool {
    match wanted.key {
        Some(name) => name.as_bytes() == key.as_bytes(),
        None => true,
    }
}

/// Whether all steps of the text are wanted.
fn are_all_wanted(wanted: &WantedSteps) -> bool {
    wanted.key.is_none() && wanted.from == 1 && wanted.to == u64::MAX
}

/// Whether the step is wanted.
fn is_in_range(wanted: &WantedSteps, line: &Line) -> bool {
    is_of_key(wanted, &line.key) && wanted.from <= line.step.index && line.step.index <= wanted.to
}

/// The key of the line, and its step with this state after it.
fn shown_step(line: Line, state: KeyState) -> (Key, ShownStep) {
    let Line { key, step, tickets } = line;
    let shown = ShownStep {
        index: step.index,
        pass: step.pass,
        call: step.call,
        reply: step.reply,
        tickets,
        state,
    };
    (key, shown)
}

/// Makes a line of a table of each step.
#[derive(Drop)]
struct Shower<'a> {
    alloc: Global,
    wanted: WantedSteps<'a>,
    layout: Layout,
    /// The key of the latest step.
    key: Option<Key>,
}

impl<'a> Shower<'a> {
    /// Appends the head of a table, if the key is not that of the latest step.
    fn put_head(&mut self, text: &mut Vec<u8>, key: Key) -> Result<(), AllocError> {
        if let Some(latest) = &self.key
            && *latest == key
        {
            return Ok(());
        }
        put_key(text, self.layout, &key)?;
        put_heading(text, self.layout)?;
        self.key = Some(key);
        Ok(())
    }

    /// The lines of the table for this step.
    fn lines(&mut self, key: Key, step: &ShownStep) -> Result<Vec<u8>, AllocError> {
        // Most lines of the table fit into this.
        let mut text = Vec::with_capacity(self.alloc, self.layout.width().saturating_add(1))?;
        self.put_head(&mut text, key)?;
        put_shown(&mut text, self.layout, step)?;
        Ok(text)
    }
}

impl<'a> StepTaker for Shower<'a> {
    fn take(&mut self, checker: &Checker, line: Line) -> Result<Vec<u8>, TraceFailure> {
        if !is_in_range(&self.wanted, &line) {
            return Ok(Vec::new(self.alloc));
        }
        let state = checker.front(self.alloc, MOST_QUEUED)?;
        let (key, step) = shown_step(line, state);
        Ok(self.lines(key, &step)?)
    }
}

/// Collects the steps of a key for a picture, and the state before the first of them.
#[derive(Drop)]
struct Collector<'a> {
    alloc: Global,
    wanted: WantedSteps<'a>,
    /// The key of the steps.
    key: Option<Key>,
    range: ShownRange,
    /// The rows of a page, if one is wanted.
    rows: Option<PageRows>,
}

impl<'a> Collector<'a> {
    /// A collector of these steps. Makes the rows of a page too, if one is wanted.
    fn new(alloc: Global, wanted: WantedSteps<'a>, has_page: bool) -> Collector<'a> {
        Collector {
            alloc,
            wanted,
            key: None,
            range: ShownRange::new(alloc, KeyState::empty(alloc)),
            rows: if has_page {
                Some(PageRows::new(alloc))
            } else {
                None
            },
        }
    }

    /// Whether the step is wanted. The step before the first wanted one is wanted for the state after it.
    fn wants(&mut self, line: &Line) -> bool {
        let index = line.step.index;
        if !is_of_key(&self.wanted, &line.key) || MOST_STEPS < self.range.steps.len() {
            return false;
        }
        if self.wanted.to < index {
            self.range.goes_on = true;
            return false;
        }
        self.wanted.from <= index.saturating_add(1)
    }

    /// Adds a step, also to the rows of the page.
    fn add(&mut self, step: ShownStep) -> Result<(), AllocError> {
        if let Some(rows) = &mut self.rows {
            rows.push(&step)?;
        }
        self.range.push(step)
    }

    /// Collects a wanted step, or of the step before the first one the state.
    fn collect(&mut self, checker: &Checker, line: Line) -> Result<(), AllocError> {
        let state = checker.state_before(self.alloc, &line.key)?;
        if line.step.index < self.wanted.from {
            self.range = ShownRange::new(self.alloc, state);
            return Ok(());
        }
        let (key, step) = shown_step(line, state);
        self.key = Some(key);
        self.add(step)
    }
}

impl<'a> StepTaker for Collector<'a> {
    fn take(&mut self, checker: &Checker, line: Line) -> Result<Vec<u8>, TraceFailure> {
        if self.wants(&line) {
            self.collect(checker, line)?;
        }
        Ok(Vec::new(self.alloc))
    }
}

/// Writes the wanted steps as a table.
fn show<R: BufRead, W: Write>(
    alloc: Global,
    reader: &mut R,
    output: &mut W,
    wanted: &WantedSteps,
    layout: Layout,
) -> Result<(), TraceFailure> {
    let mut shower = Shower {
        alloc,
        wanted: *wanted,
        layout,
        key: None,
    };
    follow_steps(alloc, reader, output, &mut shower)?;
    if shower.key.is_none() && !are_all_wanted(wanted) {
        return Err(TraceFailure::NoStep);
    }
    Ok(())
}

/// Draws the steps that were collected.
fn drawn(alloc: Global, collected: &Collector) -> Result<Vec<u8>, TraceFailure> {
    let Some(key) = &collected.key else {
        return Err(TraceFailure::NoStep);
    };
    let text = match &collected.rows {
        Some(rows) => html(alloc, key, &collected.range, rows),
        None => picture(alloc, key, &collected.range),
    };
    match text {
        Ok(text) => Ok(text),
        Err(error) => Err(of_picture(error)),
    }
}

/// Writes a picture to the file with this name, or to the output if there is none.
fn write_picture<F: Files, W: Write>(
    files: &F,
    output: &mut W,
    name: Option<&str>,
    text: &[u8],
) -> Result<(), TraceFailure> {
    let Some(name) = name else {
        return write_text(output, text);
    };
    match File::create(files, name) {
        Ok(mut file) => write_text(&mut file, text),
        Err(e) => Err(TraceFailure::Write(fault_of(e.kind()))),
    }
}

/// Collects the steps of a text, and draws them.
fn collected<R: BufRead, W: Write>(
    alloc: Global,
    reader: &mut R,
    output: &mut W,
    collector: &mut Collector,
) -> Result<Vec<u8>, TraceFailure> {
    follow_steps(alloc, reader, output, collector)?;
    drawn(alloc, collector)
}

/// Draws the wanted steps of a key, and writes the picture to its file or to the output.
fn draw<F: Files, R: BufRead, W: Write>(
    files: &F,
    alloc: Global,
    reader: &mut R,
    output: &mut W,
    wanted: &WantedSteps,
    picture: &PictureWords,
) -> Result<(), TraceFailure> {
    let mut collector = Collector::new(alloc, *wanted, picture.html);
    match collected(alloc, reader, output, &mut collector) {
        Ok(text) => write_picture(files, output, picture.out, &text),
        Err(failure) => Err(failure),
    }
}

/// Sorts the trace, and writes the text of histories.
fn sort<F: Files, R: BufRead, W: Write>(
    files: &F,
    alloc: Global,
    reader: &mut R,
    output: &mut W,
    words: &SortWords,
) -> Result<(), TraceFailure> {
    let options = SortOptions {
        form: if words.json {
            TraceForm::Json
        } else {
            TraceForm::Words
        },
        memory: words.memory as usize,
        ways: WAYS,
        folder: words.folder,
    };
    match sort_trace(files, alloc, &options, reader, output) {
        Ok(_) => Ok(()),
        Err(error) => Err(of_sort(error)),
    }
}

/// Does the task over this reader and this output.
fn perform_over<F: Files, R: BufRead, W: Write>(
    files: &F,
    alloc: Global,
    task: &Task,
    reader: &mut R,
    output: &mut W,
    line: &mut ProgressLine,
) -> Result<(), TraceFailure> {
    match task {
        Task::Sort(_, words) => sort(files, alloc, reader, output, words),
        Task::Check(_) => check_reader(alloc, reader, output, line),
        Task::Audit(_) => audit(alloc, reader, output),
        Task::Explain(name) => explain_file(files, alloc, name, output),
        Task::Show(_, wanted, layout) => show(alloc, reader, output, wanted, *layout),
        Task::Picture(_, wanted, picture) => draw(files, alloc, reader, output, wanted, picture),
    }
}

/// Does the task over this input and this output.
fn perform_on<F: Files, R: Read + Drop, W: Write + Drop>(
    alloc: Global,
    files: &F,
    task: &Task,
    input: R,
    output: W,
    line: &mut ProgressLine,
) -> Result<(), TraceFailure> {
    let mut reader = buffered(alloc, input)?;
    let Ok(mut writer) = BufWriter::with_capacity(alloc, PIECE, Output::new(output)) else {
        return Err(TraceFailure::Memory);
    };
    let ending = perform_over(files, alloc, task, &mut reader, &mut writer, line);
    let ending = match writer.flush() {
        Ok(()) => ending,
        Err(e) => Err(TraceFailure::Write(fault_of(e.kind()))),
    };
    ending_of(ending, writer.get_ref())
}

/// The names of what a task reads and writes, for a message.
#[derive(Clone, Copy)]
pub struct TaskNames<'a> {
    pub input: &'a str,
    pub output: &'a str,
    /// The folder of temporary files.
    pub folder: &'a str,
}

/// The names if nothing is named.
pub const STREAMS: TaskNames = TaskNames {
    input: "standard input",
    output: "standard output",
    folder: "/tmp",
};

/// The names of the task.
pub fn names_of<'a>(task: &Task<'a>) -> TaskNames<'a> {
    let input = match task {
        Task::Explain(name) => *name,
        _ => file_of(task).unwrap_or(STREAMS.input),
    };
    let output = match task {
        Task::Picture(_, _, picture) => picture.out.unwrap_or(STREAMS.output),
        _ => STREAMS.output,
    };
    let folder = match task {
        Task::Sort(_, words) => words.folder,
        _ => STREAMS.folder,
    };
    TaskNames {
        input,
        output,
        folder,
    }
}

/// The file of the task.
fn file_of<'a>(task: &Task<'a>) -> Option<&'a str> {
    match task {
        Task::Sort(file, _)
        | Task::Check(file)
        | Task::Audit(file)
        | Task::Show(file, _, _)
        | Task::Picture(file, _, _) => *file,
        Task::Explain(_) => None,
    }
}

/// Does the task: over its file, or over the input if it has none. A check tells the line how far it is.
pub fn perform<F: Files, R: Read + Drop, W: Write + Drop>(
    alloc: Global,
    files: &F,
    task: &Task,
    input: R,
    output: W,
    line: &mut ProgressLine,
) -> Result<(), TraceFailure> {
    match file_of(task) {
        Some(name) => {
            let file = open(files, name)?;
            perform_on(alloc, files, task, file, output, line)
        }
        None => perform_on(alloc, files, task, input, output, line),
    }
}
