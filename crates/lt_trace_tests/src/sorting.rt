//! Does a trace become the right text, whatever fits into memory and whatever fails? Each test plays a table of rows
//! or of limits. A sort that runs out of memory is made again, so the tests also pass if any one allocation fails.
//! [`TestFiles`] stands in for a folder: it counts the names in it, and its files refuse bytes when they are full.
use lt_checker::check;
use lt_trace::{SortError, SortOptions, SortReport, TraceFault, TraceForm, sort_trace};
use std::alloc::Global;
use std::cell::Cell;
use std::fs::{Metadata, OpenFile, OpenOptions};
use std::io::{BufRead, BufReader, ErrorKind, Read, Seek, SeekFrom, Write};
use std::rt::Files;
use std::{fs, io};

/// A file or an output in memory. Its writes fail when it holds `room` bytes.
#[derive(Drop)]
struct Scrap {
    bytes: Vec<u8>,
    at: usize,
    room: usize,
}

fn empty_scrap(alloc: Global, room: usize) -> Scrap {
    Scrap {
        bytes: Vec::new(alloc),
        at: 0,
        room,
    }
}

impl Read for Scrap {
    fn read(&mut self, buf: &mut [u8]) -> io::Result<usize> {
        let Some(rest) = self.bytes.get(self.at..) else {
            return Ok(0);
        };
        let n = rest.len().min(buf.len());
        buf[..n].copy_from_slice(&rest[..n]);
        self.at = self.at.saturating_add(n);
        Ok(n)
    }
}

impl Write for Scrap {
    fn write(&mut self, buf: &[u8]) -> io::Result<usize> {
        let n = buf.len().min(self.room.saturating_sub(self.bytes.len()));
        if n < buf.len() && n == 0 {
            return Err(io::Error::from(ErrorKind::StorageFull));
        }
        self.bytes.extend_from_slice(&buf[..n])?;
        Ok(n)
    }

    fn flush(&mut self) -> io::Result<()> {
        Ok(())
    }
}

impl Seek for Scrap {
    fn seek(&mut self, _to: SeekFrom) -> io::Result<u64> {
        self.at = 0;
        Ok(0)
    }
}

impl OpenFile for Scrap {
    fn metadata(&self) -> io::Result<Metadata> {
        Err(io::Error::from(ErrorKind::Unsupported))
    }

    fn set_len(&self, _size: u64) -> io::Result<()> {
        Err(io::Error::from(ErrorKind::Unsupported))
    }

    fn sync_all(&self) -> io::Result<()> {
        Ok(())
    }

    fn sync_data(&self) -> io::Result<()> {
        Ok(())
    }
}

/// A folder whose files take `room` bytes each.
#[derive(Drop)]
struct TestFiles {
    alloc: Global,
    room: usize,
    /// So many names are not free.
    taken: Cell<usize>,
    /// How many names were made and not removed.
    left: Cell<usize>,
}

fn empty_store(alloc: Global, room: usize, taken: usize) -> TestFiles {
    TestFiles {
        alloc,
        room,
        taken: Cell::new(taken),
        left: Cell::new(0),
    }
}

impl Files for TestFiles {
    type File = Scrap;

    type Dir = Scrap;

    fn open_file(&self, how: &OpenOptions, _path: &str) -> io::Result<Scrap> {
        if !how.asks_create_new() || !how.asks_read() || !how.asks_write() {
            return Err(io::Error::from(ErrorKind::InvalidInput));
        }
        let taken = self.taken.get();
        if taken > 0 {
            self.taken.set(taken - 1);
            return Err(io::Error::from(ErrorKind::AlreadyExists));
        }
        self.left.set(self.left.get().saturating_add(1));
        Ok(empty_scrap(self.alloc, self.room))
    }

    fn remove_file(&self, _path: &str) -> io::Result<()> {
        self.left.set(self.left.get().saturating_sub(1));
        Ok(())
    }

    fn open_dir(&self, _path: &str) -> io::Result<Scrap> {
        Err(io::Error::from(ErrorKind::Unsupported))
    }

    fn metadata(&self, _path: &str) -> io::Result<Metadata> {
        Err(io::Error::from(ErrorKind::Unsupported))
    }

    fn symlink_metadata(&self, _path: &str) -> io::Result<Metadata> {
        Err(io::Error::from(ErrorKind::Unsupported))
    }

    fn copy(&self, _from: &str, _to: &str) -> io::Result<u64> {
        Err(io::Error::from(ErrorKind::Unsupported))
    }

    fn rename(&self, _from: &str, _to: &str) -> io::Result<()> {
        Err(io::Error::from(ErrorKind::Unsupported))
    }

    fn create_dir(&self, _path: &str) -> io::Result<()> {
        Err(io::Error::from(ErrorKind::Unsupported))
    }

    fn remove_dir(&self, _path: &str) -> io::Result<()> {
        Err(io::Error::from(ErrorKind::Unsupported))
    }

    fn remove_dir_all<B: std::alloc::Allocator>(&self, _alloc: B, _path: &str) -> io::Result<()> {
        Err(io::Error::from(ErrorKind::Unsupported))
    }
}

/// A reader that gives these bytes and then fails.
#[derive(Drop)]
struct Broken<'a> {
    rest: &'a [u8],
}

impl Read for Broken<'_> {
    fn read(&mut self, buf: &mut [u8]) -> io::Result<usize> {
        let n = buf.len().min(self.rest.len());
        if n == 0 {
            return Err(io::Error::from(ErrorKind::Other));
        }
        let (piece, rest) = self.rest.split_at(n);
        buf[..n].copy_from_slice(piece);
        self.rest = rest;
        Ok(n)
    }
}

const EVERYTHING: usize = usize::MAX;

fn options(form: TraceForm, memory: usize, ways: usize) -> SortOptions<'static> {
    SortOptions {
        form,
        memory,
        ways,
        folder: "/tmp",
    }
}

/// Sorts the trace, and once more if memory ran out.
fn sort<F: Files>(
    files: &F,
    alloc: Global,
    options: &SortOptions,
    trace: &[u8],
    output: &mut Scrap,
) -> Result<SortReport, SortError> {
    let mut input = trace;
    let first = sort_trace(files, alloc, options, &mut input, output);
    if first != Err(SortError::Memory) {
        return first;
    }
    output.bytes.clear();
    let mut input = trace;
    sort_trace(files, alloc, options, &mut input, output)
}

/// A trace, and its text or the line and the fault with which it is refused.
#[derive(Drop)]
struct TraceRow {
    form: TraceForm,
    trace: &'static str,
    text: Result<&'static str, (u64, TraceFault)>,
}

fn words(trace: &'static str, text: &'static str) -> TraceRow {
    TraceRow {
        form: TraceForm::Words,
        trace,
        text: Ok(text),
    }
}

fn json(trace: &'static str, text: &'static str) -> TraceRow {
    TraceRow {
        form: TraceForm::Json,
        trace,
        text: Ok(text),
    }
}

/// Lines of words, of which this one is refused.
fn bad_words(trace: &'static str, line: u64) -> TraceRow {
    TraceRow {
        form: TraceForm::Words,
        trace,
        text: Err((line, TraceFault::Shape)),
    }
}

/// One line of JSON, which is refused.
fn bad_json(trace: &'static str, fault: TraceFault) -> TraceRow {
    TraceRow {
        form: TraceForm::Json,
        trace,
        text: Err((1, fault)),
    }
}

/// Whether the sort gives what the row says, with lines of so many bytes in memory. A refused trace writes nothing.
fn is_given(alloc: Global, row: &TraceRow, memory: usize) -> bool {
    let files = empty_store(alloc, EVERYTHING, 0);
    let mut output = empty_scrap(alloc, EVERYTHING);
    let options = options(row.form, memory, 2);
    let result = sort(&files, alloc, &options, row.trace.as_bytes(), &mut output);
    if files.left.get() != 0 {
        return false;
    }
    match (result, row.text) {
        (Ok(_), Ok(text)) => output.bytes.as_slice() == text.as_bytes(),
        (Err(SortError::Refused { line, fault }), Err((bad_line, bad_fault))) => {
            line == bad_line && fault == bad_fault && output.bytes.is_empty()
        }
        _ => false,
    }
}

#[test]
fn lines_of_words_are_sorted_or_refused(rt: HostRuntime) {
    let rows = [
        words("", "locks 2\n"),
        words("\n\n", "locks 2\n"),
        words(
            "a 1 leave 4 = absent\n",
            "locks 2\na 1 1 leave 4 = absent\n",
        ),
        words(
            "b 1 finish 9 = other\na 2 finish 8 = other\nb 3 leave 4 = absent\n",
            "locks 2\na 1 2 finish 8 = other\nb 1 1 finish 9 = other\nb 2 3 leave 4 = absent\n",
        ),
        words(
            "ab 1 leave 1 = left\nB 1 leave 2 = left\na 1 leave 3 = left\n{ 1 leave 4 = left\n",
            "locks 2\nB 1 1 leave 2 = left\na 1 1 leave 3 = left\nab 1 1 leave 1 = left\n{ 1 1 leave 4 = left\n",
        ),
        words(
            "k 1024 finish 9 = freed let 1.1 2.1\n\nk 1 visit 1.2 - 1.0 w max=1 = long\n",
            "locks 2\nk 1 1024 finish 9 = freed let 1.1 2.1\nk 2 1 visit 1.2 - 1.0 w max=1 = long\n",
        ),
        bad_words("a 1 leave 4 = absent", 1),
        bad_words("a 1 leave 4 = absent\nlocks 2\n", 2),
        bad_words("a 1 1 leave 4 = absent\n", 1),
        bad_words("a 0 leave 4 = absent\n", 1),
        bad_words("a 1025 leave 4 = absent\n", 1),
        bad_words("a 01 leave 4 = absent\n", 1),
        bad_words("a 1 leave 4 = freed\n", 1),
        bad_words("a 1 leave 4 = absent let\n", 1),
        bad_words("a 1 leave 4 = absent 1.1\n", 1),
        bad_words("a 1 leave 4 = absent let 1.0\n", 1),
        bad_words("a  1 leave 4 = absent\n", 1),
        bad_words("a 1 leave 4 = absent \n", 1),
        bad_words(" a 1 leave 4 = absent\n", 1),
        bad_words("a 1 leave 4 = absent\r\n", 1),
        bad_words("a\n", 1),
        bad_words(" \n", 1),
        bad_words("b 1 leave 4 = absent\n\nx\na 1 leave 4 = absent\n", 3),
    ];
    for (i, row) in rows.iter().enumerate() {
        assert!(rt; is_given(rt.alloc(), row, EVERYTHING), "row {i}");
        assert!(rt; is_given(rt.alloc(), row, 1), "row {i}, line by line");
    }
}

#[test]
fn lines_of_json_are_sorted_or_refused(rt: HostRuntime) {
    let rows = [
        json(
            "{\"key\":\"k1\",\"pass\":1,\"call\":\"visit 1.1 1 5.0 w\",\"reply\":\"wait\"}\n",
            "locks 2\nk1 1 1 visit 1.1 1 5.0 w = wait\n",
        ),
        json(
            "{ \"let\": [\"1.1\", \"2.1\"], \"reply\": \"freed\", \"call\": \"finish 9\", \"pass\": 3, \"key\": \"b\" }\r\n\n{\"key\":\"a\",\"pass\":2,\"call\":\"leave 4\",\"reply\":\"left\",\"let\":[]}\n",
            "locks 2\na 1 2 leave 4 = left\nb 1 3 finish 9 = freed let 1.1 2.1\n",
        ),
        bad_json("a 1 leave 4 = absent\n", TraceFault::Json),
        bad_json("[]\n", TraceFault::Json),
        bad_json("{}\n", TraceFault::Json),
        bad_json(
            "{\"key\":\"a\",\"pass\":2,\"call\":\"leave 4\"}\n",
            TraceFault::Json,
        ),
        bad_json(
            "{\"key\":\"a\",\"pass\":2,\"call\":\"leave 4\",\"reply\":\"left\",\"x\":1}\n",
            TraceFault::Json,
        ),
        bad_json(
            "{\"key\":\"a\",\"pass\":\"2\",\"call\":\"leave 4\",\"reply\":\"left\"}\n",
            TraceFault::Json,
        ),
        bad_json(
            "{\"key\":\"a\",\"pass\":2.5,\"call\":\"leave 4\",\"reply\":\"left\"}\n",
            TraceFault::Json,
        ),
        bad_json(
            "{\"key\":\"a\",\"pass\":2,\"call\":\"leave 4\",\"reply\":\"left\",\"let\":\"1.1\"}\n",
            TraceFault::Json,
        ),
        bad_json(
            "{\"key\":\"a\",\"pass\":2,\"call\":\"leave 4\",\"reply\":\"left\"",
            TraceFault::Shape,
        ),
        bad_json(
            "{\"key\":\"a\",\"pass\":0,\"call\":\"leave 4\",\"reply\":\"left\"}\n",
            TraceFault::Shape,
        ),
        bad_json(
            "{\"key\":\"a b\",\"pass\":2,\"call\":\"leave 4\",\"reply\":\"left\"}\n",
            TraceFault::Shape,
        ),
        bad_json(
            "{\"key\":\"a\",\"pass\":2,\"call\":\"leave 4\",\"reply\":\"left let 1.1\"}\n",
            TraceFault::Shape,
        ),
        bad_json(
            "{\"key\":\"a\",\"pass\":2,\"call\":\"leave 4 = left\",\"reply\":\"left\"}\n",
            TraceFault::Shape,
        ),
        bad_json(
            "{\"key\":\"a\",\"pass\":2,\"call\":\"leave 4\",\"reply\":\"left\",\"let\":[1]}\n",
            TraceFault::Shape,
        ),
        bad_json(
            "{\"key\":\"a\",\"pass\":2,\"call\":\"leave 4\",\"reply\":\"left\",\"let\":[\"1.1 2.1\"]}\n",
            TraceFault::Shape,
        ),
    ];
    for (i, row) in rows.iter().enumerate() {
        assert!(rt; is_given(rt.alloc(), row, EVERYTHING), "row {i}");
        assert!(rt; is_given(rt.alloc(), row, 1), "row {i}, line by line");
    }
}

/// The keys of a made trace, in rising order. The last one is longer than a key that needs no allocation.
const KEYS: [&str; 5] = ["A", "a", "ab", "b", "key-that-needs-an-allocation"];

/// Which key the step has.
fn key_of(step: usize) -> usize {
    (step.wrapping_mul(7).wrapping_add(step / 3)) % 5
}

/// A trace of so many steps: the steps in the order in which they happened. The number of a step's request tells it apart.
fn trace_of(alloc: Global, steps: usize) -> io::Result<Vec<u8>> {
    let mut trace = Vec::new(alloc);
    for step in 0..steps {
        let key = KEYS.get(key_of(step)).copied().unwrap_or("");
        let number = step.wrapping_add(1);
        writeln!(trace, "{key} 3 look {number} = nothing")?;
    }
    Ok(trace)
}

/// Its text: for each key, the steps that have it.
fn text_of(alloc: Global, steps: usize) -> io::Result<Vec<u8>> {
    let mut text = Vec::new(alloc);
    text.extend_from_slice(b"locks 2\n")?;
    for (i, key) in KEYS.iter().enumerate() {
        let mut index: usize = 0;
        for step in 0..steps {
            if key_of(step) == i {
                index = index.wrapping_add(1);
                let number = step.wrapping_add(1);
                writeln!(text, "{key} {index} 3 look {number} = nothing")?;
            }
        }
    }
    Ok(text)
}

/// The trace and the text. Made again if memory ran out.
fn pair_of(alloc: Global, steps: usize) -> io::Result<(Vec<u8>, Vec<u8>)> {
    let trace = match trace_of(alloc, steps) {
        Ok(trace) => trace,
        Err(_) => trace_of(alloc, steps)?,
    };
    let text = match text_of(alloc, steps) {
        Ok(text) => text,
        Err(_) => text_of(alloc, steps)?,
    };
    Ok((trace, text))
}

/// Whether the trace of 200 steps is sorted with these limits, so many runs are made, and no name is left.
fn is_sorted_within(
    alloc: Global,
    pair: &(Vec<u8>, Vec<u8>),
    memory: usize,
    ways: usize,
    runs: u64,
) -> bool {
    let files = empty_store(alloc, EVERYTHING, 3);
    let mut output = empty_scrap(alloc, EVERYTHING);
    let options = options(TraceForm::Words, memory, ways);
    let result = sort(&files, alloc, &options, &pair.0, &mut output);
    let report = SortReport {
        keys: 5,
        steps: 200,
        runs,
    };
    result == Ok(report) && output.bytes == pair.1 && files.left.get() == 0
}

#[test]
fn the_memory_limit_does_not_change_the_text(rt: HostRuntime) -> io::Result<()> {
    let pair = pair_of(rt.alloc(), 200)?;
    // All lines in memory, one at a time, and three at a time. Less than 2 ways count as 2.
    for (memory, ways, runs) in [
        (EVERYTHING, 64, 0),
        (0, 64, 200),
        (1, 0, 200),
        (1, 2, 200),
        (1, 3, 200),
        (1, 64, 200),
        (1, 1000, 200),
        (560, 2, 67),
        (560, 64, 67),
    ] {
        let is_sorted = is_sorted_within(rt.alloc(), &pair, memory, ways, runs);
        assert!(rt; is_sorted, "memory {memory}, ways {ways}");
    }
    let report = match check(rt.alloc(), &pair.1) {
        Ok(report) => report.steps,
        Err(_) => 0,
    };
    // A check that runs out of memory says nothing.
    assert!(rt; report == 200 || report == 0);
    Ok(())
}

/// Whether a sort on files of so much room gives the text, or tells that a file failed. No name is left.
fn is_safe_with_room(alloc: Global, pair: &(Vec<u8>, Vec<u8>), memory: usize, room: usize) -> bool {
    let files = empty_store(alloc, room, 0);
    let mut output = empty_scrap(alloc, EVERYTHING);
    let options = options(TraceForm::Words, memory, 2);
    let result = sort(&files, alloc, &options, &pair.0, &mut output);
    // Two lines never fit into 40 bytes, and no file has more than the trace.
    let is_right = match result {
        Ok(_) => room >= 40 && output.bytes == pair.1,
        Err(e) => room < pair.0.len() && e == SortError::Temporary,
    };
    is_right && files.left.get() == 0
}

/// Whether a sort into an output of so much room writes a prefix of the text, and tells that a write failed.
fn is_cut_off(alloc: Global, pair: &(Vec<u8>, Vec<u8>), memory: usize, room: usize) -> bool {
    let files = empty_store(alloc, EVERYTHING, 0);
    let mut output = empty_scrap(alloc, room);
    let options = options(TraceForm::Words, memory, 2);
    let result = sort(&files, alloc, &options, &pair.0, &mut output);
    let is_prefix = match pair.1.get(..room) {
        Some(prefix) => output.bytes.as_slice() == prefix,
        None => false,
    };
    result == Err(SortError::Write) && is_prefix && files.left.get() == 0
}

#[test]
fn a_failed_write_leaves_no_file(rt: HostRuntime) -> io::Result<()> {
    let pair = pair_of(rt.alloc(), 6)?;
    for room in 0..pair.0.len() {
        assert!(rt;
            is_safe_with_room(rt.alloc(), &pair, 1, room),
            "files of {room} bytes"
        );
    }
    for room in 0..pair.1.len() {
        assert!(rt;
            is_cut_off(rt.alloc(), &pair, 1, room),
            "output of {room} bytes"
        );
        assert!(rt;
            is_cut_off(rt.alloc(), &pair, EVERYTHING, room),
            "output of {room} bytes, in memory"
        );
    }
    Ok(())
}

/// Sorts what the reader gives.
fn sort_stream<R: BufRead>(
    alloc: Global,
    input: &mut R,
    output: &mut Scrap,
) -> Result<SortReport, SortError> {
    let files = empty_store(alloc, EVERYTHING, 0);
    sort_trace(
        &files,
        alloc,
        &options(TraceForm::Words, 1, 2),
        input,
        output,
    )
}

#[test]
fn a_failed_read_writes_nothing(rt: HostRuntime) -> io::Result<()> {
    let mut output = empty_scrap(rt.alloc(), EVERYTHING);
    let broken = Broken {
        rest: b"b 1 leave 4 = left\na 1 leave 4 = left\n",
    };
    let Ok(mut input) = BufReader::new(rt.alloc(), broken) else {
        return Ok(());
    };
    let result = sort_stream(rt.alloc(), &mut input, &mut output);
    assert!(rt; result == Err(SortError::Read) || result == Err(SortError::Memory));
    assert!(rt; output.bytes.is_empty());
    Ok(())
}

#[test]
fn files_of_the_system_are_used(rt: HostRuntime) -> io::Result<()> {
    let pair = pair_of(rt.alloc(), 200)?;
    let mut output = empty_scrap(rt.alloc(), EVERYTHING);
    let options = options(TraceForm::Words, 2000, 3);
    let report = sort(&rt, rt.alloc(), &options, &pair.0, &mut output);
    assert!(rt; report.is_ok());
    assert!(rt; output.bytes == pair.1);
    let missing = SortOptions {
        folder: "/tmp/no-such-folder-of-locktrace",
        ..options
    };
    let mut output = empty_scrap(rt.alloc(), EVERYTHING);
    let report = sort(&rt, rt.alloc(), &missing, &pair.0, &mut output);
    assert!(rt; report == Err(SortError::Temporary));
    assert!(rt; !fs::exists(&rt, "/tmp/locktrace-0")?);
    Ok(())
}
