//! Where do sorted lines that do not fit into memory wait? A run is a temporary file with lines in the order of their
//! keys. The runs stand in the order in which their lines were read.
//!
//! A temporary file is removed from its folder as soon as it is open, and before its first byte is written. So none is
//! left behind, however the sort ends. This needs a file system that lets an open file be removed, as those of Unix do.
ghost use Rattle.std.specs.Prelude.{◌≡◌, ◌≢◌, ◌≤◌, ◌↔◌, [], IsTrue, IfErr, OnOk};
ghost use Rattle.lt_trace.specs.Errors.{IsOfOutput};

use crate::error::{SortError, stream_error};
use std::alloc::Global;
use std::fs::{self, OpenOptions};
use std::io::{BufReader, ErrorKind, Read, Seek, SeekFrom};
use std::rt::Files;

/// How many names are tried for one file before the sort gives up.
const TRIES: u64 = 1 << 20;

#[derive(Drop)]
pub(crate) struct Run<T> {
    file: T,
    /// How often its lines were merged.
    level: u32,
}

/// The runs, in the order in which their lines were read.
#[derive(Drop)]
pub(crate) struct RunStack<T> {
    runs: Vec<Run<T>>,
    /// The number in the name of the next file.
    next_name: u64,
    /// How many runs were written from memory.
    stored: u64,
}

/// Opens the file of this name if no file has it, and removes the name. `None` if a file has it.
fn open_unnamed<F: Files>(files: &F, name: &str) -> Result<Option<F::File>, SortError>
    ensures { IfErr result IsOfOutput }
{
    let mut how = OpenOptions::new();
    how.read(true);
    how.write(true);
    how.create_new(true);
    match how.open(files, name) {
        Ok(file) => match fs::remove_file(files, name) {
            Ok(()) => Ok(Some(file)),
            Err(_) => Err(SortError::Temporary),
        },
        Err(e) if e.kind() == ErrorKind::AlreadyExists => Ok(None),
        Err(e) => Err(stream_error(&e, SortError::Temporary)),
    }
}

/// Opens a new file that has no name in the folder. Another sort at the same time gets other names: a file is only
/// opened by a name that no file has.
pub(crate) fn create<F: Files>(
    files: &F,
    alloc: Global,
    folder: &str,
    next_name: &mut u64,
) -> Result<F::File, SortError>
    ensures { IfErr result IsOfOutput }
{
    for _ in 0..TRIES {
        let number = *next_name;
        *next_name = number.wrapping_add(1);
        let name = format!(in alloc; "{folder}/locktrace-{number}")?;
        if let Some(file) = open_unnamed(files, name.as_str())? {
            return Ok(file);
        }
    }
    Err(SortError::Temporary)
}

impl<T: Read + Seek + Drop> RunStack<T> {
    pub fn new(alloc: Global) -> RunStack<T>
        ensures { result.runs.items ≡ [] }
    {
        RunStack {
            runs: Vec::new(alloc),
            next_name: 0,
            stored: 0,
        }
    }

    pub fn len(&self) -> usize {
        self.runs.len()
    }

    pub fn is_empty(&self) -> bool
        ensures { IsTrue result ↔ (self.now.runs.items ≡ []) }
    {
        self.runs.is_empty()
    }

    pub fn stored(&self) -> u64
        ensures { result ≡ self.now.stored }
    {
        self.stored
    }

    /// The number that the name of the next file has.
    pub fn next_name(&self) -> u64 {
        self.next_name
    }

    pub fn set_next_name(&mut self, number: u64)
        ensures { self.new.stored ≡ self.old.stored }
    {
        self.next_name = number;
    }

    /// How many runs at the end have the level of the last one, and that level.
    pub fn last_level(&self) -> (usize, u32) {
        let Some(last) = self.runs.last() else {
            return (0, 0);
        };
        let count = self
            .runs
            .iter()
            .rev()
            .take_while(|run| run.level == last.level)
            .count();
        (count, last.level)
    }

    /// Appends a run whose lines were written to the file.
    pub fn push(&mut self, mut file: T, level: u32) -> Result<(), SortError>
        ensures failed { IfErr result IsOfOutput }
        ensures some { OnOk result (self.new.runs.items ≢ []) }
        ensures counted { OnOk result (level ≡ 0 → 1 ≤ self.new.stored) }
        ensures stored { self.old.stored ≤ self.new.stored }
    {
        if let Err(e) = file.seek(SeekFrom::Start(0)) {
            return Err(stream_error(&e, SortError::Temporary));
        }
        self.runs.push(Run { file, level })?;
        if level == 0 {
            self.stored = self.stored.saturating_add(1);
        }
        Ok(())
    }

    /// Takes the last runs, this many, in their order.
    pub fn take_last(&mut self, alloc: Global, count: usize) -> Result<Vec<BufReader<T>>, SortError>
        ensures failed { IfErr result IsOfOutput }
        ensures stored { self.new.stored ≡ self.old.stored }
    {
        let mut readers = Vec::new(alloc);
        for _ in 0..count {
            let Some(run) = self.runs.pop() else {
                break;
            };
            match BufReader::new(alloc, run.file) {
                Ok(reader) => readers.push(reader)?,
                Err(_) => return Err(SortError::Memory),
            }
        }
        readers.reverse();
        Ok(readers)
    }
}
