//! How does a command read a file?
use crate::failure::{FileFault, TraceFailure, fault_of};
use std::alloc::Global;
use std::fs::{self, File, Files};
use std::io::{BufReader, Read};

/// How many bytes one read asks for.
const PIECE: usize = 1 << 16;

/// Reads through a buffer.
pub fn buffered<R: Read + Drop>(alloc: Global, input: R) -> Result<BufReader<R>, TraceFailure> {
    match BufReader::with_capacity(alloc, PIECE, input) {
        Ok(reader) => Ok(reader),
        Err(_) => Err(TraceFailure::Memory),
    }
}

/// Whether this is a file whose bytes stay after they were read, and not a pipe or a device.
pub fn is_regular<F: Files>(files: &F, name: &str) -> bool {
    match fs::metadata(files, name) {
        Ok(data) => data.is_file(),
        Err(_) => false,
    }
}

/// Opens the file. A folder is refused at once.
pub fn open<F: Files>(files: &F, name: &str) -> Result<F::File, TraceFailure> {
    match fs::metadata(files, name) {
        Ok(data) if data.is_dir() => return Err(TraceFailure::Read(FileFault::Folder)),
        _ => {}
    }
    match File::open(files, name) {
        Ok(file) => Ok(file),
        Err(e) => Err(TraceFailure::Read(fault_of(e.kind()))),
    }
}

/// A reader of the file.
pub fn open_reader<F: Files>(
    files: &F,
    alloc: Global,
    name: &str,
) -> Result<BufReader<F::File>, TraceFailure> {
    let file = open(files, name)?;
    buffered(alloc, file)
}
