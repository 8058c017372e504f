//! Command lines over one folder, one after the other, and what they leave.

use crate::conclave_top_tests::{folder_of, words_of};
use conclave_top::conclave;
use outside::{MemoryFolder, MemorySink};
use std::alloc::Global;
use std::test::Fail;

pub(crate) const TAPE: &[&str] = &["tape", "q.txt", "7", "t"];

pub(crate) const RUN: &[&str] = &["run", "q.txt", "t"];

/// Names, each with the bytes of a file.
pub(crate) type Files<'a> = &'a [(&'a str, &'a [u8])];

/// What a call told: its status, and what the two streams got.
#[derive(Drop)]
pub(crate) struct Said {
    pub status: u8,
    pub out: MemorySink,
    pub err: MemorySink,
}

/// One command line over a folder. The writes of these numbers fail, of the output and of the stream for errors.
pub(crate) fn call_failing(
    alloc: Global,
    words: &[&str],
    folder: &mut MemoryFolder,
    failing: (&[u64], &[u64]),
) -> Result<Said, Fail> {
    let words = words_of(alloc, words)?;
    let mut out = MemorySink::new(alloc, Vec::from_slice(alloc, failing.0)?);
    let mut err = MemorySink::new(alloc, Vec::from_slice(alloc, failing.1)?);
    let status = conclave(alloc, &words, folder, &mut out, &mut err);
    Ok(Said { status, out, err })
}

/// One command line over a folder.
pub(crate) fn call(alloc: Global, words: &[&str], folder: &mut MemoryFolder) -> Result<Said, Fail> {
    call_failing(alloc, words, folder, (&[], &[]))
}

/// Whether a call ended with this status, and told this.
pub(crate) fn is_said(said: &Said, status: u8, out: &[u8], err: &[u8]) -> bool {
    said.status == status
        && said.out.bytes().as_slice() == out
        && said.err.bytes().as_slice() == err
}

/// Makes the tapes of a query, and runs it with them.
pub(crate) fn taped_run(alloc: Global, folder: &mut MemoryFolder) -> Result<Said, Fail> {
    let taped = call(alloc, TAPE, folder)?;
    if !is_said(&taped, 0, b"", b"") {
        return Ok(taped);
    }
    call(alloc, RUN, folder)
}

/// The same in a new folder of these files, in which these calls fail.
pub(crate) fn run_over(
    alloc: Global,
    files: Files<'_>,
    failing: &[u64],
) -> Result<MemoryFolder, Fail> {
    let mut folder = folder_of(alloc, files, failing)?;
    let _ = taped_run(alloc, &mut folder)?;
    Ok(folder)
}

/// The bytes of a file, empty where it isn't there.
pub(crate) fn bytes_of<'a>(folder: &'a MemoryFolder, name: &str) -> &'a [u8] {
    match folder.file(name) {
        Some(bytes) => bytes.as_slice(),
        None => b"",
    }
}

/// Whether a folder holds these files.
pub(crate) fn holds(folder: &MemoryFolder, files: Files<'_>) -> bool {
    for (name, bytes) in files {
        if bytes_of(folder, name) != *bytes {
            return false;
        }
    }
    true
}

/// Whether `plain` prints the answers that a folder's run wrote: each node's name, and its answer, which all recipients have.
pub(crate) fn is_printed(alloc: Global, folder: &mut MemoryFolder) -> Result<bool, Fail> {
    let said = call(alloc, &["plain", "q.txt"], folder)?;
    Ok(said.status == 0 && are_answers(folder, said.out.bytes().as_slice()))
}

// Whether this is printed of the answers whose files were called.
fn are_answers(folder: &MemoryFolder, printed: &[u8]) -> bool {
    let mut rest = printed;
    let mut node = "";
    let mut answer: &[u8] = b"";
    for name in folder.calls() {
        if let Some((answered, _)) = name.as_str().split_once(".to") {
            let bytes = bytes_of(folder, name.as_str());
            if answered != node {
                (node, answer) = (answered, bytes);
                rest = behind_answer(rest, answered, bytes).unwrap_or(b"!");
            } else if bytes != answer {
                return false;
            }
        }
    }
    rest.is_empty()
}

// What stands behind a node's name and its answer.
fn behind_answer<'a>(printed: &'a [u8], node: &str, answer: &[u8]) -> Option<&'a [u8]> {
    let line = behind(printed, node.as_bytes())?;
    behind(behind(line, b"\n")?, answer)
}

// What stands behind a front of bytes.
fn behind<'a>(bytes: &'a [u8], front: &[u8]) -> Option<&'a [u8]> {
    if bytes.starts_with(front) {
        bytes.get(front.len()..)
    } else {
        None
    }
}
