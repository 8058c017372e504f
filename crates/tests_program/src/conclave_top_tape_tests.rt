//! The files of tapes and of views: their lengths, and what is told of tapes that don't fit.
//!
//! The lengths are counted by hand on a relation of two rows in one column, of party 1 for party 2. Its column and its
//! valid words are shared, the column is zeroed in one And, and both are revealed. So tape 1 has 4 words of the shares, 2
//! of the And, and of the Reveal an order of two numbers and a word for each of the four moved words in two of its three
//! phases; so has tape 2, and tape 3 the same without the shares.

use crate::conclave_top_run_tests::ONE;
use crate::conclave_top_tests::{folder_of, names_called};
use crate::runs::{Files, RUN, TAPE, bytes_of, call, is_said, run_over};
use outside::{Folder, MemoryFolder};
use std::alloc::Global;
use std::test::Fail;

const FILES: Files<'static> = &[("q.txt", ONE), ("a.csv", b"x\n5\n6\n")];

const LENGTHS: &[(&str, usize)] = &[
    ("t.1", 120),
    ("t.2", 120),
    ("t.3", 88),
    ("t.view.1", 96),
    ("t.view.2", 160),
    ("t.view.3", 128),
];

// The words that a party gets from the next one, of which its view has the count first.
const COUNTS: Files<'static> = &[
    ("t.view.1", &[0, 0, 0, 0, 0, 0, 0, 6]),
    ("t.view.2", &[0, 0, 0, 0, 0, 0, 0, 10]),
    ("t.view.3", &[0, 0, 0, 0, 0, 0, 0, 10]),
];

#[test]
fn tapes_and_views_have_all_draws_and_words(rt: HostRuntime) -> Result<(), Fail> {
    let folder = run_over(rt.alloc(), FILES, &[])?;
    for (name, length) in LENGTHS {
        assert_eq!(rt; bytes_of(&folder, name).len(), *length, "{name}");
    }
    for (name, count) in COUNTS {
        assert!(rt; bytes_of(&folder, name).starts_with(count), "{name}");
    }
    Ok(())
}

// The first tape of a seed.
fn first_tape(alloc: Global, seed: &str) -> Result<MemoryFolder, Fail> {
    let mut folder = folder_of(alloc, FILES, &[])?;
    let _ = call(alloc, &["tape", "q.txt", seed, "t"], &mut folder)?;
    Ok(folder)
}

#[test]
fn a_seed_is_a_number(rt: HostRuntime) -> Result<(), Fail> {
    let short = first_tape(rt.alloc(), "7")?;
    let long = first_tape(rt.alloc(), "00000000000000000007")?;
    let most = first_tape(rt.alloc(), "18446744073709551615")?;
    let tape = bytes_of(&short, "t.1");
    // By an independent script.
    assert!(rt; tape.starts_with(&[0x8e, 0x6c, 0xab, 0x0c, 0x9a, 0x6e, 0x36, 0xce]));
    assert!(rt; tape == bytes_of(&long, "t.1"));
    assert!(rt; bytes_of(&most, "t.1").len() == 120 && tape != bytes_of(&most, "t.1"));
    Ok(())
}

// Tapes, each with how many bytes less and which bytes more it has, and the line.
type Fault = (
    &'static [(&'static str, usize, &'static [u8])],
    &'static [u8],
);

const FAULTS: &[Fault] = &[
    (&[("t.2", 0, &[0])], b"tape t.2: long at 15\n"),
    (&[("t.3", 0, &[0])], b"tape t.3: long at 11\n"),
    (&[("t.1", 120, &[])], b"tape t.1: short at 0\n"),
    (&[("t.1", 1, &[])], b"tape t.1: short at 14\n"),
    // The last draw of tape 3 is its order.
    (&[("t.3", 1, &[2])], b"tape t.3: not an order at 10\n"),
    (&[("t.3", 1, &[])], b"tape t.3: short at 10\n"),
    // The first tape counts, and in it the first draw.
    (
        &[("t.3", 88, &[]), ("t.2", 1, &[])],
        b"tape t.2: short at 14\n",
    ),
    (&[("t.3", 1, &[2, 0])], b"tape t.3: not an order at 10\n"),
];

// Gives a file other last bytes.
fn change(
    alloc: Global,
    folder: &mut MemoryFolder,
    name: &str,
    less: usize,
    more: &[u8],
) -> Result<(), Fail> {
    let old = bytes_of(folder, name);
    let kept = old.split_at(old.len().saturating_sub(less)).0;
    let mut bytes = Vec::from_slice(alloc, kept)?;
    bytes.extend_from_slice(more)?;
    folder.write(name, &bytes)?;
    Ok(())
}

// Whether a run with these tapes ends so, and writes nothing.
fn is_unfit(alloc: Global, fault: &Fault) -> Result<bool, Fail> {
    let (changes, line) = *fault;
    let mut folder = first_tape(alloc, "7")?;
    for (name, less, more) in changes {
        change(alloc, &mut folder, name, *less, more)?;
    }
    let said = call(alloc, RUN, &mut folder)?;
    let unwritten = folder.file("t.view.1").is_none() && folder.file("a.to2.csv").is_none();
    Ok(is_said(&said, 4, b"", line) && unwritten)
}

// The first of the faults that is told in another way.
fn first_other_fault(alloc: Global, faults: &[Fault]) -> Result<Option<usize>, Fail> {
    for (index, fault) in faults.iter().enumerate() {
        if !is_unfit(alloc, fault)? {
            return Ok(Some(index));
        }
    }
    Ok(None)
}

#[test]
fn run_tells_the_first_draw_of_the_first_tape_that_does_not_fit(
    rt: HostRuntime,
) -> Result<(), Fail> {
    assert_eq!(rt; first_other_fault(rt.alloc(), FAULTS)?, None);
    Ok(())
}

#[test]
fn run_tells_of_a_file_before_it_looks_at_tapes(rt: HostRuntime) -> Result<(), Fail> {
    let alloc = rt.alloc();
    let files: Files<'_> = &[("q.txt", ONE), ("a.csv", b"x\n5\nb\n"), ("t.1", b"")];
    let mut folder = folder_of(alloc, files, &[])?;
    let said = call(alloc, RUN, &mut folder)?;
    let line = b"file a.csv: record 3 column x: not a number\n";
    assert!(rt; is_said(&said, 3, b"", line));
    assert!(rt; names_called(alloc, &folder)?.as_str() == "q.txt a.csv ");
    let taped = call(alloc, TAPE, &mut folder)?;
    assert!(rt; is_said(&taped, 0, b"", b""));
    Ok(())
}
