//! What the command says of faulty files, of failing calls and of words that are no form.
use crate::conclave_top_tests::{FAULT, Failing, PAIR, is_left, plain, run_words};
use conclave_top::{
    leaves_the_rest, one_due, reads_come_first, ready_is_done, some_due, statuses_are_exact,
};
use std::alloc::Global;
use std::test::Fail;

const USAGE: &[u8] =
    b"usage: conclave plan Q, plain Q, tape Q SEED T, run Q T [TURNS], audit Q PARTY A B T, replay Q PARTY T V, party Q PARTY T [PORT], make N\n";

const TWO_FILES: &[u8] =
    b"relation a of 1 rows 2 (x num, t text)\nrelation b of 2 rows 3 (z num)\noutput b to 1\n";

const GOOD: &[u8] = b"x,t\n1,\n";

// The files of a and b, and the line.
const FAULTS: &[(&[u8], &[u8], &[u8])] = &[
    (b"", b"z\nx\n", b"file a.csv: header\n"),
    (b"x,t\n1\n", b"", b"file a.csv: record 2: fields\n"),
    (
        b"x,t\n1,a\n2,b\n3,c\n",
        b"z\n",
        b"file a.csv: 3 records, at most 2\n",
    ),
    (
        b"x,t\n,a\n",
        b"z\n",
        b"file a.csv: record 2 column x: not a number\n",
    ),
    (
        b"x,t\n1,\xc3\xa9\n",
        b"z\n",
        b"file a.csv: record 2 column t: text byte\n",
    ),
    (
        b"x,t\n1,abcdefghi\n",
        b"z\n",
        b"file a.csv: record 2 column t: text too long\n",
    ),
    (
        GOOD,
        b"z\n1\n2\n18446744073709551616\n",
        b"file b.csv: record 4 column z: too large\n",
    ),
    (
        GOOD,
        b"z\n1\n2\n3\n4\n",
        b"file b.csv: 4 records, at most 3\n",
    ),
    (GOOD, b"y\n", b"file b.csv: header\n"),
];

// The first of the files whose first fault is told in another way.
fn first_other_fault(
    alloc: Global,
    cases: &[(&[u8], &[u8], &[u8])],
) -> Result<Option<usize>, Fail> {
    for (index, (a, b, line)) in cases.iter().enumerate() {
        let run = plain(alloc, TWO_FILES, a, b)?;
        if !is_left(&run, 3, b"", line, "q.txt a.csv b.csv ") {
            return Ok(Some(index));
        }
    }
    Ok(None)
}

#[test]
fn names_the_first_fault_of_the_first_file_that_has_one(rt: HostRuntime) -> Result<(), Fail> {
    assert_eq!(rt; first_other_fault(rt.alloc(), FAULTS)?, None);
    Ok(())
}

const NO_FORMS: &[&[&str]] = &[
    &[],
    &["plain"],
    &["plain", ""],
    &["plan", ""],
    &["--help"],
    &["Plain", "q.txt"],
    &["plain", "q.txt", "t"],
    &["tape", "q.txt"],
    &["tape", "q.txt", "7"],
    &["tape", "q.txt", "7", "t", "t"],
    &["tape", "", "7", "t"],
    &["tape", "q.txt", "7", ""],
    &["tape", "q.txt", "", "t"],
    &["tape", "q.txt", "-1", "t"],
    &["tape", "q.txt", "18446744073709551616", "t"],
    &["tape", "q.txt", "000000000000000000007", "t"],
    &["run"],
    &["run", "q.txt"],
    &["run", "", "t"],
    &["run", "q.txt", ""],
    &["run", "q.txt", "t", "123"],
    &["Run", "q.txt", "t"],
    &["audit", "q.txt", "1", "a", "b"],
    &["audit", "", "1", "a", "b", "t"],
    &["audit", "q.txt", "0", "a", "b", "t"],
    &["audit", "q.txt", "4", "a", "b", "t"],
    &["audit", "q.txt", "12", "a", "b", "t"],
    &["audit", "q.txt", "", "a", "b", "t"],
    &["audit", "q.txt", "1", "", "b", "t"],
    &["audit", "q.txt", "1", "a", "", "t"],
    &["audit", "q.txt", "1", "a", "b", ""],
    &["audit", "q.txt", "1", "a", "b", "t", "t"],
];

// The first of the word lists that is told something else than the usage.
fn first_other_usage(alloc: Global, cases: &[&[&str]]) -> Result<Option<usize>, Fail> {
    for (index, words) in cases.iter().enumerate() {
        let run = run_words(alloc, words, &[("q.txt", PAIR)], (&[], &[], &[]))?;
        if !is_left(&run, 1, b"", USAGE, "") {
            return Ok(Some(index));
        }
    }
    Ok(None)
}

#[test]
fn tells_the_usage_to_words_that_are_no_form(rt: HostRuntime) -> Result<(), Fail> {
    assert_eq!(rt; first_other_usage(rt.alloc(), NO_FORMS)?, None);
    Ok(())
}

const PAIR_FILES: &[(&str, &[u8])] = &[("q.txt", PAIR), ("a.csv", b"x\n1\n"), ("b.csv", b"x\n2\n")];

const PAIR_CALLS: &str = "q.txt a.csv b.csv ";

// The calls that fail, the status, the output, the line, and the names that are called.
type Failure = (
    Failing<'static>,
    u8,
    &'static [u8],
    &'static [u8],
    &'static str,
);

const FAILURES: &[Failure] = &[
    ((&[0], &[], &[]), 8, b"", FAULT, "q.txt "),
    ((&[1], &[], &[]), 8, b"", FAULT, "q.txt a.csv "),
    ((&[2], &[], &[]), 8, b"", FAULT, PAIR_CALLS),
    ((&[], &[0], &[]), 8, b"", FAULT, PAIR_CALLS),
    ((&[], &[0], &[0]), 8, b"", b"", PAIR_CALLS),
    (
        (&[3], &[1], &[0]),
        0,
        b"b\nx\n2\na\nx\n1\n",
        b"",
        PAIR_CALLS,
    ),
];

// The first of the failures that ends in another way.
fn first_other_failure(alloc: Global, cases: &[Failure]) -> Result<Option<usize>, Fail> {
    for (index, (failing, status, out, line, calls)) in cases.iter().enumerate() {
        let run = run_words(alloc, &["plain", "q.txt"], PAIR_FILES, *failing)?;
        if !is_left(&run, *status, out, line, calls) {
            return Ok(Some(index));
        }
    }
    Ok(None)
}

#[test]
fn tells_each_failing_call_as_a_fault_of_the_outside(rt: HostRuntime) -> Result<(), Fail> {
    assert_eq!(rt; first_other_failure(rt.alloc(), FAILURES)?, None);
    one_due();
    some_due();
    statuses_are_exact();
    ready_is_done();
    reads_come_first();
    leaves_the_rest();
    Ok(())
}

// Whether `plain` fails where only so many of its files are there.
fn fails_on(alloc: Global, present: usize, calls: &str) -> Result<bool, Fail> {
    let files = PAIR_FILES.split_at(present.min(3)).0;
    let run = run_words(alloc, &["plain", "q.txt"], files, (&[], &[], &[]))?;
    Ok(is_left(&run, 8, b"", FAULT, calls))
}

#[test]
fn tells_each_missing_file_as_a_fault_of_the_outside(rt: HostRuntime) -> Result<(), Fail> {
    assert!(rt; fails_on(rt.alloc(), 0, "q.txt ")?);
    assert!(rt; fails_on(rt.alloc(), 1, "q.txt a.csv ")?);
    assert!(rt; fails_on(rt.alloc(), 2, PAIR_CALLS)?);
    Ok(())
}
