//! Texts without a plan, each with why.

use lowering::{CompileFault, compile, refusal_text};
use std::alloc::Global;
use std::test::Fail;

// Queries, each with the line that refuses it.
const REFUSALS: &[(&[u8], &[u8])] = &[
    (b"output", b"refused: Q1 line 1 column 7: text\n"),
    (
        b"relation a of 1 rows 2 (x num)\noutput b to 1\n",
        b"refused: Q2 line 2: b is unknown\n",
    ),
    (
        b"relation a of 1 rows 2 (x num)\nrelation a of 2 rows 2 (x num)\n",
        b"refused: Q3 line 2: a is taken\n",
    ),
    (
        b"relation a of 1 rows 2 (x num)\nf = filter a where x == \"2\"\n",
        b"refused: Q4 line 2: kind\n",
    ),
    (
        b"relation a of 1 rows 2 (x num)\nrelation b of 1 rows 2 (y num)\nc = concat a b\n",
        b"refused: Q5 line 3: shape\n",
    ),
    (
        b"relation a of 1 rows 65536 (k num, v num)\nrelation b of 2 rows 2 (k num, w num)\nj = join a b on k\n",
        b"refused: Q6 line 3: size\n",
    ),
    (b"", b"refused: Q10: no output\n"),
    (
        b"relation a of 1 rows 2 (x num)\nf = filter a where x > 2 at most 3\n",
        b"refused: Q10: no output\n",
    ),
    (
        b"relation b of 1 rows 2 (k num, v num)\nrelation a of 2 rows 2 (k num trust 1, s num)\nf = filter a where s > 5\nj = join b f on k via 1\noutput j to 2\n",
        b"refused: Q8 line 4: party 1 isn't trusted with k of f\n",
    ),
    (
        b"relation r of 2 rows 2 (x num) release 2\nd = distinct r at most 1\noutput r to 1\n",
        b"refused: Q9 line 3: party 1 isn't in the release set of r\n",
    ),
];

// The line of a text's refusal, empty where it isn't refused.
fn line_of(alloc: Global, text: &[u8]) -> Result<Vec<u8>, Fail> {
    match compile(alloc, text) {
        Err(CompileFault::Refused(refusal)) => Ok(refusal_text(alloc, &refusal, text)?),
        _ => Ok(Vec::new(alloc)),
    }
}

// The first of the texts that isn't refused so.
fn first_other_refusal(alloc: Global, cases: &[(&[u8], &[u8])]) -> Result<Option<usize>, Fail> {
    for (index, (text, line)) in cases.iter().enumerate() {
        if line_of(alloc, text)?.as_slice() != *line {
            return Ok(Some(index));
        }
    }
    Ok(None)
}

#[test]
fn refuses_by_the_first_rule(rt: HostRuntime) -> Result<(), Fail> {
    assert_eq!(rt; first_other_refusal(rt.alloc(), REFUSALS)?, None);
    Ok(())
}

// Queries, each with the line of what isn't built.
const NOT_BUILT: &[(&[u8], u32)] = &[
    (
        b"relation a of 1 rows 4 (k num, x num)\nf = filter a where x > 2 at most 3\ng = group f by k (n = count)\noutput g to 1\n",
        2,
    ),
    (
        b"relation a of 1 rows 4 (k num, x num)\nf = filter a where x > 2\ng = group f by k (n = count) parts at most 3\noutput g to 1\n",
        3,
    ),
    (
        b"relation a of 1 rows 4 (k num, x num)\ng = group a by k (n = count) via 1\nd = distinct g at most 2\noutput d to 1\n",
        2,
    ),
    (
        b"relation a of 1 rows 4 (k num, x num)\nf = filter a where x > 2\nd = distinct f clear at 1\noutput d to 1\n",
        3,
    ),
    (
        b"relation a of 1 rows 512 (k num, x num)\nrelation b of 2 rows 512 (k num, x num)\nc = concat a b\ng = group c by k (s = sum x)\noutput g to 1\n",
        0,
    ),
];

// The line of what isn't built of a text.
fn unbuilt_line(alloc: Global, text: &[u8]) -> Option<u32> {
    match compile(alloc, text) {
        Err(CompileFault::NotBuilt { line }) => Some(line),
        _ => None,
    }
}

// The first of the texts of which something else isn't built.
fn first_other_line(alloc: Global, cases: &[(&[u8], u32)]) -> Option<usize> {
    for (index, (text, line)) in cases.iter().enumerate() {
        if unbuilt_line(alloc, text) != Some(*line) {
            return Some(index);
        }
    }
    None
}

#[test]
fn names_the_first_line_that_is_not_built(rt: HostRuntime) -> Result<(), Fail> {
    assert_eq!(rt; first_other_line(rt.alloc(), NOT_BUILT), None);
    Ok(())
}
