use crate::conclave_top_tests::{FAULT, Failing, Run, is_left, run_words};
use std::alloc::Global;
use std::test::Fail;

/// Credit scores by zip code, with a bound.
const CREDIT: &[u8] = b"relation people of 1 rows 4 (ssn num, zip text)
relation scores2 of 2 rows 3 (ssn num trust 1, score num)
relation scores3 of 3 rows 3 (ssn num trust 1, score num)
scores = concat scores2 scores3
joined = join people scores on ssn at most 6
byzip = group joined by zip (total = sum score, n = count)
output byzip to 1
";

/// Every statement, and every set of parties.
const OPERATORS: &[u8] = b"relation a of 1 rows 3 (k num trust 2 3, x num trust 3, y num)
relation b of 2 rows 2 (k num trust 3, z num trust 1)
relation c of 3 rows 2 (k num, z num)
f = filter a where x > 5 at most 2
s = select a (k, n = x + y, c = 7)
p = concat b c
j = join f b on k
g = group a by x (n = count, t = sum k)
d = distinct b
output g to 1 2 3
output d to 2 3
output a to 1 2
";

/// A command on a query in a folder that has no other file.
fn run<'x>(alloc: Global, word: &'x str, query: &'x [u8]) -> Result<Run, Fail> {
    let files: [(&str, &'x [u8]); 1] = [("q.txt", query)];
    run_words(alloc, &[word, "q.txt"], &files, (&[], &[], &[]))
}

// Queries, each with its plan.
const PLANS: &[(&[u8], &[u8])] = &[
    (
        CREDIT,
        b"people relation rows 4 know 1 ssn 1 zip 1
scores2 relation rows 3 know 12 ssn 12 score 2
scores3 relation rows 3 know 13 ssn 13 score 3
scores concat rows 6 know 1 ssn 1 score -
joined join rows 6 know 1 ssn 1 zip 1 score -
byzip group rows 6 know 1 zip 1 total - n 1
output byzip to 1 rows 6
",
    ),
    (
        b"relation a of 2 rows 2 (k num trust 1, s num)\nf = filter a where s > 5\noutput f to 2",
        b"a relation rows 2 know 12 k 12 s 2
f filter rows 2 know 2 k 2 s 2
output f to 2 rows 2
",
    ),
    (
        OPERATORS,
        b"a relation rows 3 know 123 k 123 x 13 y 1
b relation rows 2 know 123 k 23 z 12
c relation rows 2 know 3 k 3 z 3
f filter rows 2 know 13 k 13 x 13 y 1
s select rows 3 know 123 k 123 n 1 c 123
p concat rows 4 know 3 k 3 z -
j join rows 4 know 3 k 3 x 3 y - z -
g group rows 3 know 13 x 13 n 13 t 13
d distinct rows 2 know 2 k 2 z 2
output g to 123 rows 3
output d to 23 rows 2
output a to 12 rows 3
",
    ),
];

// The first of the queries that has another plan.
fn first_other_plan(alloc: Global, cases: &[(&[u8], &[u8])]) -> Result<Option<usize>, Fail> {
    for (index, (query, want)) in cases.iter().enumerate() {
        if !is_left(&run(alloc, "plan", query)?, 0, want, b"", "q.txt ") {
            return Ok(Some(index));
        }
    }
    Ok(None)
}

#[test]
fn plan_says_who_may_know_what(rt: HostRuntime) -> Result<(), Fail> {
    assert_eq!(rt; first_other_plan(rt.alloc(), PLANS)?, None);
    Ok(())
}

// Queries, each with the line that refuses it.
const REFUSALS: &[(&[u8], &[u8])] = &[
    (b"output", b"refused: Q1 line 1 column 7: text\n"),
    (b"", b"refused: Q10: no output\n"),
    (
        b"relation b of 1 rows 2 (k num, v num)\nrelation a of 2 rows 2 (k num trust 1, s num)\nf = filter a where s > 5\nj = join b f on k via 1\noutput j to 2\n",
        b"refused: Q8 line 4: party 1 isn't trusted with k of f\n",
    ),
    (
        b"relation r of 2 rows 2 (x num) release 2\noutput r to 1\n",
        b"refused: Q9 line 2: party 1 isn't in the release set of r\n",
    ),
];

// The first of the queries that the command doesn't refuse so.
fn first_other_refusal(
    alloc: Global,
    word: &str,
    cases: &[(&[u8], &[u8])],
) -> Result<Option<usize>, Fail> {
    for (index, (query, line)) in cases.iter().enumerate() {
        if !is_left(&run(alloc, word, query)?, 2, b"", line, "q.txt ") {
            return Ok(Some(index));
        }
    }
    Ok(None)
}

#[test]
fn plan_and_plain_refuse_the_same(rt: HostRuntime) -> Result<(), Fail> {
    assert_eq!(rt; first_other_refusal(rt.alloc(), "plan", REFUSALS)?, None);
    assert_eq!(rt; first_other_refusal(rt.alloc(), "plain", REFUSALS)?, None);
    Ok(())
}

// Whether `plan` fails where so many of its files are there and these calls fail.
fn fails_on(alloc: Global, present: usize, failing: Failing<'_>) -> Result<bool, Fail> {
    let files: [(&str, &[u8]); 1] = [("q.txt", CREDIT)];
    let files = files.split_at(present.min(1)).0;
    let run = run_words(alloc, &["plan", "q.txt"], files, failing)?;
    Ok(is_left(&run, 8, b"", FAULT, "q.txt "))
}

#[test]
fn plan_tells_each_failing_call(rt: HostRuntime) -> Result<(), Fail> {
    assert!(rt; fails_on(rt.alloc(), 0, (&[], &[], &[]))?);
    assert!(rt; fails_on(rt.alloc(), 1, (&[0], &[], &[]))?);
    assert!(rt; fails_on(rt.alloc(), 1, (&[], &[0], &[]))?);
    Ok(())
}
