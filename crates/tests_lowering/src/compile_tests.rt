//! Queries whose answers are known, compiled and run.

use crate::runs::{answer_of, plain_answer, world_of};
use lowering::compile;
use std::alloc::Global;
use std::test::Fail;

// A query, the files of its relations, and the answer of its first output at party 1.
type Row = (&'static str, &'static [&'static str], &'static str);

const STUDY: &str = "relation people of 1 rows 4 (ssn num, zip text)\n\
relation scores2 of 2 rows 3 (ssn num, score num)\n\
relation scores3 of 3 rows 3 (ssn num, score num)\n\
scores = concat scores2 scores3\n\
joined = join people scores on ssn\n\
byzip = group joined by zip (total = sum score, n = count)\n\
output byzip to 1\n";

const ROWS: &[Row] = &[
    (
        STUDY,
        &[
            "ssn,zip\n100,02139\n101,02139\n102,94110\n103,10001\n",
            "ssn,score\n100,700\n101,650\n102,600\n",
            "ssn,score\n100,710\n102,640\n999,500\n",
        ],
        "zip,total,n\n02139,2060,3\n94110,1240,2\n",
    ),
    (
        STUDY,
        &["ssn,zip\n", "ssn,score\n", "ssn,score\n"],
        "zip,total,n\n",
    ),
    (
        "relation a of 2 rows 3 (x num)\ng = group a (s = sum x)\noutput g to 1 3\n",
        &["x\n18446744073709551615\n2\n"],
        "s\n1\n",
    ),
    (
        "relation a of 3 rows 3 (x num)\nj = join a a on x\noutput j to 1\n",
        &["x\n7\n7\n9\n"],
        "x\n7\n7\n7\n7\n9\n",
    ),
];

// Whether a query's first output is answered so at party 1.
fn is_answered(alloc: Global, row: &Row) -> Result<bool, Fail> {
    let (query, files, want) = *row;
    let plan = compile(alloc, query.as_bytes())?;
    let world = world_of(alloc, &plan, files)?;
    let answer = answer_of(alloc, &plan, &world, 0, 1)?;
    Ok(answer.as_slice() == want.as_bytes())
}

// The first of the queries that isn't answered so.
fn first_other_answer(alloc: Global, rows: &[Row]) -> Result<Option<usize>, Fail> {
    for (index, row) in rows.iter().enumerate() {
        if !is_answered(alloc, row)? {
            return Ok(Some(index));
        }
    }
    Ok(None)
}

#[test]
fn answers_are_those_of_the_queries(rt: HostRuntime) -> Result<(), Fail> {
    assert_eq!(rt; first_other_answer(rt.alloc(), ROWS)?, None);
    Ok(())
}

// Queries, the files of their relations, an output, and a party.
type Place = (&'static str, &'static [&'static str], u32, u8);

const STEPS: &str = "relation a of 1 rows 3 (x num, y num)\n\
relation b of 1 rows 2 (z text)\n\
f = filter a where x > 2 and y != 0\n\
s = select f (y, z = x * y)\n\
d = distinct s\n\
output a to 1 2\n\
output d to 2\n\
output s to 1 3\n";

const STEPS_FILES: &[&str] = &["x,y\n1,5\n3,4\n3,4\n", "z\n\n"];

// Every recipient.
const RECIPIENTS: &[Place] = &[
    (STEPS, STEPS_FILES, 0, 1),
    (STEPS, STEPS_FILES, 0, 2),
    (STEPS, STEPS_FILES, 1, 2),
    (STEPS, STEPS_FILES, 2, 1),
    (STEPS, STEPS_FILES, 2, 3),
];

// Whether a party has the plain rows of an output.
fn is_plain(alloc: Global, place: &Place) -> Result<bool, Fail> {
    let (query, files, output, party) = *place;
    let plan = compile(alloc, query.as_bytes())?;
    let world = world_of(alloc, &plan, files)?;
    let answer = answer_of(alloc, &plan, &world, output, party)?;
    let want = plain_answer(alloc, &plan, &world, output)?;
    Ok(answer.as_slice() == want.as_slice())
}

// The first of the places without the plain rows.
fn first_other_rows(alloc: Global, places: &[Place]) -> Result<Option<usize>, Fail> {
    for (index, place) in places.iter().enumerate() {
        if !is_plain(alloc, place)? {
            return Ok(Some(index));
        }
    }
    Ok(None)
}

#[test]
fn recipients_have_the_plain_rows(rt: HostRuntime) -> Result<(), Fail> {
    assert_eq!(rt; first_other_rows(rt.alloc(), RECIPIENTS)?, None);
    Ok(())
}

#[test]
fn another_party_has_no_row(rt: HostRuntime) -> Result<(), Fail> {
    let plan = compile(rt.alloc(), STEPS.as_bytes())?;
    let world = world_of(rt.alloc(), &plan, STEPS_FILES)?;
    let answer = answer_of(rt.alloc(), &plan, &world, 0, 3)?;
    assert!(rt; answer.as_slice() == "x,y\n".as_bytes());
    Ok(())
}
