//! Tapes and runs: the answers that stand in the folder, what is told, and which calls were made.

ghost use Rattle.std.specs.Prelude.{IfOk, map, string_bytes};
ghost use Rattle.conclave_top.specs.With.{TakesPlan};
ghost use Rattle.lowering.specs.Isolated.{IsIsolated};
ghost use Rattle.lowering.specs.Plan.{IsCorrect, IsPlaced, Plan, ShowsAnswers};

use crate::conclave_top_tests::{FAULT, PEOPLE, SCORES, SCORES2, SCORES3, folder_of};
use crate::runs::{
    Files, RUN, Said, TAPE, bytes_of, call, call_failing, holds, is_printed, is_said, taped_run,
};
use conclave_top::conclave_with;
use lowering::{Plan, compile};
use outside::{MemoryFolder, MemorySink};
use std::alloc::{AllocError, Global};
use std::test::Fail;

const ANSWER: &[u8] = b"zip,total,n\n02139,2060,3\n94110,1240,2\n";

const LINE: &[u8] = b"byzip.to1.csv 2 rows\n";

/// The first study.
const STUDY: Files<'static> = &[
    ("q.txt", SCORES),
    ("people.csv", PEOPLE),
    ("scores2.csv", SCORES2),
    ("scores3.csv", SCORES3),
];

/// A relation of party 1 for party 2.
pub(crate) const ONE: &[u8] = b"relation a of 1 rows 2 (x num)\noutput a to 2\n";

// Files with a query, what `run` prints, and its answers.
type Row = (Files<'static>, &'static [u8], Files<'static>);

const ROWS: &[Row] = &[
    (STUDY, LINE, &[("byzip.to1.csv", ANSWER)]),
    (
        &[
            ("q.txt", SCORES),
            ("people.csv", b"ssn,zip\n"),
            ("scores2.csv", b"ssn,score\n"),
            ("scores3.csv", b"ssn,score\n"),
        ],
        b"byzip.to1.csv 0 rows\n",
        &[("byzip.to1.csv", b"zip,total,n\n")],
    ),
    (
        &[("q.txt", ONE), ("a.csv", b"x\n6\n5\n")],
        b"a.to2.csv 2 rows\n",
        &[("a.to2.csv", b"x\n5\n6\n")],
    ),
    (
        &[
            (
                "q.txt",
                b"relation a of 2 rows 3 (x num)\ng = group a (s = sum x)\noutput g to 1 3\n",
            ),
            ("a.csv", b"x\n18446744073709551615\n2\n"),
        ],
        b"g.to1.csv 1 rows\ng.to3.csv 1 rows\n",
        &[("g.to1.csv", b"s\n1\n"), ("g.to3.csv", b"s\n1\n")],
    ),
    (
        &[
            (
                "q.txt",
                b"relation r of 1 rows 4 (k num)\nj = join r r on k\noutput j to 1\n",
            ),
            ("r.csv", b"k\n7\n7\n9\n"),
        ],
        b"j.to1.csv 5 rows\n",
        &[("j.to1.csv", b"k\n7\n7\n7\n7\n9\n")],
    ),
    // Party 3 has no relation; an output is of a relation, and one of a node that another one uses. Outputs stand in
    // another order than nodes.
    (
        &[
            (
                "q.txt",
                b"relation a of 1 rows 2 (x num)
relation b of 2 rows 2 (x num)
c = concat a b
d = distinct c
s = select d (x, y = x * 3)
output s to 3
output d to 1 2
output b to 1 2 3
",
            ),
            ("a.csv", b"x\n5\n7\n"),
            ("b.csv", b"x\n7\n9\n"),
        ],
        b"s.to3.csv 3 rows\nd.to1.csv 3 rows\nd.to2.csv 3 rows\nb.to1.csv 2 rows\nb.to2.csv 2 rows\nb.to3.csv 2 rows\n",
        &[
            ("s.to3.csv", b"x,y\n5,15\n7,21\n9,27\n"),
            ("d.to1.csv", b"x\n5\n7\n9\n"),
            ("d.to2.csv", b"x\n5\n7\n9\n"),
            ("b.to1.csv", b"x\n7\n9\n"),
            ("b.to2.csv", b"x\n7\n9\n"),
            ("b.to3.csv", b"x\n7\n9\n"),
        ],
    ),
    (
        &[
            (
                "q.txt",
                b"relation r of 3 rows 3 (t text, n num)\nf = filter r where t != \"ab\"\noutput f to 3\n",
            ),
            (
                "r.csv",
                b"t,n\nab,3\n\"ab,cdefg\",02139\n,18446744073709551615\n",
            ),
        ],
        b"f.to3.csv 2 rows\n",
        &[(
            "f.to3.csv",
            b"t,n\n,18446744073709551615\n\"ab,cdefg\",2139\n",
        )],
    ),
];

// Whether a run over these files prints and writes this, and `plain` prints the same answers.
fn is_answered(alloc: Global, row: &Row) -> Result<bool, Fail> {
    let (files, out, answers) = *row;
    let mut folder = folder_of(alloc, files, &[])?;
    let said = taped_run(alloc, &mut folder)?;
    let written = is_said(&said, 0, out, b"") && holds(&folder, answers);
    Ok(written && is_printed(alloc, &mut folder)?)
}

// The first of the rows that is answered in another way.
fn first_other_answer(alloc: Global, rows: &[Row]) -> Result<Option<usize>, Fail> {
    for (index, row) in rows.iter().enumerate() {
        if !is_answered(alloc, row)? {
            return Ok(Some(index));
        }
    }
    Ok(None)
}

#[test]
fn run_writes_the_answers_that_plain_prints(rt: HostRuntime) -> Result<(), Fail> {
    assert_eq!(rt; first_other_answer(rt.alloc(), ROWS)?, None);
    Ok(())
}

// The names that `tape` and then `run` call on the first study, and whether each is written.
const CALLS: &[(&str, bool)] = &[
    ("q.txt", false),
    ("t.1", true),
    ("t.2", true),
    ("t.3", true),
    ("q.txt", false),
    ("people.csv", false),
    ("scores2.csv", false),
    ("scores3.csv", false),
    ("t.1", false),
    ("t.2", false),
    ("t.3", false),
    ("t.view.1", true),
    ("t.view.2", true),
    ("t.view.3", true),
    ("byzip.to1.csv", true),
];

// Whether these are the first calls, up to the one of this number, and the files written before it stand alone.
fn are_cut(folder: &MemoryFolder, number: usize) -> bool {
    let calls = folder.calls().as_slice();
    for (place, (name, written)) in CALLS.iter().enumerate() {
        let called = match calls.get(place) {
            Some(call) => place <= number && call.as_str() == *name,
            None => place > number,
        };
        if !called || (*written && folder.file(name).is_some() != (place < number)) {
            return false;
        }
    }
    true
}

// Whether the command in which the call of this number fails is left there.
fn is_left_at(alloc: Global, number: u64) -> Result<bool, Fail> {
    let mut folder = folder_of(alloc, STUDY, &[number])?;
    let said = taped_run(alloc, &mut folder)?;
    Ok(is_said(&said, 8, b"", FAULT) && are_cut(&folder, number as usize))
}

#[test]
fn each_failing_read_and_write_ends_a_command_there(rt: HostRuntime) -> Result<(), Fail> {
    for number in 0..15 {
        assert!(rt; is_left_at(rt.alloc(), number)?, "{number}");
    }
    Ok(())
}

// Whether all stands, and this is told, where the output fails.
fn tells_of_output(alloc: Global, failing: &[u64], err: &[u8]) -> Result<bool, Fail> {
    let mut folder = folder_of(alloc, STUDY, &[])?;
    let taped = call_failing(alloc, TAPE, &mut folder, (&[0], &[0]))?;
    let ran = call_failing(alloc, RUN, &mut folder, (&[0], failing))?;
    Ok(is_said(&taped, 0, b"", b"") && is_said(&ran, 8, b"", err) && are_cut(&folder, 15))
}

#[test]
fn a_failing_output_leaves_the_answers(rt: HostRuntime) -> Result<(), Fail> {
    assert!(rt; tells_of_output(rt.alloc(), &[], FAULT)?);
    assert!(rt; tells_of_output(rt.alloc(), &[0], b"")?);
    Ok(())
}

// Whether a command on a folder with this query alone refuses it in this line, and calls no other name.
fn is_refused(alloc: Global, words: &[&str], query: &[u8], line: &[u8]) -> Result<bool, Fail> {
    let mut folder = folder_of(alloc, &[("q.txt", query)], &[])?;
    let said = call(alloc, words, &mut folder)?;
    Ok(is_said(&said, 2, b"", line) && folder.calls().len() == 1)
}

// Queries, each with the line that refuses it.
const REFUSALS: &[(&[u8], &[u8])] = &[
    (b"output", b"refused: Q1 line 1 column 7: text\n"),
    (
        b"relation a of 1 rows 2 (x num)\noutput b to 1\n",
        b"refused: Q2 line 2: b is unknown\n",
    ),
    (b"", b"refused: Q10: no output\n"),
    // Trust and release come before what isn't built.
    (
        b"relation b of 1 rows 2 (k num, v num)\nrelation a of 2 rows 2 (k num trust 1, s num)\nf = filter a where s > 5 at most 1\nj = join b f on k via 1\noutput j to 2\n",
        b"refused: Q8 line 4: party 1 isn't trusted with k of f\n",
    ),
    (
        b"relation r of 2 rows 2 (x num) release 2\nd = distinct r at most 1\noutput r to 1\n",
        b"refused: Q9 line 3: party 1 isn't in the release set of r\n",
    ),
    (
        b"relation a of 1 rows 4 (k num, x num)\nf = filter a where x > 2 at most 3\ng = group f by k (n = count)\noutput g to 1\n",
        b"refused: not built line 2\n",
    ),
    (
        b"relation a of 1 rows 4 (k num, x num)\nf = filter a where x > 2\ng = group f by k (n = count) at most 3\noutput g to 1\n",
        b"refused: not built line 3\n",
    ),
    (
        b"relation a of 1 rows 4 (k num, x num)\ng = group a by k (n = count) parts at most 3\nd = distinct g\noutput d to 1\n",
        b"refused: not built line 2\n",
    ),
    (
        b"relation a of 1 rows 4 (k num, x num)\nf = filter a where x > 2\ng = group f by k (n = count) parts at most 3\noutput g to 1\n",
        b"refused: not built line 3\n",
    ),
    (
        b"relation a of 1 rows 4 (k num, x num)\ng = group a by k (n = count) via 1\nd = distinct g at most 2\noutput d to 1\n",
        b"refused: not built line 2\n",
    ),
    (
        b"relation a of 1 rows 4 (k num, x num)\nf = filter a where x > 2\ng = group f by k (n = count) via 1\noutput g to 1\n",
        b"refused: not built line 3\n",
    ),
    (
        b"relation a of 1 rows 4 (k num, x num)\nd = distinct a clear at 1\ng = group d by k (n = count)\noutput g to 1\n",
        b"refused: not built line 2\n",
    ),
    (
        b"relation a of 1 rows 4 (k num, x num)\nf = filter a where x > 2\nd = distinct f clear at 1\noutput d to 1\n",
        b"refused: not built line 3\n",
    ),
    (
        b"relation a of 1 rows 512 (k num, x num)\nrelation b of 2 rows 512 (k num, x num)\nc = concat a b\ng = group c by k (s = sum x)\noutput g to 1\n",
        b"refused: not built line 0\n",
    ),
];

// The first of the queries that a command doesn't refuse so.
fn first_other_refusal(alloc: Global, words: &[&str]) -> Result<Option<usize>, Fail> {
    for (index, (query, line)) in REFUSALS.iter().enumerate() {
        if !is_refused(alloc, words, query, line)? {
            return Ok(Some(index));
        }
    }
    Ok(None)
}

#[test]
fn tape_run_and_audit_refuse_the_same(rt: HostRuntime) -> Result<(), Fail> {
    assert_eq!(rt; first_other_refusal(rt.alloc(), TAPE)?, None);
    assert_eq!(rt; first_other_refusal(rt.alloc(), RUN)?, None);
    assert_eq!(rt;
        first_other_refusal(rt.alloc(), &["audit", "q.txt", "1", "a", "b", "t"])?,
        None
    );
    Ok(())
}

// The words of a run, without a query.
fn words_of_run(alloc: Global) -> Result<Vec<String>, AllocError>
    ensures { IfOk result (λ words. (plan : Plan) → TakesPlan (map string_bytes words.items) plan) }
{
    let mut words = Vec::new(alloc);
    words.push(String::from_str(alloc, "run")?)?;
    words.push(String::from_str(alloc, "none")?)?;
    words.push(String::from_str(alloc, "t")?)?;
    Ok(words)
}

// A run by a plan that is handed in.
fn run_with(alloc: Global, plan: &Plan, folder: &mut MemoryFolder) -> Result<Said, Fail>
    requires correct { IsCorrect plan.now }
    requires shows { ShowsAnswers plan.now }
    requires placed { IsPlaced plan.now }
    requires isolated { IsIsolated plan.now }
{
    let words = words_of_run(alloc)?;
    let mut out = MemorySink::new(alloc, Vec::new(alloc));
    let mut err = MemorySink::new(alloc, Vec::new(alloc));
    let status = conclave_with(alloc, plan, &words, folder, &mut out, &mut err);
    Ok(Said { status, out, err })
}

#[test]
fn a_plan_that_is_handed_in_runs_without_its_query(rt: HostRuntime) -> Result<(), Fail> {
    let plan = compile(rt.alloc(), SCORES)?;
    let mut folder = folder_of(rt.alloc(), STUDY, &[])?;
    let _ = call(rt.alloc(), TAPE, &mut folder)?;
    let said = run_with(rt.alloc(), &plan, &mut folder)?;
    assert!(rt; is_said(&said, 0, LINE, b""));
    assert!(rt; bytes_of(&folder, "byzip.to1.csv") == ANSWER);
    Ok(())
}
