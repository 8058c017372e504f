//! Audits: two worlds that look alike to a party, and the part in which others differ.

ghost use Rattle.std.specs.Prelude.{IfOk, map, string_bytes};
ghost use Rattle.conclave_top.specs.With.{TakesPlan};
ghost use Rattle.lowering.specs.Isolated.{IsIsolated};
ghost use Rattle.lowering.specs.Plan.{IsCorrect, IsPlaced, Plan, ShowsAnswers};

use crate::conclave_top_tests::{FAULT, PEOPLE, SCORES, SCORES2, SCORES3};
use crate::runs::{Files, RUN, Said, TAPE, bytes_of, call, is_said};
use conclave_top::conclave_with;
use lowering::{Plan, compile};
use outside::{MemoryFolder, MemorySink};
use std::alloc::{AllocError, Global};
use std::test::Fail;

/// The first study where party 1 is trusted with no column.
const UNTRUSTED: &[u8] = b"relation people of 1 rows 4 (ssn num, zip text)
relation scores2 of 2 rows 3 (ssn num, score num)
relation scores3 of 3 rows 3 (ssn num, score num)
scores = concat scores2 scores3
joined = join people scores on ssn
byzip = group joined by zip (total = sum score, n = count)
output byzip to 1
";

const STUDY: Files<'static> = &[
    ("people.csv", PEOPLE),
    ("scores2.csv", SCORES2),
    ("scores3.csv", SCORES3),
];

/// Other rows of party 2 with the same answer.
const EXCHANGED: Files<'static> = &[
    ("people.csv", PEOPLE),
    ("scores2.csv", b"ssn,score\n102,600\n101,700\n100,650\n"),
    ("scores3.csv", SCORES3),
];

/// Other rows of party 2 with another answer.
const REPLACED: Files<'static> = &[
    ("people.csv", PEOPLE),
    ("scores2.csv", b"ssn,score\n102,600\n104,700\n100,650\n"),
    ("scores3.csv", SCORES3),
];

const ALONE: Files<'static> = &[
    ("people.csv", b"ssn,zip\n1,a\n"),
    ("scores2.csv", SCORES2),
    ("scores3.csv", SCORES3),
];

const OTHER: Files<'static> = &[
    ("people.csv", PEOPLE),
    ("scores2.csv", SCORES2),
    ("scores3.csv", b"ssn,score\n"),
];

/// A party, the file of the twin of the tape that it doesn't hold, and that tape's.
pub(crate) type Viewer = (&'static str, &'static str, &'static str);

pub(crate) const VIEWERS: &[Viewer] = &[
    ("1", "t.twin.3", "t.3"),
    ("2", "t.twin.1", "t.1"),
    ("3", "t.twin.2", "t.2"),
];

// Adds a file whose name begins so.
fn push_file(
    alloc: Global,
    files: &mut Vec<(String, Vec<u8>)>,
    front: &str,
    name: &str,
    bytes: &[u8],
) -> Result<(), AllocError> {
    let name = format!(in alloc; "{front}{name}")?;
    files.push((name, Vec::from_slice(alloc, bytes)?))?;
    Ok(())
}

// Adds files whose names begin so.
fn push_files(
    alloc: Global,
    files: &mut Vec<(String, Vec<u8>)>,
    front: &str,
    more: Files<'_>,
) -> Result<(), AllocError> {
    for (name, bytes) in more {
        push_file(alloc, files, front, name, bytes)?;
    }
    Ok(())
}

/// A folder with a query and two worlds, in which these calls fail.
pub(crate) fn folder_of_worlds(
    alloc: Global,
    query: &[u8],
    first: Files<'_>,
    second: Files<'_>,
    failing: &[u64],
) -> Result<MemoryFolder, AllocError> {
    let mut files = Vec::new(alloc);
    push_file(alloc, &mut files, "", "q.txt", query)?;
    push_files(alloc, &mut files, "a/", first)?;
    push_files(alloc, &mut files, "b/", second)?;
    MemoryFolder::new(alloc, files, Vec::from_slice(alloc, failing)?)
}

/// Makes the tapes of a query, and audits two worlds with them for a party.
pub(crate) fn audit(alloc: Global, folder: &mut MemoryFolder, party: &str) -> Result<Said, Fail> {
    let taped = call(alloc, TAPE, folder)?;
    if taped.status != 0 {
        return Ok(taped);
    }
    call(alloc, &["audit", "q.txt", party, "a", "b", "t"], folder)
}

// The view of a party in a run over a world, with the tapes of a folder, or with the twin in place of the one that the party
// doesn't hold.
fn view_over(
    alloc: Global,
    folder: &MemoryFolder,
    world: Files<'_>,
    viewer: &Viewer,
    is_paired: bool,
) -> Result<Option<Vec<u8>>, Fail> {
    let (party, twin, unseen) = *viewer;
    let mut files = Vec::new(alloc);
    push_file(alloc, &mut files, "", "q.txt", bytes_of(folder, "q.txt"))?;
    push_files(alloc, &mut files, "", world)?;
    for tape in ["t.1", "t.2", "t.3"] {
        let source = if is_paired && tape == unseen {
            twin
        } else {
            tape
        };
        push_file(alloc, &mut files, "", tape, bytes_of(folder, source))?;
    }
    let mut ran = MemoryFolder::new(alloc, files, Vec::new(alloc))?;
    let said = call(alloc, RUN, &mut ran)?;
    let name = format!(in alloc; "t.view.{party}")?;
    match ran.file(name.as_str()) {
        Some(bytes) if said.status == 0 => Ok(Some(bytes.clone()?)),
        _ => Ok(None),
    }
}

// Whether this is printed of a view of these bytes and of this file.
fn is_told(alloc: Global, said: &Said, twin: &str, view: &[u8]) -> Result<bool, Fail> {
    let words = (view.len() / 8).saturating_sub(2);
    let lines = format!(in alloc; "twin {twin}\nequal {words} words\n")?;
    Ok(is_said(said, 0, lines.as_bytes(), b""))
}

/// Whether an audit says that a party can't tell two worlds apart, and runs over both show that: the one over the second
/// world with the twin gives the view of the one over the first with the tapes, and the twin isn't the tape.
pub(crate) fn is_explained(
    alloc: Global,
    query: &[u8],
    first: Files<'_>,
    second: Files<'_>,
    viewer: &Viewer,
) -> Result<bool, Fail> {
    let (party, twin, unseen) = *viewer;
    let mut folder = folder_of_worlds(alloc, query, first, second, &[])?;
    let said = audit(alloc, &mut folder, party)?;
    let one = view_over(alloc, &folder, first, viewer, false)?;
    let other = view_over(alloc, &folder, second, viewer, true)?;
    match (one, other) {
        (Some(one), Some(other)) => Ok(
            one.as_slice() == other.as_slice()
                && bytes_of(&folder, twin).len() == bytes_of(&folder, unseen).len()
                && is_told(alloc, &said, twin, one.as_slice())?,
        ),
        _ => Ok(false),
    }
}

// A query, a second world, and the number of a viewer to whom it looks like the study's.
const EXPLAINED: &[(&[u8], Files<'static>, usize)] = &[
    (UNTRUSTED, EXCHANGED, 0),
    (UNTRUSTED, ALONE, 1),
    (UNTRUSTED, ALONE, 2),
    (UNTRUSTED, EXCHANGED, 2),
    (UNTRUSTED, OTHER, 1),
    (SCORES, EXCHANGED, 0),
    (SCORES, STUDY, 0),
];

// The first of the second worlds that isn't explained so.
fn first_unexplained(alloc: Global) -> Result<Option<usize>, Fail> {
    for (index, (query, second, number)) in EXPLAINED.iter().enumerate() {
        let Some(viewer) = VIEWERS.get(*number) else {
            return Ok(Some(index));
        };
        if !is_explained(alloc, query, STUDY, second, viewer)? {
            return Ok(Some(index));
        }
    }
    Ok(None)
}

#[test]
fn a_run_with_the_twin_over_another_world_gives_the_same_view(rt: HostRuntime) -> Result<(), Fail> {
    assert_eq!(rt; first_unexplained(rt.alloc())?, None);
    Ok(())
}

// A query, both worlds, a party, the status and the line.
type Difference = (
    &'static [u8],
    Files<'static>,
    Files<'static>,
    &'static str,
    u8,
    &'static [u8],
);

const DIFFERENCES: &[Difference] = &[
    (
        UNTRUSTED,
        STUDY,
        REPLACED,
        "1",
        6,
        b"disagree: answer byzip\n",
    ),
    (UNTRUSTED, STUDY, OTHER, "1", 6, b"disagree: answer byzip\n"),
    (
        SCORES,
        STUDY,
        REPLACED,
        "1",
        6,
        b"disagree: trusted part of scores2\n",
    ),
    (
        SCORES,
        STUDY,
        OTHER,
        "1",
        6,
        b"disagree: trusted part of scores3\n",
    ),
    (SCORES, STUDY, ALONE, "1", 6, b"disagree: own file people\n"),
    (
        UNTRUSTED,
        STUDY,
        EXCHANGED,
        "2",
        6,
        b"disagree: own file scores2\n",
    ),
    (
        UNTRUSTED,
        STUDY,
        OTHER,
        "3",
        6,
        b"disagree: own file scores3\n",
    ),
    // The files of the first folder are looked at first.
    (
        UNTRUSTED,
        STUDY,
        &[
            ("people.csv", PEOPLE),
            ("scores2.csv", b"ssn\n"),
            ("scores3.csv", SCORES3),
        ],
        "1",
        3,
        b"file b/scores2.csv: header\n",
    ),
    (
        UNTRUSTED,
        &[
            ("people.csv", PEOPLE),
            ("scores2.csv", SCORES2),
            ("scores3.csv", b"x\n"),
        ],
        &[
            ("people.csv", b""),
            ("scores2.csv", SCORES2),
            ("scores3.csv", SCORES3),
        ],
        "1",
        3,
        b"file a/scores3.csv: header\n",
    ),
];

// The first of the audits that ends in another way, or writes a file.
fn first_other_difference(alloc: Global) -> Result<Option<usize>, Fail> {
    for (index, case) in DIFFERENCES.iter().enumerate() {
        let (query, first, second, party, status, line) = *case;
        let mut folder = folder_of_worlds(alloc, query, first, second, &[])?;
        let said = audit(alloc, &mut folder, party)?;
        let written = VIEWERS
            .iter()
            .any(|(_, twin, _)| folder.file(twin).is_some());
        if !is_said(&said, status, b"", line) || written {
            return Ok(Some(index));
        }
    }
    Ok(None)
}

#[test]
fn worlds_that_differ_are_told_by_their_first_part(rt: HostRuntime) -> Result<(), Fail> {
    assert_eq!(rt; first_other_difference(rt.alloc())?, None);
    Ok(())
}

// The names that `tape` and then `audit` call on the first study, and whether each is written.
const CALLS: &[(&str, bool)] = &[
    ("q.txt", false),
    ("t.1", true),
    ("t.2", true),
    ("t.3", true),
    ("q.txt", false),
    ("a/people.csv", false),
    ("a/scores2.csv", false),
    ("a/scores3.csv", false),
    ("b/people.csv", false),
    ("b/scores2.csv", false),
    ("b/scores3.csv", false),
    ("t.1", false),
    ("t.2", false),
    ("t.3", false),
    ("t.twin.3", true),
];

// Whether these are the first calls, up to the one of this number, and the files written before it stand alone.
fn are_cut(folder: &MemoryFolder, number: usize) -> bool {
    let calls = folder.calls().as_slice();
    for (place, (name, written)) in CALLS.iter().enumerate() {
        let called = match calls.get(place) {
            Some(call) => place <= number && call.as_str() == *name,
            None => place > number,
        };
        if !called || (*written && folder.file(name).is_some() != (place < number)) {
            return false;
        }
    }
    true
}

// Whether the command in which the call of this number fails is left there.
fn is_left_at(alloc: Global, number: u64) -> Result<bool, Fail> {
    let mut folder = folder_of_worlds(alloc, UNTRUSTED, STUDY, EXCHANGED, &[number])?;
    let said = audit(alloc, &mut folder, "1")?;
    Ok(is_said(&said, 8, b"", FAULT) && are_cut(&folder, number as usize))
}

#[test]
fn each_failing_read_and_write_ends_an_audit_there(rt: HostRuntime) -> Result<(), Fail> {
    for number in 0..15 {
        assert!(rt; is_left_at(rt.alloc(), number)?, "{number}");
    }
    Ok(())
}

// The words of an audit for party 1, without a query.
fn words_of_audit(alloc: Global) -> Result<Vec<String>, AllocError>
    ensures { IfOk result (λ words. (plan : Plan) → TakesPlan (map string_bytes words.items) plan) }
{
    let mut words = Vec::new(alloc);
    words.push(String::from_str(alloc, "audit")?)?;
    words.push(String::from_str(alloc, "none")?)?;
    words.push(String::from_str(alloc, "1")?)?;
    words.push(String::from_str(alloc, "a")?)?;
    words.push(String::from_str(alloc, "b")?)?;
    words.push(String::from_str(alloc, "t")?)?;
    Ok(words)
}

// An audit by a plan that is handed in.
fn audit_with(alloc: Global, plan: &Plan, folder: &mut MemoryFolder) -> Result<Said, Fail>
    requires correct { IsCorrect plan.now }
    requires shows { ShowsAnswers plan.now }
    requires placed { IsPlaced plan.now }
    requires isolated { IsIsolated plan.now }
{
    let words = words_of_audit(alloc)?;
    let mut out = MemorySink::new(alloc, Vec::new(alloc));
    let mut err = MemorySink::new(alloc, Vec::new(alloc));
    let status = conclave_with(alloc, plan, &words, folder, &mut out, &mut err);
    Ok(Said { status, out, err })
}

#[test]
fn a_plan_that_is_handed_in_is_audited_without_its_query(rt: HostRuntime) -> Result<(), Fail> {
    let plan = compile(rt.alloc(), UNTRUSTED)?;
    let mut folder = folder_of_worlds(rt.alloc(), UNTRUSTED, STUDY, EXCHANGED, &[])?;
    let _ = call(rt.alloc(), TAPE, &mut folder)?;
    let said = audit_with(rt.alloc(), &plan, &mut folder)?;
    assert!(rt; said.status == 0 && !bytes_of(&folder, "t.twin.3").is_empty());
    Ok(())
}
