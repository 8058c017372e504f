//! Two worlds of the credit study, compared for the party that joins.
ghost use Rattle.std.specs.Prelude.{◌≡◌, true, IfOk};
ghost use Rattle.plain_meaning.specs.Fits.{IsWorldOf};
ghost use Rattle.plain_meaning.specs.Plain.{rows_of_tables};
ghost use Rattle.trust_sets.specs.Differs.{IsWithinBounds};

use crate::plain_meaning_tests::file_of;
use plain_meaning::{World, plain};
use query_graph::{Flag, Graph, build};
use query_text::read_query;
use std::alloc::{AllocError, Global};
use std::test::Fail;
use trust_sets::{Differs, agree, derive_trust};

const CREDIT: &[u8] = b"relation people of 1 rows 4 (ssn num, zip num)
relation scores2 of 2 rows 3 (ssn num trust 1, score num)
relation scores3 of 3 rows 3 (ssn num trust 1, score num)
scores = concat scores2 scores3
joined = join people scores on ssn at most 6
byzip = group joined by zip (total = sum score, n = count)
output byzip to 1";

const PEOPLE: &[&[u64]] = &[&[100, 2139], &[101, 2139], &[102, 94110], &[103, 10001]];

const SCORES2: &[&[u64]] = &[&[100, 700], &[101, 650], &[102, 600]];

const SCORES3: &[&[u64]] = &[&[100, 710], &[102, 640], &[999, 500]];

// The world of these files, those of the first nodes.
fn files_world(alloc: Global, graph: &Graph, files: &[&[&[u64]]]) -> Result<World, Fail>
    ensures { IfOk result (λ world. IsWorldOf graph.now.nodes (rows_of_tables world)) }
{
    let mut tables = Vec::new(alloc);
    for (node, rows) in graph.nodes().iter().zip(files) {
        tables.push(file_of(alloc, node, rows)?)?;
    }
    match World::new(graph, tables) {
        Ok(world) => Ok(world),
        Err(_) => Err("no world")?,
    }
}

// Whether no node has more rows than its bound.
fn is_within(alloc: Global, graph: &Graph, world: &World) -> Result<bool, AllocError>
    requires { IsWorldOf graph.now.nodes (rows_of_tables world.now) }
    ensures { IfOk result (λ within. within ≡ true → IsWithinBounds graph.now.nodes (rows_of_tables world.now)) }
{
    Ok(plain(alloc, graph, world)?.over.is_none())
}

// The same, if no node has more rows than its bound.
fn world_of(alloc: Global, graph: &Graph, files: &[&[&[u64]]]) -> Result<World, Fail>
    ensures fits { IfOk result (λ world. IsWorldOf graph.now.nodes (rows_of_tables world)) }
    ensures within { IfOk result (λ world. IsWithinBounds graph.now.nodes (rows_of_tables world)) }
{
    let world = files_world(alloc, graph, files)?;
    if is_within(alloc, graph, &world)? {
        Ok(world)
    } else {
        Err("a node is over its bound")?
    }
}

// How the study differs for party 1 in a world of other files.
fn difference(
    alloc: Global,
    files: &[&[&[u64]]],
    excess: Option<Flag>,
    other_excess: Option<Flag>,
) -> Result<Option<Differs>, Fail> {
    let graph = build(alloc, &read_query(alloc, CREDIT)?)?;
    let trust = derive_trust(alloc, &graph)?;
    let world = world_of(alloc, &graph, &[PEOPLE, SCORES2, SCORES3])?;
    let other = world_of(alloc, &graph, files)?;
    Ok(agree(
        alloc,
        &graph,
        &trust,
        1,
        &world,
        &other,
        excess,
        other_excess,
    )?)
}

const OVER: Option<Flag> = Some(Flag {
    node: 4,
    party: 1,
    of_parts: false,
});

const OTHER_PEOPLE: &[&[u64]] = &[&[101, 2139], &[100, 2139], &[102, 94110], &[103, 10001]];

const REORDERED: &[&[u64]] = &[&[102, 600], &[100, 700], &[101, 650]];

const OTHER_SSN: &[&[u64]] = &[&[100, 700], &[105, 650], &[102, 600]];

const OTHER_SCORE: &[&[u64]] = &[&[100, 700], &[101, 651], &[102, 600]];

const UNUSED_SCORE: &[&[u64]] = &[&[100, 710], &[102, 640], &[999, 501]];

const TWICE: &[&[u64]] = &[&[100, 710], &[102, 640], &[102, 500]];

// The files of another world, the flags of both, and what differs.
type Case = (
    [&'static [&'static [u64]]; 3],
    Option<Flag>,
    Option<Flag>,
    Option<Differs>,
);

const CASES: &[Case] = &[
    ([PEOPLE, REORDERED, SCORES3], None, None, None),
    ([PEOPLE, SCORES2, UNUSED_SCORE], None, None, None),
    (
        [OTHER_PEOPLE, OTHER_SSN, SCORES3],
        None,
        OVER,
        Some(Differs::OwnFile { relation: 0 }),
    ),
    (
        [PEOPLE, OTHER_SSN, TWICE],
        None,
        OVER,
        Some(Differs::Trusted { relation: 1 }),
    ),
    (
        [PEOPLE, SCORES2, TWICE],
        None,
        None,
        Some(Differs::Trusted { relation: 2 }),
    ),
    (
        [PEOPLE, OTHER_SCORE, SCORES3],
        None,
        None,
        Some(Differs::Answer { output: 5 }),
    ),
    ([PEOPLE, OTHER_SCORE, SCORES3], OVER, OVER, None),
    (
        [PEOPLE, OTHER_SCORE, SCORES3],
        None,
        OVER,
        Some(Differs::Excess {
            first: None,
            second: OVER,
        }),
    ),
    (
        [PEOPLE, SCORES2, SCORES3],
        OVER,
        None,
        Some(Differs::Excess {
            first: OVER,
            second: None,
        }),
    ),
    ([PEOPLE, SCORES2, SCORES3], None, None, None),
];

// The first of the cases in which something else differs.
fn first_other(alloc: Global, cases: &[Case]) -> Result<Option<usize>, Fail> {
    for (index, (files, excess, other_excess, want)) in cases.iter().enumerate() {
        if difference(alloc, files, *excess, *other_excess)? != *want {
            return Ok(Some(index));
        }
    }
    Ok(None)
}

#[test]
fn tells_the_first_part_that_differs(rt: HostRuntime) -> Result<(), Fail> {
    assert_eq!(rt; first_other(rt.alloc(), CASES)?, None);
    Ok(())
}
