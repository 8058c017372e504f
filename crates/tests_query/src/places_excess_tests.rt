//! The first bound that a world breaks: at each bound, and one above it.
use crate::plain_meaning_tests::world_of;
use crate::query_graph_tests::graph_of;
use places::{check_places, excess};
use query_graph::Flag;
use rewrites::rewrite;
use std::alloc::Global;
use std::test::Fail;
use trust_sets::derive_trust;

// The rows of each relation, and the node, the party and whether it is of parts of the flag, if there is one.
type Case = (
    &'static [&'static [&'static [u64]]],
    Option<(u32, u8, bool)>,
);

fn flag_of(flag: (u32, u8, bool)) -> Flag {
    Flag {
        node: flag.0,
        party: flag.1,
        of_parts: flag.2,
    }
}

// The excess of a text over files.
fn excess_of(alloc: Global, text: &[u8], files: &[&[&[u64]]]) -> Result<Option<Flag>, Fail> {
    let graph = graph_of(alloc, text)?;
    let trust = derive_trust(alloc, &graph)?;
    let rewritten = rewrite(alloc, &graph)?;
    let places = check_places(alloc, &graph, &trust, &rewritten)?;
    let world = world_of(alloc, &graph, files)?;
    Ok(excess(alloc, &graph, &rewritten, &places, &world)?)
}

// The number of the first case with another excess.
fn first_other(alloc: Global, text: &[u8], cases: &[Case]) -> Result<Option<usize>, Fail> {
    for (number, (files, want)) in cases.iter().enumerate() {
        if excess_of(alloc, text, files)? != want.map(flag_of) {
            return Ok(Some(number));
        }
    }
    Ok(None)
}

const FILTER: &[u8] = b"relation a of 1 rows 4 (x num)
f = filter a where x > 5 at most 2
output f to 1";

const GROUP: &[u8] = b"relation a of 2 rows 4 (x num)
g = group a by x (n = count) at most 2
output g to 1";

const DISTINCT: &[u8] = b"relation a of 1 rows 4 (x num trust 3)
relation b of 2 rows 4 (x num trust 3)
c = concat a b
d = distinct c at most 2 clear at 3
output c to 3";

const JOIN: &[u8] = b"relation a of 1 rows 4 (x num trust 2)
relation b of 2 rows 4 (x num)
j = join a b on x at most 4
output j to 3";

#[test]
fn rows_are_counted_on_each_operator(rt: HostRuntime) -> Result<(), Fail> {
    let alloc = rt.alloc();
    let filter: &[Case] = &[
        (&[&[&[6], &[1], &[6]]], None),
        (&[&[&[6], &[7], &[1], &[6]]], Some((1, 1, false))),
    ];
    let group: &[Case] = &[
        (&[&[&[6], &[1], &[6], &[1]]], None),
        (&[&[&[6], &[7], &[1], &[6]]], Some((1, 2, false))),
    ];
    let distinct: &[Case] = &[
        (&[&[&[6], &[7]], &[&[7], &[6]]], None),
        (&[&[&[6], &[7]], &[&[8]]], Some((3, 3, false))),
    ];
    let join: &[Case] = &[
        (&[&[&[6], &[6], &[1]], &[&[6], &[6]]], None),
        (
            &[&[&[6], &[6], &[1]], &[&[6], &[6], &[1]]],
            Some((2, 2, false)),
        ),
    ];
    assert_eq!(rt; first_other(alloc, FILTER, filter)?, None);
    assert_eq!(rt; first_other(alloc, GROUP, group)?, None);
    assert_eq!(rt; first_other(alloc, DISTINCT, distinct)?, None);
    assert_eq!(rt; first_other(alloc, JOIN, join)?, None);
    Ok(())
}

// Two parts of party 1, and one of party 2, behind a filter; the group has both bounds.
const PARTS: &[u8] = b"relation a of 1 rows 4 (k num trust 3, v num trust 3)
relation b of 2 rows 4 (k num trust 3, v num trust 3)
relation e of 1 rows 4 (k num trust 3, v num trust 3)
c = concat a b e
f = filter c where v > 0
g = group f by k (t = sum v) parts at most 2 at most 3
output f to 3";

const KEYS_OF_PARTS: &[Case] = &[
    (
        &[
            &[&[6, 1], &[7, 1], &[6, 2]],
            &[&[6, 1], &[8, 1]],
            &[&[7, 1]],
        ],
        None,
    ),
    (
        &[&[&[6, 1], &[7, 1]], &[&[8, 1]], &[&[9, 0], &[6, 3]]],
        None,
    ),
    (&[&[&[6, 1], &[7, 1]], &[], &[&[9, 1]]], Some((5, 1, true))),
    (
        &[&[&[6, 1]], &[&[6, 1], &[7, 1], &[8, 1]], &[]],
        Some((5, 2, true)),
    ),
    (
        &[
            &[&[6, 1], &[7, 1], &[8, 1]],
            &[&[6, 1], &[7, 1], &[8, 1]],
            &[],
        ],
        Some((5, 1, true)),
    ),
    (
        &[&[&[6, 1], &[7, 1]], &[&[8, 1], &[9, 1]], &[]],
        Some((5, 3, false)),
    ),
    (
        &[&[&[6, 1]], &[&[7, 1], &[8, 1], &[9, 1]], &[&[1, 1]]],
        Some((5, 2, true)),
    ),
];

#[test]
fn keys_are_counted_among_all_parts_of_a_party(rt: HostRuntime) -> Result<(), Fail> {
    assert_eq!(rt; first_other(rt.alloc(), PARTS, KEYS_OF_PARTS)?, None);
    Ok(())
}

// A node of party 2 before one of party 1, whose rows are those of the first one.
const TWO_NODES: &[u8] = b"relation a of 2 rows 4 (x num)
relation b of 1 rows 4 (x num)
f = filter a where x > 5 at most 2
g = filter b where x > 5 at most 1
h = filter f where x > 6 at most 1
output g to 1";

const FLAGS_IN_ORDER: &[Case] = &[
    (&[&[&[7], &[6]], &[&[7]]], None),
    (&[&[&[7], &[6]], &[&[7], &[8]]], Some((3, 1, false))),
    (&[&[&[7], &[7]], &[&[7]]], Some((4, 2, false))),
    (&[&[&[7], &[7], &[8]], &[&[7], &[8]]], Some((2, 2, false))),
];

#[test]
fn first_flag_in_the_order_of_nodes_counts(rt: HostRuntime) -> Result<(), Fail> {
    assert_eq!(rt; first_other(rt.alloc(), TWO_NODES, FLAGS_IN_ORDER)?, None);
    Ok(())
}
