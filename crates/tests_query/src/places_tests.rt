//! Where nodes are worked, how many AND words they take, and the flags of bounds.
use crate::query_graph_tests::graph_of;
use places::{Place, PlaceFault, Places, check_places};
use query_graph::Flag;
use rewrites::rewrite;
use std::alloc::Global;
use std::test::Fail;
use trust_sets::derive_trust;

const CREDIT: &[u8] = b"relation people of 1 rows 4 (ssn num, zip text)
relation scores2 of 2 rows 3 (ssn num trust 1, score num)
relation scores3 of 3 rows 3 (ssn num trust 1, score num)
scores = concat scores2 scores3
joined = join people scores on ssn at most 6
byzip = group joined by zip (total = sum score, n = count)
output byzip to 1";

const LARGE_CREDIT: &[u8] = b"relation people of 1 rows 2000 (ssn num, zip text)
relation scores2 of 2 rows 1000 (ssn num trust 1, score num)
relation scores3 of 3 rows 1000 (ssn num trust 1, score num)
scores = concat scores2 scores3
joined = join people scores on ssn at most 2000
byzip = group joined by zip (total = sum score, n = count)
output byzip to 1";

const SECRET_CREDIT: &[u8] = b"relation people of 1 rows 4 (ssn num, zip text)
relation scores2 of 2 rows 3 (ssn num, score num)
relation scores3 of 3 rows 3 (ssn num, score num)
scores = concat scores2 scores3
joined = join people scores on ssn
byzip = group joined by zip (total = sum score, n = count)
output byzip to 1";

const UNCOUNTED_CREDIT: &[u8] = b"relation people of 1 rows 4 (ssn num, zip text)
relation scores2 of 2 rows 3 (ssn num, score num)
relation scores3 of 3 rows 3 (ssn num, score num)
scores = concat scores2 scores3
joined = join people scores on ssn at most 6
byzip = group joined by zip (total = sum score, n = count)
output byzip to 1";

const SUMS: &[u8] = b"relation a of 1 rows 128 (k num, v num)
relation b of 2 rows 128 (k num, v num)
c = concat a b
g = group c by k (s = sum v)
output g to 1 2";

const LARGE_SUMS: &[u8] = b"relation a of 1 rows 512 (k num, v num)
relation b of 2 rows 512 (k num, v num)
c = concat a b
g = group c by k (s = sum v)
output g to 1 2";

const UP: &[u8] = b"relation a of 1 rows 2 (x num)
relation b of 2 rows 2 (x num)
c = concat a b
d = distinct c
s = select d (x, y = x * 3)
output s to 3";

const PRODUCTS: &[u8] = b"relation a of 1 rows 2 (x num)
relation b of 2 rows 2 (x num)
c = concat a b
d = distinct c
s = select d (y = x * 3)
output s to 3";

const FILTERED: &[u8] = b"relation a of 1 rows 2 (x num)
relation b of 2 rows 2 (x num)
c = concat a b
d = distinct c
s = filter d where x > 5
output s to 3";

const PARTIAL_GROUPS: &[u8] = b"relation a of 1 rows 100 (k num trust 3, v num)
relation b of 2 rows 100 (k num trust 3, v num)
c = concat a b
g = group c by k (t = sum v) parts at most 10
output g to 3";

const CLEAR: &[u8] = b"relation a of 1 rows 2 (x num trust 3)
relation b of 2 rows 2 (x num trust 3)
c = concat a b
d = distinct c clear at 3
output d to 3";

// Each operator over parts that are clear at one party, split, joint, and split with a joint part; no column is trusted
// to another party than its owner.
const OPERATORS: &[u8] = b"relation a of 1 rows 2 (x num, y num)
relation b of 2 rows 3 (x num, y num)
relation e of 1 rows 4 (x num, y num)
c = concat a b
k = concat a e
d = distinct c
fa = filter a where x > 1 at most 1
fc = filter c where x > 1
fd = filter d where x > 1 and y == x
m = concat d c
fm = filter m where x > 1
sm = select m (z = x + y, x)
sd = select d (z = x == y, w = x * 2)
ja = join a e on x, y at most 5
jb = join a b on x, y
ga = group k by x (n = count) at most 3
gc = group c by x (n = count)
gw = group c (n = count, s = sum y)
dm = distinct fm
fx = filter d where x > 1 clear at 3
jx = join a m on x, y clear at 2
gx = group d by x (n = count) clear at 1
sx = select m (x, y) clear at 2
output dm to 1
output c to 2
output a to 2";

// Parties that help, of those that may know the rows, and by what is written.
const HELPERS: &[u8] = b"relation a of 1 rows 4 (x num trust 2 3, y num)
relation b of 2 rows 8 (x num trust 3, y num trust 3)
relation e of 3 rows 2 (x num, y num)
c = concat a b
f = concat a e
g = group c by x (n = count)
h = group c by x (n = count) at most 5 via 3
i = group f by x (n = count, s = sum y)
l = group e by x (n = count) via 1
j = join a b on x, y at most 4 via 3
w = group c (n = count)
q = group c by x (n = count, s = sum y) parts at most 1 at most 2 via 2
output g to 3";

// A text, and the sum of its AND words or why it is refused.
pub(crate) type Sum = (&'static [u8], Result<u64, PlaceFault>);

const SUMS_OF_TEXTS: &[Sum] = &[
    (CREDIT, Ok(1298)),
    (LARGE_CREDIT, Ok(1_108_000)),
    (SECRET_CREDIT, Ok(26208)),
    (
        UNCOUNTED_CREDIT,
        Err(PlaceFault::AtMost { line: 5, node: 4 }),
    ),
    (SUMS, Ok(1_835_520)),
    (LARGE_SUMS, Err(PlaceFault::Cost { words: 29_362_176 })),
    (UP, Ok(180)),
    (PRODUCTS, Ok(3712)),
    (FILTERED, Ok(236)),
    (PARTIAL_GROUPS, Ok(4260)),
    (CLEAR, Ok(0)),
    (OPERATORS, Ok(7991)),
    (HELPERS, Ok(4806)),
];

fn check(alloc: Global, text: &[u8]) -> Result<Result<Places, PlaceFault>, Fail> {
    let graph = graph_of(alloc, text)?;
    let trust = derive_trust(alloc, &graph)?;
    let rewritten = rewrite(alloc, &graph)?;
    Ok(check_places(alloc, &graph, &trust, &rewritten))
}

// The number of the first text with another sum or fault.
pub(crate) fn first_other_sum(alloc: Global, cases: &[Sum]) -> Result<Option<usize>, Fail> {
    for (number, (text, want)) in cases.iter().enumerate() {
        let made = check(alloc, text)?.map(|places| places.total());
        if made != *want {
            return Ok(Some(number));
        }
    }
    Ok(None)
}

// The number of the first node with another place or other words.
pub(crate) fn first_other_node(
    alloc: Global,
    text: &[u8],
    want: &[(Place, u64)],
) -> Result<Option<usize>, Fail> {
    let graph = graph_of(alloc, text)?;
    let trust = derive_trust(alloc, &graph)?;
    let rewritten = rewrite(alloc, &graph)?;
    let places = check_places(alloc, &graph, &trust, &rewritten)?;
    for (number, _node) in graph.nodes().iter().enumerate() {
        let made = (
            places.place_of(number as u32),
            places.and_words(number as u32),
        );
        if want.get(number) != Some(&made) {
            return Ok(Some(number));
        }
    }
    Ok(if want.len() == graph.nodes().len() {
        None
    } else {
        Some(want.len())
    })
}

// Whether a text has these flags: the node, the party, and whether it is one of parts.
fn has_flags(alloc: Global, text: &[u8], want: &[(u32, u8, bool)]) -> Result<bool, Fail> {
    let places = check(alloc, text)??;
    let flags = places.flags();
    for (flag, (node, party, of_parts)) in flags.iter().zip(want) {
        let wanted = Flag {
            node: *node,
            party: *party,
            of_parts: *of_parts,
        };
        if *flag != wanted {
            return Ok(false);
        }
    }
    Ok(flags.len() == want.len())
}

#[test]
fn sums_and_faults_are_those_of_the_table(rt: HostRuntime) -> Result<(), Fail> {
    assert_eq!(rt; first_other_sum(rt.alloc(), SUMS_OF_TEXTS)?, None);
    Ok(())
}

#[test]
fn nodes_of_small_studies_have_their_places_and_words(rt: HostRuntime) -> Result<(), Fail> {
    let alloc = rt.alloc();
    let credit = &[
        (Place::Clear(1), 0),
        (Place::Clear(2), 0),
        (Place::Clear(3), 0),
        (Place::Split, 0),
        (Place::Hybrid(1), 170),
        (Place::Hybrid(1), 1110),
    ];
    let secret = &[
        (Place::Clear(1), 0),
        (Place::Clear(2), 0),
        (Place::Clear(3), 0),
        (Place::Split, 0),
        (Place::Shared, 216),
        (Place::Shared, 25920),
    ];
    let partial = &[
        (Place::Clear(1), 0),
        (Place::Clear(2), 0),
        (Place::Split, 0),
        (Place::Hybrid(3), 4200),
    ];
    let clear = &[
        (Place::Clear(1), 0),
        (Place::Clear(2), 0),
        (Place::Split, 0),
        (Place::Clear(3), 0),
    ];
    assert_eq!(rt; first_other_node(alloc, CREDIT, credit)?, None);
    assert_eq!(rt; first_other_node(alloc, SECRET_CREDIT, secret)?, None);
    assert_eq!(rt; first_other_node(alloc, PARTIAL_GROUPS, partial)?, None);
    assert_eq!(rt; first_other_node(alloc, CLEAR, clear)?, None);
    Ok(())
}

const OPERATOR_NODES: &[(Place, u64)] = &[
    (Place::Clear(1), 0),
    (Place::Clear(2), 0),
    (Place::Clear(1), 0),
    (Place::Split, 0),
    (Place::Clear(1), 0),
    (Place::Shared, 450),
    (Place::Clear(1), 0),
    (Place::Split, 0),
    (Place::Shared, 105),
    (Place::Split, 0),
    (Place::Split, 70),
    (Place::Split, 65),
    (Place::Shared, 4445),
    (Place::Clear(1), 0),
    (Place::Shared, 96),
    (Place::Clear(1), 0),
    (Place::Shared, 700),
    (Place::Shared, 190),
    (Place::Shared, 1800),
    (Place::Clear(3), 10),
    (Place::Clear(2), 10),
    (Place::Clear(1), 10),
    (Place::Clear(2), 10),
];

const HELPED_NODES: &[(Place, u64)] = &[
    (Place::Clear(1), 0),
    (Place::Clear(2), 0),
    (Place::Clear(3), 0),
    (Place::Split, 0),
    (Place::Split, 0),
    (Place::Hybrid(2), 1440),
    (Place::Hybrid(3), 1440),
    (Place::Hybrid(3), 1110),
    (Place::Clear(3), 0),
    (Place::Hybrid(3), 96),
    (Place::Shared, 252),
    (Place::Hybrid(2), 444),
];

#[test]
fn each_operator_has_its_place_and_words(rt: HostRuntime) -> Result<(), Fail> {
    let alloc = rt.alloc();
    assert_eq!(rt; first_other_node(alloc, OPERATORS, OPERATOR_NODES)?, None);
    assert_eq!(rt; first_other_node(alloc, HELPERS, HELPED_NODES)?, None);
    Ok(())
}

#[test]
fn bounds_have_their_flags_in_order(rt: HostRuntime) -> Result<(), Fail> {
    let alloc = rt.alloc();
    let operators = &[(6, 1, false), (13, 1, false), (15, 1, false)];
    let helpers = &[
        (6, 3, false),
        (9, 3, false),
        (11, 1, true),
        (11, 2, true),
        (11, 2, false),
    ];
    assert!(rt; has_flags(alloc, CREDIT, &[(4, 1, false)])?);
    assert!(rt; has_flags(alloc, PARTIAL_GROUPS, &[(3, 1, true), (3, 2, true)])?);
    assert!(rt; has_flags(alloc, CLEAR, &[])?);
    assert!(rt; has_flags(alloc, OPERATORS, operators)?);
    assert!(rt; has_flags(alloc, HELPERS, helpers)?);
    Ok(())
}

// Bounds that no party counts: of rows over joint, split and shared nodes, and of parts that are all at one party, joint
// in part, or not split.
const UNCOUNTED: &[Sum] = &[
    (
        b"relation a of 1 rows 2 (x num)
relation b of 2 rows 2 (x num)
c = concat a b
f = filter c where x > 1 at most 1
output f to 1",
        Err(PlaceFault::AtMost { line: 4, node: 3 }),
    ),
    (
        b"relation a of 1 rows 2 (x num)
relation b of 2 rows 2 (x num)
c = concat a b

d = distinct c at most 3
output d to 1",
        Err(PlaceFault::AtMost { line: 5, node: 3 }),
    ),
    (
        b"relation a of 1 rows 2 (x num)
relation b of 1 rows 2 (x num)
c = concat a b
g = group c by x (n = count) parts at most 2
output g to 1",
        Err(PlaceFault::AtMost { line: 4, node: 3 }),
    ),
    (
        b"relation a of 1 rows 2 (x num)
relation b of 2 rows 2 (x num)
c = concat a b
d = distinct c
m = concat a d
g = group m by x (n = count) parts at most 2
h = group d by x (n = count) parts at most 2
output g to 1",
        Err(PlaceFault::AtMost { line: 6, node: 5 }),
    ),
    (
        b"relation a of 1 rows 2 (x num)
relation b of 2 rows 2 (x num)
c = concat a b
d = distinct c
g = group c by x (n = count) parts at most 2 at most 3
output g to 1",
        Err(PlaceFault::AtMost { line: 5, node: 4 }),
    ),
];

#[test]
fn first_bound_that_no_party_counts_is_named(rt: HostRuntime) -> Result<(), Fail> {
    assert_eq!(rt; first_other_sum(rt.alloc(), UNCOUNTED)?, None);
    Ok(())
}
