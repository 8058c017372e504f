//! Parts of nodes, selects that are up, and the rows of parts.
use crate::plain_meaning_tests::{has_rows, world_of};
use crate::query_graph_tests::graph_of;
use plain_meaning::plain;
use rewrites::{Part, PartPlace, part_table, rewrite};
use std::alloc::Global;
use std::test::Fail;

const CREDIT: &[u8] = b"relation people of 1 rows 4 (ssn num, zip text)
relation scores2 of 2 rows 3 (ssn num trust 1, score num)
relation scores3 of 3 rows 3 (ssn num trust 1, score num)
scores = concat scores2 scores3
joined = join people scores on ssn at most 6
byzip = group joined by zip (total = sum score, n = count)
output byzip to 1";

// Each operator over sources that are clear at one party, split, joint, and split with a joint part.
const OPERATORS: &[u8] = b"relation a of 1 rows 2 (x num, y num)
relation b of 2 rows 3 (x num, y num)
relation e of 1 rows 4 (x num, y num)
c = concat a b
k = concat a e
d = distinct c
fa = filter a where x > 1 at most 1
fc = filter c where x > 1
fd = filter d where x > 1 at most 4
sa = select a (x)
sc = select c (x)
sd = select d (x)
m = concat d c
fm = filter m where x > 1
ja = join a e on x, y
jb = join a b on x, y
jd = join a d on x, y
ga = group k by x (n = count)
gc = group c by x (n = count)
gp = group c by x (n = count) parts at most 1
gw = group c (n = count)
da = distinct k
dm = distinct fm at most 7
fcl = filter c where x > 1 clear at 3
jcl = join a b on x, y clear at 2
gcl = group d by x (n = count) clear at 1
dcl = distinct c clear at 3
scl = select d (x, y) clear at 2
cc = concat fcl dcl
cx = concat fcl a
output dm to 1";

// A part's party, or 0 for a joint one, and its rows.
fn is_part(part: &Part, want: (u8, u32)) -> bool {
    let place = match want.0 {
        0 => PartPlace::Joint,
        party => PartPlace::Clear(party),
    };
    part.place == place && part.rows == want.1
}

fn are_parts(parts: &[Part], want: &[(u8, u32)]) -> bool {
    for (number, part) in parts.iter().enumerate() {
        match want.get(number) {
            Some(wanted) => {
                if !is_part(part, *wanted) {
                    return false;
                }
            }
            None => return false,
        }
    }
    parts.len() == want.len()
}

// The number of the first node whose parts aren't these.
fn first_other(alloc: Global, text: &[u8], want: &[&[(u8, u32)]]) -> Result<Option<usize>, Fail> {
    let graph = graph_of(alloc, text)?;
    let rewritten = rewrite(alloc, &graph)?;
    for (number, _node) in graph.nodes().iter().enumerate() {
        let parts = want.get(number).copied().unwrap_or(&[]);
        if !are_parts(rewritten.parts(number as u32).as_slice(), parts) {
            return Ok(Some(number));
        }
    }
    Ok(if want.len() == graph.nodes().len() {
        None
    } else {
        Some(want.len())
    })
}

// Whether exactly the nodes with these numbers are up.
fn are_up(alloc: Global, text: &[u8], want: &[usize]) -> Result<bool, Fail> {
    let graph = graph_of(alloc, text)?;
    let rewritten = rewrite(alloc, &graph)?;
    for (number, _node) in graph.nodes().iter().enumerate() {
        if rewritten.is_up(number as u32) != want.contains(&number) {
            return Ok(false);
        }
    }
    Ok(true)
}

#[test]
fn credit_study_is_split_up_to_its_join(rt: HostRuntime) -> Result<(), Fail> {
    let want: &[&[(u8, u32)]] = &[
        &[(1, 4)],
        &[(2, 3)],
        &[(3, 3)],
        &[(2, 3), (3, 3)],
        &[(0, 6)],
        &[(0, 6)],
    ];
    assert_eq!(rt; first_other(rt.alloc(), CREDIT, want)?, None);
    assert!(rt; are_up(rt.alloc(), CREDIT, &[])?);
    Ok(())
}

#[test]
fn operators_have_the_parts_that_their_sources_leave(rt: HostRuntime) -> Result<(), Fail> {
    let want: &[&[(u8, u32)]] = &[
        &[(1, 2)],
        &[(2, 3)],
        &[(1, 4)],
        &[(1, 2), (2, 3)],
        &[(1, 6)],
        &[(0, 5)],
        &[(1, 1)],
        &[(1, 2), (2, 3)],
        &[(0, 4)],
        &[(1, 2)],
        &[(1, 2), (2, 3)],
        &[(0, 5)],
        &[(0, 5), (1, 2), (2, 3)],
        &[(0, 5), (1, 2), (2, 3)],
        &[(1, 8)],
        &[(0, 6)],
        &[(0, 10)],
        &[(1, 6)],
        &[(0, 5)],
        &[(0, 3)],
        &[(0, 1)],
        &[(1, 6)],
        &[(0, 7)],
        &[(3, 5)],
        &[(2, 6)],
        &[(1, 5)],
        &[(3, 5)],
        &[(2, 5)],
        &[(3, 10)],
        &[(3, 5), (1, 2)],
    ];
    assert_eq!(rt; first_other(rt.alloc(), OPERATORS, want)?, None);
    assert!(rt; are_up(rt.alloc(), OPERATORS, &[])?);
    Ok(())
}

#[test]
fn select_that_copies_a_joint_source_is_up(rt: HostRuntime) -> Result<(), Fail> {
    let copies = b"relation a of 1 rows 2 (x num)
relation b of 2 rows 2 (x num)
c = concat a b
d = distinct c
s = select d (x, y = x * 3)
output s to 3";
    let renames = b"relation a of 1 rows 2 (x num, y num)
relation b of 2 rows 2 (x num, y num)
c = concat a b
d = distinct c
s = select d (u = y, v = x, w = x)
output s to 3";
    let behind_both = b"relation a of 1 rows 2 (x num)
relation b of 2 rows 2 (x num)
c = concat a b
d = distinct c
s = select d (x, y = x * 3)
t = select s (z = y, w = x)
output t to 3";
    let in_part = b"relation a of 1 rows 2 (x num)
relation b of 2 rows 2 (x num)
c = concat a b
d = distinct c
m = concat a d
s = select m (x)
output s to 3";
    assert!(rt; are_up(rt.alloc(), copies, &[4])?);
    assert!(rt; are_up(rt.alloc(), renames, &[4])?);
    assert!(rt; are_up(rt.alloc(), behind_both, &[4, 5])?);
    assert!(rt; are_up(rt.alloc(), in_part, &[5])?);
    Ok(())
}

#[test]
fn select_stays_below_for_each_reason(rt: HostRuntime) -> Result<(), Fail> {
    let drops_column = b"relation a of 1 rows 2 (x num)
relation b of 2 rows 2 (x num)
c = concat a b
d = distinct c
s = select d (y = x * 3)
output s to 3";
    let has_party = b"relation a of 1 rows 2 (x num)
relation b of 2 rows 2 (x num)
c = concat a b
d = distinct c
s = select d (x) clear at 3
output s to 3";
    let has_clear_source = b"relation a of 1 rows 2 (x num)
s = select a (x)
output s to 3";
    let is_filter = b"relation a of 1 rows 2 (x num)
relation b of 2 rows 2 (x num)
c = concat a b
d = distinct c
s = filter d where x > 5
output s to 3";
    assert!(rt; are_up(rt.alloc(), drops_column, &[])?);
    assert!(rt; are_up(rt.alloc(), has_party, &[])?);
    assert!(rt; are_up(rt.alloc(), has_clear_source, &[])?);
    assert!(rt; are_up(rt.alloc(), is_filter, &[])?);
    Ok(())
}

#[test]
fn select_is_up_by_its_only_use(rt: HostRuntime) -> Result<(), Fail> {
    let by_output_and_select = b"relation a of 1 rows 2 (x num)
relation b of 2 rows 2 (x num)
c = concat a b
d = distinct c
s = select d (x)
t = select s (x, y = x + 1)
output s to 1
output t to 1";
    let twice_by_one = b"relation a of 1 rows 2 (x num)
relation b of 2 rows 2 (x num)
c = concat a b
d = distinct c
s = select d (x)
u = concat s s
output u to 1";
    let by_none = b"relation a of 1 rows 2 (x num)
relation b of 2 rows 2 (x num)
c = concat a b
d = distinct c
s = select d (x)
output d to 1";
    let by_one_that_stays = b"relation a of 1 rows 2 (x num)
relation b of 2 rows 2 (x num)
c = concat a b
d = distinct c
s = select d (x, y = x * 3)
t = select s (y)
output t to 1";
    assert!(rt; are_up(rt.alloc(), by_output_and_select, &[5])?);
    assert!(rt; are_up(rt.alloc(), twice_by_one, &[])?);
    assert!(rt; are_up(rt.alloc(), by_none, &[])?);
    assert!(rt; are_up(rt.alloc(), by_one_that_stays, &[])?);
    Ok(())
}

// Filters and selects over two files, over a concat of a concat, and behind a distinct.
const PIECES: &[u8] = b"relation a of 1 rows 3 (x num)
relation b of 2 rows 3 (x num)
c = concat a b
f = filter c where x > 5
s = select f (x, y = x + 1)
m = concat s s
g = filter m where y > 8
d = distinct c
n = concat d c
output g to 1";

const FILES: &[&[&[u64]]] = &[&[&[5], &[7], &[9]], &[&[7], &[3], &[8]]];

// Whether a part of a node has these rows.
fn is_rows_of_part(alloc: Global, node: u32, part: u32, want: &[&[u64]]) -> Result<bool, Fail> {
    let graph = graph_of(alloc, PIECES)?;
    let world = world_of(alloc, &graph, FILES)?;
    let rows = plain(alloc, &graph, &world)?;
    let rewritten = rewrite(alloc, &graph)?;
    let number = node as usize;
    if number >= rows.tables.len() || number >= graph.nodes().len() {
        return Ok(false);
    }
    if part as usize >= rewritten.parts(node).len() {
        return Ok(false);
    }
    let table = part_table(alloc, &graph, &rewritten, &rows, node, part)?;
    Ok(has_rows(&table, want))
}

#[test]
fn parts_have_the_rows_of_the_operator_on_their_sources(rt: HostRuntime) -> Result<(), Fail> {
    let alloc = rt.alloc();
    assert!(rt; is_rows_of_part(alloc, 1, 0, &[&[7], &[3], &[8]])?);
    assert!(rt; is_rows_of_part(alloc, 2, 0, &[&[5], &[7], &[9]])?);
    assert!(rt; is_rows_of_part(alloc, 2, 1, &[&[7], &[3], &[8]])?);
    assert!(rt; is_rows_of_part(alloc, 3, 0, &[&[7], &[9]])?);
    assert!(rt; is_rows_of_part(alloc, 4, 1, &[&[7, 8], &[8, 9]])?);
    assert!(rt; is_rows_of_part(alloc, 5, 2, &[&[7, 8], &[9, 10]])?);
    assert!(rt; is_rows_of_part(alloc, 6, 0, &[&[9, 10]])?);
    assert!(rt; is_rows_of_part(alloc, 6, 3, &[&[8, 9]])?);
    assert!(rt; is_rows_of_part(alloc, 7, 0, &[&[5], &[7], &[9], &[3], &[8]])?);
    assert!(rt; is_rows_of_part(alloc, 8, 2, &[&[7], &[3], &[8]])?);
    assert!(rt; !is_rows_of_part(alloc, 8, 3, &[])?);
    Ok(())
}
