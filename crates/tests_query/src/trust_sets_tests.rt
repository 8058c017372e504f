//! The sets of graphs, and what they refuse.
use crate::query_graph_tests::graph_of;
use query_graph::Parties;
use std::alloc::Global;
use std::test::Fail;
use trust_sets::{Trust, TrustFault, check_trust, derive_trust};

const CREDIT: &[u8] = b"relation people of 1 rows 4 (ssn num, zip text)
relation scores2 of 2 rows 3 (ssn num trust 1, score num)
relation scores3 of 3 rows 3 (ssn num trust 1, score num)
scores = concat scores2 scores3
joined = join people scores on ssn at most 6
byzip = group joined by zip (total = sum score, n = count)
output byzip to 1";

// Each operator over relations whose columns have different sets.
const OPERATORS: &[u8] = b"relation a of 1 rows 4 (k num trust 2 3, x num trust 2, y num)
relation b of 2 rows 4 (k num trust 1, z num trust 1 3)
relation c of 3 rows 4 (k num trust 2, x num, y num trust 1 2)
relation e of 1 rows 4 (k num, x num, y num)
f1 = filter a where x > 5
f2 = filter a where 3 < y and x > 5
f3 = filter a where k == 1 and 2 == 2
s = select a (k, n = x + y, c = 7, m = k * x)
c1 = concat a c
c2 = concat a e a
j = join a b on k
g = group a by x (t = sum k, n = count, l = least y, h = greatest x)
w = group a (n = count, t = sum y)
d1 = distinct a
d2 = distinct b
output d1 to 1";

fn number(place: usize) -> u32 {
    u32::try_from(place).unwrap_or(u32::MAX)
}

// Whether a set has exactly the parties of these digits.
fn is_set(set: Parties, digits: &[u8]) -> bool {
    let same = |party: u8| set.contains(party) == digits.contains(&(b'0' + party));
    same(1) && same(2) && same(3)
}

// Whether a node's rows, and then each of its columns, may be known by the parties of these digits.
fn are_sets(trust: &Trust, node: u32, sets: &[&[u8]]) -> bool {
    let [rows, columns @ ..] = sets else {
        return false;
    };
    let mut same = is_set(trust.rows_of(node), rows);
    for (column, set) in columns.iter().enumerate() {
        same = same && is_set(trust.trust_of(node, number(column)), set);
    }
    same && is_set(trust.trust_of(node, number(columns.len())), b"")
}

// The number of the first node whose sets aren't these.
fn first_other(alloc: Global, text: &[u8], want: &[&[&[u8]]]) -> Result<Option<usize>, Fail> {
    let graph = graph_of(alloc, text)?;
    let trust = derive_trust(alloc, &graph)?;
    for (node, sets) in want.iter().enumerate() {
        if !are_sets(&trust, number(node), sets) {
            return Ok(Some(node));
        }
    }
    let all = want.len() == graph.nodes().len() && is_set(trust.rows_of(number(want.len())), b"");
    Ok(if all { None } else { Some(want.len()) })
}

const CREDIT_SETS: &[&[&[u8]]] = &[
    &[b"1", b"1", b"1"],
    &[b"12", b"12", b"2"],
    &[b"13", b"13", b"3"],
    &[b"1", b"1", b""],
    &[b"1", b"1", b"1", b""],
    &[b"1", b"1", b"", b"1"],
];

#[test]
fn credit_study_is_known_to_the_party_that_joins(rt: HostRuntime) -> Result<(), Fail> {
    assert_eq!(rt; first_other(rt.alloc(), CREDIT, CREDIT_SETS)?, None);
    Ok(())
}

const OPERATOR_SETS: &[&[&[u8]]] = &[
    &[b"123", b"123", b"12", b"1"],
    &[b"123", b"12", b"123"],
    &[b"123", b"23", b"3", b"123"],
    &[b"1", b"1", b"1", b"1"],
    &[b"12", b"12", b"12", b"1"],
    &[b"1", b"1", b"1", b"1"],
    &[b"123", b"123", b"12", b"1"],
    &[b"123", b"123", b"1", b"123", b"12"],
    &[b"123", b"23", b"", b"1"],
    &[b"1", b"1", b"1", b"1"],
    &[b"12", b"12", b"12", b"1", b"12"],
    &[b"12", b"12", b"12", b"12", b"1", b"12"],
    &[b"123", b"123", b"1"],
    &[b"1", b"1", b"1", b"1"],
    &[b"12", b"12", b"12"],
];

#[test]
fn each_operator_has_its_sets(rt: HostRuntime) -> Result<(), Fail> {
    assert_eq!(rt; first_other(rt.alloc(), OPERATORS, OPERATOR_SETS)?, None);
    Ok(())
}

// Whether a fault has these parts: the line, node, origin, party and column of one of trust, the line, output, party
// and relation of one of a release; none of no fault.
fn has_parts(found: Result<(), TrustFault>, parts: &[u32]) -> bool {
    match found {
        Ok(()) => parts.is_empty(),
        Err(
            TrustFault::Trust {
                line,
                node,
                origin,
                party,
                column,
            },
        ) => parts == [line, node, origin, u32::from(party), column].as_slice(),
        Err(
            TrustFault::Release {
                line,
                output,
                party,
                relation,
            },
        ) => parts == [line, output, u32::from(party), relation].as_slice(),
    }
}

fn check(alloc: Global, head: &[u8], more: &[u8], parts: &[u32]) -> Result<bool, Fail> {
    let mut text = Vec::new(alloc);
    text.extend_from_slice(head)?;
    text.extend_from_slice(more)?;
    let graph = graph_of(alloc, &text)?;
    let trust = derive_trust(alloc, &graph)?;
    Ok(has_parts(check_trust(&graph, &trust), parts))
}

// The first of the texts behind the relations that has another fault.
fn first_other_fault(
    alloc: Global,
    head: &[u8],
    cases: &[(&[u8], &[u32])],
) -> Result<Option<usize>, Fail> {
    for (index, (more, parts)) in cases.iter().enumerate() {
        if !check(alloc, head, more, parts)? {
            return Ok(Some(index));
        }
    }
    Ok(None)
}

const JOINED: &[u8] = b"relation b of 1 rows 2 (k num, v num)
relation a of 2 rows 2 (k num trust 1, s num)
f = filter a where s > 5
";

const NAMED: &[(&[u8], &[u32])] = &[
    (b"j = join b f on k via 1\noutput j to 2", &[4, 3, 2, 1, 0]),
    (b"j = join f b on k via 1\noutput j to 2", &[4, 3, 2, 1, 0]),
    (b"j = join b a on k via 1\noutput j to 2", &[]),
    (b"j = join a b on k via 2\noutput j to 2", &[4, 3, 0, 2, 0]),
    (b"j = join b f on k via 3\noutput j to 2", &[4, 3, 0, 3, 0]),
    (
        b"j = join b a on k clear at 1\noutput j to 2",
        &[4, 3, 1, 1, 1],
    ),
    (
        b"g = group a by s, k (n = count) via 3\noutput g to 2",
        &[4, 3, 1, 3, 0],
    ),
    (
        b"g = group a by s, k (n = count) via 1\noutput g to 2",
        &[4, 3, 1, 1, 1],
    ),
    (b"g = group a by k (n = sum s) via 1\noutput g to 2", &[]),
    (
        b"g = group a by k (n = sum s) clear at 1\noutput g to 2",
        &[4, 3, 1, 1, 1],
    ),
    (b"g = group a (n = count) clear at 2\noutput g to 2", &[]),
    (
        b"h = filter a where k > 5 clear at 1\noutput h to 2",
        &[4, 3, 1, 1, 1],
    ),
    (
        b"t = select a (k) clear at 1\noutput t to 2",
        &[4, 3, 1, 1, 1],
    ),
    (
        b"d = distinct a clear at 1\noutput d to 2",
        &[4, 3, 1, 1, 1],
    ),
    (b"d = distinct a clear at 2\noutput d to 2", &[]),
];

#[test]
fn named_parties_are_trusted_with_what_they_need(rt: HostRuntime) -> Result<(), Fail> {
    assert_eq!(rt; first_other_fault(rt.alloc(), JOINED, NAMED)?, None);
    Ok(())
}

const RELEASED: &[u8] = b"relation r of 1 rows 2 (x num) release 1
relation s of 2 rows 2 (x num) release 3
relation u of 3 rows 2 (x num)
";

const OUTPUTS: &[(&[u8], &[u32])] = &[
    (b"output r to 1", &[]),
    (b"output r to 1 2 3", &[4, 0, 2, 0]),
    (b"output s to 2 3", &[]),
    (b"output s to 1", &[4, 1, 1, 1]),
    (b"output u to 1 2 3", &[]),
    (b"c = concat u s r\noutput c to 3", &[5, 3, 3, 0]),
    (b"c = concat s r\noutput c to 1 3", &[5, 3, 1, 1]),
    (
        b"j = join u s on x\ng = group j by x (n = count)\noutput g to 1",
        &[6, 4, 1, 1],
    ),
    (
        b"f = filter s where x > 1\nt = select f (y = 1)\noutput t to 1",
        &[6, 4, 1, 1],
    ),
    (
        b"d = distinct r\noutput u to 1\noutput d to 1 3",
        &[6, 3, 3, 0],
    ),
];

#[test]
fn outputs_are_released_to_their_recipients(rt: HostRuntime) -> Result<(), Fail> {
    assert_eq!(rt; first_other_fault(rt.alloc(), RELEASED, OUTPUTS)?, None);
    assert!(rt; check(rt.alloc(), CREDIT, b"", &[])?);
    Ok(())
}

const RELEASED_TO_2: &[u8] = b"relation r of 2 rows 2 (x num) release 2\n";

const FIRST: &[(&[u8], &[u32])] = &[
    (b"output r to 1\nd = distinct r clear at 1", &[2, 0, 1, 0]),
    (
        b"d = distinct r clear at 1\noutput r to 1",
        &[2, 1, 0, 1, 0],
    ),
    (
        b"d = distinct r clear at 2\ne = distinct r clear at 3\noutput d to 1",
        &[3, 2, 0, 3, 0],
    ),
];

#[test]
fn first_statement_counts(rt: HostRuntime) -> Result<(), Fail> {
    assert_eq!(rt; first_other_fault(rt.alloc(), RELEASED_TO_2, FIRST)?, None);
    Ok(())
}
