//! Which rule refuses a query, and where.
use query_graph::{GraphFault, build};
use query_text::{ReadFault, read_query};
use std::alloc::{AllocError, Global};
use std::test::Fail;

// Two relations, on the first two lines.
pub(crate) const RELATIONS: &[u8] = b"relation a of 1 rows 4 (k num, t text)
relation b of 2 rows 5 (k num, v num)
";

// A rule by its number, with its line and name; 0 where there is a graph.
type Answer = (u8, u32, Vec<u8>);

fn parts_of(alloc: Global, fault: GraphFault) -> Result<Answer, AllocError> {
    let mut text = Vec::new(alloc);
    let (rule, line) = match fault {
        GraphFault::Unknown { line, name } => {
            text.extend_from_slice(name.bytes())?;
            (2, line)
        }
        GraphFault::Taken { line, name } => {
            text.extend_from_slice(name.bytes())?;
            (3, line)
        }
        GraphFault::Kind { line } => (4, line),
        GraphFault::Shape { line } => (5, line),
        GraphFault::Size { line } => (6, line),
        GraphFault::NoOutput => (10, 0),
        GraphFault::Memory => (9, 0),
    };
    Ok((rule, line, text))
}

// Three parts of a text as one.
pub(crate) fn behind(
    alloc: Global,
    front: &[u8],
    text: &[u8],
    back: &[u8],
) -> Result<Vec<u8>, AllocError> {
    let mut whole = Vec::new(alloc);
    whole.extend_from_slice(front)?;
    whole.extend_from_slice(text)?;
    whole.extend_from_slice(back)?;
    Ok(whole)
}

// The rule that refuses a text; one that is no query has the rule 1.
fn answer(alloc: Global, text: &[u8]) -> Result<Answer, AllocError> {
    let query = match read_query(alloc, text) {
        Ok(query) => query,
        Err(ReadFault::Text { line, column: _ }) => return Ok((1, line, Vec::new(alloc))),
        Err(ReadFault::Memory) => return Err(AllocError),
    };
    match build(alloc, &query) {
        Ok(_graph) => Ok((0, 0, Vec::new(alloc))),
        Err(fault) => parts_of(alloc, fault),
    }
}

// Texts behind the relations, each with the rule that refuses it, and the line and the name that it names.
const NAMES: &[(&[u8], u8, u32, &[u8])] = &[
    (b"output a to 1", 0, 0, b""),
    (b"output x to 1", 2, 3, b"x"),
    (b"f = filter x where z == 1", 2, 3, b"x"),
    (b"f = filter a where y == z", 2, 3, b"y"),
    (b"f = filter a where k == 1 and k == z", 2, 3, b"z"),
    (b"f = filter g where k == 1\ng = distinct a", 2, 3, b"g"),
    (b"f = distinct f", 2, 3, b"f"),
    (b"s = select a (z)", 2, 3, b"z"),
    (b"s = select a (k, n = z)", 2, 3, b"z"),
    (b"s = select a (k, n = k + z)", 2, 3, b"z"),
    (b"c = concat x y", 2, 3, b"x"),
    (b"c = concat a a a y", 2, 3, b"y"),
    (b"j = join x y on z", 2, 3, b"x"),
    (b"j = join a y on z", 2, 3, b"y"),
    (b"j = join a b on t", 2, 3, b"t"),
    (b"j = join a b on k, v", 2, 3, b"v"),
    (b"g = group x by z (n = count)", 2, 3, b"x"),
    (b"g = group a by z (n = sum y)", 2, 3, b"z"),
    (b"g = group a by k (n = count, m = greatest y)", 2, 3, b"y"),
    (b"d = distinct a\noutput d to 1\noutput e to 1", 2, 5, b"e"),
    (b"a = distinct a at most 0", 3, 3, b"a"),
    (b"relation b of 3 rows 1 (x num)", 3, 3, b"b"),
    (b"f = distinct a\nf = distinct a", 3, 4, b"f"),
    (b"relation r of 1 rows 1 (x num, y num, x text)", 3, 3, b"x"),
    (b"s = select a (k, k)", 3, 3, b"k"),
    (b"s = select a (k, t, n = t, t = k)", 3, 3, b"t"),
    (b"j = join a b on k, k", 3, 3, b"k"),
    (b"j = join b b on k", 3, 3, b"v"),
    (b"g = group a by t, k, t (n = count)", 3, 3, b"t"),
    (b"g = group a by k (n = count, k = count)", 3, 3, b"k"),
    (b"g = group a (n = count, n = count)", 3, 3, b"n"),
    (b"output a to 1\noutput b to 1\noutput a to 2", 3, 5, b"a"),
    (b"a = distinct x", 2, 3, b"x"),
    (b"a = select a (k, k)", 3, 3, b"a"),
    (b"a = filter a where k == t", 3, 3, b"a"),
    (b"f = filter a where k == t and z == 1", 2, 3, b"z"),
    (b"f = filter a where k == t\ng = distinct x", 4, 3, b""),
];

const OTHERS: &[(&[u8], u8, u32, &[u8])] = &[
    (b"", 10, 0, b""),
    (b"f = filter a where k == t", 4, 3, b""),
    (b"f = filter a where k == 1 and t < 3", 4, 3, b""),
    (b"f = filter a where true == 1", 4, 3, b""),
    (b"s = select a (n = t + 1)", 4, 3, b""),
    (b"s = select a (k, t, n = k & true)", 4, 3, b""),
    (b"s = select a (n = k == t)", 4, 3, b""),
    (
        b"relation c of 1 rows 1 (k text)\nj = join a c on k",
        4,
        4,
        b"",
    ),
    (b"g = group a (n = sum t)", 4, 3, b""),
    (b"g = group a by k (n = least t, m = sum t)", 4, 3, b""),
    (
        b"s = select a (p = k == 1)\ng = group s (n = least p)",
        4,
        4,
        b"",
    ),
    (
        b"s = select a (p = k == 1)\ng = group s (n = greatest p)",
        4,
        4,
        b"",
    ),
    (b"c = concat a b", 5, 3, b""),
    (b"s = select a (t, k)\nc = concat a s", 5, 4, b""),
    (b"s = select a (k, t = k)\nc = concat a a s", 5, 4, b""),
    (b"g = group a (n = count) at most 3", 5, 3, b""),
    (b"g = group a (n = count) parts at most 3", 5, 3, b""),
    (b"g = group a (n = count) via 1", 5, 3, b""),
    (
        b"g = group a by k (n = count) parts at most 3 clear at 1",
        5,
        3,
        b"",
    ),
    (b"relation r of 1 rows 0 (x num)", 6, 3, b""),
    (b"relation r of 1 rows 65537 (x num)", 6, 3, b""),
    (b"f = filter a where k == 1 at most 0", 6, 3, b""),
    (b"d = distinct a at most 65537", 6, 3, b""),
    (b"j = join a b on k at most 18446744073709551615", 6, 3, b""),
    (b"g = group a by k (n = count) parts at most 0", 6, 3, b""),
    (b"g = group a by k (n = count) at most 0", 6, 3, b""),
    (b"f = filter a where t == \"123456789\"", 6, 3, b""),
    (b"s = select a (k, n = \"123456789\")", 6, 3, b""),
    (b"s = select a (n = \"123456789\" < t)", 6, 3, b""),
    (
        b"relation r of 1 rows 32769 (x num)\nc = concat r r",
        6,
        4,
        b"",
    ),
    (
        b"relation r of 1 rows 65536 (x num)\nj = join r r on x",
        6,
        4,
        b"",
    ),
    (
        b"relation r of 1 rows 65536 (x num)\nj = join r r on x at most 9\noutput j to 1",
        0,
        0,
        b"",
    ),
    (
        b"f = filter a where t == \"12345678\" at most 65536\noutput f to 3",
        0,
        0,
        b"",
    ),
    (b"g = group a (n = sum t) at most 3", 4, 3, b""),
    (b"g = group a (n = count) at most 0", 5, 3, b""),
    (b"f = filter a where k == t at most 0", 4, 3, b""),
    (b"d = distinct a at most 0\nc = concat a b", 6, 3, b""),
    (b"c = concat a b\nd = distinct x", 5, 3, b""),
];

fn is_refused(
    alloc: Global,
    text: &[u8],
    rule: u8,
    line: u32,
    name: &[u8],
) -> Result<bool, AllocError> {
    let text = behind(alloc, RELATIONS, text, b"")?;
    let (found, at, word) = answer(alloc, &text)?;
    Ok(found == rule && at == line && word.as_slice() == name)
}

// The first of the texts that is refused by another rule, or elsewhere.
fn first_other(
    alloc: Global,
    cases: &[(&[u8], u8, u32, &[u8])],
) -> Result<Option<usize>, AllocError> {
    for (index, (text, rule, line, name)) in cases.iter().enumerate() {
        if !is_refused(alloc, text, *rule, *line, name)? {
            return Ok(Some(index));
        }
    }
    Ok(None)
}

#[test]
fn names_are_refused_where_they_stand(rt: HostRuntime) -> Result<(), Fail> {
    assert_eq!(rt; first_other(rt.alloc(), NAMES)?, None);
    Ok(())
}

#[test]
fn other_rules_come_in_their_order(rt: HostRuntime) -> Result<(), Fail> {
    assert_eq!(rt; first_other(rt.alloc(), OTHERS)?, None);
    Ok(())
}

// The columns `aa`, `ab` and so on, so many of them.
fn columns(alloc: Global, count: u8) -> Result<Vec<u8>, AllocError> {
    let mut text = Vec::new(alloc);
    for column in 0..count {
        let name = [b'a' + column / 10, b'a' + column % 10];
        text.extend_from_slice(if column == 0 { b" (" } else { b", " })?;
        text.extend_from_slice(&name)?;
        text.extend_from_slice(b" num")?;
    }
    Ok(text)
}

const ONE: &[u8] = b"relation r of 1 rows 1";

const MOST: &[u8] = b"relation r of 1 rows 65536";

// A relation's front, how many columns it has, what stands behind them, and the rule and the line that refuse it.
const SIZES: &[(&[u8], u8, &[u8], u8, u32)] = &[
    (ONE, 32, b")\noutput r to 1", 0, 0),
    (ONE, 33, b")\noutput r to 1", 6, 1),
    (MOST, 31, b")\nd = distinct r\noutput d to 1", 0, 0),
    (
        MOST,
        31,
        b")\nd = distinct r\ne = distinct r at most 1",
        6,
        3,
    ),
    (MOST, 32, b")\nd = distinct r", 6, 2),
];

const PRODUCT: &[u8] = b"relation a of 1 rows 65536 (k num, v num)
relation b of 2 rows 2 (k num, w num)
j = join a b on k
output j to 1";

fn rule_and_line(alloc: Global, text: &[u8]) -> Result<(u8, u32), AllocError> {
    let (rule, line, _name) = answer(alloc, text)?;
    Ok((rule, line))
}

fn of_columns(
    alloc: Global,
    front: &[u8],
    count: u8,
    back: &[u8],
) -> Result<(u8, u32), AllocError> {
    let columns = columns(alloc, count)?;
    let text = behind(alloc, front, &columns, back)?;
    rule_and_line(alloc, &text)
}

// The first of the sizes that is refused by another rule, or elsewhere.
fn first_other_size(
    alloc: Global,
    sizes: &[(&[u8], u8, &[u8], u8, u32)],
) -> Result<Option<usize>, AllocError> {
    for (index, (front, count, back, rule, line)) in sizes.iter().enumerate() {
        if of_columns(alloc, front, *count, back)? != (*rule, *line) {
            return Ok(Some(index));
        }
    }
    Ok(None)
}

#[test]
fn sizes_stop_at_their_limits(rt: HostRuntime) -> Result<(), Fail> {
    assert_eq!(rt; first_other_size(rt.alloc(), SIZES)?, None);
    assert_eq!(rt; rule_and_line(rt.alloc(), PRODUCT)?, (6, 3));
    Ok(())
}
