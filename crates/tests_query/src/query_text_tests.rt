use query_text::{Body, KindText, ReadFault, RelationText, Statement, one_reading, read_query};
use std::alloc::{AllocError, Global};
use std::test::Fail;

pub(crate) const QUERY: &[u8] = b"relation people of 1 rows 4 (ssn num, zip text)
relation scores2 of 2 rows 3 (ssn num trust 1, score num)
relation scores3 of 3 rows 3 (ssn num trust 1, score num)
scores = concat scores2 scores3
joined = join people scores on ssn at most 6
byzip = group joined by zip (total = sum score, n = count)
output byzip to 1
";

// Where reading stops, or nothing where the text is a query.
fn place(alloc: Global, text: &[u8]) -> Option<(u32, u32)> {
    match read_query(alloc, text) {
        Ok(_query) => None,
        Err(ReadFault::Text { line, column }) => Some((line, column)),
        Err(ReadFault::Memory) => Some((u32::MAX, u32::MAX)),
    }
}

fn repeated(alloc: Global, part: &[u8], count: usize) -> Result<Vec<u8>, AllocError> {
    let mut text = Vec::new(alloc);
    for _part in 0..count {
        text.extend_from_slice(part)?;
    }
    Ok(text)
}

fn joined(alloc: Global, parts: &[&[u8]]) -> Result<Vec<u8>, AllocError> {
    let mut text = Vec::new(alloc);
    for part in parts {
        text.extend_from_slice(part)?;
    }
    Ok(text)
}

const FORMS: &[&[u8]] = &[
    b"",
    b"\n\n \t\n",
    b"# only a comment",
    b"output n to 1",
    b"output n to 1 2 3\n",
    b"\toutput\tn\tto\t1 3\r\n",
    b"output n to 1 # all \x80 \" of it\rhere\noutput n to 2",
    b"relation r of 1 rows 3 (x num)",
    b"relation r of 01 rows 18446744073709551615 (x num trust 1 02 3, y text trust 2) release 1 3",
    b"a = filter b where x == 1",
    b"a = filter b where x != \"a # b\" and true == false and 3 < y and y <= z and y > 1 and y >= 2",
    b"a = filter b where x == 1 at most 5",
    b"a = filter b where x == 1 clear at 2",
    b"a = filter b where x == \"\" at most 5 clear at 2",
    b"a = select b (x)",
    b"a=select b(x,y=z,w=x+1,v=x-y,u=x*y,t=f&g,s=f|true,r=x==y)clear at 3",
    b"a = concat b c",
    b"a = concat b b b b b b b b",
    b"a = join b c on x",
    b"a = join b c on x, y at most 7",
    b"a = join b c on x at most 7 via 1",
    b"a = join b c on x at most 7 clear at 1",
    b"a = join b c on x via 3",
    b"a = group b (n = count)",
    b"a = group b by x (n = count, s = sum y, l = least y, g = greatest y)",
    b"a = group b by x, y (n = count) parts at most 4",
    b"a = group b by x (n = count) parts at most 4 at most 5 via 2",
    b"a = group b by x (n = count) at most 5 clear at 2",
    b"a = distinct b",
    b"a = distinct b at most 3 clear at 1",
    b"_a1 = distinct _",
    b"output aaaaaaaaaaaaaaaaaaaaaaaaaaaaaaaa to 1",
    b"a = select b (x = y <= z, w = y < z, v = y >= z, u = y > z, t = y != z)",
    QUERY,
];

// The first of the texts that is refused.
fn first_refused(alloc: Global, texts: &[&[u8]]) -> Option<usize> {
    for (index, text) in texts.iter().enumerate() {
        if place(alloc, text).is_some() {
            return Some(index);
        }
    }
    None
}

#[test]
fn each_form_is_read(rt: HostRuntime) {
    assert_eq!(rt; first_refused(rt.alloc(), FORMS), None);
}

// Texts, each with the line and the column of its fault.
const FAULTS: &[(&[u8], u32, u32)] = &[
    (b"output", 1, 7),
    (b"output n", 1, 9),
    (b"output n  # where to\n", 1, 21),
    (b"output n to 1 1", 1, 15),
    (b"output n to 2 1", 1, 15),
    (b"output n to 4", 1, 13),
    (b"output n to 0", 1, 13),
    (b"output n to 1 2 3 3", 1, 19),
    (b"output n to 1 x", 1, 15),
    (b"output of to 1", 1, 8),
    (b"output aaaaaaaaaaaaaaaaaaaaaaaaaaaaaaaaa to 1", 1, 8),
    (b"output n to 1\r", 1, 14),
    (b"output n to 1\r\n\r \noutput", 2, 1),
    (b"\n\n!", 3, 1),
    (b"\x80", 1, 1),
    (b"a == b", 1, 3),
    (b"a = b", 1, 5),
    (b"a", 1, 2),
    (b"relation relation", 1, 10),
    (b"relation r of 0 rows 1 (x num)", 1, 15),
    (b"relation r of 1 rows 18446744073709551616 (x num)", 1, 22),
    (b"relation r of 1 rows 3 (x num,)", 1, 31),
    (b"relation r of 1 rows 3 (x num trust)", 1, 36),
    (b"relation r of 1 rows 3 ()", 1, 25),
    (b"relation r of 1 rows 3 (x flag)", 1, 27),
    (b"a = filter b where x < 1 or", 1, 26),
    (b"a = filter b where x == \"abc", 1, 25),
    (b"a = filter b where x == \"ab\ncd\"", 1, 25),
    (b"a = filter b where x == \"\x7F\"", 1, 25),
    (b"a = filter b where x == 1 clear at 2 at most 5", 1, 38),
    (b"a = select b (x ! y)", 1, 17),
    (b"a = select b (x = y < = z)", 1, 23),
    (b"a = concat b", 1, 13),
    (b"a = concat b b b b b b b b b", 1, 28),
    (b"a=group b()", 1, 11),
    (b"a = group b (n = count) via 1 clear at 1", 1, 31),
    (b"a = group b (n = count x)", 1, 24),
    (b"output a to 1\noutput b to 1\n  output c at 1", 3, 12),
];

// The first of the texts that is refused elsewhere, or not at all.
fn first_elsewhere(alloc: Global, faults: &[(&[u8], u32, u32)]) -> Option<usize> {
    for (index, (text, line, column)) in faults.iter().enumerate() {
        if place(alloc, text) != Some((*line, *column)) {
            return Some(index);
        }
    }
    None
}

#[test]
fn a_fault_has_its_place(rt: HostRuntime) {
    assert_eq!(rt; first_elsewhere(rt.alloc(), FAULTS), None);
}

// Whether so many copies are read, and with this behind them refused there.
fn is_refused_behind(
    alloc: Global,
    part: &[u8],
    copies: usize,
    last: &[u8],
    refused: (u32, u32),
) -> Result<bool, Fail> {
    let full = repeated(alloc, part, copies)?;
    let more = joined(alloc, &[&full, last])?;
    Ok(place(alloc, &full).is_none() && place(alloc, &more) == Some(refused))
}

#[test]
fn a_text_has_its_limits(rt: HostRuntime) -> Result<(), Fail> {
    let statement = b"output n to 1\n";
    let last = b"\n  relation relation";
    assert!(rt; is_refused_behind(rt.alloc(), statement, 64, last, (66, 3))?);
    assert!(rt; is_refused_behind(rt.alloc(), b" ", 65536, b"!", (0, 0))?);
    Ok(())
}

// Whether a relation is the second one of the query.
fn is_second(relation: &RelationText) -> bool {
    relation.name.bytes() == b"scores2".as_slice()
        && relation.owner == 2
        && relation.rows == 3
        && relation.columns.len() == 2
        && relation.release.bytes().is_empty()
}

// Whether its first column is that of the query.
fn begins_with_ssn(relation: &RelationText) -> bool {
    match relation.columns.as_slice().first() {
        Some(column) => {
            column.name.bytes() == b"ssn".as_slice()
                && column.kind == KindText::Num
                && column.trusted.bytes() == [1].as_slice()
        }
        None => false,
    }
}

fn is_second_statement(statement: &Statement) -> bool {
    match &statement.body {
        Body::Relation(relation) => {
            statement.line == 2 && is_second(relation) && begins_with_ssn(relation)
        }
        _ => false,
    }
}

#[test]
fn a_query_has_its_parts(rt: HostRuntime) -> Result<(), Fail> {
    let query = read_query(rt.alloc(), QUERY)?;
    let statements = query.statements.as_slice();
    assert_eq!(rt; statements.len(), 7);
    assert!(rt;
        statements
            .get(1)
            .is_some_and(|second| is_second_statement(second))
    );
    one_reading();
    Ok(())
}
