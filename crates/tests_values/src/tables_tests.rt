ghost use Rattle.std.specs.Prelude.{◌≡◌, ◌≢◌, IfOk};
ghost use Rattle.tables.specs.File.{HasNoFlag};

use std::alloc::{AllocError, Global};
use std::test::Fail;
use tables::{Table, TableFault, answer_text, fault_text, read_table};
use words::{Column, Kind, Label, ValueFault};

fn column(alloc: Global, name: &[u8], kind: Kind) -> Result<Column, AllocError>
    ensures { IfOk result (λ column. column.kind ≡ kind) }
{
    let name = Label::new(alloc, name)?;
    Ok(Column { name, kind })
}

// The declaration of a column of numbers, and of one of the other kind behind it.
fn two_columns(alloc: Global, other: Column) -> Result<Vec<Column>, AllocError>
    requires { other.kind ≢ Kind.Flag }
    ensures { IfOk result (λ columns. HasNoFlag columns.items) }
{
    let mut columns = Vec::new(alloc);
    columns.push(column(alloc, b"x", Kind::Num)?)?;
    columns.push(other)?;
    Ok(columns)
}

// The words of a table, row by row.
fn cells(alloc: Global, table: &Table) -> Result<Vec<u64>, AllocError> {
    let mut cells = Vec::new(alloc);
    for index in 0..table.rows() {
        cells.extend_from_slice(table.row(index))?;
    }
    Ok(cells)
}

// Files of two columns of numbers, each with the words of its table.
const FILES: &[(&str, &[u64])] = &[
    ("x,y\n2,9\n1,8\n2,7\n", &[2, 9, 1, 8, 2, 7]),
    ("x,y\n2,9\n1,8\n2,7", &[2, 9, 1, 8, 2, 7]),
    ("x,y\n", &[]),
    ("x,y", &[]),
    ("\"x\",\"y\"\n\"1\",2\n", &[1, 2]),
    ("x,y\r\n1,2\r\n3,4\r\n", &[1, 2, 3, 4]),
    ("\u{FEFF}x,y\r\n1,2\r\n", &[1, 2]),
    ("x,y\r1,2\r", &[1, 2]),
    ("\n\r\n\nx,y\n\n1,2\n\n\n", &[1, 2]),
    ("x,y\n1,\"2", &[1, 2]),
    ("x,y\n007,0000000000000000000000000000001\n", &[7, 1]),
    ("x,y\n18446744073709551615,0\n", &[u64::MAX, 0]),
];

fn are_cells(alloc: Global, text: &str, columns: &Vec<Column>, want: &[u64]) -> Result<bool, Fail>
    requires { HasNoFlag columns.now.items }
{
    let table = read_table(alloc, text.as_bytes(), columns, 3)?;
    Ok(table.columns().len() == 2 && cells(alloc, &table)?.as_slice() == want)
}

// The first of the files whose table has other words.
fn first_other_cells(
    alloc: Global,
    columns: &Vec<Column>,
    files: &[(&str, &[u64])],
) -> Result<Option<usize>, Fail>
    requires { HasNoFlag columns.now.items }
{
    for (index, (text, want)) in files.iter().enumerate() {
        if !are_cells(alloc, text, columns, want)? {
            return Ok(Some(index));
        }
    }
    Ok(None)
}

#[test]
fn reads_tables_whatever_their_line_ends_and_quotes(rt: HostRuntime) -> Result<(), Fail> {
    let columns = two_columns(rt.alloc(), column(rt.alloc(), b"y", Kind::Num)?)?;
    assert_eq!(rt; first_other_cells(rt.alloc(), &columns, FILES)?, None);
    Ok(())
}

// Files of a column of numbers and one of texts, each with its answer.
const ANSWERS: &[(&str, &str)] = &[
    ("x,t\n1,02139\n", "x,t\n1,02139\n"),
    ("x,t\n1,\"ab,cdefg\"\n", "x,t\n1,\"ab,cdefg\"\n"),
    ("x,t\n01,\"a\"\"b\"\n1,\n", "x,t\n1,\n1,\"a\"\"b\"\n"),
    ("x,t\n7,b\n7,aa\n", "x,t\n7,aa\n7,b\n"),
    ("\u{FEFF}x,t\r\n1, ~\r\n", "x,t\n1, ~\n"),
];

fn is_written_as(alloc: Global, text: &str, columns: &Vec<Column>, want: &str) -> Result<bool, Fail>
    requires { HasNoFlag columns.now.items }
{
    let table = read_table(alloc, text.as_bytes(), columns, 2)?;
    Ok(answer_text(alloc, &table)?.as_slice() == want.as_bytes())
}

// The first of the files that is written in another way.
fn first_other_answer(
    alloc: Global,
    columns: &Vec<Column>,
    answers: &[(&str, &str)],
) -> Result<Option<usize>, Fail>
    requires { HasNoFlag columns.now.items }
{
    for (index, (text, want)) in answers.iter().enumerate() {
        if !is_written_as(alloc, text, columns, want)? {
            return Ok(Some(index));
        }
    }
    Ok(None)
}

#[test]
fn writes_texts_back_as_they_were_read(rt: HostRuntime) -> Result<(), Fail> {
    let columns = two_columns(rt.alloc(), column(rt.alloc(), b"t", Kind::Text)?)?;
    assert_eq!(rt; first_other_answer(rt.alloc(), &columns, ANSWERS)?, None);
    Ok(())
}

const NOT_NUMBER: TableFault = TableFault::Value {
    line: 2,
    column: 0,
    fault: ValueFault::NotNumber,
};

const TEXT_BYTE: TableFault = TableFault::Value {
    line: 2,
    column: 1,
    fault: ValueFault::TextByte,
};

const TEXT_LONG: TableFault = TableFault::Value {
    line: 2,
    column: 1,
    fault: ValueFault::TextLong,
};

const TOO_LARGE: TableFault = TableFault::Value {
    line: 3,
    column: 0,
    fault: ValueFault::TooLarge,
};

const MANY: TableFault = TableFault::Rows {
    declared: 2,
    found: 3,
};

// Files, each with its first fault, and how that is told.
const FAULTS: &[(&[u8], TableFault, &[u8])] = &[
    (b"", TableFault::Header, b"header"),
    (b"\n\n", TableFault::Header, b"header"),
    (b"t,x\na,1\n", TableFault::Header, b"header"),
    (b"x\n1\n1\n1\n", TableFault::Header, b"header"),
    (b"x, t\n1,a\n", TableFault::Header, b"header"),
    (
        b"\xEF\xBB\xBF\xEF\xBB\xBFx,t\n1,a\n",
        TableFault::Header,
        b"header",
    ),
    (b"x,t\n1,a\n1,a\n1,a\n", MANY, b"3 records, at most 2"),
    (b"x,t\na\n,b,c\n\"\"\n", MANY, b"3 records, at most 2"),
    (b"x,t\n1,a\n1,a\nx\n", MANY, b"3 records, at most 2"),
    (
        b"x,t\n1\n",
        TableFault::Fields { line: 2 },
        b"record 2: fields",
    ),
    (
        b"x,t\nz,a,b\n",
        TableFault::Fields { line: 2 },
        b"record 2: fields",
    ),
    (
        b"x,t\n1,a\n\"\"\n",
        TableFault::Fields { line: 3 },
        b"record 3: fields",
    ),
    (
        b"x,t\n,a\n1\n",
        NOT_NUMBER,
        b"record 2 column x: not a number",
    ),
    (
        b"x,t\n,abcdefghi\n",
        NOT_NUMBER,
        b"record 2 column x: not a number",
    ),
    (
        b"x,t\n1,\xC3\xA9\n",
        TEXT_BYTE,
        b"record 2 column t: text byte",
    ),
    (
        b"x,t\n1,abcdefghi\n",
        TEXT_LONG,
        b"record 2 column t: text too long",
    ),
    (
        b"x,t\n1,a\n18446744073709551616,a\n",
        TOO_LARGE,
        b"record 3 column x: too large",
    ),
    (
        b"x,t\n\n1,\"\xC3\xA9\"\n",
        TEXT_BYTE,
        b"record 2 column t: text byte",
    ),
];

fn is_refused(
    alloc: Global,
    bytes: &[u8],
    columns: &Vec<Column>,
    want: TableFault,
    told: &[u8],
) -> Result<bool, AllocError>
    requires { HasNoFlag columns.now.items }
{
    let found = read_table(alloc, bytes, columns, 2).err();
    Ok(found == Some(want) && fault_text(alloc, want, columns)?.as_slice() == told)
}

// The first of the files that has another fault.
fn first_other_fault(
    alloc: Global,
    columns: &Vec<Column>,
    faults: &[(&[u8], TableFault, &[u8])],
) -> Result<Option<usize>, AllocError>
    requires { HasNoFlag columns.now.items }
{
    for (index, (bytes, want, told)) in faults.iter().enumerate() {
        if !is_refused(alloc, bytes, columns, *want, told)? {
            return Ok(Some(index));
        }
    }
    Ok(None)
}

#[test]
fn tells_the_first_fault_of_a_file(rt: HostRuntime) -> Result<(), Fail> {
    let columns = two_columns(rt.alloc(), column(rt.alloc(), b"t", Kind::Text)?)?;
    assert_eq!(rt; first_other_fault(rt.alloc(), &columns, FAULTS)?, None);
    Ok(())
}

#[test]
fn counts_columns_and_records_from_the_header_on(rt: HostRuntime) -> Result<(), Fail> {
    let columns = two_columns(rt.alloc(), column(rt.alloc(), b"z", Kind::Num)?)?;
    let fault = TableFault::Value {
        line: 4,
        column: 1,
        fault: ValueFault::TooLarge,
    };
    let text = b"x,z\n0,02139\n0,18446744073709551615\n0,18446744073709551616\n";
    assert_eq!(rt;
        read_table(rt.alloc(), text, &columns, 3).err(),
        Some(fault)
    );
    let fault = TableFault::Rows {
        declared: 3,
        found: 4,
    };
    let text = b"x,z\n1,1\n2,2\n3,3\n4,4\n";
    assert_eq!(rt;
        read_table(rt.alloc(), text, &columns, 3).err(),
        Some(fault)
    );
    Ok(())
}

// A table of numbers; a row of another length would be missing in the answer.
fn table_with_rows(alloc: Global, names: &[&[u8]], rows: &[&[u64]]) -> Result<Table, Fail> {
    let mut columns = Vec::new(alloc);
    for name in names {
        let name = Label::new(alloc, name)?;
        let kind = Kind::Num;
        columns.push(Column { name, kind })?;
    }
    let mut table = Table::new(alloc, columns);
    for row in rows {
        if row.len() == table.columns().len() {
            table.push(row)?;
        }
    }
    Ok(table)
}

// Names of columns and rows, each with its answer.
const TABLES: &[(&[&[u8]], &[&[u64]], &[u8])] = &[
    (&[b"x"], &[], b"x\n"),
    (
        &[b"x", b"y"],
        &[&[2, 9], &[1, 8], &[2, 7]],
        b"x,y\n1,8\n2,7\n2,9\n",
    ),
    (&[b"z"], &[&[10], &[9], &[10], &[0]], b"z\n0\n9\n10\n10\n"),
    (
        &[b"n"],
        &[&[u64::MAX], &[2139]],
        b"n\n2139\n18446744073709551615\n",
    ),
    (&[b"a,b", b""], &[&[1, 2]], b"\"a,b\",\n1,2\n"),
];

fn answers(alloc: Global, names: &[&[u8]], rows: &[&[u64]], want: &[u8]) -> Result<bool, Fail> {
    let table = table_with_rows(alloc, names, rows)?;
    Ok(answer_text(alloc, &table)?.as_slice() == want)
}

// The first of the tables that has another answer.
fn first_other_table(
    alloc: Global,
    tables: &[(&[&[u8]], &[&[u64]], &[u8])],
) -> Result<Option<usize>, Fail> {
    for (index, (names, rows, want)) in tables.iter().enumerate() {
        if !answers(alloc, names, rows, want)? {
            return Ok(Some(index));
        }
    }
    Ok(None)
}

#[test]
fn writes_header_and_rows_in_order(rt: HostRuntime) -> Result<(), Fail> {
    assert_eq!(rt; first_other_table(rt.alloc(), TABLES)?, None);
    Ok(())
}

// A table without rows, with a column of each kind.
fn table_of_each_kind(alloc: Global) -> Result<Table, AllocError> {
    let mut columns = Vec::new(alloc);
    columns.push(column(alloc, b"n", Kind::Num)?)?;
    columns.push(column(alloc, b"t", Kind::Text)?)?;
    columns.push(column(alloc, b"f", Kind::Flag)?)?;
    Ok(Table::new(alloc, columns))
}

// Whether a table of three columns is written so with these rows.
fn is_answered(
    alloc: Global,
    table: &mut Table,
    rows: &[[u64; 3]],
    want: &[u8],
) -> Result<bool, AllocError> {
    for row in rows {
        if table.columns().len() == 3 {
            table.push(row)?;
        }
    }
    Ok(answer_text(alloc, table)?.as_slice() == want)
}

const EACH_KIND: &[[u64; 3]] = &[[7, 0x3032_3133_3900_0000, 1], [7, 0, 0]];

#[test]
fn writes_each_kind_in_its_own_way(rt: HostRuntime) -> Result<(), Fail> {
    let mut table = table_of_each_kind(rt.alloc())?;
    let want = b"n,t,f\n7,,0\n7,02139,1\n";
    assert!(rt; is_answered(rt.alloc(), &mut table, EACH_KIND, want)?);
    Ok(())
}
