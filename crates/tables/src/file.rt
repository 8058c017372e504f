//! A file's bytes as a table.
#![tactic(auto)]

ghost use Rattle.std.specs.Prelude.{◌≡◌};
ghost use Rattle.csv.specs.Reading.{default_config, records, strip_bom};
ghost use Rattle.tables.specs.Outcome.{Gives};
ghost use Rattle.tables.specs.File.{HasNoFlag, ReadTablesFit, table_in, table_under};
ghost use Rattle.tables.specs.Records.{IsReading, unread};

use crate::reading::{check_count, next_record};
use crate::row::{is_header, read_row};
use crate::{Table, TableFault};
use csv::{ByteRecord, Reader, ReaderBuilder};
use std::alloc::Global;
use words::{Column, texts_are_words};

/// The table that a file's bytes are under a declaration of columns, none of them of flags, and of at most so
/// many rows.
///
/// The records are those that `csv` gives of the bytes with its default delimiter and quote, no trimming,
/// records of any number of fields, and no record taken as headers by itself; it skips one byte order mark
/// at the front. The first must be the columns' names in order, or else `Header`; at most `declared` follow,
/// or else `Rows`. Then the first record that isn't one field for each column gives `Fields`, or the first
/// field that is no value of its column's kind `Value`, whichever comes first. Own.
pub fn read_table(
    alloc: Global,
    bytes: &[u8],
    columns: &Vec<Column>,
    declared: u32,
) -> Result<Table, TableFault>
    requires { HasNoFlag columns.now.items }
    ensures { Gives (λ table. table) (table_in columns.now.items declared bytes.now) result }
{
    let mut reader = open(alloc, bytes);
    let mut fields = ByteRecord::new(alloc);
    if !next_record(&mut reader, &mut fields)? || !is_header(&fields, columns) {
        return Err(TableFault::Header);
    }
    read_rows(alloc, &mut reader, &mut fields, columns, declared)
}

/// A law: the table that a file's bytes are under a declaration has its columns and at most its rows, and each row is
/// as long as the columns and of words below 2^64.
#[tactic(auto, using(crate::proofs::ReadTables::read_tables_fit))]
pub fn read_tables_fit()
    ensures { ReadTablesFit }
{
    texts_are_words();
}

// A reader of the records of the bytes, of any number of fields and none of them headers.
fn open(alloc: Global, bytes: &[u8]) -> Reader<&[u8]>
    ensures reading { IsReading result }
    ensures records { unread result ≡ records default_config (strip_bom bytes.now) }
{
    ReaderBuilder::new()
        .has_headers(false)
        .flexible(true)
        .from_reader(alloc, bytes)
}

// The table of the records that the reader has left, where these are rows of the columns.
fn read_rows(
    alloc: Global,
    reader: &mut Reader<&[u8]>,
    fields: &mut ByteRecord,
    columns: &Vec<Column>,
    declared: u32,
) -> Result<Table, TableFault>
    requires reading { IsReading reader.old }
    requires kinds { HasNoFlag columns.now.items }
    ensures { Gives (λ table. table) (table_under columns.now.items declared (unread reader.old)) result }
{
    let mut table = Table::new(alloc, columns.clone()?);
    let mut row = Vec::new(alloc);
    for taken in 0..declared {
        if !next_record(reader, fields)? {
            return Ok(table);
        }
        let line = 2 + u64::from(taken);
        if let Err(fault) = read_row(line, fields, columns, &mut row) {
            // Too many records are told before a bad one.
            check_count(reader, fields, declared, u64::from(taken) + 1)?;
            return Err(fault);
        }
        table.push(&row)?;
    }
    check_count(reader, fields, declared, u64::from(declared))?;
    Ok(table)
}
