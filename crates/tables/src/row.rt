//! What the fields of one record are under the columns of a declaration.
#![tactic(auto)]

ghost use Rattle.std.specs.Prelude.{◌≡◌, ◌≢◌, ℕ, [], false, MatchOption};
ghost use Rattle.std.specs.Str.{bytes_eq};
ghost use Rattle.csv.specs.Records.{field_at, fields_of};
ghost use Rattle.words.specs.Columns.{kinds_of, names_of, word_of};
ghost use Rattle.tables.specs.Outcome.{Gives};
ghost use Rattle.tables.specs.File.{HasNoFlag, field_word, is_header, row_of};

use crate::TableFault;
use csv::ByteRecord;
use words::{Column, Kind, ValueFault, pack_text, read_num};

// Whether the record is the names of the columns, in order.
pub(crate) fn is_header(fields: &ByteRecord, columns: &[Column]) -> bool
    ensures { result ≡ is_header (names_of columns.now) (fields_of fields.now) }
{
    if fields.len() != columns.len() {
        return false;
    }
    for (index, column) in columns.iter().enumerate() {
        if !is_name(fields, index, column) {
            return false;
        }
    }
    true
}

// Whether the record's field at this place is the column's name.
fn is_name(fields: &ByteRecord, index: usize, column: &Column) -> bool
    ensures { MatchOption (field_at (fields_of fields.now) index) (result ≡ false) (λ field. result ≡ bytes_eq field column.now.name) }
{
    match fields.get(index) {
        Some(field) => field == column.name.bytes(),
        None => false,
    }
}

// The words of the record's fields into `row`, in place of what it held. The record's number is `line`.
pub(crate) fn read_row(
    line: u64,
    fields: &ByteRecord,
    columns: &[Column],
    row: &mut Vec<u64>,
) -> Result<(), TableFault>
    requires { HasNoFlag columns.now }
    ensures { Gives (λ _. row.new.items) (row_of line (kinds_of columns.now) (fields_of fields.now)) result }
{
    row.clear();
    if fields.len() != columns.len() {
        return Err(TableFault::Fields { line });
    }
    for (index, column) in columns.iter().enumerate() {
        row.push(read_field(line, fields, index, column.kind)?)?;
    }
    Ok(())
}

// The word of the record's field at this place, in a column of this kind. A place that no u32 counts is told
// as want of memory.
fn read_field(line: u64, fields: &ByteRecord, index: usize, kind: Kind) -> Result<u64, TableFault>
    requires { kind ≢ Kind.Flag }
    ensures { Gives (λ word. word) (field_word line index kind (field_at (fields_of fields.now) index)) result }
{
    let column = u32::try_from(index).map_err(|_| TableFault::Memory)?;
    match fields.get(index) {
        Some(field) => read_word(kind, field).map_err(|fault| TableFault::Value {
            line,
            column,
            fault,
        }),
        None => Err(TableFault::Fields { line }),
    }
}

// The word that a field's bytes write in a column of this kind.
fn read_word(kind: Kind, bytes: &[u8]) -> Result<u64, ValueFault>
    requires { kind ≢ Kind.Flag }
    ensures { result ≡ word_of kind bytes.now }
{
    match kind {
        Kind::Num => read_num(bytes),
        Kind::Text => pack_text(bytes),
        Kind::Flag => unreachable!(),
    }
}
