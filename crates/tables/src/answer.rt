//! The text of an answer.
#![tactic(auto)]

ghost use Rattle.std.specs.Prelude.{◌≡◌, ℕ, List, [], ◌∷◌, ◌++◌, length, map, All, IfOk, OnOk, Some};
ghost use Rattle.csv.specs.Records.{fields_of, partial_of};
ghost use Rattle.csv.specs.Writing.{default_writer, row_text};
ghost use Rattle.words.specs.Columns.{names_of, kinds_of};
ghost use Rattle.tables.specs.Answer.{AnswersOfEqualBags, HasText, answer_of, fields_written_of, rows_text, written};

use crate::Table;
use bags::laws::{bags_are_equivalence, bags_keep_rows, sorted_is_in_order, sorted_tells_bags};
use bags::sort_rows;
use csv::{ByteRecord, Writer};
use itoa::Buffer;
use std::alloc::{AllocError, Global};
use std::io::Write;
use words::{Column, Kind, unpack_text};

/// The text of a table as an answer: a header with the columns' names, and then the rows in the order of
/// their words, each as a record that ends with a line feed.
///
/// It depends on the columns and on how often each row occurs, and not on the order of the rows. A number or
/// a flag is written in shortest decimal, a text as its bytes. Takes n log n comparisons of rows and one pass of writing.
pub fn answer_text(alloc: Global, table: &Table) -> Result<Vec<u8>, AllocError>
    ensures text { IfOk result (λ text. text.items ≡ answer_of table.now) }
{
    bags_are_equivalence();
    bags_keep_rows();
    sorted_is_in_order();
    let mut rows = table.lent_rows(alloc)?;
    sort_rows(&mut rows);
    write_rows(alloc, table.columns().as_slice(), rows.as_slice())
}

/// A law: tables with the same columns and the same bag of rows have the same answer.
pub fn answers_of_equal_bags()
    ensures { AnswersOfEqualBags }
{
    sorted_tells_bags();
}

// The header and the rows as they come.
fn write_rows(alloc: Global, columns: &[Column], rows: &[&[u64]]) -> Result<Vec<u8>, AllocError>
    requires { All (λ row. length row ≡ length columns.now) (map (λ row. row.now) rows.now) }
    ensures { IfOk result (λ text. text.items ≡ rows_text columns.now (map (λ row. row.now) rows.now)) }
{
    let mut writer = Writer::from_writer(Vec::new(alloc));
    let header = header_fields(alloc, columns)?;
    put_record(&mut writer, &header)?;
    // Its memory serves each row.
    let mut fields = header;
    for row in rows {
        fill_record(alloc, &mut fields, columns, row)?;
        put_record(&mut writer, &fields)?;
    }
    match writer.into_inner() {
        Ok(text) => Ok(text),
        Err(_) => Err(AllocError),
    }
}

// The record of the columns' names.
fn header_fields(alloc: Global, columns: &[Column]) -> Result<ByteRecord, AllocError>
    ensures { IfOk result (λ fields. fields_of fields ≡ names_of columns.now) }
{
    let mut fields = ByteRecord::new(alloc);
    for column in columns {
        fields.push_field(column.name.bytes())?;
    }
    Ok(fields)
}

// Makes the record that of a row.
fn fill_record(
    alloc: Global,
    fields: &mut ByteRecord,
    columns: &[Column],
    row: &[u64],
) -> Result<(), AllocError>
    requires { length row.now ≡ length columns.now }
    ensures { OnOk result (fields_of fields.new ≡ fields_written_of (kinds_of columns.now) row.now) }
{
    fields.clear();
    let mut digits = Buffer::new();
    for (index, word) in row.iter().enumerate() {
        push_word(alloc, fields, &mut digits, columns[index].kind, *word)?;
    }
    Ok(())
}

// One more field behind whole fields.
fn push_word(
    alloc: Global,
    fields: &mut ByteRecord,
    digits: &mut Buffer,
    kind: Kind,
    word: u64,
) -> Result<(), AllocError>
    requires { partial_of fields.old ≡ [] }
    ensures fields { OnOk result (fields_of fields.new ≡ fields_of fields.old ++ written kind word ∷ []) }
    ensures whole { OnOk result (partial_of fields.new ≡ []) }
{
    match kind {
        Kind::Num | Kind::Flag => fields.push_field(digits.format(word).as_bytes()),
        Kind::Text => fields.push_field(&unpack_text(alloc, word)?),
    }
}

// Writes a record behind whole records. All that can fail is memory.
fn put_record<W: Write + Drop>(
    writer: &mut Writer<W>,
    fields: &ByteRecord,
) -> Result<(), AllocError>
    ensures { OnOk result ((text : List ℕ) → HasText W.contents writer.old text
        → HasText W.contents writer.new (text ++ row_text default_writer (fields_of fields.now))) }
{
    match writer.write_byte_record(fields) {
        Ok(()) => Ok(()),
        Err(_) => Err(AllocError),
    }
}
