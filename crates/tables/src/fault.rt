//! Why a file gives no table.
#![tactic(auto)]

ghost use Rattle.std.specs.Prelude.{◌≡◌, IfOk};
ghost use Rattle.words.specs.Columns.{names_of};
ghost use Rattle.tables.specs.FaultText.{fields_told, name_at, reason, rows_told, told, value_told};

use std::alloc::{AllocError, AllocFailed, Global};
use thiserror::Error;
use words::{Column, ValueFault};

/// Why `read_table` gave no table.
#[derive(Clone, Copy, Debug, PartialEq, Eq, Error)]
pub enum TableFault {
    /// The first record isn't the names of the columns in order, or there is none.
    #[error("header")]
    Header,
    /// So many records stand behind the header, more than were declared.
    #[error("{found} records, at most {declared}")]
    Rows {
        declared: u32,
        found: u64,
    },
    /// The record of this number, the header being 1, has more or fewer fields than there are columns.
    #[error("record {line}: fields")]
    Fields {
        line: u64,
    },
    /// In that record, the field of the column of this number, counted from 0, is no value of its kind.
    #[error("record {line} column {column}: {fault}")]
    Value {
        line: u64,
        column: u32,
        fault: ValueFault,
    },
    /// There was no memory.
    #[error("out of memory")]
    Memory,
}

impl From<AllocError> for TableFault {
    ghost use Rattle.tables.specs.declared.fault.TableFault.TheVariants.{Memory};

    ghost from_gives = { λ _ fault. fault ≡ Memory };

    fn from(_error: AllocError) -> TableFault {
        TableFault::Memory
    }
}

impl<T: Drop> From<AllocFailed<T>> for TableFault {
    ghost use Rattle.tables.specs.declared.fault.TableFault.TheVariants.{Memory};

    ghost from_gives = { λ _ fault. fault ≡ Memory };

    fn from(_error: AllocFailed<T>) -> TableFault {
        TableFault::Memory
    }
}

/// The text of a fault under these columns, which names the column that it counts.
pub fn fault_text(
    alloc: Global,
    fault: TableFault,
    columns: &[Column],
) -> Result<Vec<u8>, AllocError>
    ensures { IfOk result (λ text. text.items ≡ told (names_of columns.now) fault) }
{
    match fault {
        TableFault::Header => Vec::from_slice(alloc, b"header"),
        TableFault::Rows { declared, found } => rows_text(alloc, declared, found),
        TableFault::Fields { line } => fields_text(alloc, line),
        TableFault::Value {
            line,
            column,
            fault,
        } => value_text(alloc, line, column_name(columns, column), fault),
        TableFault::Memory => Vec::from_slice(alloc, b"out of memory"),
    }
}

fn rows_text(alloc: Global, declared: u32, found: u64) -> Result<Vec<u8>, AllocError>
    ensures { IfOk result (λ text. text.items ≡ rows_told declared found) }
{
    let text = format!(in alloc; "{found} records, at most {declared}")?;
    Ok(text.into_bytes())
}

fn fields_text(alloc: Global, line: u64) -> Result<Vec<u8>, AllocError>
    ensures { IfOk result (λ text. text.items ≡ fields_told line) }
{
    let text = format!(in alloc; "record {line}: fields")?;
    Ok(text.into_bytes())
}

// The name of the column of this number, if there is one.
fn column_name(columns: &[Column], column: u32) -> &[u8]
    ensures { result.now ≡ name_at (names_of columns.now) column }
{
    match columns.get(column as usize) {
        Some(column) => column.name.bytes(),
        None => &[],
    }
}

// The text of a field that is no value, in the column of this name.
fn value_text(
    alloc: Global,
    line: u64,
    name: &[u8],
    fault: ValueFault,
) -> Result<Vec<u8>, AllocError>
    ensures { IfOk result (λ text. text.items ≡ value_told line name.now fault) }
{
    let mut text = format!(in alloc; "record {line} column ")?.into_bytes();
    text.extend_from_slice(name)?;
    text.extend_from_slice(b": ")?;
    text.extend_from_slice(reason(fault))?;
    Ok(text)
}

fn reason(fault: ValueFault) -> &'static [u8]
    ensures { result.now ≡ reason fault }
{
    match fault {
        ValueFault::NotNumber => b"not a number",
        ValueFault::TooLarge => b"too large",
        ValueFault::TextLong => b"text too long",
        ValueFault::TextByte => b"text byte",
    }
}
