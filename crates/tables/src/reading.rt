//! The records of a file, one at a time, and their number.
#![tactic(auto)]

ghost use Rattle.std.specs.Prelude.{◌≡◌, ◌+◌, [], IfOk, IfErr, length};
ghost use Rattle.std.specs.Bool.{OnTrue, OnFalse};
ghost use Rattle.csv.specs.Records.{fields_of};
ghost use Rattle.tables.specs.Outcome.{Gives};
ghost use Rattle.tables.specs.File.{within};
ghost use Rattle.tables.specs.Records.{IsReading, TakesRecord, unread};

use crate::TableFault;
use csv::{ByteRecord, Reader};

// The next record into `fields`, and whether there was one. Records of any number of fields are taken and
// bytes in memory don't fail, so an error of `csv` is want of memory.
pub(crate) fn next_record(
    reader: &mut Reader<&[u8]>,
    fields: &mut ByteRecord,
) -> Result<bool, TableFault>
    requires { IsReading reader.old }
    ensures found { IfOk result (λ found. OnTrue found (TakesRecord reader.old reader.new (fields_of fields.new))) }
    ensures end { IfOk result (λ found. OnFalse found (unread reader.old ≡ [])) }
    ensures err { IfErr result (λ fault. fault ≡ TableFault.Memory) }
{
    reader
        .read_byte_record(fields)
        .map_err(|_| TableFault::Memory)
}

// Tells more records than were declared, where so many were taken before those that the reader has left.
pub(crate) fn check_count(
    reader: &mut Reader<&[u8]>,
    fields: &mut ByteRecord,
    declared: u32,
    taken: u64,
) -> Result<(), TableFault>
    requires { IsReading reader.old }
    ensures { Gives (λ _. tt) (within declared (taken + length (unread reader.old))) result }
{
    let found = count_records(reader, fields, taken)?;
    if found > u64::from(declared) {
        return Err(TableFault::Rows { declared, found });
    }
    Ok(())
}

// So many, and the records that the reader has left.
fn count_records(
    reader: &mut Reader<&[u8]>,
    fields: &mut ByteRecord,
    taken: u64,
) -> Result<u64, TableFault>
    requires { IsReading reader.old }
    ensures found { IfOk result (λ found. found ≡ taken + length (unread reader.old)) }
    ensures err { IfErr result (λ fault. fault ≡ TableFault.Memory) }
{
    let mut found = taken;
    while next_record(reader, fields)? {
        found = found.checked_add(1).ok_or(TableFault::Memory)?;
    }
    Ok(found)
}
