//! What a command writes.

ghost use Rattle.std.specs.Prelude.{◌≡◌, [], map, IsErrOf, OnErr, OnOk};
ghost use Rattle.outside.specs.Cause.{HasCause};
ghost use Rattle.conclave_top.specs.Deliver.{AreWritten, write_of};
ghost use Rattle.conclave_top.specs.Due.{does};
ghost use Rattle.conclave_top.specs.Effect.{IsCutOff};
ghost use Rattle.conclave_top.specs.End.{Ended};
ghost use Rattle.conclave_top.specs.Job.{only};
ghost use Rattle.conclave_top.specs.Outside.{folder_at, gained, ports_at};

use crate::end::End;
use outside::{Folder, FolderFault, OutFault, Sink};

/// Writes files, in order and each whole, and then prints the output in one write, and ends the command.
pub(crate) fn deliver<F: Folder, O: Sink>(
    writes: &[(String, Vec<u8>)],
    output: &[u8],
    files: &mut F,
    out: &mut O,
) -> End
    ensures { Ended (only (does [] (map write_of writes.now) output.now))
        (ports_at F.Folder O.Sink files.old out.old) (ports_at F.Folder O.Sink files.new out.new) result }
{
    match write_all(writes, files) {
        Ok(()) => match print(output, out) {
            Ok(()) => End::Done,
            Err(OutFault::Failed) => End::Outside,
            Err(OutFault::Memory) => End::Memory,
        },
        Err(FolderFault::Failed) => End::Outside,
        Err(FolderFault::Memory) => End::Memory,
    }
}

/// Prints bytes in one write, and writes nothing where there is none.
fn print<O: Sink>(bytes: &[u8], out: &mut O) -> Result<(), OutFault>
    ensures printed { OnOk result (O.taken out.new ≡ gained bytes.now (O.taken out.old)) }
    ensures err { OnErr result (O.taken out.new ≡ O.taken out.old) }
    ensures cause { HasCause (O.faults out.old) (O.faults out.new) (IsErrOf result OutFault.Failed) }
{
    if bytes.is_empty() {
        return Ok(());
    }
    out.write(bytes)
}

/// Writes files, in order and each whole, up to the first that isn't taken.
fn write_all<F: Folder>(writes: &[(String, Vec<u8>)], files: &mut F) -> Result<(), FolderFault>
    ensures written { OnOk result (AreWritten (map write_of writes.now) (folder_at F.Folder files.old) (folder_at F.Folder files.new)) }
    ensures cut { IsCutOff [] (map write_of writes.now) (folder_at F.Folder files.old) (folder_at F.Folder files.new) }
    ensures cause { HasCause (F.faults files.old) (F.faults files.new) (IsErrOf result FolderFault.Failed) }
{
    for (name, bytes) in writes {
        files.write(name, bytes)?;
    }
    Ok(())
}
