//! The files of tapes.

ghost use Rattle.std.specs.Prelude.{◌≡◌, IfOk, [], ◌∷◌, string_bytes};
ghost use Rattle.lanes.specs.Three.{at, each};
ghost use Rattle.step_lists.specs.Draws.{schedule_of};
ghost use Rattle.outside.specs.Folder.{Holds};
ghost use Rattle.conclave_top.specs.End.{Reads};
ghost use Rattle.conclave_top.specs.Job.{reading};
ghost use Rattle.conclave_top.specs.Outside.{folder_at};
ghost use Rattle.conclave_top.specs.PartyFiles.{of_parties};
ghost use Rattle.conclave_top.specs.Tapes.{AreTapeBytes, GivesTape, GivesTapes, tape_names};

use crate::end::{End, Stop};
use crate::lines::tape_line;
use crate::party_files::tape_file;
use lanes::{Party, Three};
use lowering::Plan;
use outside::{Folder, FolderFault};
use std::alloc::{AllocError, Global};
use step_lists::list_needs;
use tapes::{Needs, Tape, TapeFault, Tapes, read_tape};

/// The bytes of the three tapes of a name, or how the command ends without them.
pub(crate) fn read_tapes<F: Folder>(
    alloc: Global,
    tapes: &str,
    files: &mut F,
) -> Result<Three<Vec<u8>>, End>
    ensures { Reads (reading (tape_names tapes.now))
        (λ bytes. AreTapeBytes (F.files files.old) tapes.now (each (λ b. b.items) bytes))
        (folder_at F.Folder files.old) (folder_at F.Folder files.new) result }
{
    let Ok(names) = names_of(alloc, tapes) else {
        return Err(End::Memory);
    };
    let first = read_one(&names.first, files)?;
    let second = read_one(&names.second, files)?;
    let third = read_one(&names.third, files)?;
    Ok(Three {
        first,
        second,
        third,
    })
}

/// The bytes of a file, or how the command ends without them.
fn read_one<F: Folder>(name: &str, files: &mut F) -> Result<Vec<u8>, End>
    ensures { Reads (reading (name.now ∷ [])) (λ bytes. Holds (F.files files.old) name.now bytes.items)
        (folder_at F.Folder files.old) (folder_at F.Folder files.new) result }
{
    match files.read(name) {
        Ok(bytes) => Ok(bytes),
        Err(FolderFault::Failed) => Err(End::Outside),
        Err(FolderFault::Memory) => Err(End::Memory),
    }
}

/// The names of the files of three tapes.
fn names_of(alloc: Global, tapes: &str) -> Result<Three<String>, AllocError>
    ensures { IfOk result (λ names. of_parties (λ party. string_bytes (at party names)) ≡ tape_names tapes.now) }
{
    Ok(Three {
        first: tape_file(alloc, tapes, Party::First)?,
        second: tape_file(alloc, tapes, Party::Second)?,
        third: tape_file(alloc, tapes, Party::Third)?,
    })
}

/// The tapes that these bytes spell for a plan, or the line of the first that is none.
pub(crate) fn tapes_of(
    alloc: Global,
    plan: &Plan,
    name: &str,
    bytes: &Three<Vec<u8>>,
) -> Result<Tapes, Stop>
    ensures { GivesTapes (schedule_of plan.now.list) (each (λ b. b.items) bytes.now) name.now result }
{
    let schedule = list_needs(alloc, plan.list())?;
    let first = tape_of(alloc, name, Party::First, &schedule.first, &bytes.first)?;
    let second = tape_of(alloc, name, Party::Second, &schedule.second, &bytes.second)?;
    let third = tape_of(alloc, name, Party::Third, &schedule.third, &bytes.third)?;
    Ok(Tapes {
        first,
        second,
        third,
    })
}

/// The tape that bytes spell for these needs, or the line of their fault.
fn tape_of(
    alloc: Global,
    name: &str,
    party: Party,
    needs: &Needs,
    bytes: &[u8],
) -> Result<Tape, Stop>
    ensures { GivesTape needs.now bytes.now name.now party result }
{
    match read_tape(alloc, bytes, needs) {
        Ok(tape) => Ok(tape),
        Err(TapeFault::Memory) => Err(Stop::Memory),
        Err(fault) => {
            let file = tape_file(alloc, name, party)?;
            Err(Stop::Line(tape_line(alloc, &file, fault)?))
        }
    }
}
