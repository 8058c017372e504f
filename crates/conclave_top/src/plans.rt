//! From a query's bytes to its plan, or to the line of its refusal.

ghost use Rattle.conclave_top.specs.End.{Reads};
ghost use Rattle.conclave_top.specs.Job.{refusal};
ghost use Rattle.conclave_top.specs.Outside.{folder_at};
ghost use Rattle.conclave_top.specs.Plans.{HasPlanIn, Plans, plans};

use crate::end::{Cause, End, Stop};
use crate::lines::not_built;
use lowering::{CompileFault, Plan, compile, refusal_text};
use outside::{Folder, FolderFault};
use std::alloc::Global;

/// The plan of the query in a file, or how the command ends without one.
pub(crate) fn plan_file<F: Folder>(alloc: Global, query: &str, files: &mut F) -> Result<Plan, End>
    ensures { Reads (refusal (F.files files.old) query.now plans) (HasPlanIn (F.files files.old) query.now)
        (folder_at F.Folder files.old) (folder_at F.Folder files.new) result }
{
    let text = match files.read(query) {
        Ok(text) => text,
        Err(FolderFault::Failed) => return Err(End::Outside),
        Err(FolderFault::Memory) => return Err(End::Memory),
    };
    match plan_of(alloc, &text) {
        Ok(plan) => Ok(plan),
        Err(stop) => Err(stop.end(Cause::Refused)),
    }
}

/// The plan of a text, or the line of its refusal.
fn plan_of(alloc: Global, text: &[u8]) -> Result<Plan, Stop>
    ensures { Plans text.now result }
{
    match compile(alloc, text) {
        Ok(plan) => Ok(plan),
        Err(CompileFault::Refused(refusal)) => {
            Err(Stop::Line(refusal_text(alloc, &refusal, text)?))
        }
        Err(CompileFault::NotBuilt { line }) => Err(Stop::Line(not_built(alloc, line)?)),
        Err(CompileFault::Memory) => Err(Stop::Memory),
    }
}
