//! From a text to its plan.

ghost use Rattle.lowering.specs.Compiled.{Compiles};

use crate::accept::accept;
use crate::fault::CompileFault;
use crate::laws::showing_answers_isolates;
use crate::lower::lower;
use crate::plan::Plan;
use crate::unbuilt::unbuilt;
use std::alloc::Global;

/// The plan of a query's text, or the first rule that it breaks: the text is no query; a statement breaks a rule of graphs;
/// one asks for more than trust or release allows. Then what isn't carried out yet: the first line on which a bound or a
/// party is written, or line 0 where all nodes and outputs on shares would take more than 8,388,608 AND words.
///
/// The idea of a compiler from trust annotations is after Volgushev et al. (2019); the list is this project's own.
pub fn compile(alloc: Global, text: &[u8]) -> Result<Plan, CompileFault>
    ensures { Compiles text.now result }
{
    // Laws: padded rows are so many columns of so many words; a plan that shows no more than the answers is isolated.
    padded::laws::padded_fits();
    showing_answers_isolates();
    let accepted = accept(alloc, text)?;
    if let Some(line) = unbuilt(&accepted.graph) {
        return Err(CompileFault::NotBuilt { line });
    }
    let lowered = lower(alloc, &accepted.graph)?;
    // Its contract says that the list is well-formed.
    let _ = lowered.list.steps();
    let text = Vec::from_slice(alloc, text)?;
    Ok(Plan::new(
        text,
        accepted.graph,
        accepted.trust,
        lowered.list,
        lowered.ends,
        lowered.answers,
    ))
}
