//! The lines of what isn't built, of faults of files, of worlds that don't agree, and of answers.

ghost use Rattle.std.specs.Prelude.{◌≡◌, IfOk, string_bytes};
ghost use Rattle.conclave_top.specs.Lines.{answer_line, disagree_line, file_line, not_built, tape_fault, tape_line, twin_lines};

use lowering::lines::{around, name_of};
use query_graph::Node;
use std::alloc::{AllocError, Global};
use tables::{TableFault, fault_text};
use tapes::TapeFault;
use trust_sets::Differs;
use words::Column;

/// The line of a statement that no command carries out yet.
pub(crate) fn not_built(alloc: Global, line: u32) -> Result<Vec<u8>, AllocError>
    ensures { IfOk result (λ bytes. bytes.items ≡ not_built line) }
{
    let text = format!(in alloc; "refused: not built line {line}\n")?;
    Ok(text.into_bytes())
}

/// The line of a file that is no table of a declaration of these columns.
pub(crate) fn file_line(
    alloc: Global,
    file: &str,
    columns: &[Column],
    fault: TableFault,
) -> Result<Vec<u8>, AllocError>
    ensures { IfOk result (λ bytes. bytes.items ≡ file_line file.now columns.now fault) }
{
    let before = format!(in alloc; "file {file}: ")?;
    let text = fault_text(alloc, fault, columns)?;
    around(alloc, &before, &text, "\n")
}

/// The line of a file that is no tape for a plan.
pub(crate) fn tape_line(alloc: Global, file: &str, fault: TapeFault) -> Result<Vec<u8>, AllocError>
    ensures { IfOk result (λ bytes. bytes.items ≡ tape_line file.now fault) }
{
    let fault = tape_fault(alloc, fault)?;
    let text = format!(in alloc; "tape {file}: {fault}\n")?;
    Ok(text.into_bytes())
}

/// What is wrong with a tape, and at which draw. For want of memory, which is no fault of it, it is empty.
fn tape_fault(alloc: Global, fault: TapeFault) -> Result<String, AllocError>
    ensures { IfOk result (λ text. string_bytes text ≡ tape_fault fault) }
{
    match fault {
        TapeFault::Short { at } => format!(in alloc; "short at {at}"),
        TapeFault::Long { at } => format!(in alloc; "long at {at}"),
        TapeFault::NotOrder { at } => format!(in alloc; "not an order at {at}"),
        TapeFault::Memory => Ok(String::new(alloc)),
    }
}

/// The line of an answer that is written to a file.
pub(crate) fn answer_line(alloc: Global, file: &str, rows: usize) -> Result<Vec<u8>, AllocError>
    ensures { IfOk result (λ bytes. bytes.items ≡ answer_line file.now rows) }
{
    let text = format!(in alloc; "{file} {rows} rows\n")?;
    Ok(text.into_bytes())
}

/// The line of two worlds that don't agree for a party.
pub(crate) fn disagree_line(
    alloc: Global,
    nodes: &[Node],
    differs: Differs,
) -> Result<Vec<u8>, AllocError>
    ensures { IfOk result (λ bytes. bytes.items ≡ disagree_line nodes.now differs) }
{
    match differs {
        Differs::OwnFile { relation } => {
            around(alloc, "disagree: own file ", name_of(nodes, relation), "\n")
        }
        Differs::Trusted { relation } => {
            around(
                alloc,
                "disagree: trusted part of ",
                name_of(nodes, relation),
                "\n",
            )
        }
        Differs::Excess { .. } => around(alloc, "disagree: excess", &[], "\n"),
        Differs::Answer { output } => {
            around(alloc, "disagree: answer ", name_of(nodes, output), "\n")
        }
    }
}

/// The lines of a twin that is written to a file, and of the number of words of a view.
pub(crate) fn twin_lines(alloc: Global, file: &str, words: usize) -> Result<Vec<u8>, AllocError>
    ensures { IfOk result (λ bytes. bytes.items ≡ twin_lines file.now words) }
{
    let text = format!(in alloc; "twin {file}\nequal {words} words\n")?;
    Ok(text.into_bytes())
}
