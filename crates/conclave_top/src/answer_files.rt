//! The answers of a run, each as a file and a line.

ghost use Rattle.std.specs.Prelude.{◌≡◌, [], ◌∷◌, IfOk, IsTrue, List, OnOk, Some, length, slice_get, true};
ghost use Rattle.std.specs.Str.{IsUtf8};
ghost use Rattle.lanes.specs.Party.{number_of};
ghost use Rattle.lanes.specs.Three.{at, each};
ghost use Rattle.lanes.specs.declared.party.Party.{Party};
ghost use Rattle.plain_meaning.specs.Meaning.{meanings};
ghost use Rattle.plain_meaning.specs.Plain.{rows_of_tables};
ghost use Rattle.query_graph.specs.Parties.{has};
ghost use Rattle.step_lists.specs.Layout.{layout_of, party_of};
ghost use Rattle.step_lists.specs.Rules.{is_party};
ghost use Rattle.step_lists.specs.Shapes.{word_lists};
ghost use Rattle.tables.specs.Content as table;
ghost use Rattle.conclave_top.specs.Added.{AreAnswered, HoldAnswers};
ghost use Rattle.conclave_top.specs.AnswerFiles.{among, answers_at, answers_of, answers_to};

use crate::lines::answer_line;
use crate::party_files::answer_file;
use crate::run_files::Results;
use bags::laws::bags_keep_rows;
use joint_machine::JointRun;
use lanes::{Party, Three};
use lowering::{Plan, answer_table};
use query_graph::{Graph, Node, Output};
use std::alloc::{AllocError, Global};
use tables::{answer_text, answers_of_equal_bags};

/// The slots of all parties behind a run that made all of them.
pub(crate) fn slots_of(
    alloc: Global,
    plan: &Plan,
    run: &JointRun,
) -> Result<Three<Vec<Vec<u64>>>, AllocError>
    requires whole { (p : Party) → length (at p run.now.slots) ≡ length (at p (layout_of plan.now.list).slots) }
    ensures { IfOk result (λ slots. each word_lists slots ≡ run.now.slots) }
{
    Ok(Three {
        first: party_slots(alloc, plan, run, 1)?,
        second: party_slots(alloc, plan, run, 2)?,
        third: party_slots(alloc, plan, run, 3)?,
    })
}

/// The slots of a party behind a run that made all of them.
fn party_slots(
    alloc: Global,
    plan: &Plan,
    run: &JointRun,
    party: u8,
) -> Result<Vec<Vec<u64>>, AllocError>
    requires party { IsTrue (is_party party) }
    requires whole { length (at (party_of party) run.now.slots) ≡ length (at (party_of party) (layout_of plan.now.list).slots) }
    ensures { IfOk result (λ slots. word_lists slots ≡ at (party_of party) run.now.slots) }
{
    let mut slots = Vec::new(alloc);
    for number in 0..plan.list().slots(party) {
        let Some(words) = run.slot(party, number) else {
            unreachable!();
        };
        slots.push(Vec::from_slice(alloc, words)?)?;
    }
    Ok(slots)
}

/// Adds the answers of all outputs, each to each of its recipients, by the slots of all parties.
pub(crate) fn add_answers(
    alloc: Global,
    plan: &Plan,
    slots: &Three<Vec<Vec<u64>>>,
    results: &mut Results,
) -> Result<(), AllocError>
    ensures { OnOk result ((tables : List table.Content) → HoldAnswers plan.now tables (each word_lists slots.now)
        → AreAnswered (answers_of plan.now.graph tables) results.old results.new) }
{
    for (number, output) in plan.graph().outputs().iter().enumerate() {
        let Ok(number) = u32::try_from(number) else {
            return Err(AllocError);
        };
        add_output(alloc, plan, number, output, slots, results)?;
    }
    Ok(())
}

/// Adds the answers of an output.
fn add_output(
    alloc: Global,
    plan: &Plan,
    number: u32,
    output: &Output,
    slots: &Three<Vec<Vec<u64>>>,
    results: &mut Results,
) -> Result<(), AllocError>
    requires { slice_get plan.now.graph.outputs number ≡ Some output.now }
    ensures { OnOk result ((tables : List table.Content) → HoldAnswers plan.now tables (each word_lists slots.now)
        → AreAnswered (answers_to plan.now.graph.nodes (meanings plan.now.graph.nodes (rows_of_tables tables)) output.now) results.old results.new) }
{
    add_if_to(alloc, plan, number, output, Party::First, slots, results)?;
    add_if_to(alloc, plan, number, output, Party::Second, slots, results)?;
    add_if_to(alloc, plan, number, output, Party::Third, slots, results)?;
    Ok(())
}

/// Adds the answer of an output to a party, if it is a recipient.
fn add_if_to(
    alloc: Global,
    plan: &Plan,
    number: u32,
    output: &Output,
    party: Party,
    slots: &Three<Vec<Vec<u64>>>,
    results: &mut Results,
) -> Result<(), AllocError>
    requires { slice_get plan.now.graph.outputs number ≡ Some output.now }
    ensures { OnOk result ((tables : List table.Content) → HoldAnswers plan.now tables (each word_lists slots.now)
        → AreAnswered (answers_at (meanings plan.now.graph.nodes (rows_of_tables tables)) (among output.now.recipients (party ∷ [])) output.now.node (slice_get plan.now.graph.nodes output.now.node)) results.old results.new) }
{
    if !output.recipients.contains(party.number()) {
        return Ok(());
    }
    add_answer(alloc, plan, number, output, party, slots, results)?;
    Ok(())
}

/// Adds the answer of an output to a recipient.
fn add_answer(
    alloc: Global,
    plan: &Plan,
    number: u32,
    output: &Output,
    party: Party,
    slots: &Three<Vec<Vec<u64>>>,
    results: &mut Results,
) -> Result<(), AllocError>
    requires output { slice_get plan.now.graph.outputs number ≡ Some output.now }
    requires recipient { has output.now.recipients (number_of party) ≡ true }
    ensures { OnOk result ((tables : List table.Content) → HoldAnswers plan.now tables (each word_lists slots.now)
        → AreAnswered (answers_at (meanings plan.now.graph.nodes (rows_of_tables tables)) (party ∷ []) output.now.node (slice_get plan.now.graph.nodes output.now.node)) results.old results.new) }
{
    // Laws: tables with equal bags of rows have one text, and equal bags as many rows.
    answers_of_equal_bags();
    bags_keep_rows();
    let node = node_of(plan.graph(), number, output);
    let file = answer_file(alloc, node, party)?;
    let table = answer_table(alloc, plan, number, party.number(), slots.at(party))?;
    let line = answer_line(alloc, &file, table.rows())?;
    let text = answer_text(alloc, &table)?;
    results.output.extend_from_slice(&line)?;
    results.writes.push((file, text))?;
    Ok(())
}

/// The node of an output of a graph. Its name is a text.
fn node_of<'a>(graph: &'a Graph, number: u32, output: &Output) -> &'a Node
    requires { slice_get graph.now.outputs number ≡ Some output.now }
    ensures node { slice_get graph.now.nodes output.now.node ≡ Some result.now }
    ensures name { IsUtf8 result.now.name }
{
    // The contract of a graph's outputs says that each is one of its nodes.
    let _ = graph.outputs();
    &graph.nodes()[output.node as usize]
}
