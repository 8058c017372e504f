//! The text of a plan: a line for each node of a graph, one for each output, and the sum of their AND words.
#![tactic(auto)]

ghost use Rattle.std.specs.Prelude.{◌≡◌, ◌<◌, ◌≤◌, ◌^◌, ◌++◌, Ok, IfOk, OnOk, length};
ghost use Rattle.std.specs.Fmt.{decimal};
ghost use Rattle.std.specs.List.{flat_map};
ghost use Rattle.trust_sets.specs.Known.{known_at};
ghost use Rattle.rewrites.specs.Rewritten.{rewritten_of};
ghost use Rattle.places.specs.Cost.{AreSmall};
ghost use Rattle.places.specs.Places.{checked};
ghost use Rattle.places.specs.PlanText as spec;

use crate::place::Place;
use crate::places::Places;
use crate::total::output_words;
use query_graph::{Flag, Graph, Node, Operator, Output, Parties};
use rewrites::{Part, PartPlace, Rewritten, nodes_have_parts};
use std::alloc::{AllocError, Global};
use trust_sets::Trust;
use words::Column;

/// The text of a plan, of places that `check_places` gave for this graph, trust and rewriting. The line of a node has its
/// name, its statement's word and its declared rows; where it is worked, the parties that count its bound on parts, and
/// its AND words; who may know its rows, and each of its columns. The line of an output has the name of its node, its
/// recipients, the node's rows and the AND words of the opening.
pub fn plan_text(
    alloc: Global,
    graph: &Graph,
    trust: &Trust,
    rewritten: &Rewritten,
    places: &Places,
) -> Result<Vec<u8>, AllocError>
    requires made { rewritten.now ≡ rewritten_of graph.now }
    requires places { checked graph.now trust.now.known rewritten.now ≡ Ok places.now }
    ensures { IfOk result (λ text. text.items ≡ spec.plan_text graph.now trust.now.known rewritten.now places.now) }
{
    nodes_have_parts();
    let _nodes = graph.nodes();
    let mut text = Vec::new(alloc);
    add_nodes(alloc, graph, trust, rewritten, places, &mut text)?;
    add_outputs(alloc, graph, rewritten, &mut text)?;
    let total = places.total();
    let last = format!(in alloc; "total and {total}\n")?;
    text.extend_from_slice(last.as_bytes())?;
    Ok(text)
}

// Adds the line of each node.
fn add_nodes(
    alloc: Global,
    graph: &Graph,
    trust: &Trust,
    rewritten: &Rewritten,
    places: &Places,
    text: &mut Vec<u8>,
) -> Result<(), AllocError>
    requires parts { length rewritten.now.parts ≡ length graph.now.nodes }
    requires places { length places.now.places ≡ length graph.now.nodes }
    requires words { length places.now.words ≡ length graph.now.nodes }
    ensures { OnOk result (text.new.items ≡ text.old.items ++ spec.node_lines trust.now.known rewritten.now places.now 0 graph.now.nodes) }
{
    for (number, node) in graph.nodes().iter().enumerate() {
        let at = number as u32;
        add_node(alloc, at, node, trust, rewritten, places, text)?;
    }
    Ok(())
}

// Adds the line of the node with this number.
fn add_node(
    alloc: Global,
    number: u32,
    node: &Node,
    trust: &Trust,
    rewritten: &Rewritten,
    places: &Places,
    text: &mut Vec<u8>,
) -> Result<(), AllocError>
    requires parts { number < length rewritten.now.parts }
    requires places { number < length places.now.places }
    requires words { number < length places.now.words }
    requires columns { length node.now.columns < 2 ^ 32 }
    ensures { OnOk result (text.new.items ≡ text.old.items ++ spec.node_line trust.now.known rewritten.now places.now number node.now) }
{
    add_name(alloc, node, text)?;
    add_work(alloc, number, &node.shape, rewritten, places, text)?;
    add_known(node.columns.as_slice(), number, trust, text)?;
    text.push(b'\n')?;
    Ok(())
}

// Adds a node's name, its statement's word and its declared rows.
fn add_name(alloc: Global, node: &Node, text: &mut Vec<u8>) -> Result<(), AllocError>
    ensures { OnOk result (text.new.items ≡ text.old.items ++ spec.name_text node.now) }
{
    let word = operator_word(&node.shape);
    let rows = node.rows;
    let behind = format!(in alloc; " {word} rows {rows}")?;
    text.extend_from_slice(node.name.bytes())?;
    text.extend_from_slice(behind.as_bytes())
}

// Adds the place of the node with this number, who counts its parts, and its AND words.
fn add_work(
    alloc: Global,
    number: u32,
    shape: &Operator,
    rewritten: &Rewritten,
    places: &Places,
    text: &mut Vec<u8>,
) -> Result<(), AllocError>
    requires parts { number < length rewritten.now.parts }
    requires places { number < length places.now.places }
    requires words { number < length places.now.words }
    ensures { OnOk result (text.new.items ≡ text.old.items ++ spec.work_text rewritten.now places.now number shape.now) }
{
    let words = places.and_words(number);
    let behind = format!(in alloc; " and {words}")?;
    text.extend_from_slice(b" place ")?;
    let parts = rewritten.parts(number).as_slice();
    add_place(alloc, parts, places.place_of(number), text)?;
    add_counters(
        alloc,
        number,
        shape.parts_at_most(),
        places.flags().as_slice(),
        text,
    )?;
    text.extend_from_slice(behind.as_bytes())
}

// Adds where a node with these parts is worked.
fn add_place(
    alloc: Global,
    parts: &[Part],
    place: Place,
    text: &mut Vec<u8>,
) -> Result<(), AllocError>
    ensures { OnOk result (text.new.items ≡ text.old.items ++ spec.place_text parts.now place) }
{
    match place {
        Place::Clear(party) => add_party(alloc, "clear ", party, text),
        Place::Hybrid(party) => add_party(alloc, "hybrid ", party, text),
        Place::Shared => text.extend_from_slice(b"shared"),
        Place::Up => text.extend_from_slice(b"up"),
        Place::Split => add_parts(alloc, parts, text),
    }
}

// Adds a party behind a word.
fn add_party(alloc: Global, word: &str, party: u8, text: &mut Vec<u8>) -> Result<(), AllocError>
    ensures { OnOk result (text.new.items ≡ text.old.items ++ (word.now ++ decimal party)) }
{
    let words = format!(in alloc; "{word}{party}")?;
    text.extend_from_slice(words.as_bytes())
}

// Adds where each of several parts lies.
fn add_parts(alloc: Global, parts: &[Part], text: &mut Vec<u8>) -> Result<(), AllocError>
    ensures { OnOk result (text.new.items ≡ text.old.items ++ spec.split_text parts.now) }
{
    text.extend_from_slice(b"split")?;
    for part in parts {
        add_part(alloc, part.place, text)?;
    }
    Ok(())
}

fn add_part(alloc: Global, place: PartPlace, text: &mut Vec<u8>) -> Result<(), AllocError>
    ensures { OnOk result (text.new.items ≡ text.old.items ++ spec.part_text place) }
{
    match place {
        PartPlace::Clear(party) => add_party(alloc, " ", party, text),
        PartPlace::Joint => text.extend_from_slice(b" s"),
    }
}

// Adds the parties that count a bound on parts of the node with this number, if it has one.
fn add_counters(
    alloc: Global,
    number: u32,
    bound: Option<u32>,
    flags: &[Flag],
    text: &mut Vec<u8>,
) -> Result<(), AllocError>
    ensures { OnOk result (text.new.items ≡ text.old.items ++ spec.counters_text number bound flags.now) }
{
    if bound.is_none() {
        return Ok(());
    }
    text.extend_from_slice(b" parts")?;
    for flag in flags {
        add_counter(alloc, number, *flag, text)?;
    }
    Ok(())
}

// Adds the party of a flag, where that is of parts of the node with this number.
fn add_counter(alloc: Global, number: u32, flag: Flag, text: &mut Vec<u8>) -> Result<(), AllocError>
    ensures { OnOk result (text.new.items ≡ text.old.items ++ spec.counter_text number flag) }
{
    if flag.of_parts && flag.node == number {
        add_party(alloc, " ", flag.party, text)?;
    }
    Ok(())
}

// Adds who may know the rows of the node with this number, and each of its columns.
fn add_known(
    columns: &[Column],
    number: u32,
    trust: &Trust,
    text: &mut Vec<u8>,
) -> Result<(), AllocError>
    requires { length columns.now < 2 ^ 32 }
    ensures { OnOk result (text.new.items ≡ text.old.items ++ spec.known_text (known_at trust.now.known number) columns.now) }
{
    text.extend_from_slice(b" know ")?;
    text.extend_from_slice(set_text(trust.rows_of(number)).as_bytes())?;
    for (place, column) in columns.iter().enumerate() {
        let set = trust.trust_of(number, place as u32);
        add_column(column, set, text)?;
    }
    Ok(())
}

// Adds a column that these may know.
fn add_column(column: &Column, set: Parties, text: &mut Vec<u8>) -> Result<(), AllocError>
    ensures { OnOk result (text.new.items ≡ text.old.items ++ spec.column_text column.now set) }
{
    text.push(b' ')?;
    text.extend_from_slice(column.name.bytes())?;
    text.push(b' ')?;
    text.extend_from_slice(set_text(set).as_bytes())
}

// Adds the line of each output.
fn add_outputs(
    alloc: Global,
    graph: &Graph,
    rewritten: &Rewritten,
    text: &mut Vec<u8>,
) -> Result<(), AllocError>
    requires made { rewritten.now ≡ rewritten_of graph.now }
    requires small { AreSmall graph.now.nodes }
    ensures { OnOk result (text.new.items ≡ text.old.items ++ flat_map (spec.output_line graph.now rewritten.now) graph.now.outputs) }
{
    for output in graph.outputs() {
        add_output(alloc, graph, rewritten, output, text)?;
    }
    Ok(())
}

// Adds the line of an output.
fn add_output(
    alloc: Global,
    graph: &Graph,
    rewritten: &Rewritten,
    output: &Output,
    text: &mut Vec<u8>,
) -> Result<(), AllocError>
    requires made { rewritten.now ≡ rewritten_of graph.now }
    requires small { AreSmall graph.now.nodes }
    requires node { output.now.node < length graph.now.nodes }
    ensures { OnOk result (text.new.items ≡ text.old.items ++ spec.output_line graph.now rewritten.now output.now) }
{
    let words = output_words(graph, rewritten, output) as u64;
    match graph.nodes().get(output.node as usize) {
        Some(node) => add_recipients(alloc, node, output.recipients, words, text),
        None => Ok(()),
    }
}

// Adds the line of an output of this node.
fn add_recipients(
    alloc: Global,
    node: &Node,
    recipients: Parties,
    words: u64,
    text: &mut Vec<u8>,
) -> Result<(), AllocError>
    ensures { OnOk result (text.new.items ≡ text.old.items ++ spec.recipients_line recipients words node.now) }
{
    let set = set_text(recipients);
    let rows = node.rows;
    let behind = format!(in alloc; " to {set} rows {rows} and {words}\n")?;
    text.extend_from_slice(b"output ")?;
    text.extend_from_slice(node.name.bytes())?;
    text.extend_from_slice(behind.as_bytes())
}

// The word of a node's statement.
fn operator_word(shape: &Operator) -> &'static str
    ensures { result.now ≡ spec.operator_word shape.now }
{
    match shape {
        Operator::Relation(_) => "relation",
        Operator::Filter(_) => "filter",
        Operator::Select(_) => "select",
        Operator::Concat(_) => "concat",
        Operator::Join(_) => "join",
        Operator::Group(_) => "group",
        Operator::Distinct(_) => "distinct",
    }
}

// The digits of a set's parties in rising order, or a dash where it has none.
fn set_text(set: Parties) -> &'static str
    ensures { result.now ≡ spec.set_text set }
{
    match (set.contains(1), set.contains(2), set.contains(3)) {
        (false, false, false) => "-",
        (true, false, false) => "1",
        (false, true, false) => "2",
        (false, false, true) => "3",
        (true, true, false) => "12",
        (true, false, true) => "13",
        (false, true, true) => "23",
        (true, true, true) => "123",
    }
}
