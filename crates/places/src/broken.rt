//! The first bound that a world breaks.
#![tactic(auto)]

ghost use Rattle.std.specs.Prelude.{◌≡◌, ◌<◌, ◌≤◌, ℕ, List, Ok, None, false, length, slice_get, IfOk, IfNone, IfSome};
ghost use Rattle.std.specs.Option.{option_map_or};
ghost use Rattle.query_graph.specs.declared.operator.Operator.TheVariants as operators;
ghost use Rattle.query_graph.specs.Observers.{parts_at_most_of};
ghost use Rattle.listed.specs.Lists.{lent};
ghost use Rattle.plain_operators.specs.Operators.{key_lists};
ghost use Rattle.plain_operators.specs.Within.{AreAggregatesOf, EachFits, HasColumns};
ghost use Rattle.plain_meaning.specs.Columns.{columns_at};
ghost use Rattle.plain_meaning.specs.Fits.{IsWorldOf};
ghost use Rattle.plain_meaning.specs.Plain.{IsPlain, is_over, rows_of_tables};
ghost use Rattle.rewrites.specs.Rewritten.{rewritten_of};
ghost use Rattle.trust_sets.specs.Known.{known_nodes};
ghost use Rattle.places.specs.Excess as spec;
ghost use Rattle.places.specs.Excess.{ArePlain, first_excess, party_keys, party_rows};
ghost use Rattle.places.specs.Places.{checked};

use crate::party_rows::party_table;
use crate::places::Places;
use plain_meaning::{PlainRows, World, plain};
use plain_operators::{Aggregate, grouped_rows};
use query_graph::{Flag, Graph, Group, Operator};
use rewrites::Rewritten;
use std::alloc::{AllocError, Global};

// How many groups there are, whatever is gathered of each.
fn group_count(
    alloc: Global,
    keys: &[u32],
    aggregates: &[Aggregate],
    rows: &[&[u64]],
) -> Result<usize, AllocError>
    requires of_keys { EachFits (HasColumns keys.now) rows.now }
    requires of_aggregates { EachFits (AreAggregatesOf aggregates.now) rows.now }
    ensures { IfOk result (λ count. count ≡ length (key_lists keys.now (lent rows.now))) }
{
    let groups = grouped_rows(alloc, keys, aggregates, rows, None)?;
    Ok(groups.len())
}

// How many key lists occur in a party's parts of the source of a group.
fn key_count(
    alloc: Global,
    graph: &Graph,
    rewritten: &Rewritten,
    rows: &PlainRows,
    group: &Group,
    party: u8,
) -> Result<usize, AllocError>
    requires made { rewritten.now ≡ rewritten_of graph.now }
    requires rows { ArePlain graph.now.nodes rows.now.tables rows.now.over }
    requires source { group.now.source < length rows.now.tables }
    requires keys { HasColumns group.now.keys (length (columns_at graph.now.nodes group.now.source)) }
    ensures { (world : List (List (List ℕ))) → IsPlain graph.now.nodes world rows.now.tables rows.now.over
        → IfOk result (λ count. count ≡ length (key_lists group.now.keys (party_rows graph.now world group.now.source party))) }
{
    let table = party_table(alloc, graph, rewritten, rows, group.source, party)?;
    let lent = table.lent_rows(alloc)?;
    group_count(alloc, group.keys.as_slice(), &[], &lent)
}

// Whether there are more than a bound lets through.
fn is_over(bound: Option<u32>, count: usize) -> bool
    ensures { (rows : List (List ℕ)) → count ≡ length rows → result ≡ is_over bound rows }
{
    match bound {
        None => false,
        Some(bound) => (bound as usize) < count,
    }
}

// The group that an operator is, if it is one.
fn group_of(shape: &Operator) -> Option<&Group>
    ensures group { IfSome result (λ group. shape.now ≡ operators.Group group.now) }
    ensures other { IfNone result (parts_at_most_of shape.now ≡ None) }
{
    match shape {
        Operator::Group(group) => Some(group),
        Operator::Relation(_)
        | Operator::Filter(_)
        | Operator::Select(_)
        | Operator::Concat(_)
        | Operator::Join(_)
        | Operator::Distinct(_) => None,
    }
}

// Whether a party has more key lists in its parts than the bound of the flag's node lets through.
fn has_many_keys(
    alloc: Global,
    graph: &Graph,
    rewritten: &Rewritten,
    rows: &PlainRows,
    flag: Flag,
) -> Result<bool, AllocError>
    requires made { rewritten.now ≡ rewritten_of graph.now }
    requires rows { ArePlain graph.now.nodes rows.now.tables rows.now.over }
    requires node { flag.node < length graph.now.nodes }
    requires reached { flag.node ≤ length rows.now.tables }
    ensures { (world : List (List (List ℕ))) → IsPlain graph.now.nodes world rows.now.tables rows.now.over
        → IfOk result (λ many. many ≡ option_map_or (λ n. is_over (parts_at_most_of n.shape) (party_keys graph.now world n.shape flag.party)) (slice_get graph.now.nodes flag.node) false) }
{
    let found = &graph.nodes()[flag.node as usize];
    match group_of(&found.shape) {
        Some(group) => {
            let count = key_count(alloc, graph, rewritten, rows, group, flag.party)?;
            Ok(is_over(group.parts_at_most, count))
        }
        None => Ok(false),
    }
}

// Whether a flag's count is above its bound, where there are tables up to its node.
fn is_broken(
    alloc: Global,
    graph: &Graph,
    rewritten: &Rewritten,
    rows: &PlainRows,
    flag: Flag,
) -> Result<bool, AllocError>
    requires made { rewritten.now ≡ rewritten_of graph.now }
    requires rows { ArePlain graph.now.nodes rows.now.tables rows.now.over }
    requires node { flag.node < length graph.now.nodes }
    requires reached { flag.node ≤ length rows.now.tables }
    ensures { (world : List (List (List ℕ))) → IsPlain graph.now.nodes world rows.now.tables rows.now.over
        → IfOk result (λ broken. broken ≡ spec.is_broken graph.now world flag) }
{
    let _nodes = graph.nodes();
    if flag.of_parts {
        return has_many_keys(alloc, graph, rewritten, rows, flag);
    }
    match rows.over {
        Some(over) => Ok(over == flag.node),
        None => Ok(false),
    }
}

/// The first flag whose count in this world is above its bound, in the order of the flags; none exactly where no count
/// is. What a flag of parts counts are the lists of keys that occur in one of the party's parts of the source, each once;
/// what any other counts are the rows of its node.
///
/// The places are those of the graph. Takes the memory of the tables of all nodes.
pub fn excess(
    alloc: Global,
    graph: &Graph,
    rewritten: &Rewritten,
    places: &Places,
    world: &World,
) -> Result<Option<Flag>, AllocError>
    requires made { rewritten.now ≡ rewritten_of graph.now }
    requires checked { checked graph.now (known_nodes graph.now.nodes) rewritten.now ≡ Ok places.now }
    requires world { IsWorldOf graph.now.nodes (rows_of_tables world.now) }
    ensures { IfOk result (λ excess. excess ≡ first_excess graph.now (rows_of_tables world.now) places.now.flags) }
{
    let rows = plain(alloc, graph, world)?;
    for flag in places.flags() {
        if is_broken(alloc, graph, rewritten, &rows, *flag)? {
            return Ok(Some(*flag));
        }
    }
    Ok(None)
}
