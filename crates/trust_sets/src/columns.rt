//! Lists of the sets of a node's columns.
#![tactic(auto)]

ghost use Rattle.std.specs.Prelude.{◌≡◌, ◌++◌, map, IfOk, OnOk};
ghost use Rattle.std.specs.List.{zip};
ghost use Rattle.query_graph.specs.Parties.{common_parties, with_party};
ghost use Rattle.query_text.specs.Parties.{IsParty};
ghost use Rattle.trust_sets.specs.Known as known;

use crate::known::Known;
use plain_operators::is_key;
use query_graph::{Aggregate, Item, Parties};
use std::alloc::{AllocError, Global};

// The owner of a relation added to each set.
pub(crate) fn with_owner(
    alloc: Global,
    owner: u8,
    trusted: &[Parties],
) -> Result<Vec<Parties>, AllocError>
    requires { IsParty owner }
    ensures { IfOk result (λ sets. sets.items ≡ map (λ set. with_party set owner) trusted.now) }
{
    trusted.iter().map(|set| set.with(owner)).collect(alloc)
}

// Each set met with this one.
pub(crate) fn narrowed(
    alloc: Global,
    columns: &[Parties],
    rows: Parties,
) -> Result<Vec<Parties>, AllocError>
    ensures { IfOk result (λ sets. sets.items ≡ map (λ set. common_parties set rows) columns.now) }
{
    columns.iter().map(|set| set.meet(rows)).collect(alloc)
}

// The sets of two lists met one by one.
pub(crate) fn met(alloc: Global, a: &[Parties], b: &[Parties]) -> Result<Vec<Parties>, AllocError>
    ensures { IfOk result (λ sets. sets.items ≡ map (λ pair. common_parties pair.0 pair.1) (zip a.now b.now)) }
{
    a.iter()
        .zip(b.iter())
        .map(|(one, other)| one.meet(*other))
        .collect(alloc)
}

// The set once for each item of a list.
pub(crate) fn same_for_each<T>(
    alloc: Global,
    set: Parties,
    items: &[T],
) -> Result<Vec<Parties>, AllocError>
    ensures { IfOk result (λ sets. sets.items ≡ map (λ item. set) items.now) }
{
    let mut sets = Vec::new(alloc);
    for _item in items {
        sets.push(set)?;
    }
    Ok(sets)
}

// The sets of the items of a select.
pub(crate) fn item_sets(
    alloc: Global,
    source: &Known,
    items: &[Item],
) -> Result<Vec<Parties>, AllocError>
    ensures { IfOk result (λ sets. sets.items ≡ map (known.item_set source.now) items.now) }
{
    items
        .iter()
        .map(|item| source.item_set(*item))
        .collect(alloc)
}

// Adds the sets of the aggregates of a group whose rows these may know.
pub(crate) fn add_aggregates(
    source: &Known,
    rows: Parties,
    aggregates: &[Aggregate],
    sets: &mut Vec<Parties>,
) -> Result<(), AllocError>
    ensures { OnOk result (sets.new.items ≡ sets.old.items ++ map (known.aggregate_set source.now rows) aggregates.now) }
{
    for aggregate in aggregates {
        sets.push(source.aggregate_set(rows, *aggregate))?;
    }
    Ok(())
}

// Adds the sets of the columns that aren't keys, each met with that of the rows.
pub(crate) fn add_others(
    source: &Known,
    keys: &[u32],
    rows: Parties,
    sets: &mut Vec<Parties>,
) -> Result<(), AllocError>
    ensures { OnOk result (sets.new.items ≡ sets.old.items ++ known.other_sets source.now keys.now rows) }
{
    for (column, set) in source.columns.as_slice().iter().enumerate() {
        if !is_key(keys, column) {
            sets.push(rows.meet(*set))?;
        }
    }
    Ok(())
}
