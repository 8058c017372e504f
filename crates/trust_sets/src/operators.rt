//! Who may know each operator's rows and columns.
#![tactic(auto)]

ghost use Rattle.std.specs.Prelude.{◌≡◌, map, IfOk};
ghost use Rattle.query_graph.specs.Parties.{no_party, united_parties};
ghost use Rattle.query_text.specs.Parties.{IsParty};
ghost use Rattle.std.specs.List.{fold};
ghost use Rattle.trust_sets.specs.Known as known;

use crate::columns::{
    add_aggregates, add_others, item_sets, met, narrowed, same_for_each, with_owner,
};
use crate::known::Known;
use listed::Listed;
use plain_operators::{left_keys, right_keys};
use query_graph::{Group, Parties, Relation, Select, Test};
use std::alloc::{AllocError, Global};

fn known(rows: Parties, columns: Vec<Parties>) -> Known
    ensures { result ≡ record { rows = rows; columns = columns.items } }
{
    Known {
        rows,
        columns: Listed::from_vec(columns),
    }
}

pub(crate) fn known_relation(alloc: Global, relation: &Relation) -> Result<Known, AllocError>
    requires { IsParty relation.now.owner }
    ensures { IfOk result (λ made. made ≡ known.known_relation relation.now) }
{
    let columns = with_owner(alloc, relation.owner, relation.trusted.as_slice())?;
    let rows = united(&columns);
    Ok(known(rows, columns))
}

// The parties that one of the sets has.
fn united(sets: &[Parties]) -> Parties
    ensures { result ≡ fold united_parties no_party sets.now }
{
    let mut parties = Parties::none();
    for set in sets {
        parties = parties.either(*set);
    }
    parties
}

pub(crate) fn known_filter(
    alloc: Global,
    source: &Known,
    tests: &[Test],
) -> Result<Known, AllocError>
    ensures { IfOk result (λ made. made ≡ known.known_filter source.now tests.now) }
{
    let rows = source.tested_set(tests);
    let columns = narrowed(alloc, source.columns.as_slice(), rows)?;
    Ok(known(rows, columns))
}

pub(crate) fn known_select(
    alloc: Global,
    source: &Known,
    select: &Select,
) -> Result<Known, AllocError>
    ensures { IfOk result (λ made. made ≡ known.known_select source.now select.now.items) }
{
    let columns = item_sets(alloc, source, select.items.as_slice())?;
    Ok(known(source.rows, columns))
}

pub(crate) fn known_join(
    alloc: Global,
    left: &Known,
    right: &Known,
    keys: &[(u32, u32)],
) -> Result<Known, AllocError>
    ensures { IfOk result (λ made. made ≡ known.known_join left.now right.now keys.now) }
{
    let rows = left.joined_set(right, keys);
    let left_keys = left_keys(alloc, keys)?;
    let right_keys = right_keys(alloc, keys)?;
    let mut columns = same_for_each(alloc, rows, keys)?;
    add_others(left, &left_keys, rows, &mut columns)?;
    add_others(right, &right_keys, rows, &mut columns)?;
    Ok(known(rows, columns))
}

pub(crate) fn known_group(alloc: Global, source: &Known, group: &Group) -> Result<Known, AllocError>
    ensures { IfOk result (λ made. made ≡ known.known_group source.now group.now.keys group.now.aggregates) }
{
    let keys = group.keys.as_slice();
    let rows = source.grouped_set(keys);
    let mut columns = same_for_each(alloc, rows, keys)?;
    add_aggregates(source, rows, group.aggregates.as_slice(), &mut columns)?;
    Ok(known(rows, columns))
}

pub(crate) fn known_distinct(alloc: Global, source: &Known) -> Result<Known, AllocError>
    ensures { IfOk result (λ made. made ≡ known.known_distinct source.now) }
{
    let rows = source.distinct_set();
    let columns = same_for_each(alloc, rows, source.columns.as_slice())?;
    Ok(known(rows, columns))
}

// What nobody knows, of no column.
pub(crate) fn nobody(alloc: Global) -> Known
    ensures { result ≡ known.nobody }
{
    known(Parties::none(), Vec::new(alloc))
}

// The node with this number.
pub(crate) fn known_at<'a>(earlier: &'a [Known], nobody: &'a Known, number: u32) -> &'a Known
    requires { nobody.now ≡ known.nobody }
    ensures { result.now ≡ known.known_at earlier.now number }
{
    match earlier.get(number as usize) {
        Some(known) => known,
        None => nobody,
    }
}

// The first source of a concat, and the others met with it.
pub(crate) fn known_concat(
    alloc: Global,
    earlier: &[Known],
    nobody: &Known,
    sources: &[u32],
) -> Result<Known, AllocError>
    requires { nobody.now ≡ known.nobody }
    ensures { IfOk result (λ made. made ≡ known.known_concat (map (known.known_at earlier.now) sources.now)) }
{
    match sources {
        [] => copy_of(alloc, nobody),
        [first, rest @ ..] => met_with_others(alloc, earlier, nobody, *first, rest),
    }
}

fn met_with_others(
    alloc: Global,
    earlier: &[Known],
    nobody: &Known,
    first: u32,
    others: &[u32],
) -> Result<Known, AllocError>
    requires { nobody.now ≡ known.nobody }
    ensures { IfOk result (λ made. made ≡ fold known.known_of_both (known.known_at earlier.now first) (map (known.known_at earlier.now) others.now)) }
{
    let mut made = copy_of(alloc, known_at(earlier, nobody, first))?;
    for other in others {
        made = known_of_both(alloc, &made, known_at(earlier, nobody, *other))?;
    }
    Ok(made)
}

fn copy_of(alloc: Global, source: &Known) -> Result<Known, AllocError>
    ensures { IfOk result (λ copy. copy ≡ source.now) }
{
    let columns = source
        .columns
        .as_slice()
        .iter()
        .map(|set| *set)
        .collect(alloc)?;
    Ok(known(source.rows, columns))
}

fn known_of_both(alloc: Global, a: &Known, b: &Known) -> Result<Known, AllocError>
    ensures { IfOk result (λ made. made ≡ known.known_of_both a.now b.now) }
{
    let columns = met(alloc, a.columns.as_slice(), b.columns.as_slice())?;
    Ok(known(a.rows.meet(b.rows), columns))
}
