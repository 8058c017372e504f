ghost use Rattle.std.specs.Prelude.{◌≡◌, ◌∷◌, [], ◌<◌, map, vec_len, IfOk, OnOk};
ghost use Rattle.plain_operators.specs.Index.{with_place};
ghost use Rattle.plain_operators.specs.Places as plain;
ghost use Rattle.listed.specs.Lists.{lent, owned};

use std::alloc::{AllocError, Global};
use std::collections::HashMap;
use std::marker::Model;

// Rows by their words: the places of each distinct row, and its number among these. Seen as the rows.
#[derive(Drop)]
pub(crate) struct RowIndex<'a> {
    rows: &'a [&'a [u64]],
    numbers: HashMap<&'a [u64], usize>,
    groups: Vec<Vec<usize>>,
}

impl<'a> Model for RowIndex<'a> {
    ghost use Rattle.std.specs.Prelude.{List, ℕ};
    ghost use Rattle.plain_operators.specs.Index.{indexed, IsIndex};

    ghost Value = { List (List ℕ) };

    ghost view = { indexed };

    ghost invariant = { IsIndex };
}

impl<'a> RowIndex<'a> {
    // The index of these rows, by a look-up for each row in a map of the distinct ones.
    pub(crate) fn new(alloc: Global, rows: &'a [&'a [u64]]) -> Result<RowIndex<'a>, AllocError>
        ensures { IfOk result (λ index. index ≡ lent rows.now) }
    {
        let mut numbers = HashMap::new(alloc);
        let mut groups = Vec::new(alloc);
        for (place, row) in rows.iter().enumerate() {
            match numbers.get(row).copied() {
                Some(number) => add_place(&mut groups, number, place)?,
                None => {
                    numbers.insert(*row, groups.len())?;
                    groups.push(one_place(alloc, place)?)?;
                }
            }
        }
        Ok(RowIndex {
            rows,
            numbers,
            groups,
        })
    }

    // The places of the rows that are this one.
    pub(crate) fn places(&self, row: &[u64]) -> &[usize]
        ensures { result.now ≡ plain.places_with self.now row.now }
    {
        match self.numbers.get(&row).copied() {
            Some(number) => self.groups[number].as_slice(),
            None => &[],
        }
    }

    // The places of each distinct row.
    fn into_groups(self) -> Vec<Vec<usize>>
        ensures { owned result.items ≡ plain.grouped_places self.entry }
    {
        let RowIndex {
            rows: _,
            numbers: _,
            groups,
        } = self;
        groups
    }
}

/// The places, from 0, of each distinct row: one list for each, in the order of the first places.
///
/// With rows cut to keys these are the places of each group. The rows are lent and none is copied. Takes a look-up
/// for each row in a hash map of the distinct ones.
pub fn grouped_places(alloc: Global, rows: &[&[u64]]) -> Result<Vec<Vec<usize>>, AllocError>
    ensures { IfOk result (λ groups. owned groups.items ≡ plain.grouped_places (lent rows.now)) }
{
    Ok(RowIndex::new(alloc, rows)?.into_groups())
}

// One more place in a group.
fn add_place(groups: &mut Vec<Vec<usize>>, number: usize, place: usize) -> Result<(), AllocError>
    requires { number < vec_len groups.old }
    ensures { OnOk result (owned groups.new.items
        ≡ with_place (owned groups.old.items) number place) }
{
    groups[number].push(place)?;
    Ok(())
}

// A group of one place.
fn one_place(alloc: Global, place: usize) -> Result<Vec<usize>, AllocError>
    ensures { IfOk result (λ places. places.items ≡ place ∷ []) }
{
    let mut places = Vec::new(alloc);
    places.push(place)?;
    Ok(places)
}
