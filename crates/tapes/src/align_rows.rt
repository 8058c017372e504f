ghost use Rattle.std.specs.Prelude.{◌≡◌, ◌↔◌, ◌<◌, ◌^◌, IsTrue, IfOk, OnOk, Err, ℕ, length, slice_index};
ghost use Rattle.bags.specs.Bag.{SameBag};
ghost use Rattle.tapes.specs.declared.align_rows.AlignFault.TheVariants.{Memory};
ghost use Rattle.listed.specs.Lists.{owned};
ghost use Rattle.tapes.specs.Align.{Aligns, Numbered, SortsPlaces, rows_applied};

use crate::order::Order;
use crate::pairs::numbers_of;
use std::alloc::{AllocError, AllocFailed, Global};
use thiserror::Error;

/// Why two lists of rows can't be aligned.
#[derive(Clone, Copy, Debug, PartialEq, Eq, Error)]
pub enum AlignFault {
    /// A row occurs in one list more often than in the other.
    #[error("the lists are not the same bag")]
    NotSameBag,
    /// There is not enough memory.
    #[error("out of memory")]
    Memory,
}

impl From<AllocError> for AlignFault {
    ghost from_gives = { λ _ e. e ≡ Memory };

    fn from(_: AllocError) -> AlignFault {
        AlignFault::Memory
    }
}

/// The one order that takes the j-th occurrence of each row of `source`, counted from the front,
/// to its j-th occurrence in `target`; so applied to `source` it gives `target`. The places of
/// both lists are sorted by their rows, in n log n comparisons.
pub fn align(
    alloc: Global,
    source: &Vec<Vec<u64>>,
    target: &Vec<Vec<u64>>,
) -> Result<Order, AlignFault>
    requires source { length source.now.items < 2 ^ 32 }
    requires target { length target.now.items < 2 ^ 32 }
    ensures aligned { IfOk result (λ order. Aligns (owned source.now.items) (owned target.now.items) order) }
    ensures same_bag { OnOk result (SameBag (owned source.now.items) (owned target.now.items)) }
    ensures not_same_bag { result ≡ Err AlignFault.NotSameBag → ¬ SameBag (owned source.now.items) (owned target.now.items) }
{
    // A law: equal sorted lists are the same bag.
    bags::laws::sorted_tells_bags();
    let first = sort_places(alloc, source)?;
    let second = sort_places(alloc, target)?;
    if !have_equal_rows(source, target, first.places(), second.places()) {
        return Err(AlignFault::NotSameBag);
    }
    let back = second.inverse(alloc)?;
    let order = first.then(alloc, &back)?;
    Ok(order)
}

// The places of rows, sorted by their rows and then by themselves.
fn sort_places(alloc: Global, rows: &Vec<Vec<u64>>) -> Result<Order, AllocError>
    requires { length rows.now.items < 2 ^ 32 }
    ensures { IfOk result (λ order. SortsPlaces (owned rows.now.items) order) }
{
    // A law: what sorting leaves is the sorted list.
    bags::laws::sorted_is_unique();
    let mut keyed = number_rows(alloc, rows)?;
    keyed.sort_unstable();
    let places = numbers_of(alloc, &keyed)?;
    Ok(Order::from_permutation(places))
}

// Each row, lent, with its place.
fn number_rows<'a>(
    alloc: Global,
    rows: &'a Vec<Vec<u64>>,
) -> Result<Vec<(&'a [u64], u32)>, AllocError>
    requires { length rows.now.items < 2 ^ 32 }
    ensures { IfOk result (λ keyed. Numbered (λ pair. pair.0.now) (λ pair. pair.1) 0 (owned rows.now.items) keyed.items) }
{
    let mut keyed = Vec::with_capacity(alloc, rows.len())?;
    for i in 0..rows.len() {
        keyed.push((rows[i].as_slice(), i as u32))?;
    }
    Ok(keyed)
}

// Whether the rows at the places of both lists are equal, place by place.
fn have_equal_rows(
    source: &Vec<Vec<u64>>,
    target: &Vec<Vec<u64>>,
    first: &[u32],
    second: &[u32],
) -> bool
    requires first { (k : ℕ) → k < length first.now → slice_index first.now k < length source.now.items }
    requires second { (k : ℕ) → k < length second.now → slice_index second.now k < length target.now.items }
    ensures { IsTrue result ↔ (rows_applied first.now (owned source.now.items) ≡ rows_applied second.now (owned target.now.items)) }
{
    if first.len() != second.len() {
        return false;
    }
    for i in 0..first.len() {
        let row = source[first[i] as usize].as_slice();
        let other = target[second[i] as usize].as_slice();
        if row != other {
            return false;
        }
    }
    true
}
