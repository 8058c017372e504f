ghost use Rattle.std.specs.Prelude.{◌≡◌, ℕ, ◌<◌, ◌≤◌, ◌^◌, ◌↔◌, IsTrue, IsOk, IfOk, IfErr, length, slice_index};
ghost use Rattle.tapes.specs.Order.{IsOrder, IsShortOrder, identity_of, applied, composed, inverse_of};

use crate::marking::is_order;
use std::alloc::{AllocError, Global};
use std::marker::Model;

/// A permutation of the numbers below its length, seen as the list of these numbers. Applied to
/// items it puts at i the item that stood at its i-th number.
#[derive(Debug, Drop)]
pub struct Order {
    places: Vec<u32>,
}

impl Model for Order {
    ghost use Rattle.std.specs.Prelude.{List, ℕ};
    ghost use Rattle.tapes.specs.Order.{IsShortOrder};

    ghost Value = { List ℕ };

    ghost view = { λ o. o.places.items };

    ghost invariant = { λ o. IsShortOrder o.places.items };
}

impl Order {
    /// The order of this list, or the list back where it is no permutation.
    pub fn new(mut places: Vec<u32>) -> Result<Order, Vec<u32>>
        ensures order { IsOk result ↔ IsOrder places.items }
        ensures ok { IfOk result (λ order. order ≡ places.items) }
        ensures err { IfErr result (λ back. back.items ≡ places.items) }
    {
        if is_order(&mut places) {
            Ok(Order { places })
        } else {
            Err(places)
        }
    }

    /// The order of a list that is known to be one.
    pub(crate) fn from_permutation(places: Vec<u32>) -> Order
        requires { IsShortOrder places.items }
        ensures { result ≡ places.items }
    {
        Order { places }
    }

    /// The order that leaves each of `n` items in its place.
    pub fn identity(alloc: Global, n: u32) -> Result<Order, AllocError>
        ensures { IfOk result (λ order. order ≡ identity_of n) }
    {
        let mut places = Vec::with_capacity(alloc, n as usize)?;
        for i in 0..n {
            places.push(i)?;
        }
        Ok(Order { places })
    }

    /// Writes into `into` at i the word that stands in `source` at the order's i-th number.
    pub fn apply(&self, source: &[u64], into: &mut [u64])
        requires source { length source.now ≡ length self.now }
        requires into { length into.old ≡ length self.now }
        ensures { into.new ≡ applied self.now source.now }
    {
        for i in 0..into.len() {
            into[i] = source[self.places[i] as usize];
        }
    }

    /// This order and then `next`: applying the result is applying both, one after the other.
    pub fn then(&self, alloc: Global, next: &Order) -> Result<Order, AllocError>
        requires { length next.now ≡ length self.now }
        ensures { IfOk result (λ order. order ≡ composed self.now next.now) }
    {
        let first = &self.places;
        let second = &next.places;
        let mut places = Vec::with_capacity(alloc, second.len())?;
        for place in second {
            places.push(first[*place as usize])?;
        }
        Ok(Order { places })
    }

    /// The order that puts each item back.
    pub fn inverse(&self, alloc: Global) -> Result<Order, AllocError>
        ensures { IfOk result (λ order. order ≡ inverse_of self.now) }
    {
        let mut places = vec![in alloc; 0; self.places.len()]?;
        for i in 0..self.places.len() {
            places[self.places[i] as usize] = i as u32;
        }
        Ok(Order { places })
    }

    /// Its numbers.
    pub fn places(&self) -> &[u32]
        ensures value { result.now ≡ self.now }
        ensures order { IsOrder self.now }
        ensures short { length self.now ≤ 2 ^ 32 }
    {
        self.places.as_slice()
    }

    /// How many items it orders.
    pub fn len(&self) -> usize
        ensures { result ≡ length self.now }
    {
        self.places.len()
    }

    /// Whether it orders no item.
    pub fn is_empty(&self) -> bool
        ensures { IsTrue result ↔ (length self.now ≡ 0) }
    {
        self.places.is_empty()
    }

    /// An equal order in memory of its own.
    pub fn copy(&self, alloc: Global) -> Result<Order, AllocError>
        ensures { IfOk result (λ order. order ≡ self.now) }
    {
        let places = Vec::from_slice(alloc, &self.places)?;
        Ok(Order { places })
    }
}
