//! Which bounds a party counts, and the flags of bounds.
#![tactic(auto)]

ghost use Rattle.std.specs.Prelude.{◌≡◌};
ghost use Rattle.std.specs.List.{list_any};
ghost use Rattle.rewrites.specs.Opened as opened;
ghost use Rattle.rewrites.specs.Parts.{is_clear_at, is_joint};
ghost use Rattle.places.specs.Bounds as spec;

use crate::place::Place;
use query_graph::Operator;
use rewrites::{Part, PartPlace};

// The party that counts the rows of a node in this place.
pub(crate) fn counter(place: Place) -> Option<u8>
    ensures { result ≡ spec.counter place }
{
    match place {
        Place::Clear(party) | Place::Hybrid(party) => Some(party),
        Place::Shared | Place::Up | Place::Split => None,
    }
}

fn is_joint(part: &Part) -> bool
    ensures { result ≡ is_joint part.now }
{
    match part.place {
        PartPlace::Clear(_) => false,
        PartPlace::Joint => true,
    }
}

fn some_is_joint(parts: &[Part]) -> bool
    ensures { result ≡ list_any (λ part. is_joint part) parts.now }
{
    parts.iter().any(|part| is_joint(part))
}

// Whether there are several parts, all clear.
fn is_clear_split(parts: &[Part]) -> bool
    ensures { result ≡ spec.is_clear_split parts.now }
{
    match parts {
        [] | [_] => false,
        [_, _, ..] => !some_is_joint(parts),
    }
}

// Whether the bounds of a node in this place are counted, where these are the parts of its source.
pub(crate) fn is_counted(shape: &Operator, place: Place, source: &[Part]) -> bool
    ensures { result ≡ spec.is_counted shape.now place source.now }
{
    let rows = shape.at_most().is_none() || !counter(place).is_none();
    let parts = shape.parts_at_most().is_none() || is_clear_split(source);
    rows && parts
}

// The source of an operator that has one.
pub(crate) fn source_of(shape: &Operator) -> u32
    ensures { result ≡ opened.source_of shape.now }
{
    match shape.source(0) {
        Some(source) => source,
        None => 0,
    }
}

pub(crate) fn is_clear_at(part: &Part, party: u8) -> bool
    ensures { result ≡ is_clear_at party part.now }
{
    match part.place {
        PartPlace::Clear(other) => other == party,
        PartPlace::Joint => false,
    }
}

// Whether a party has a clear part of these.
pub(crate) fn has_part(parts: &[Part], party: u8) -> bool
    ensures { result ≡ list_any (λ part. is_clear_at party part) parts.now }
{
    parts.iter().any(|part| is_clear_at(part, party))
}
