//! The carries of a sum by a parallel prefix, and one level of it.
#![tactic(auto)]

ghost use Rattle.std.specs.Prelude.{◌≡◌, ◌+◌, ◌*◌, ◌≤◌, length, IfOk};
ghost use Rattle.lanes.specs.Lanes.{lanewise, lanewise1};
ghost use Rattle.lanes.specs.Prefix.{carries_word, half_products, span_after, spread_down};
ghost use Rattle.wires.specs.Environment.{words};
ghost use Rattle.wires.specs.Growth.{Carries, Grows, IsMade, lanes_of};
ghost use Rattle.circuits.specs.Halves.{AreHalves};
ghost use Rattle.circuits.specs.Values.{generates_lanes, nearer_lanes, propagates_lanes, tops_lanes, twice_lanes};

use crate::halves::{Halves, halves_of};
use std::alloc::AllocError;
use wires::{Wire, Wires};

// For blocks of places: whether the places of a block up to each place make a carry, and whether they hand one on.
#[derive(Clone, Copy)]
struct Spans {
    generate: Wire,
    propagate: Wire,
}

// The carries out of each place of a sum; one AND word a lane for blocks of one place and one for each of six levels.
pub(crate) fn carries<W: Wires>(wires: &mut W, left: Wire, right: Wire) -> Result<Wire, AllocError>
    requires left { IsMade (W.shape wires.old) left }
    requires right { IsMade (W.shape wires.old) right }
    requires lanes { lanes_of (W.shape wires.old) left ≡ lanes_of (W.shape wires.old) right }
    ensures grows { Grows W.grown W.possible W.shape wires.old wires.new }
    ensures ok { IfOk result (λ new. Carries (W.possible wires.new) (W.shape wires.new) new (lanes_of (W.shape wires.old) left)
        (λ v. lanewise carries_word (words v left) (words v right))) }
    ensures cost { W.ands wires.new ≤ W.ands wires.old + 7 * lanes_of (W.shape wires.old) left }
    ensures calls { W.and_calls wires.new ≤ W.and_calls wires.old + 7 }
    ensures wires { length (W.shape wires.new) ≤ length (W.shape wires.old) + 113 }
{
    let spans = spans_of_halves(wires, left, right)?;
    let halves = halves_of(5);
    let products = products_of_halves(wires, spans.generate, spans.propagate, halves)?;
    let new = join_generate(wires, spans.generate, products, halves)?;
    Ok(new)
}

// The spans of the two halves of the word, 32 places each; six AND words a lane.
fn spans_of_halves<W: Wires>(wires: &mut W, left: Wire, right: Wire) -> Result<Spans, AllocError>
    requires left { IsMade (W.shape wires.old) left }
    requires right { IsMade (W.shape wires.old) right }
    requires lanes { lanes_of (W.shape wires.old) left ≡ lanes_of (W.shape wires.old) right }
    ensures grows { Grows W.grown W.possible W.shape wires.old wires.new }
    ensures generate { IfOk result (λ new. Carries (W.possible wires.new) (W.shape wires.new) new.generate (lanes_of (W.shape wires.old) left)
        (λ v. lanewise (λ x y. (span_after 5 x y).generate) (words v left) (words v right))) }
    ensures propagate { IfOk result (λ new. Carries (W.possible wires.new) (W.shape wires.new) new.propagate (lanes_of (W.shape wires.old) left)
        (λ v. lanewise (λ x y. (span_after 5 x y).propagate) (words v left) (words v right))) }
    ensures cost { W.ands wires.new ≤ W.ands wires.old + 6 * lanes_of (W.shape wires.old) left }
    ensures calls { W.and_calls wires.new ≤ W.and_calls wires.old + 6 }
    ensures wires { length (W.shape wires.new) ≤ length (W.shape wires.old) + 92 }
{
    let generate = wires.and(left, right)?;
    let propagate = wires.xor(left, right)?;
    let mut spans = Spans {
        generate,
        propagate,
    };
    for level in 0..5u32 {
        spans = joined(wires, spans, halves_of(level))?;
    }
    Ok(spans)
}

// The spans of blocks of twice as many places; one AND word a lane.
fn joined<W: Wires>(wires: &mut W, spans: Spans, halves: Halves) -> Result<Spans, AllocError>
    requires generate { IsMade (W.shape wires.old) spans.generate }
    requires propagate { IsMade (W.shape wires.old) spans.propagate }
    requires lanes { lanes_of (W.shape wires.old) spans.generate ≡ lanes_of (W.shape wires.old) spans.propagate }
    requires halves { AreHalves halves }
    ensures grows { Grows W.grown W.possible W.shape wires.old wires.new }
    ensures generate { IfOk result (λ new. Carries (W.possible wires.new) (W.shape wires.new) new.generate (lanes_of (W.shape wires.old) spans.generate)
        (λ v. generates_lanes halves.places halves.lower (words v spans.generate)
        (lanewise (half_products halves.level) (words v spans.generate) (words v spans.propagate)))) }
    ensures propagate { IfOk result (λ new. Carries (W.possible wires.new) (W.shape wires.new) new.propagate (lanes_of (W.shape wires.old) spans.generate)
        (λ v. propagates_lanes halves.lower halves.upper (words v spans.propagate)
        (lanewise (half_products halves.level) (words v spans.generate) (words v spans.propagate)))) }
    ensures cost { W.ands wires.new ≤ W.ands wires.old + lanes_of (W.shape wires.old) spans.generate }
    ensures calls { W.and_calls wires.new ≤ W.and_calls wires.old + 1 }
    ensures wires { length (W.shape wires.new) ≤ length (W.shape wires.old) + (14 + 2 * halves.level) }
{
    let products = products_of_halves(wires, spans.generate, spans.propagate, halves)?;
    let generate = join_generate(wires, spans.generate, products, halves)?;
    let propagate = join_propagate(wires, spans.propagate, products, halves)?;
    Ok(Spans {
        generate,
        propagate,
    })
}

// The products of each upper place with the top of its lower half, both of a place in one word; one AND word a lane.
fn products_of_halves<W: Wires>(
    wires: &mut W,
    generate: Wire,
    propagate: Wire,
    halves: Halves,
) -> Result<Wire, AllocError>
    requires generate { IsMade (W.shape wires.old) generate }
    requires propagate { IsMade (W.shape wires.old) propagate }
    requires lanes { lanes_of (W.shape wires.old) generate ≡ lanes_of (W.shape wires.old) propagate }
    requires halves { AreHalves halves }
    ensures grows { Grows W.grown W.possible W.shape wires.old wires.new }
    ensures ok { IfOk result (λ new. Carries (W.possible wires.new) (W.shape wires.new) new (lanes_of (W.shape wires.old) generate)
        (λ v. lanewise (half_products halves.level) (words v generate) (words v propagate))) }
    ensures cost { W.ands wires.new ≤ W.ands wires.old + lanes_of (W.shape wires.old) generate }
    ensures calls { W.and_calls wires.new ≤ W.and_calls wires.old + 1 }
    ensures wires { length (W.shape wires.new) ≤ length (W.shape wires.old) + (8 + 2 * halves.level) }
{
    let twice = upper_twice(wires, propagate, halves)?;
    let tops = tops_of_halves(wires, generate, propagate, halves)?;
    let spread = spread_tops(wires, tops, halves.level)?;
    let new = wires.and(twice, spread)?;
    Ok(new)
}

// What the upper places hand on, in both halves.
#[tactic(auto, unfolding(crate::specs::Values::twice_lanes))]
fn upper_twice<W: Wires>(wires: &mut W, propagate: Wire, halves: Halves) -> Result<Wire, AllocError>
    requires propagate { IsMade (W.shape wires.old) propagate }
    requires places { halves.places ≤ 63 }
    ensures grows { Grows W.grown W.possible W.shape wires.old wires.new }
    ensures ok { IfOk result (λ new. Carries (W.possible wires.new) (W.shape wires.new) new (lanes_of (W.shape wires.old) propagate)
        (λ v. twice_lanes halves.places halves.upper (words v propagate))) }
    ensures count { W.ands wires.new ≡ W.ands wires.old }
    ensures calls { W.and_calls wires.new ≡ W.and_calls wires.old }
    ensures wires { length (W.shape wires.new) ≤ length (W.shape wires.old) + 3 }
{
    let upper = wires.mask(propagate, halves.upper)?;
    let moved = wires.right(upper, halves.places)?;
    let new = wires.xor(upper, moved)?;
    Ok(new)
}

// What each lower half makes and hands on: the one at its own top, the other at the top of the upper half.
#[tactic(auto, unfolding(crate::specs::Values::tops_lanes))]
fn tops_of_halves<W: Wires>(
    wires: &mut W,
    generate: Wire,
    propagate: Wire,
    halves: Halves,
) -> Result<Wire, AllocError>
    requires generate { IsMade (W.shape wires.old) generate }
    requires propagate { IsMade (W.shape wires.old) propagate }
    requires lanes { lanes_of (W.shape wires.old) generate ≡ lanes_of (W.shape wires.old) propagate }
    requires places { halves.places ≤ 63 }
    ensures grows { Grows W.grown W.possible W.shape wires.old wires.new }
    ensures ok { IfOk result (λ new. Carries (W.possible wires.new) (W.shape wires.new) new (lanes_of (W.shape wires.old) generate)
        (λ v. tops_lanes halves.places halves.top (words v generate) (words v propagate))) }
    ensures count { W.ands wires.new ≡ W.ands wires.old }
    ensures calls { W.and_calls wires.new ≡ W.and_calls wires.old }
    ensures wires { length (W.shape wires.new) ≤ length (W.shape wires.old) + 4 }
{
    let made = wires.mask(generate, halves.top)?;
    let handed = wires.mask(propagate, halves.top)?;
    let moved = wires.left(handed, halves.places)?;
    let new = wires.xor(made, moved)?;
    Ok(new)
}

// Each top spread over its half.
fn spread_tops<W: Wires>(wires: &mut W, tops: Wire, level: u32) -> Result<Wire, AllocError>
    requires tops { IsMade (W.shape wires.old) tops }
    requires few { level ≤ 5 }
    ensures grows { Grows W.grown W.possible W.shape wires.old wires.new }
    ensures ok { IfOk result (λ new. Carries (W.possible wires.new) (W.shape wires.new) new (lanes_of (W.shape wires.old) tops)
        (λ v. lanewise1 (spread_down level) (words v tops))) }
    ensures count { W.ands wires.new ≤ W.ands wires.old }
    ensures calls { W.and_calls wires.new ≤ W.and_calls wires.old }
    ensures wires { length (W.shape wires.new) ≤ length (W.shape wires.old) + 2 * level }
{
    let mut spread = tops;
    for step in 0..level {
        spread = nearer(wires, spread, 1 << step)?;
    }
    Ok(spread)
}

// Each bit with the one that stands so many places above it.
#[tactic(auto, unfolding(crate::specs::Values::nearer_lanes))]
fn nearer<W: Wires>(wires: &mut W, wire: Wire, places: u32) -> Result<Wire, AllocError>
    requires made { IsMade (W.shape wires.old) wire }
    requires places { places ≤ 63 }
    ensures grows { Grows W.grown W.possible W.shape wires.old wires.new }
    ensures ok { IfOk result (λ new. Carries (W.possible wires.new) (W.shape wires.new) new (lanes_of (W.shape wires.old) wire)
        (λ v. nearer_lanes places (words v wire))) }
    ensures count { W.ands wires.new ≡ W.ands wires.old }
    ensures calls { W.and_calls wires.new ≡ W.and_calls wires.old }
    ensures wires { length (W.shape wires.new) ≤ length (W.shape wires.old) + 2 }
{
    let moved = wires.right(wire, places)?;
    let new = wires.xor(wire, moved)?;
    Ok(new)
}

// Whether blocks of twice as many places make a carry, where the products are there.
#[tactic(auto, unfolding(crate::specs::Values::generates_lanes))]
fn join_generate<W: Wires>(
    wires: &mut W,
    generate: Wire,
    products: Wire,
    halves: Halves,
) -> Result<Wire, AllocError>
    requires generate { IsMade (W.shape wires.old) generate }
    requires products { IsMade (W.shape wires.old) products }
    requires lanes { lanes_of (W.shape wires.old) generate ≡ lanes_of (W.shape wires.old) products }
    requires places { halves.places ≤ 63 }
    ensures grows { Grows W.grown W.possible W.shape wires.old wires.new }
    ensures ok { IfOk result (λ new. Carries (W.possible wires.new) (W.shape wires.new) new (lanes_of (W.shape wires.old) generate)
        (λ v. generates_lanes halves.places halves.lower (words v generate) (words v products))) }
    ensures count { W.ands wires.new ≡ W.ands wires.old }
    ensures calls { W.and_calls wires.new ≡ W.and_calls wires.old }
    ensures wires { length (W.shape wires.new) ≤ length (W.shape wires.old) + 3 }
{
    let made = wires.mask(products, halves.lower)?;
    let moved = wires.left(made, halves.places)?;
    let new = wires.xor(generate, moved)?;
    Ok(new)
}

// Whether blocks of twice as many places hand a carry on, where the products are there.
#[tactic(auto, unfolding(crate::specs::Values::propagates_lanes))]
fn join_propagate<W: Wires>(
    wires: &mut W,
    propagate: Wire,
    products: Wire,
    halves: Halves,
) -> Result<Wire, AllocError>
    requires propagate { IsMade (W.shape wires.old) propagate }
    requires products { IsMade (W.shape wires.old) products }
    requires lanes { lanes_of (W.shape wires.old) propagate ≡ lanes_of (W.shape wires.old) products }
    ensures grows { Grows W.grown W.possible W.shape wires.old wires.new }
    ensures ok { IfOk result (λ new. Carries (W.possible wires.new) (W.shape wires.new) new (lanes_of (W.shape wires.old) propagate)
        (λ v. propagates_lanes halves.lower halves.upper (words v propagate) (words v products))) }
    ensures count { W.ands wires.new ≡ W.ands wires.old }
    ensures calls { W.and_calls wires.new ≡ W.and_calls wires.old }
    ensures wires { length (W.shape wires.new) ≤ length (W.shape wires.old) + 3 }
{
    let kept = wires.mask(propagate, halves.lower)?;
    let handed = wires.mask(products, halves.upper)?;
    let new = wires.xor(kept, handed)?;
    Ok(new)
}
