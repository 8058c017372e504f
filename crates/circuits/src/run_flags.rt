//! For each level of a scan, which lanes have enough lanes of their run before them.
#![tactic(auto)]

ghost use Rattle.std.specs.Prelude.{◌≡◌, ℕ, ◌+◌, ◌*◌, ◌^◌, ◌≤◌, ◌<◌, length, IfOk};
ghost use Rattle.wires.specs.Environment.{words};
ghost use Rattle.wires.specs.Growth.{Carries, Grows, IsMade, lanes_of};
ghost use Rattle.circuits.specs.RunLoops.{LevelFlags, further_lanes, moved_lanes, reaching_lanes};

use crate::places::{places_before, places_but_first};
use std::alloc::{AllocError, Global};
use wires::{Wire, Wires};

// The flags of as many levels as the lanes need; one AND word a lane and level.
pub(crate) fn level_flags<W: Wires>(
    wires: &mut W,
    alloc: Global,
    joined: Wire,
) -> Result<Vec<Wire>, AllocError>
    requires { IsMade (W.shape wires.old) joined }
    ensures grows { Grows W.grown W.possible W.shape wires.old wires.new }
    ensures ok { IfOk result (λ flags. LevelFlags (W.possible wires.new) (W.shape wires.new) flags.items joined (lanes_of (W.shape wires.old) joined)) }
    ensures enough { IfOk result (λ flags. lanes_of (W.shape wires.old) joined ≤ 2 ^ length flags.items) }
    ensures fewest { (levels : ℕ) → lanes_of (W.shape wires.old) joined ≤ 2 ^ levels → IfOk result (λ flags. length flags.items ≤ levels) }
    ensures few { IfOk result (λ flags. length flags.items ≤ 32) }
    ensures cost { (levels : ℕ) → lanes_of (W.shape wires.old) joined ≤ 2 ^ levels
        → W.ands wires.new ≤ W.ands wires.old + levels * lanes_of (W.shape wires.old) joined }
    ensures calls { (levels : ℕ) → lanes_of (W.shape wires.old) joined ≤ 2 ^ levels → W.and_calls wires.new ≤ W.and_calls wires.old + levels }
    ensures wires { (levels : ℕ) → lanes_of (W.shape wires.old) joined ≤ 2 ^ levels
        → length (W.shape wires.new) ≤ length (W.shape wires.old) + (3 + 2 * levels) }
{
    let lanes = wires.lanes(joined);
    let mut flag = first_flags(wires, alloc, joined)?;
    let mut flags = Vec::new(alloc);
    let mut places = 1usize;
    while places < lanes {
        let next = further_flags(wires, alloc, flag, places as u32)?;
        flags.push(flag)?;
        flag = next;
        places *= 2;
    }
    Ok(flags)
}

// 1 where a lane belongs to the run of the lane before it, and else 0.
fn first_flags<W: Wires>(wires: &mut W, alloc: Global, joined: Wire) -> Result<Wire, AllocError>
    requires { IsMade (W.shape wires.old) joined }
    ensures grows { Grows W.grown W.possible W.shape wires.old wires.new }
    ensures ok { IfOk result (λ new. Carries (W.possible wires.new) (W.shape wires.new) new (lanes_of (W.shape wires.old) joined)
        (λ v. reaching_lanes 1 (words v joined))) }
    ensures count { W.ands wires.new ≡ W.ands wires.old }
    ensures calls { W.and_calls wires.new ≡ W.and_calls wires.old }
    ensures wires { length (W.shape wires.new) ≤ length (W.shape wires.old) + 3 }
{
    let places = places_but_first(alloc, wires.lanes(joined))?;
    let zero = wires.constant(&[0])?;
    let cleared = wires.gather(&[joined, zero], places.as_slice())?;
    let new = wires.mask(cleared, 1)?;
    Ok(new)
}

// The flags of twice as many lanes; one AND word a lane.
#[tactic(auto, unfolding(crate::specs::RunLoops::further_lanes))]
fn further_flags<W: Wires>(
    wires: &mut W,
    alloc: Global,
    flag: Wire,
    places: u32,
) -> Result<Wire, AllocError>
    requires { IsMade (W.shape wires.old) flag }
    ensures grows { Grows W.grown W.possible W.shape wires.old wires.new }
    ensures ok { IfOk result (λ new. Carries (W.possible wires.new) (W.shape wires.new) new (lanes_of (W.shape wires.old) flag)
        (λ v. further_lanes places (words v flag))) }
    ensures cost { W.ands wires.new ≤ W.ands wires.old + lanes_of (W.shape wires.old) flag }
    ensures calls { W.and_calls wires.new ≤ W.and_calls wires.old + 1 }
    ensures wires { length (W.shape wires.new) ≤ length (W.shape wires.old) + 2 }
{
    let moved = moved_along(wires, alloc, flag, places)?;
    let new = wires.and(flag, moved)?;
    Ok(new)
}

// A wire moved up by so many lanes; its first lanes repeat lane 0.
pub(crate) fn moved_along<W: Wires>(
    wires: &mut W,
    alloc: Global,
    wire: Wire,
    by: u32,
) -> Result<Wire, AllocError>
    requires { IsMade (W.shape wires.old) wire }
    ensures grows { Grows W.grown W.possible W.shape wires.old wires.new }
    ensures ok { IfOk result (λ new. Carries (W.possible wires.new) (W.shape wires.new) new (lanes_of (W.shape wires.old) wire)
        (λ v. moved_lanes by (words v wire))) }
    ensures count { W.ands wires.new ≡ W.ands wires.old }
    ensures calls { W.and_calls wires.new ≡ W.and_calls wires.old }
    ensures wires { length (W.shape wires.new) ≤ length (W.shape wires.old) + 1 }
{
    let places = places_before(alloc, wires.lanes(wire), by)?;
    let new = wires.gather(&[wire], places.as_slice())?;
    Ok(new)
}
