//! Blocks of lanes, cut out and laid one after the other.
#![tactic(auto)]

ghost use Rattle.std.specs.Prelude.{◌≡◌, ◌+◌, ◌-◌, ◌^◌, ◌<◌, ◌≤◌, ◌++◌, length, slice_range, IfOk};
ghost use Rattle.wires.specs.Environment.{words};
ghost use Rattle.wires.specs.Growth.{Carries, Grows, IsMade, lanes_of};

use crate::places::places_between;
use std::alloc::{AllocError, Global};
use wires::{Wire, Wires};

// The lanes of one wire, and behind them the lanes from..to of another.
pub(crate) fn followed_by<W: Wires>(
    wires: &mut W,
    alloc: Global,
    first: Wire,
    second: Wire,
    from: usize,
    to: usize,
) -> Result<Wire, AllocError>
    requires first { IsMade (W.shape wires.old) first }
    requires second { IsMade (W.shape wires.old) second }
    requires from { from ≤ to }
    requires to { to ≤ lanes_of (W.shape wires.old) second }
    requires few { to < 2 ^ 32 }
    requires behind { lanes_of (W.shape wires.old) first ≤ from }
    ensures grows { Grows W.grown W.possible W.shape wires.old wires.new }
    ensures ok { IfOk result (λ new. Carries (W.possible wires.new) (W.shape wires.new) new (lanes_of (W.shape wires.old) first + (to - from))
        (λ v. words v first ++ slice_range (words v second) from to)) }
    ensures count { W.ands wires.new ≡ W.ands wires.old }
    ensures calls { W.and_calls wires.new ≡ W.and_calls wires.old }
    ensures wires { length (W.shape wires.new) ≤ length (W.shape wires.old) + 2 }
{
    if from == to {
        return Ok(first);
    }
    let rest = lanes_between(wires, alloc, second, from, to)?;
    let new = one_after_other(wires, alloc, first, rest)?;
    Ok(new)
}

// The lanes from..to of a wire.
pub(crate) fn lanes_between<W: Wires>(
    wires: &mut W,
    alloc: Global,
    wire: Wire,
    from: usize,
    to: usize,
) -> Result<Wire, AllocError>
    requires made { IsMade (W.shape wires.old) wire }
    requires from { from ≤ to }
    requires to { to ≤ lanes_of (W.shape wires.old) wire }
    requires few { to < 2 ^ 32 }
    ensures grows { Grows W.grown W.possible W.shape wires.old wires.new }
    ensures ok { IfOk result (λ new. Carries (W.possible wires.new) (W.shape wires.new) new (to - from)
        (λ v. slice_range (words v wire) from to)) }
    ensures count { W.ands wires.new ≡ W.ands wires.old }
    ensures calls { W.and_calls wires.new ≡ W.and_calls wires.old }
    ensures wires { length (W.shape wires.new) ≤ length (W.shape wires.old) + 1 }
{
    let places = places_between(alloc, from, to)?;
    let new = wires.gather(&[wire], places.as_slice())?;
    Ok(new)
}

// The lanes of one wire, and behind them those of another.
pub(crate) fn one_after_other<W: Wires>(
    wires: &mut W,
    alloc: Global,
    first: Wire,
    second: Wire,
) -> Result<Wire, AllocError>
    requires first { IsMade (W.shape wires.old) first }
    requires second { IsMade (W.shape wires.old) second }
    requires few { lanes_of (W.shape wires.old) first + lanes_of (W.shape wires.old) second < 2 ^ 32 }
    ensures grows { Grows W.grown W.possible W.shape wires.old wires.new }
    ensures ok { IfOk result (λ new. Carries (W.possible wires.new) (W.shape wires.new) new
        (lanes_of (W.shape wires.old) first + lanes_of (W.shape wires.old) second) (λ v. words v first ++ words v second)) }
    ensures count { W.ands wires.new ≡ W.ands wires.old }
    ensures calls { W.and_calls wires.new ≡ W.and_calls wires.old }
    ensures wires { length (W.shape wires.new) ≤ length (W.shape wires.old) + 1 }
{
    let lanes = wires.lanes(first) + wires.lanes(second);
    let places = places_between(alloc, 0, lanes)?;
    let new = wires.gather(&[first, second], places.as_slice())?;
    Ok(new)
}
