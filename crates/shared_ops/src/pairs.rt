//! Pairs of rows of two tables, a lane for each: lane i * m + j is row i of the left with row j of the right, of m rows.

ghost use Rattle.std.specs.Prelude.{◌≡◌, ◌+◌, ◌*◌, ◌^◌, ◌<◌, ◌≤◌, All, length, IfOk};
ghost use Rattle.lanes.specs.Lanes.{picked};
ghost use Rattle.wires.specs.Environment.{words};
ghost use Rattle.wires.specs.Growth.{Carries, Grows, IsMade, lanes_of};
ghost use Rattle.shared_ops.specs.Pairs.{left_places, right_places};

use std::alloc::{AllocError, Global};
use wires::{Wire, Wires};

// The place of the left row in each lane.
pub(crate) fn places_on_left(alloc: Global, left: u32, right: u32) -> Result<Vec<u32>, AllocError>
    requires { left * right < 2 ^ 32 }
    ensures { IfOk result (λ places. places.items ≡ left_places left right) }
{
    let mut places = Vec::with_capacity(alloc, (left * right) as usize)?;
    for place in 0..left * right {
        places.push(place / right)?;
    }
    Ok(places)
}

// The place of the right row in each lane.
pub(crate) fn places_on_right(alloc: Global, left: u32, right: u32) -> Result<Vec<u32>, AllocError>
    requires { left * right < 2 ^ 32 }
    ensures { IfOk result (λ places. places.items ≡ right_places left right) }
{
    let mut places = Vec::with_capacity(alloc, (left * right) as usize)?;
    for place in 0..left * right {
        places.push(place % right)?;
    }
    Ok(places)
}

// The words of a wire at these places.
pub(crate) fn gathered<W: Wires>(
    wires: &mut W,
    wire: Wire,
    places: &[u32],
) -> Result<Wire, AllocError>
    requires made { IsMade (W.shape wires.old) wire }
    requires few { length places.now < 2 ^ 32 }
    requires within { All (λ place. place < lanes_of (W.shape wires.old) wire) places.now }
    ensures grows { Grows W.grown W.possible W.shape wires.old wires.new }
    ensures ok { IfOk result (λ new. Carries (W.possible wires.new) (W.shape wires.new) new (length places.now) (λ v. picked places.now (words v wire))) }
    ensures cost { W.ands wires.new ≤ W.ands wires.old }
    ensures calls { W.and_calls wires.new ≤ W.and_calls wires.old }
{
    let new = wires.gather(&[wire], places)?;
    Ok(new)
}
