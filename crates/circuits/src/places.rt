//! Lists of places, for wires that are moved along their lanes.
#![tactic(auto)]

ghost use Rattle.std.specs.Prelude.{◌≡◌, ◌-◌, ◌^◌, ◌<◌, ◌≤◌, ◌==◌, map, IfOk, if◌then◌else◌};
ghost use Rattle.std.specs.List.{range_with_len};

use std::alloc::{AllocError, Global};

// For each lane the place so many lanes before it, or the first.
pub(crate) fn places_before(alloc: Global, lanes: usize, by: u32) -> Result<Vec<u32>, AllocError>
    requires { lanes < 2 ^ 32 }
    ensures { IfOk result (λ places. places.items ≡ map (λ k. k - by) (range_with_len 0 lanes)) }
{
    (0..lanes as u32)
        .map(|lane| lane.saturating_sub(by))
        .collect(alloc)
}

// For each lane its own place, but for lane 0 the place behind the last.
pub(crate) fn places_but_first(alloc: Global, lanes: usize) -> Result<Vec<u32>, AllocError>
    requires { lanes < 2 ^ 32 }
    ensures { IfOk result (λ places. places.items ≡ map (λ k. if k == 0 then lanes else k) (range_with_len 0 lanes)) }
{
    let count = lanes as u32;
    (0..count)
        .map(|lane| if lane == 0 { count } else { lane })
        .collect(alloc)
}

// The places from..to.
pub(crate) fn places_between(alloc: Global, from: usize, to: usize) -> Result<Vec<u32>, AllocError>
    requires from { from ≤ to }
    requires to { to < 2 ^ 32 }
    ensures { IfOk result (λ places. places.items ≡ range_with_len from (to - from)) }
{
    (from as u32..to as u32).collect(alloc)
}
