//! The halves of blocks of places.
#![tactic(auto)]

ghost use Rattle.std.specs.Prelude.{◌≡◌, ◌≤◌};
ghost use Rattle.lanes.specs.Prefix.{lower_places};
ghost use Rattle.circuits.specs.Halves.{AreHalves};

// The halves of the blocks of one level of a prefix: how many places a half has, the places of the lower halves
// and of the upper ones, and the highest place of each lower half.
#[derive(Clone, Copy)]
pub(crate) struct Halves {
    pub level: u32,
    pub places: u32,
    pub lower: u64,
    pub upper: u64,
    pub top: u64,
}

// The halves of a level, of 2^level places each.
pub(crate) fn halves_of(level: u32) -> Halves
    requires { level ≤ 5 }
    ensures level { result.level ≡ level }
    ensures are { AreHalves result }
{
    let lower = lower_of(level);
    let upper = u64::MAX - lower;
    Halves {
        level,
        places: 1 << level,
        lower,
        upper,
        top: lower & (upper >> 1),
    }
}

// The places of the lower halves.
fn lower_of(level: u32) -> u64
    requires { level ≤ 5 }
    ensures { result ≡ lower_places level }
{
    match level {
        0 => 0x5555_5555_5555_5555,
        1 => 0x3333_3333_3333_3333,
        2 => 0x0f0f_0f0f_0f0f_0f0f,
        3 => 0x00ff_00ff_00ff_00ff,
        4 => 0x0000_ffff_0000_ffff,
        _ => 0xffff_ffff,
    }
}
