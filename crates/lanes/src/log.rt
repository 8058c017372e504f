//! The logarithm to base 2, rounded up.
ghost use Rattle.std.specs.Prelude.{◌≡◌};
ghost use Rattle.lanes.specs.Logarithm.{ceil_log2};

/// The least number of levels with `count` at most 2^levels: how many doublings from 1 reach `count`.
/// It is 0 for 0 and 1, and at most 64. Own.
pub fn ceil_log2(count: u64) -> u32
    ensures { result ≡ ceil_log2 count }
{
    for level in 0..64u32 {
        if count <= 1u64 << level {
            return level;
        }
    }
    64
}
