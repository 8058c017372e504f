ghost use Rattle.std.specs.Prelude.{◌≡◌, IfOk, map};

use std::alloc::{AllocError, Global};

/// The number of each pair.
pub(crate) fn numbers_of<K>(alloc: Global, pairs: &[(K, u32)]) -> Result<Vec<u32>, AllocError>
    ensures { IfOk result (λ numbers. numbers.items ≡ map (λ pair. pair.1) pairs.now) }
{
    pairs.iter().map(|pair| pair.1).collect(alloc)
}
