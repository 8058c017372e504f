ghost use Rattle.std.specs.Prelude.{◌≡◌, IfOk};
ghost use Rattle.listed.specs.Lists.{lent, owned};

use std::alloc::{AllocError, Global};

/// Lists of their own, lent in their order. Own.
pub fn lend(alloc: Global, lists: &[Vec<u64>]) -> Result<Vec<&[u64]>, AllocError>
    ensures { IfOk result (λ made. lent made.items ≡ owned lists.now) }
{
    let mut made = Vec::new(alloc);
    for list in lists {
        made.push(list.as_slice())?;
    }
    Ok(made)
}
