ghost use Rattle.std.specs.Prelude.{◌≡◌, IfOk};
ghost use Rattle.plain_operators.specs.Limits.{first_of};
ghost use Rattle.plain_operators.specs.Operators as plain;
ghost use Rattle.listed.specs.Lists.{lent};

use crate::limit::is_reached;
use std::alloc::{AllocError, Global};
use std::collections::HashSet;

/// Each row at its first occurrence, in order, by a look-up for each row in a hash set of those seen.
///
/// The rows are lent and none is copied. With a limit these are the first, so many at most, and no row behind the last
/// of them is looked up.
pub fn distinct_rows<'a>(
    alloc: Global,
    rows: &[&'a [u64]],
    limit: Option<usize>,
) -> Result<Vec<&'a [u64]>, AllocError>
    ensures { IfOk result (λ kept. lent kept.items
        ≡ first_of limit (plain.distinct_rows (lent rows.now))) }
{
    let mut seen = HashSet::new(alloc);
    let mut kept = Vec::new(alloc);
    for row in rows {
        if is_reached(limit, kept.len()) {
            return Ok(kept);
        }
        if seen.insert(*row)? {
            kept.push(*row)?;
        }
    }
    Ok(kept)
}
