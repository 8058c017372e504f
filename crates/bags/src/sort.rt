ghost use Rattle.std.specs.Prelude.{◌≡◌, map};
ghost use Rattle.std.specs.List.Sorted.{IsPermutation};
ghost use Rattle.bags.specs.Sorted.{sorted};

/// Sorts lent rows in place, by their first differing word and then by length, in n log n comparisons.
///
/// No row is copied and no memory is taken. Equal rows can't be told apart, so the order need not be stable.
pub fn sort_rows(rows: &mut Vec<&[u64]>)
    ensures sorted { map (λ row. row.now) rows.new.items ≡ sorted (map (λ row. row.now) rows.old.items) }
    ensures moved { IsPermutation rows.old.items rows.new.items }
{
    rows.sort_unstable();
}
