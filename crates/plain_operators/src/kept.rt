ghost use Rattle.std.specs.Prelude.{◌≡◌, length, map, IfOk};
ghost use Rattle.std.specs.List.{All, list_all};
ghost use Rattle.plain_operators.specs.Items.{holds_of, item_word};
ghost use Rattle.plain_operators.specs.Limits.{first_of};
ghost use Rattle.plain_operators.specs.Operators as plain;
ghost use Rattle.listed.specs.Lists.{lent, owned};
ghost use Rattle.plain_operators.specs.Within.{AreItemsOf, AreTestsOf, EachFits, IsItemOf, IsTestOf};

use crate::item::{Item, Test};
use crate::limit::is_reached;
use std::alloc::{AllocError, Global};

#[tactic(auto, using(crate::proofs::Steps::kept_more))]
/// The rows for which every test holds, in order. The rows are lent and none is copied.
///
/// With a limit these are the first, so many at most, and no row behind the last of them is tested.
pub fn kept_rows<'a>(
    alloc: Global,
    tests: &[Test],
    rows: &[&'a [u64]],
    limit: Option<usize>,
) -> Result<Vec<&'a [u64]>, AllocError>
    requires { EachFits (AreTestsOf tests.now) rows.now }
    ensures { IfOk result (λ kept. lent kept.items
        ≡ first_of limit (plain.kept_rows (map holds_of tests.now) (lent rows.now))) }
{
    let mut kept = Vec::new(alloc);
    for row in rows {
        if is_reached(limit, kept.len()) {
            return Ok(kept);
        }
        if all_hold(tests, row) {
            kept.push(*row)?;
        }
    }
    Ok(kept)
}

// Whether every test holds of a row.
fn all_hold(tests: &[Test], row: &[u64]) -> bool
    requires { All (IsTestOf (length row.now)) tests.now }
    ensures { result ≡ list_all (λ test. holds_of test row.now) tests.now }
{
    tests.iter().all(|test| test.holds_of(row))
}

/// Each row replaced by the words of its items.
pub fn rows_of_items(
    alloc: Global,
    items: &[Item],
    rows: &[&[u64]],
) -> Result<Vec<Vec<u64>>, AllocError>
    requires { EachFits (AreItemsOf items.now) rows.now }
    ensures { IfOk result (λ made. owned made.items
        ≡ plain.rows_of_items (map item_word items.now) (lent rows.now)) }
{
    let mut made = Vec::new(alloc);
    for row in rows {
        made.push(row_of_items(alloc, items, row)?)?;
    }
    Ok(made)
}

// The words of the items in a row.
fn row_of_items(alloc: Global, items: &[Item], row: &[u64]) -> Result<Vec<u64>, AllocError>
    requires { All (IsItemOf (length row.now)) items.now }
    ensures { IfOk result (λ made. made.items ≡ map (λ item. item_word item row.now) items.now) }
{
    let mut words = Vec::new(alloc);
    for item in items {
        words.push(item.word(row))?;
    }
    Ok(words)
}
