ghost use Rattle.std.specs.Prelude.{◌≡◌, ◌<◌, ◌++◌, length, map, vec_len, IfOk, OnOk};
ghost use Rattle.std.specs.List.{All};
ghost use Rattle.plain_operators.specs.Limits.{first_of, left_of};
ghost use Rattle.plain_operators.specs.Operators as plain;
ghost use Rattle.plain_operators.specs.Places.{joined_rows_at, joined_rows_found, rows_found};
ghost use Rattle.listed.specs.Lists.{lent, owned};
ghost use Rattle.plain_operators.specs.Within.{EachFits, HasColumns};

use crate::cut::{add_cut, add_others, cut_rows, lend};
use crate::key_places::RowIndex;
use crate::limit::{first_of, left_of};
use std::alloc::{AllocError, Global};

/// For each left row, for each right row with equal keys: the keys, then the left's other words, then the right's.
///
/// A key is a column of the left and one of the right. With a limit these are the first rows, so many at most, and no
/// other is made. Takes a look-up for each row in a hash map of the right's keys.
pub fn joined_rows(
    alloc: Global,
    keys: &[(u32, u32)],
    lefts: &[&[u64]],
    rights: &[&[u64]],
    limit: Option<usize>,
) -> Result<Vec<Vec<u64>>, AllocError>
    requires of_left { EachFits (HasColumns (plain.left_keys keys.now)) lefts.now }
    requires of_right { EachFits (HasColumns (plain.right_keys keys.now)) rights.now }
    ensures { IfOk result (λ made. owned made.items
        ≡ first_of limit (plain.joined_rows keys.now (lent lefts.now) (lent rights.now))) }
{
    let left_keys = left_keys(alloc, keys)?;
    let right_keys = right_keys(alloc, keys)?;
    let words = cut_rows(alloc, &right_keys, rights)?;
    let cut = lend(alloc, &right_keys, rights, &words)?;
    let index = RowIndex::new(alloc, &cut)?;
    rows_found(alloc, &left_keys, &right_keys, lefts, rights, &index, limit)
}

/// The columns of a join's keys on the left.
pub fn left_keys(alloc: Global, keys: &[(u32, u32)]) -> Result<Vec<u32>, AllocError>
    ensures { IfOk result (λ columns. columns.items ≡ plain.left_keys keys.now) }
{
    keys.iter().map(|key| key.0).collect(alloc)
}

/// The columns of a join's keys on the right.
pub fn right_keys(alloc: Global, keys: &[(u32, u32)]) -> Result<Vec<u32>, AllocError>
    ensures { IfOk result (λ columns. columns.items ≡ plain.right_keys keys.now) }
{
    keys.iter().map(|key| key.1).collect(alloc)
}

// The joined rows by an index of the right rows' keys.
fn rows_found(
    alloc: Global,
    left_keys: &[u32],
    right_keys: &[u32],
    lefts: &[&[u64]],
    rights: &[&[u64]],
    index: &RowIndex<'_>,
    limit: Option<usize>,
) -> Result<Vec<Vec<u64>>, AllocError>
    requires of_left { EachFits (HasColumns left_keys.now) lefts.now }
    requires indexed { length index.now ≡ length rights.now }
    ensures { IfOk result (λ made. owned made.items
        ≡ first_of limit
        (rows_found left_keys.now right_keys.now (lent rights.now) index.now (lent lefts.now))) }
{
    let mut made = Vec::new(alloc);
    for left in lefts {
        add_found(
            alloc, left_keys, right_keys, left, rights, index, limit, &mut made,
        )?;
    }
    Ok(made)
}

// Adds the joined rows of a left row, as many as the limit lets through.
fn add_found(
    alloc: Global,
    left_keys: &[u32],
    right_keys: &[u32],
    left: &[u64],
    rights: &[&[u64]],
    index: &RowIndex<'_>,
    limit: Option<usize>,
    made: &mut Vec<Vec<u64>>,
) -> Result<(), AllocError>
    requires of_left { HasColumns left_keys.now (length left.now) }
    requires indexed { length index.now ≡ length rights.now }
    ensures { OnOk result (owned made.new.items ≡ owned made.old.items
        ++ first_of (left_of limit (vec_len made.old))
        (joined_rows_found left_keys.now right_keys.now (lent rights.now) index.now left.now)) }
{
    let mut key = Vec::new(alloc);
    add_cut(left_keys, left, &mut key)?;
    let places = first_of(index.places(&key), left_of(limit, made.len()));
    add_joined(alloc, left_keys, right_keys, left, rights, places, made)
}

// Adds the joined rows of a left row and the right rows at these places.
fn add_joined(
    alloc: Global,
    left_keys: &[u32],
    right_keys: &[u32],
    left: &[u64],
    rights: &[&[u64]],
    places: &[usize],
    made: &mut Vec<Vec<u64>>,
) -> Result<(), AllocError>
    requires of_left { HasColumns left_keys.now (length left.now) }
    requires within { All (λ place. place < length rights.now) places.now }
    ensures { OnOk result (owned made.new.items ≡ owned made.old.items
        ++ joined_rows_at left_keys.now right_keys.now (lent rights.now) left.now places.now) }
{
    for place in places {
        let right = rights[*place];
        made.push(joined_row(alloc, left_keys, right_keys, left, right)?)?;
    }
    Ok(())
}

// The row of a left and a right row with equal keys.
fn joined_row(
    alloc: Global,
    left_keys: &[u32],
    right_keys: &[u32],
    left: &[u64],
    right: &[u64],
) -> Result<Vec<u64>, AllocError>
    requires { HasColumns left_keys.now (length left.now) }
    ensures { IfOk result (λ words. words.items
        ≡ plain.joined_words left_keys.now right_keys.now left.now right.now) }
{
    let mut words = Vec::new(alloc);
    add_cut(left_keys, left, &mut words)?;
    add_others(left_keys, left, &mut words)?;
    add_others(right_keys, right, &mut words)?;
    Ok(words)
}
