//! Join: each pair of rows with equal keys.

ghost use Rattle.std.specs.Prelude.{◌≡◌, ℕ, ◌+◌, ◌*◌, ◌^◌, ◌<◌, ◌≤◌, All, length, map, slice_index, IfOk};
ghost use Rattle.lanes.specs.Lanes.{picked};
ghost use Rattle.wires.specs.Environment.{Environment, words};
ghost use Rattle.wires.specs.Growth.{Grows};
ghost use Rattle.padded.specs.Table.{AreBits, column_at};
ghost use Rattle.plain_operators.specs.Operators.{joined_rows, left_keys, right_keys};
ghost use Rattle.plain_operators.specs.Sizes.{joined_width};
ghost use Rattle.plain_operators.specs.Within.{HasColumns};
ghost use Rattle.shared_ops.specs.Costs.{join_cost};
ghost use Rattle.shared_ops.specs.Joint.{IsJoint, IsWide, Makes, column_words, joint_rows, valid_words};
ghost use Rattle.shared_ops.specs.Pairs.{columns_of_pairs};
ghost use Rattle.shared_ops.specs.Rounds.{join_calls};
ghost use Rattle.shared_ops.specs.Wired.{AreWired};

use crate::joint::Joint;
use crate::matched::matched;
use crate::numbers::{left_numbers, right_numbers};
use crate::pairs::{gathered, places_on_left, places_on_right};
use std::alloc::AllocError;
use wires::{Wire, Wires};

/// For each left row, for each right row with equal keys: the keys, the left's others and the right's others, at the
/// place of the pair. Each pair takes 7 AND words for each key and one more, all pairs by the same AND calls.
pub fn join_by<W: Wires>(
    wires: &mut W,
    left: &Joint,
    right: &Joint,
    keys: &[(u32, u32)],
) -> Result<Joint, AllocError>
    requires left { IsJoint (W.shape wires.old) left.now }
    requires right { IsJoint (W.shape wires.old) right.now }
    requires left_keys { HasColumns (left_keys keys.now) (length left.now.columns.items) }
    requires right_keys { HasColumns (right_keys keys.now) (length right.now.columns.items) }
    requires few { left.now.rows * right.now.rows < 2 ^ 32 }
    ensures grows { Grows W.grown W.possible W.shape wires.old wires.new }
    ensures makes { IfOk result (λ new. Makes (W.possible wires.new) (W.shape wires.new) new (left.now.rows * right.now.rows)
        (joined_width keys.now (length left.now.columns.items) (length right.now.columns.items))
        (λ v. AreBits (valid_words v left.now) × AreBits (valid_words v right.now)) (λ v. joined_rows keys.now (joint_rows v left.now) (joint_rows v right.now))) }
    ensures cost { W.ands wires.new ≤ W.ands wires.old + left.now.rows * right.now.rows * join_cost (length keys.now) }
    ensures calls { W.and_calls wires.new ≤ W.and_calls wires.old + join_calls (length keys.now) }
{
    // Laws: a table of pairs has the rows of those that match, which are the same bag as themselves.
    padded::laws::rows_of_pairs();
    bags::laws::bags_are_equivalence();
    lanes::item_laws();
    lanes::table_laws();
    let valid = matched(wires, left, right, keys)?;
    let columns = joined_columns(wires, left, right, keys)?;
    Ok(Joint {
        columns,
        valid,
        rows: left.rows * right.rows,
    })
}

// The columns of the pairs.
fn joined_columns<W: Wires>(
    wires: &mut W,
    left: &Joint,
    right: &Joint,
    keys: &[(u32, u32)],
) -> Result<Vec<Wire>, AllocError>
    requires left { IsJoint (W.shape wires.old) left.now }
    requires right { IsJoint (W.shape wires.old) right.now }
    requires left_keys { HasColumns (left_keys keys.now) (length left.now.columns.items) }
    requires few { left.now.rows * right.now.rows < 2 ^ 32 }
    ensures grows { Grows W.grown W.possible W.shape wires.old wires.new }
    ensures wide { IfOk result (λ made. All (IsWide (W.shape wires.new) (left.now.rows * right.now.rows)) made.items) }
    ensures count { IfOk result (λ made. length made.items ≡ joined_width keys.now (length left.now.columns.items) (length right.now.columns.items)) }
    ensures value { IfOk result (λ made. (v : Environment) → W.possible wires.new v
        → map (words v) made.items ≡ columns_of_pairs keys.now left.now.rows right.now.rows (column_words v left.now) (column_words v right.now)) }
    ensures cost { W.ands wires.new ≤ W.ands wires.old }
    ensures calls { W.and_calls wires.new ≤ W.and_calls wires.old }
{
    // Laws: each place of a table tells its row and its column.
    lanes::table_laws();
    let alloc = *left.columns.allocator();
    let left_numbers = left_numbers(alloc, keys, left.columns.as_slice().len())?;
    let right_numbers = right_numbers(alloc, keys, right.columns.as_slice().len())?;
    let lefts = places_on_left(alloc, left.rows, right.rows)?;
    let rights = places_on_right(alloc, left.rows, right.rows)?;
    let mut columns = columns_at(wires, left, left_numbers.as_slice(), lefts.as_slice())?;
    let others = columns_at(wires, right, right_numbers.as_slice(), rights.as_slice())?;
    columns.extend_from_slice(others.as_slice())?;
    Ok(columns)
}

// The columns of these numbers, with the words at these places.
fn columns_at<W: Wires>(
    wires: &mut W,
    table: &Joint,
    numbers: &[u32],
    places: &[u32],
) -> Result<Vec<Wire>, AllocError>
    requires joint { IsJoint (W.shape wires.old) table.now }
    requires numbers { HasColumns numbers.now (length table.now.columns.items) }
    requires few { length places.now < 2 ^ 32 }
    requires within { All (λ place. place < table.now.rows) places.now }
    ensures grows { Grows W.grown W.possible W.shape wires.old wires.new }
    ensures count { IfOk result (λ made. length made.items ≡ length numbers.now) }
    ensures ok { IfOk result (λ made. AreWired (W.possible wires.new) (W.shape wires.new) made.items (length places.now)
        (λ k v. picked places.now (column_at (column_words v table.now) (slice_index numbers.now k)))) }
    ensures cost { W.ands wires.new ≤ W.ands wires.old }
    ensures calls { W.and_calls wires.new ≤ W.and_calls wires.old }
{
    let mut made = Vec::new(*table.columns.allocator());
    for at in 0..numbers.len() {
        let column = gathered(wires, table.columns[numbers[at] as usize], places)?;
        made.push(column)?;
    }
    Ok(made)
}
