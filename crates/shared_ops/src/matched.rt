//! Which pairs of rows match: both are valid, and their keys are equal.

ghost use Rattle.std.specs.Prelude.{◌≡◌, ◌+◌, ◌*◌, ◌^◌, ◌<◌, ◌≤◌, All, bit_and, length, IfOk};
ghost use Rattle.lanes.specs.Lanes.{lanewise, picked};
ghost use Rattle.lanes.specs.Sums.{equal_word};
ghost use Rattle.plain_operators.specs.Operators.{left_keys, right_keys};
ghost use Rattle.plain_operators.specs.Within.{HasColumns};
ghost use Rattle.wires.specs.Environment.{words};
ghost use Rattle.wires.specs.Growth.{Carries, Grows, IsMade, lanes_of};
ghost use Rattle.shared_ops.specs.Joint.{IsJoint, IsWide};
ghost use Rattle.shared_ops.specs.Pairs.{IsMatched};
ghost use Rattle.shared_ops.specs.Rounds.{join_calls};

use crate::joint::Joint;
use crate::pairs::{gathered, places_on_left, places_on_right};
use circuits::eq;
use std::alloc::AllocError;
use wires::{Wire, Wires};

// 1 in the lane of each pair of valid rows with equal keys, and else 0: one AND word a lane for the valid words, and for
// each key those of its comparison and one more.
pub(crate) fn matched<W: Wires>(
    wires: &mut W,
    left: &Joint,
    right: &Joint,
    keys: &[(u32, u32)],
) -> Result<Wire, AllocError>
    requires left { IsJoint (W.shape wires.old) left.now }
    requires right { IsJoint (W.shape wires.old) right.now }
    requires left_keys { HasColumns (left_keys keys.now) (length left.now.columns.items) }
    requires right_keys { HasColumns (right_keys keys.now) (length right.now.columns.items) }
    requires few { left.now.rows * right.now.rows < 2 ^ 32 }
    ensures grows { Grows W.grown W.possible W.shape wires.old wires.new }
    ensures ok { IfOk result (λ new. IsMatched (W.possible wires.new) (W.shape wires.new) keys.now left.now right.now new) }
    ensures cost { W.ands wires.new ≤ W.ands wires.old + left.now.rows * right.now.rows * (7 * length keys.now + 1) }
    ensures calls { W.and_calls wires.new ≤ W.and_calls wires.old + join_calls (length keys.now) }
{
    // Laws: each place of a table tells its row and its column.
    lanes::table_laws();
    let alloc = *left.columns.allocator();
    let lefts = places_on_left(alloc, left.rows, right.rows)?;
    let rights = places_on_right(alloc, left.rows, right.rows)?;
    let mut matched = both_valid(
        wires,
        left.valid,
        right.valid,
        lefts.as_slice(),
        rights.as_slice(),
    )?;
    for key in keys {
        let left_key = left.columns[key.0 as usize];
        let right_key = right.columns[key.1 as usize];
        matched = and_equal(
            wires,
            matched,
            left_key,
            right_key,
            lefts.as_slice(),
            rights.as_slice(),
        )?;
    }
    Ok(matched)
}

// The and of the valid words of each pair.
fn both_valid<W: Wires>(
    wires: &mut W,
    left: Wire,
    right: Wire,
    lefts: &[u32],
    rights: &[u32],
) -> Result<Wire, AllocError>
    requires left { IsMade (W.shape wires.old) left }
    requires right { IsMade (W.shape wires.old) right }
    requires left_places { All (λ place. place < lanes_of (W.shape wires.old) left) lefts.now }
    requires right_places { All (λ place. place < lanes_of (W.shape wires.old) right) rights.now }
    requires count { length rights.now ≡ length lefts.now }
    requires few { length lefts.now < 2 ^ 32 }
    ensures grows { Grows W.grown W.possible W.shape wires.old wires.new }
    ensures ok { IfOk result (λ new. Carries (W.possible wires.new) (W.shape wires.new) new (length lefts.now)
        (λ v. lanewise bit_and (picked lefts.now (words v left)) (picked rights.now (words v right)))) }
    ensures cost { W.ands wires.new ≤ W.ands wires.old + length lefts.now }
    ensures calls { W.and_calls wires.new ≤ W.and_calls wires.old + 1 }
{
    let left = gathered(wires, left, lefts)?;
    let right = gathered(wires, right, rights)?;
    let new = wires.and(left, right)?;
    Ok(new)
}

// The and with 1 where the words of both columns are equal, and else 0.
fn and_equal<W: Wires>(
    wires: &mut W,
    matched: Wire,
    left: Wire,
    right: Wire,
    lefts: &[u32],
    rights: &[u32],
) -> Result<Wire, AllocError>
    requires matched { IsWide (W.shape wires.old) (length lefts.now) matched }
    requires left { IsMade (W.shape wires.old) left }
    requires right { IsMade (W.shape wires.old) right }
    requires left_places { All (λ place. place < lanes_of (W.shape wires.old) left) lefts.now }
    requires right_places { All (λ place. place < lanes_of (W.shape wires.old) right) rights.now }
    requires count { length rights.now ≡ length lefts.now }
    requires few { length lefts.now < 2 ^ 32 }
    ensures grows { Grows W.grown W.possible W.shape wires.old wires.new }
    ensures ok { IfOk result (λ new. Carries (W.possible wires.new) (W.shape wires.new) new (length lefts.now)
        (λ v. lanewise bit_and (words v matched) (lanewise equal_word (picked lefts.now (words v left)) (picked rights.now (words v right))))) }
    ensures cost { W.ands wires.new ≤ W.ands wires.old + 7 * length lefts.now }
    ensures calls { W.and_calls wires.new ≤ W.and_calls wires.old + 7 }
{
    let left = gathered(wires, left, lefts)?;
    let right = gathered(wires, right, rights)?;
    let equal = eq(wires, left, right)?;
    let new = wires.and(matched, equal)?;
    Ok(new)
}
