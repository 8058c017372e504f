//! Comparisons of words, as flags.

ghost use Rattle.std.specs.Prelude.{◌≡◌, ◌+◌, ◌*◌, ◌≤◌, not, nat_eq, nat_lt, bit_and, if◌then◌else◌, IfOk};
ghost use Rattle.lanes.specs.Lanes.{lanewise, lanewise1};
ghost use Rattle.lanes.specs.Word.{word_not};
ghost use Rattle.wires.specs.Environment.{words};
ghost use Rattle.wires.specs.Growth.{Carries, Grows, IsMade, lanes_of};
ghost use Rattle.shared_ops.specs.Costs.{comparison_cost};
ghost use Rattle.shared_ops.specs.Lanes.{compared_lanes};
ghost use Rattle.shared_ops.specs.Rounds.{comparison_calls};

use circuits::{eq, lt};
use plain_operators::Comparison;
use std::alloc::AllocError;
use wires::{Wire, Wires};

// In each lane 1 where the comparison holds, and else 0.
pub(crate) fn compare<W: Wires>(
    wires: &mut W,
    comparison: Comparison,
    left: Wire,
    right: Wire,
) -> Result<Wire, AllocError>
    requires left { IsMade (W.shape wires.old) left }
    requires right { IsMade (W.shape wires.old) right }
    requires lanes { lanes_of (W.shape wires.old) left ≡ lanes_of (W.shape wires.old) right }
    ensures grows { Grows W.grown W.possible W.shape wires.old wires.new }
    ensures ok { IfOk result (λ new. Carries (W.possible wires.new) (W.shape wires.new) new (lanes_of (W.shape wires.old) left)
        (λ v. compared_lanes comparison (words v left) (words v right))) }
    ensures cost { W.ands wires.new ≤ W.ands wires.old + comparison_cost comparison * lanes_of (W.shape wires.old) left }
    ensures calls { W.and_calls wires.new ≤ W.and_calls wires.old + comparison_calls comparison }
{
    match comparison {
        Comparison::Equal => {
            let new = eq(wires, left, right)?;
            Ok(new)
        }
        Comparison::Different => {
            let new = differ(wires, left, right)?;
            Ok(new)
        }
        Comparison::Less => {
            let new = lt(wires, left, right)?;
            Ok(new)
        }
        Comparison::LessOrEqual => {
            let new = not_below(wires, right, left)?;
            Ok(new)
        }
        Comparison::Greater => {
            let new = lt(wires, right, left)?;
            Ok(new)
        }
        Comparison::GreaterOrEqual => {
            let new = not_below(wires, left, right)?;
            Ok(new)
        }
    }
}

// In each lane 1 where the words differ, and else 0.
fn differ<W: Wires>(wires: &mut W, left: Wire, right: Wire) -> Result<Wire, AllocError>
    requires left { IsMade (W.shape wires.old) left }
    requires right { IsMade (W.shape wires.old) right }
    requires lanes { lanes_of (W.shape wires.old) left ≡ lanes_of (W.shape wires.old) right }
    ensures grows { Grows W.grown W.possible W.shape wires.old wires.new }
    ensures ok { IfOk result (λ new. Carries (W.possible wires.new) (W.shape wires.new) new (lanes_of (W.shape wires.old) left)
        (λ v. lanewise (λ x y. if not (nat_eq x y) then 1 else 0) (words v left) (words v right))) }
    ensures cost { W.ands wires.new ≤ W.ands wires.old + 6 * lanes_of (W.shape wires.old) left }
    ensures calls { W.and_calls wires.new ≤ W.and_calls wires.old + 6 }
{
    let equal = eq(wires, left, right)?;
    let new = flipped(wires, equal)?;
    Ok(new)
}

// In each lane 1 where the left word isn't less than the right one, and else 0.
fn not_below<W: Wires>(wires: &mut W, left: Wire, right: Wire) -> Result<Wire, AllocError>
    requires left { IsMade (W.shape wires.old) left }
    requires right { IsMade (W.shape wires.old) right }
    requires lanes { lanes_of (W.shape wires.old) left ≡ lanes_of (W.shape wires.old) right }
    ensures grows { Grows W.grown W.possible W.shape wires.old wires.new }
    ensures ok { IfOk result (λ new. Carries (W.possible wires.new) (W.shape wires.new) new (lanes_of (W.shape wires.old) left)
        (λ v. lanewise (λ x y. if not (nat_lt x y) then 1 else 0) (words v left) (words v right))) }
    ensures cost { W.ands wires.new ≤ W.ands wires.old + 13 * lanes_of (W.shape wires.old) left }
    ensures calls { W.and_calls wires.new ≤ W.and_calls wires.old + 7 }
{
    let below = lt(wires, left, right)?;
    let new = flipped(wires, below)?;
    Ok(new)
}

// A flag turned: bit 0 of its not.
fn flipped<W: Wires>(wires: &mut W, flag: Wire) -> Result<Wire, AllocError>
    requires { IsMade (W.shape wires.old) flag }
    ensures grows { Grows W.grown W.possible W.shape wires.old wires.new }
    ensures ok { IfOk result (λ new. Carries (W.possible wires.new) (W.shape wires.new) new (lanes_of (W.shape wires.old) flag)
        (λ v. lanewise1 (λ x. bit_and x 1) (lanewise1 word_not (words v flag)))) }
    ensures cost { W.ands wires.new ≤ W.ands wires.old }
    ensures calls { W.and_calls wires.new ≤ W.and_calls wires.old }
{
    let turned = wires.not(flag)?;
    let new = wires.mask(turned, 1)?;
    Ok(new)
}
