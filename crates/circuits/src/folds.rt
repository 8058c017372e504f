//! What lanes are folded by, and one step of a fold.
#![tactic(auto)]

ghost use Rattle.std.specs.Prelude.{◌≡◌, ◌+◌, ◌*◌, ◌≤◌, length, IfOk, bit_and};
ghost use Rattle.lanes.specs.Lanes.{lanewise, lanewise1};
ghost use Rattle.wires.specs.Environment.{words};
ghost use Rattle.wires.specs.Growth.{Carries, Grows, IsMade, lanes_of};
ghost use Rattle.circuits.specs.Folds.{combine_calls, combine_cost, combine_wires, combined_word, masked_word};
ghost use Rattle.circuits.specs.Values.{cleared_lanes, raised_lanes};

use crate::bits::or;
use crate::choice::{greatest, least};
use crate::sums::add;
use lanes::word_laws;
use std::alloc::AllocError;
use wires::{Wire, Wires};

/// What words are folded by.
#[derive(Debug, Clone, Copy, PartialEq, Eq)]
pub enum Fold {
    /// The sum modulo 2^64.
    Sum,
    /// The least word.
    Least,
    /// The greatest word.
    Greatest,
    /// The or, bit by bit: of flags, whether any is 1.
    Any,
}

/// Two words as one, in each lane; 7 AND words a lane for a sum, 8 for the least and the greatest,
/// and one for any.
pub fn combine<W: Wires>(
    wires: &mut W,
    fold: Fold,
    left: Wire,
    right: Wire,
) -> Result<Wire, AllocError>
    requires left { IsMade (W.shape wires.old) left }
    requires right { IsMade (W.shape wires.old) right }
    requires lanes { lanes_of (W.shape wires.old) left ≡ lanes_of (W.shape wires.old) right }
    ensures grows { Grows W.grown W.possible W.shape wires.old wires.new }
    ensures ok { IfOk result (λ new. Carries (W.possible wires.new) (W.shape wires.new) new (lanes_of (W.shape wires.old) left)
        (λ v. lanewise (combined_word fold) (words v left) (words v right))) }
    ensures cost { W.ands wires.new ≤ W.ands wires.old + combine_cost fold * lanes_of (W.shape wires.old) left }
    ensures calls { W.and_calls wires.new ≤ W.and_calls wires.old + combine_calls fold }
    ensures wires { length (W.shape wires.new) ≤ length (W.shape wires.old) + combine_wires fold }
{
    match fold {
        Fold::Sum => {
            let new = add(wires, left, right)?;
            Ok(new)
        }
        Fold::Least => {
            let new = least(wires, left, right)?;
            Ok(new)
        }
        Fold::Greatest => {
            let new = greatest(wires, left, right)?;
            Ok(new)
        }
        Fold::Any => {
            let new = or(wires, left, right)?;
            Ok(new)
        }
    }
}

/// In each lane the word where bit 0 of the flag is 1, and else the word that changes no fold; one AND word a lane.
pub fn masked<W: Wires>(
    wires: &mut W,
    fold: Fold,
    flag: Wire,
    word: Wire,
) -> Result<Wire, AllocError>
    requires flag { IsMade (W.shape wires.old) flag }
    requires word { IsMade (W.shape wires.old) word }
    requires lanes { lanes_of (W.shape wires.old) flag ≡ lanes_of (W.shape wires.old) word }
    ensures grows { Grows W.grown W.possible W.shape wires.old wires.new }
    ensures ok { IfOk result (λ new. Carries (W.possible wires.new) (W.shape wires.new) new (lanes_of (W.shape wires.old) flag)
        (λ v. lanewise (masked_word fold) (words v flag) (words v word))) }
    ensures cost { W.ands wires.new ≤ W.ands wires.old + lanes_of (W.shape wires.old) flag }
    ensures calls { W.and_calls wires.new ≤ W.and_calls wires.old + 1 }
    ensures wires { length (W.shape wires.new) ≤ length (W.shape wires.old) + 4 }
{
    word_laws();
    match fold {
        Fold::Sum => {
            let new = cleared(wires, flag, word)?;
            Ok(new)
        }
        Fold::Least => {
            let new = raised(wires, flag, word)?;
            Ok(new)
        }
        Fold::Greatest => {
            let new = cleared(wires, flag, word)?;
            Ok(new)
        }
        Fold::Any => {
            let new = cleared(wires, flag, word)?;
            Ok(new)
        }
    }
}

// The word where the flag is 1, and else 0.
#[tactic(auto, unfolding(crate::specs::Values::cleared_lanes))]
fn cleared<W: Wires>(wires: &mut W, flag: Wire, word: Wire) -> Result<Wire, AllocError>
    requires flag { IsMade (W.shape wires.old) flag }
    requires word { IsMade (W.shape wires.old) word }
    requires lanes { lanes_of (W.shape wires.old) flag ≡ lanes_of (W.shape wires.old) word }
    ensures grows { Grows W.grown W.possible W.shape wires.old wires.new }
    ensures ok { IfOk result (λ new. Carries (W.possible wires.new) (W.shape wires.new) new (lanes_of (W.shape wires.old) flag)
        (λ v. cleared_lanes (words v flag) (words v word))) }
    ensures cost { W.ands wires.new ≤ W.ands wires.old + lanes_of (W.shape wires.old) flag }
    ensures calls { W.and_calls wires.new ≤ W.and_calls wires.old + 1 }
    ensures wires { length (W.shape wires.new) ≤ length (W.shape wires.old) + 2 }
{
    let mask = wires.spread(flag)?;
    let new = wires.and(mask, word)?;
    Ok(new)
}

// The word where the flag is 1, and else all ones.
#[tactic(auto, unfolding(crate::specs::Values::raised_lanes))]
fn raised<W: Wires>(wires: &mut W, flag: Wire, word: Wire) -> Result<Wire, AllocError>
    requires flag { IsMade (W.shape wires.old) flag }
    requires word { IsMade (W.shape wires.old) word }
    requires lanes { lanes_of (W.shape wires.old) flag ≡ lanes_of (W.shape wires.old) word }
    ensures grows { Grows W.grown W.possible W.shape wires.old wires.new }
    ensures ok { IfOk result (λ new. Carries (W.possible wires.new) (W.shape wires.new) new (lanes_of (W.shape wires.old) flag)
        (λ v. raised_lanes (words v flag) (words v word))) }
    ensures cost { W.ands wires.new ≤ W.ands wires.old + lanes_of (W.shape wires.old) flag }
    ensures calls { W.and_calls wires.new ≤ W.and_calls wires.old + 1 }
    ensures wires { length (W.shape wires.new) ≤ length (W.shape wires.old) + 4 }
{
    let turned = wires.not(word)?;
    let kept = cleared(wires, flag, turned)?;
    let new = wires.not(kept)?;
    Ok(new)
}
