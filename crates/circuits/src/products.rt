//! Products of words.
#![tactic(auto)]

ghost use Rattle.std.specs.Prelude.{◌≡◌, ◌+◌, ◌*◌, ◌≤◌, length, IfOk};
ghost use Rattle.lanes.specs.CarrySave.{saved_terms};
ghost use Rattle.lanes.specs.Lanes.{lanewise};
ghost use Rattle.lanes.specs.Sums.{product_word};
ghost use Rattle.wires.specs.Environment.{words};
ghost use Rattle.wires.specs.Growth.{Carries, Grows, IsMade, lanes_of};
ghost use Rattle.circuits.specs.Values.{saved_carries, saved_sums, term_lanes};

use crate::carry_save::{Saved, save};
use crate::sums::add;
use lanes::word_laws;
use std::alloc::AllocError;
use wires::{Wire, Wires};

/// The product of two words modulo 2^64, in each lane; 133 AND words a lane.
///
/// The first word, moved up to each bit of the second that is 1, is added up: 64 terms, of which three words become
/// two with the same sum until two are left (after Wallace, 1964), and one addition.
pub fn mul<W: Wires>(wires: &mut W, left: Wire, right: Wire) -> Result<Wire, AllocError>
    requires left { IsMade (W.shape wires.old) left }
    requires right { IsMade (W.shape wires.old) right }
    requires lanes { lanes_of (W.shape wires.old) left ≡ lanes_of (W.shape wires.old) right }
    ensures grows { Grows W.grown W.possible W.shape wires.old wires.new }
    ensures ok { IfOk result (λ new. Carries (W.possible wires.new) (W.shape wires.new) new (lanes_of (W.shape wires.old) left)
        (λ v. lanewise product_word (words v left) (words v right))) }
    ensures cost { W.ands wires.new ≤ W.ands wires.old + 133 * lanes_of (W.shape wires.old) left }
    ensures calls { W.and_calls wires.new ≤ W.and_calls wires.old + 133 }
    ensures wires { length (W.shape wires.new) ≤ length (W.shape wires.old) + 744 }
{
    word_laws();
    let terms = terms_saved(wires, left, right)?;
    let new = add(wires, terms.sum, terms.carry)?;
    Ok(new)
}

// The terms of all 64 bits as two words; 126 AND words a lane.
fn terms_saved<W: Wires>(wires: &mut W, left: Wire, right: Wire) -> Result<Saved, AllocError>
    requires left { IsMade (W.shape wires.old) left }
    requires right { IsMade (W.shape wires.old) right }
    requires lanes { lanes_of (W.shape wires.old) left ≡ lanes_of (W.shape wires.old) right }
    ensures grows { Grows W.grown W.possible W.shape wires.old wires.new }
    ensures sum { IfOk result (λ new. Carries (W.possible wires.new) (W.shape wires.new) new.sum (lanes_of (W.shape wires.old) left)
        (λ v. lanewise (λ x y. (saved_terms 62 x y).sum) (words v left) (words v right))) }
    ensures carry { IfOk result (λ new. Carries (W.possible wires.new) (W.shape wires.new) new.carry (lanes_of (W.shape wires.old) left)
        (λ v. lanewise (λ x y. (saved_terms 62 x y).carry) (words v left) (words v right))) }
    ensures cost { W.ands wires.new ≤ W.ands wires.old + 126 * lanes_of (W.shape wires.old) left }
    ensures calls { W.and_calls wires.new ≤ W.and_calls wires.old + 126 }
    ensures wires { length (W.shape wires.new) ≤ length (W.shape wires.old) + 628 }
{
    let sum = term(wires, left, right, 0)?;
    let carry = term(wires, left, right, 1)?;
    let mut terms = Saved { sum, carry };
    for place in 0..62u32 {
        terms = save_term(wires, terms, left, right, place + 2)?;
    }
    Ok(terms)
}

// The terms so far with that of one more bit; two AND words a lane.
fn save_term<W: Wires>(
    wires: &mut W,
    terms: Saved,
    left: Wire,
    right: Wire,
    place: u32,
) -> Result<Saved, AllocError>
    requires sum { IsMade (W.shape wires.old) terms.sum }
    requires carry { IsMade (W.shape wires.old) terms.carry }
    requires left { IsMade (W.shape wires.old) left }
    requires right { IsMade (W.shape wires.old) right }
    requires sum_lanes { lanes_of (W.shape wires.old) terms.sum ≡ lanes_of (W.shape wires.old) left }
    requires carry_lanes { lanes_of (W.shape wires.old) terms.carry ≡ lanes_of (W.shape wires.old) left }
    requires lanes { lanes_of (W.shape wires.old) left ≡ lanes_of (W.shape wires.old) right }
    requires place { place ≤ 63 }
    ensures grows { Grows W.grown W.possible W.shape wires.old wires.new }
    ensures sum { IfOk result (λ new. Carries (W.possible wires.new) (W.shape wires.new) new.sum (lanes_of (W.shape wires.old) left)
        (λ v. saved_sums (words v terms.sum) (words v terms.carry) (term_lanes place (words v left) (words v right)))) }
    ensures carry { IfOk result (λ new. Carries (W.possible wires.new) (W.shape wires.new) new.carry (lanes_of (W.shape wires.old) left)
        (λ v. saved_carries (words v terms.sum) (words v terms.carry) (term_lanes place (words v left) (words v right)))) }
    ensures cost { W.ands wires.new ≤ W.ands wires.old + 2 * lanes_of (W.shape wires.old) left }
    ensures calls { W.and_calls wires.new ≤ W.and_calls wires.old + 2 }
    ensures wires { length (W.shape wires.new) ≤ length (W.shape wires.old) + 10 }
{
    let next = term(wires, left, right, place)?;
    let new = save(wires, terms.sum, terms.carry, next)?;
    Ok(new)
}

// The first word moved up to a bit of the second, where that bit is 1; one AND word a lane.
#[tactic(auto, unfolding(crate::specs::Values::term_lanes))]
fn term<W: Wires>(wires: &mut W, left: Wire, right: Wire, place: u32) -> Result<Wire, AllocError>
    requires left { IsMade (W.shape wires.old) left }
    requires right { IsMade (W.shape wires.old) right }
    requires lanes { lanes_of (W.shape wires.old) left ≡ lanes_of (W.shape wires.old) right }
    requires place { place ≤ 63 }
    ensures grows { Grows W.grown W.possible W.shape wires.old wires.new }
    ensures ok { IfOk result (λ new. Carries (W.possible wires.new) (W.shape wires.new) new (lanes_of (W.shape wires.old) left)
        (λ v. term_lanes place (words v left) (words v right))) }
    ensures cost { W.ands wires.new ≤ W.ands wires.old + lanes_of (W.shape wires.old) left }
    ensures calls { W.and_calls wires.new ≤ W.and_calls wires.old + 1 }
    ensures wires { length (W.shape wires.new) ≤ length (W.shape wires.old) + 4 }
{
    let bit = wires.right(right, place)?;
    let mask = wires.spread(bit)?;
    let moved = wires.left(left, place)?;
    let new = wires.and(mask, moved)?;
    Ok(new)
}
