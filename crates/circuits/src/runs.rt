//! Runs of lanes: the fold of each run so far, and copies of its first words.
#![tactic(auto)]

ghost use Rattle.std.specs.Prelude.{◌≡◌, ℕ, ◌+◌, ◌*◌, ◌^◌, ◌≤◌, Option, Some, None, length, IfOk};
ghost use Rattle.lanes.specs.Lanes.{lanewise};
ghost use Rattle.lanes.specs.Logarithm.{ceil_log2};
ghost use Rattle.lanes.specs.Sums.{sum_word};
ghost use Rattle.wires.specs.Environment.{words};
ghost use Rattle.wires.specs.Growth.{Carries, Grows, IsMade, lanes_of};
ghost use Rattle.circuits.specs.Folds.{combine_calls, combine_cost, combine_wires, combined_word};
ghost use Rattle.circuits.specs.RunLoops.{LevelFlags, further_folds, taken_calls, taken_cost, taken_wires, taken_word};
ghost use Rattle.circuits.specs.Runs.{runs_folded};

use crate::choice::mux;
use crate::folds::{Fold, combine};
use crate::run_flags::{level_flags, moved_along};
use lanes::log_laws;
use std::alloc::{AllocError, Global};
use wires::{Wire, Wires};

/// In each lane the fold of its run so far.
///
/// Lane 0 begins a run, and a later lane belongs to the run of the lane before exactly where bit 0 of its word
/// in `joined` is 1. On n lanes it costs, for each level of the least number l with n at most 2^l, the AND
/// words of `combine` and two more a lane, and as many AND calls as `combine` has and two more. The reach of a
/// fold doubles with each level (after Hillis and Steele, 1986).
pub fn run_folds<W: Wires>(
    wires: &mut W,
    alloc: Global,
    fold: Fold,
    joined: Wire,
    column: Wire,
) -> Result<Wire, AllocError>
    requires joined { IsMade (W.shape wires.old) joined }
    requires column { IsMade (W.shape wires.old) column }
    requires lanes { lanes_of (W.shape wires.old) joined ≡ lanes_of (W.shape wires.old) column }
    ensures grows { Grows W.grown W.possible W.shape wires.old wires.new }
    ensures ok { IfOk result (λ new. Carries (W.possible wires.new) (W.shape wires.new) new (lanes_of (W.shape wires.old) joined)
        (λ v. runs_folded (combined_word fold) (words v joined) (words v column))) }
    ensures cost { W.ands wires.new ≤ W.ands wires.old
        + (combine_cost fold + 2) * ceil_log2 (lanes_of (W.shape wires.old) joined) * lanes_of (W.shape wires.old) joined }
    ensures calls { W.and_calls wires.new ≤ W.and_calls wires.old + (combine_calls fold + 2) * ceil_log2 (lanes_of (W.shape wires.old) joined) }
    ensures wires { length (W.shape wires.new) ≤ length (W.shape wires.old)
        + (3 + (combine_wires fold + 7) * ceil_log2 (lanes_of (W.shape wires.old) joined)) }
{
    log_laws();
    let flags = level_flags(wires, alloc, joined)?;
    let new = scan(wires, alloc, Some(fold), joined, flags.as_slice(), column)?;
    Ok(new)
}

/// In each lane the sum of its run so far, modulo 2^64; 9 AND words a lane and level, by the runs and levels of
/// `run_folds`.
pub fn run_sums<W: Wires>(
    wires: &mut W,
    alloc: Global,
    joined: Wire,
    column: Wire,
) -> Result<Wire, AllocError>
    requires joined { IsMade (W.shape wires.old) joined }
    requires column { IsMade (W.shape wires.old) column }
    requires lanes { lanes_of (W.shape wires.old) joined ≡ lanes_of (W.shape wires.old) column }
    ensures grows { Grows W.grown W.possible W.shape wires.old wires.new }
    ensures ok { IfOk result (λ new. Carries (W.possible wires.new) (W.shape wires.new) new (lanes_of (W.shape wires.old) joined)
        (λ v. runs_folded sum_word (words v joined) (words v column))) }
    ensures cost { W.ands wires.new ≤ W.ands wires.old + 9 * ceil_log2 (lanes_of (W.shape wires.old) joined) * lanes_of (W.shape wires.old) joined }
    ensures calls { W.and_calls wires.new ≤ W.and_calls wires.old + 9 * ceil_log2 (lanes_of (W.shape wires.old) joined) }
    ensures wires { length (W.shape wires.new) ≤ length (W.shape wires.old) + (3 + 123 * ceil_log2 (lanes_of (W.shape wires.old) joined)) }
{
    let new = run_folds(wires, alloc, Fold::Sum, joined, column)?;
    Ok(new)
}

// The folds of a column's runs, or copies of its first words where there is no fold; a level costs one AND word a
// lane, and those of the fold.
pub(crate) fn scan<W: Wires>(
    wires: &mut W,
    alloc: Global,
    fold: Option<Fold>,
    joined: Wire,
    flags: &[Wire],
    column: Wire,
) -> Result<Wire, AllocError>
    requires joined { IsMade (W.shape wires.old) joined }
    requires column { IsMade (W.shape wires.old) column }
    requires lanes { lanes_of (W.shape wires.old) joined ≡ lanes_of (W.shape wires.old) column }
    requires flags { LevelFlags (W.possible wires.old) (W.shape wires.old) flags.now joined (lanes_of (W.shape wires.old) joined) }
    requires enough { lanes_of (W.shape wires.old) joined ≤ 2 ^ length flags.now }
    requires few { length flags.now ≤ 32 }
    ensures grows { Grows W.grown W.possible W.shape wires.old wires.new }
    ensures ok { IfOk result (λ new. Carries (W.possible wires.new) (W.shape wires.new) new (lanes_of (W.shape wires.old) joined)
        (λ v. runs_folded (taken_word fold) (words v joined) (words v column))) }
    ensures cost { W.ands wires.new ≤ W.ands wires.old + (taken_cost fold + 1) * length flags.now * lanes_of (W.shape wires.old) joined }
    ensures calls { W.and_calls wires.new ≤ W.and_calls wires.old + (taken_calls fold + 1) * length flags.now }
    ensures wires { length (W.shape wires.new) ≤ length (W.shape wires.old) + (taken_wires fold + 5) * length flags.now }
{
    let mut folded = column;
    for level in 0..flags.len() {
        folded = further(wires, alloc, fold, flags[level], folded, 1 << level)?;
    }
    Ok(folded)
}

// One level more: where the run reaches back so far, the word of the lane there is taken in.
#[tactic(auto, unfolding(crate::specs::RunLoops::further_folds))]
fn further<W: Wires>(
    wires: &mut W,
    alloc: Global,
    fold: Option<Fold>,
    flag: Wire,
    folded: Wire,
    places: u32,
) -> Result<Wire, AllocError>
    requires flag { IsMade (W.shape wires.old) flag }
    requires folded { IsMade (W.shape wires.old) folded }
    requires lanes { lanes_of (W.shape wires.old) flag ≡ lanes_of (W.shape wires.old) folded }
    ensures grows { Grows W.grown W.possible W.shape wires.old wires.new }
    ensures ok { IfOk result (λ new. Carries (W.possible wires.new) (W.shape wires.new) new (lanes_of (W.shape wires.old) folded)
        (λ v. further_folds (taken_word fold) places (words v flag) (words v folded))) }
    ensures cost { W.ands wires.new ≤ W.ands wires.old + (taken_cost fold + 1) * lanes_of (W.shape wires.old) folded }
    ensures calls { W.and_calls wires.new ≤ W.and_calls wires.old + (taken_calls fold + 1) }
    ensures wires { length (W.shape wires.new) ≤ length (W.shape wires.old) + (taken_wires fold + 5) }
{
    let moved = moved_along(wires, alloc, folded, places)?;
    let both = take(wires, fold, moved, folded)?;
    let new = mux(wires, flag, both, folded)?;
    Ok(new)
}

// The earlier word folded in, or as it is.
fn take<W: Wires>(
    wires: &mut W,
    fold: Option<Fold>,
    earlier: Wire,
    later: Wire,
) -> Result<Wire, AllocError>
    requires earlier { IsMade (W.shape wires.old) earlier }
    requires later { IsMade (W.shape wires.old) later }
    requires lanes { lanes_of (W.shape wires.old) earlier ≡ lanes_of (W.shape wires.old) later }
    ensures grows { Grows W.grown W.possible W.shape wires.old wires.new }
    ensures ok { IfOk result (λ new. Carries (W.possible wires.new) (W.shape wires.new) new (lanes_of (W.shape wires.old) earlier)
        (λ v. lanewise (taken_word fold) (words v earlier) (words v later))) }
    ensures cost { W.ands wires.new ≤ W.ands wires.old + taken_cost fold * lanes_of (W.shape wires.old) earlier }
    ensures calls { W.and_calls wires.new ≤ W.and_calls wires.old + taken_calls fold }
    ensures wires { length (W.shape wires.new) ≤ length (W.shape wires.old) + taken_wires fold }
{
    match fold {
        Some(fold) => {
            let new = combine(wires, fold, earlier, later)?;
            Ok(new)
        }
        None => Ok(earlier),
    }
}
