//! Laws of folds and of runs. Each function does nothing, and its contract is the law.
#![tactic(auto)]

ghost use Rattle.circuits.specs.Laws.{FoldsAreLawful, RunsOfBlocks, RunsOfOneBlock};

/// Words may be folded in any order, and the neutral word changes no fold.
pub fn folds_are_lawful()
    ensures { FoldsAreLawful }
{}

/// Where blocks of lanes lie one after the other and each begins a run, the folds and copies of a block's runs
/// depend on that block alone.
pub fn runs_of_blocks()
    ensures { RunsOfBlocks }
{}

/// In a block that is one run, the last lane has the fold of all its words, and each lane a copy of its first.
pub fn runs_of_one_block()
    ensures { RunsOfOneBlock }
{}
