//! One notion of a fold. Each function computes nothing, and its contract is the law.
#![tactic(auto)]

ghost use Rattle.circuits.specs.FoldLaws.{FoldsFromNeutral};

/// A fold of words from the first on is the fold from the neutral word.
pub fn folds_from_neutral()
    ensures { FoldsFromNeutral }
{
    lanes::fold_laws();
    crate::laws::folds_are_lawful();
}
