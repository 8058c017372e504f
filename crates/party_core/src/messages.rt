//! Words for the three parties.
#![tactic(auto)]

ghost use Rattle.std.specs.Prelude.{◌≡◌};
ghost use Rattle.step_lists.specs.Draws.{nothing};
ghost use Rattle.step_lists.specs.Seen.{same_party};
ghost use Rattle.party_core.specs.Holding.{lists};

use lanes::{Party, Three};
use std::alloc::Global;

/// Whether two parties are one.
pub(crate) fn same_party(left: Party, right: Party) -> bool
    ensures { result ≡ same_party left right }
{
    match left {
        Party::First => matches!(right, Party::First),
        Party::Second => matches!(right, Party::Second),
        Party::Third => matches!(right, Party::Third),
    }
}

/// No words.
pub(crate) fn no_words(alloc: Global) -> Three<Vec<u64>>
    ensures { lists result ≡ nothing }
{
    Three {
        first: Vec::new(alloc),
        second: Vec::new(alloc),
        third: Vec::new(alloc),
    }
}
