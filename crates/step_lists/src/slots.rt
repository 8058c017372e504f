//! The first slots of three parties.
#![tactic(auto)]

ghost use Rattle.std.specs.Prelude.{◌≡◌, IsTrue};
ghost use Rattle.lanes.specs.Three.{at};
ghost use Rattle.step_lists.specs.Layout.{party_of};
ghost use Rattle.step_lists.specs.Rules.{is_party};
ghost use Rattle.step_lists.specs.Shapes.{word_lists};

use crate::layout::party_of;
use lanes::Three;
use std::marker::Model;

/// Slots of each party, seen as three lists of lists of words.
#[derive(Debug, Drop)]
pub struct Slots {
    parties: Three<Vec<Vec<u64>>>,
}

impl Model for Slots {
    ghost use Rattle.std.specs.Prelude.{List, ℕ};
    ghost use Rattle.lanes.specs.declared.three.Three.{Three};
    ghost use Rattle.lanes.specs.Three.{each};
    ghost use Rattle.step_lists.specs.Shapes.{word_lists};

    ghost Value = { Three (List (List ℕ)) };

    ghost view = { λ s. each word_lists s.parties };
}

impl Slots {
    /// The slots of the first, the second and the third party.
    pub fn new(first: Vec<Vec<u64>>, second: Vec<Vec<u64>>, third: Vec<Vec<u64>>) -> Slots
        ensures { result ≡ record { first = word_lists first; second = word_lists second; third = word_lists third } }
    {
        Slots {
            parties: Three {
                first,
                second,
                third,
            },
        }
    }

    /// The slots of a party, 1 to 3.
    pub fn party(&self, party: u8) -> &Vec<Vec<u64>>
        requires { IsTrue (is_party party) }
        ensures { word_lists result.now ≡ at (party_of party) self.now }
    {
        self.parties.at(party_of(party))
    }

    /// The slots of the first, the second and the third party, with no copy.
    pub fn apart(self) -> (Vec<Vec<u64>>, Vec<Vec<u64>>, Vec<Vec<u64>>)
        ensures { record { first = word_lists result.0; second = word_lists result.1; third = word_lists result.2 } ≡ self }
    {
        let Slots {
            parties: Three {
                first,
                second,
                third,
            },
        } = self;
        (first, second, third)
    }
}
