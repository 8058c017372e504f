/// One of the three parties, who go round: after the third comes the first.
#[derive(Clone, Copy, Debug, PartialEq, Eq)]
pub enum Party {
    First,
    Second,
    Third,
}

impl Party {
    ghost use Rattle.std.specs.Prelude.{◌≡◌, ◌≤◌, ◌<◌, ◌⊎◌, IfNone, IfSome};
    ghost use Rattle.lanes.specs.Party.{next, before, number_of, party_at};

    /// The party after this one.
    pub fn next(self) -> Party
        ensures { result ≡ next self }
    {
        match self {
            Party::First => Party::Second,
            Party::Second => Party::Third,
            Party::Third => Party::First,
        }
    }

    /// The party before this one.
    pub fn before(self) -> Party
        ensures { result ≡ before self }
    {
        match self {
            Party::First => Party::Third,
            Party::Second => Party::First,
            Party::Third => Party::Second,
        }
    }

    /// Its number: 1, 2 or 3.
    pub fn number(self) -> u8
        ensures { result ≡ number_of self }
    {
        match self {
            Party::First => 1,
            Party::Second => 2,
            Party::Third => 3,
        }
    }

    /// The party of a number, `None` for any but 1, 2 and 3.
    pub fn of_number(number: u8) -> Option<Party>
        ensures { result ≡ party_at number }
    {
        match number {
            1 => Some(Party::First),
            2 => Some(Party::Second),
            3 => Some(Party::Third),
            _ => None,
        }
    }
}
