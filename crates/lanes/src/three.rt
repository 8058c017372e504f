use crate::party::Party;

/// A value for each party.
#[derive(Debug, Drop)]
pub struct Three<T> {
    pub first: T,
    pub second: T,
    pub third: T,
}

impl<T> Three<T> {
    ghost use Rattle.std.specs.Prelude.{◌≡◌};
    ghost use Rattle.lanes.specs.Three.{at};

    /// The value of one party.
    pub fn at(&self, party: Party) -> &T
        ensures { result.now ≡ at party self.now }
    {
        match party {
            Party::First => &self.first,
            Party::Second => &self.second,
            Party::Third => &self.third,
        }
    }
}

impl<T: Drop> Three<T> {
    ghost use Rattle.std.specs.Prelude.{◌≡◌};
    ghost use Rattle.lanes.specs.Three.{put};

    /// Puts a value in the place of one party's.
    pub fn put(&mut self, party: Party, value: T)
        ensures { self.new ≡ put party value self.old }
    {
        match party {
            Party::First => self.first = value,
            Party::Second => self.second = value,
            Party::Third => self.third = value,
        }
    }
}
