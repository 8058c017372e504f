//! Parts of a node's rows, and their places.
#![tactic(auto)]

ghost use Rattle.std.specs.Prelude.{◌≡◌};
ghost use Rattle.std.specs.List.{list_all, list_any};
ghost use Rattle.rewrites.specs.Parts.{clear_party, common_party, is_at, is_clear_at, is_joint, is_joint_place, only_place, whole_place};

/// Where rows lie: in the clear at one party, or shared by all three.
#[derive(Clone, Copy, Debug, PartialEq, Eq)]
pub enum PartPlace {
    Clear(u8),
    Joint,
}

/// A part of a node's rows: its place, and how many rows it has at most.
#[derive(Clone, Copy, Debug, PartialEq, Eq)]
pub struct Part {
    pub place: PartPlace,
    pub rows: u32,
}

impl PartPlace {
    fn is_at(self, party: u8) -> bool
        ensures { result ≡ is_at party self }
    {
        match self {
            PartPlace::Clear(other) => other == party,
            PartPlace::Joint => false,
        }
    }

    fn is_joint(self) -> bool
        ensures { result ≡ is_joint_place self }
    {
        match self {
            PartPlace::Clear(_) => false,
            PartPlace::Joint => true,
        }
    }

    // Its party, where all these parts are clear at it too.
    fn common_party(self, parts: &[Part]) -> Option<u8>
        ensures { result ≡ common_party self parts.now }
    {
        match self {
            PartPlace::Clear(party) => {
                if are_clear_at(parts, party) {
                    Some(party)
                } else {
                    None
                }
            }
            PartPlace::Joint => None,
        }
    }
}

impl Part {
    fn is_clear_at(&self, party: u8) -> bool
        ensures { result ≡ is_clear_at party self.now }
    {
        self.place.is_at(party)
    }

    fn is_joint(&self) -> bool
        ensures { result ≡ is_joint self.now }
    {
        self.place.is_joint()
    }
}

fn are_clear_at(parts: &[Part], party: u8) -> bool
    ensures { result ≡ list_all (λ part. is_clear_at party part) parts.now }
{
    parts.iter().all(|part| part.is_clear_at(party))
}

// Whether one of them is joint.
pub(crate) fn some_is_joint(parts: &[Part]) -> bool
    ensures { result ≡ list_any (λ part. is_joint part) parts.now }
{
    parts.iter().any(|part| part.is_joint())
}

// The one party at which all of them are clear.
pub(crate) fn clear_party(parts: &[Part]) -> Option<u8>
    ensures { result ≡ clear_party parts.now }
{
    match parts {
        [] => None,
        [first, rest @ ..] => first.place.common_party(rest),
    }
}

// The place of an only part.
pub(crate) fn only_place(parts: &[Part]) -> Option<PartPlace>
    ensures { result ≡ only_place parts.now }
{
    match parts {
        [only] => Some(only.place),
        _ => None,
    }
}

// The place of all their rows together.
pub(crate) fn whole_place(parts: &[Part]) -> PartPlace
    ensures { result ≡ whole_place parts.now }
{
    match clear_party(parts) {
        Some(party) => PartPlace::Clear(party),
        None => PartPlace::Joint,
    }
}
