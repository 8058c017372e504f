//! Where the two worlds read their tapes.

ghost use Rattle.std.specs.Prelude.{◌≡◌, ◌≤◌, drop, length};
ghost use Rattle.lanes.specs.declared.party.Party.{Party};
ghost use Rattle.lanes.specs.Three.{at, put};
ghost use Rattle.step_lists.specs.Layout.{party_of};
ghost use Rattle.step_lists.specs.Seen.{same_party};
ghost use Rattle.joint_machine.specs.Left.{draws_of, lefts};
ghost use Rattle.twin.specs.Passing.{left_at};

use lanes::{Party, Three};
use tapes::{Cursor, Tape, Tapes};

/// The party of a number; one that isn't 1 or 2 is taken as the third.
pub(crate) fn party_of(number: u8) -> Party
    ensures { result ≡ party_of number }
{
    match number {
        1 => Party::First,
        2 => Party::Second,
        _ => Party::Third,
    }
}

/// Whether two parties are one.
pub(crate) fn is_same(party: Party, other: Party) -> bool
    ensures { result ≡ same_party party other }
{
    match (party, other) {
        (Party::First, Party::First) => true,
        (Party::Second, Party::Second) => true,
        (Party::Third, Party::Third) => true,
        _ => false,
    }
}

/// The tape of a party.
pub(crate) fn tape_of(tapes: &Tapes, party: Party) -> &Tape
    ensures { result.now ≡ at party (draws_of tapes.now) }
{
    match party {
        Party::First => &tapes.first,
        Party::Second => &tapes.second,
        Party::Third => &tapes.third,
    }
}

/// Readers of three tapes from these places on.
pub(crate) fn readers_at<'a>(tapes: &'a Tapes, places: &Three<usize>) -> Three<Cursor<'a>>
    requires { (p : Party) → at p places.now ≤ length (at p (draws_of tapes.now)) }
    ensures { lefts result ≡ left_at places.now (draws_of tapes.now) }
{
    Three {
        first: tapes.first.cursor_at(places.first),
        second: tapes.second.cursor_at(places.second),
        third: tapes.third.cursor_at(places.third),
    }
}

/// The same readers, with one of the tape that is made in the place of the unseen one.
pub(crate) fn readers_with<'a>(
    tapes: &'a Tapes,
    places: &Three<usize>,
    unseen: Party,
    made: &'a Tape,
    place: usize,
) -> Three<Cursor<'a>>
    requires places { (p : Party) → at p places.now ≤ length (at p (draws_of tapes.now)) }
    requires place { place ≤ length made.now }
    ensures { lefts result ≡ put unseen (drop place made.now) (left_at places.now (draws_of tapes.now)) }
{
    let mut readers = readers_at(tapes, places);
    readers.put(unseen, made.cursor_at(place));
    readers
}
