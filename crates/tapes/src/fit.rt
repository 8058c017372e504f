ghost use Rattle.std.specs.Prelude.{◌≡◌, ◌↔◌, true, MatchBool, IfSome, IsNone, Some, slice_get};
ghost use Rattle.tapes.specs.Met.{IsMet};
ghost use Rattle.tapes.specs.NeedLaws.{IsFirstUnfit, IsUnmet};
ghost use Rattle.tapes.specs.Needs.{FitsNeeds};
ghost use Rattle.tapes.specs.Reading.{moved_past};

use crate::cursor::Cursor;
use crate::draw::Need;
use crate::needs::Needs;
use crate::tape::Tape;

impl Tape {
    /// The number of the first draw that isn't of the needed sort and length, `None` where the tape
    /// fits these needs. It is the number of draws where they are too few, and the number of needs
    /// where the draws are too many.
    pub fn first_unfit(&self, needs: &Needs) -> Option<u64>
        ensures fits { IsNone result ↔ FitsNeeds needs.now self.now }
        ensures unfit { IfSome result (λ d. IsFirstUnfit needs.now self.now d) }
    {
        let mut cursor = self.cursor();
        for run in needs.runs() {
            let need = run.need;
            for _draw in 0..run.count {
                let place = cursor.place();
                if !meets_next(&mut cursor, need) {
                    return Some(place as u64);
                }
            }
        }
        if cursor.place() < self.len() {
            return Some(cursor.place() as u64);
        }
        None
    }
}

// Whether the next draw meets a need; then the reader moves past it.
fn meets_next(cursor: &mut Cursor<'_>, need: Need) -> bool
    ensures { MatchBool result (IsMet need cursor.old × (cursor.new ≡ moved_past cursor.old true)) (IsUnmet (Some need) (slice_get cursor.old.draws cursor.old.place)) }
{
    match need {
        Need::Word => cursor.next_word().is_some(),
        Need::OrderOf(count) => match cursor.next_order() {
            Some(order) => order.places().len() == count as usize,
            None => false,
        },
    }
}
