//! What the steps draw of three tapes, read from the front.
#![tactic(auto)]

ghost use Rattle.std.specs.Prelude.{◌≡◌, ◌++◌, ◌∷◌, [], ◌*◌, IfOk, Some, drop, length, replicate};
ghost use Rattle.lanes.specs.Three.{each};
ghost use Rattle.tapes.specs.declared.draw.Need.TheVariants.{Word, OrderOf};
ghost use Rattle.tapes.specs.Reading.{first_words};
ghost use Rattle.step_lists.specs.Draws.{needs_each, needs_reveal, needs_steer, taken, dropped, words_in};
ghost use Rattle.joint_machine.specs.Left.{left, lefts, first_order, needs_share, AreNext, HasWords, HasOrder, IsNext, Takes, IsShareDraw, IsRevealDraw, IsSteerDraw};
ghost use Rattle.joint_machine.specs.Ready.{HasRows};
ghost use Rattle.joint_machine.specs.Seen.{slices};
ghost use Rattle.joint_machine.specs.Steps.{IsDrawnFor, drawn};

use crate::phases::Drawn;
use lanes::{Party, Three};
use std::alloc::AllocError;
use tapes::{Cursor, Order, cursor_laws};

// The next words of one tape.
#[tactic(auto, using(crate::proofs::LeftDraws::dropped_on))]
fn next_words<'a>(cursor: &mut Cursor<'a>, count: usize) -> &'a [u64]
    requires { HasWords count (left cursor.old) }
    ensures words { first_words count (left cursor.old) ≡ Some result.now }
    ensures left { left cursor.new ≡ drop count (left cursor.old) }
{
    cursor.next_words(count).unwrap()
}

// The next order of one tape.
#[tactic(auto, using(crate::proofs::LeftDraws::dropped_on, crate::proofs::LeftDraws::order_is_first))]
fn next_order<'a>(cursor: &mut Cursor<'a>) -> &'a Order
    requires { HasOrder (left cursor.old) }
    ensures order { first_order (left cursor.old) ≡ Some result.now }
    ensures left { left cursor.new ≡ drop 1 (left cursor.old) }
{
    cursor.next_order().unwrap()
}

/// The masks of an And: so many words of each tape.
pub(crate) fn draw_masks<'a>(tapes: &mut Three<Cursor<'a>>, count: usize) -> Three<&'a [u64]>
    requires { AreNext (needs_each count) (lefts tapes.old) }
    ensures rows { HasRows count (slices result) }
    ensures masks { slices result ≡ each words_in (taken (needs_each count) (lefts tapes.old)) }
    ensures left { lefts tapes.new ≡ dropped (needs_each count) (lefts tapes.old) }
{
    cursor_laws();
    Three {
        first: next_words(&mut tapes.first, count),
        second: next_words(&mut tapes.second, count),
        third: next_words(&mut tapes.third, count),
    }
}

// Of a Share what is drawn of the party's own tape and of the next one.
fn share_draws<'a>(
    own: &mut Cursor<'a>,
    following: &mut Cursor<'a>,
    count: usize,
) -> (&'a [u64], &'a [u64])
    requires own { IsNext (replicate count Word ++ []) (left own.old) }
    requires following { IsNext (replicate count Word) (left following.old) }
    ensures own_long { length result.0.now ≡ count }
    ensures following_long { length result.1.now ≡ count }
    ensures own { Takes (replicate count Word ++ []) (left own.old) result.0.now [] (left own.new) }
    ensures following { Takes (replicate count Word) (left following.old) result.1.now [] (left following.new) }
{
    cursor_laws();
    let own = next_words(own, count);
    let following = next_words(following, count);
    (own, following)
}

/// The masks of a Share: of a party's own tape and of the next one.
pub(crate) fn draw_share<'a>(
    tapes: &mut Three<Cursor<'a>>,
    party: Party,
    count: usize,
) -> (&'a [u64], &'a [u64])
    requires { AreNext (needs_share party count) (lefts tapes.old) }
    ensures { IsShareDraw party count (lefts tapes.old) result.0.now result.1.now (lefts tapes.new) }
{
    match party {
        Party::First => share_draws(&mut tapes.first, &mut tapes.second, count),
        Party::Second => share_draws(&mut tapes.second, &mut tapes.third, count),
        Party::Third => share_draws(&mut tapes.third, &mut tapes.first, count),
    }
}

/// What a Reveal draws: an order and two masks for each phase.
#[derive(Clone, Copy, Debug)]
pub struct RevealDraws<'a> {
    /// Of the first party's phase.
    pub one: Drawn<'a>,
    /// Of the second party's.
    pub two: Drawn<'a>,
    /// Of the third party's.
    pub three: Drawn<'a>,
}

// How many words so many registers have. More than 2^64 - 1 are more than memory holds draws, and count as want of
// memory.
fn count_words(moved: usize, rows: usize) -> Result<usize, AllocError>
    ensures { IfOk result (λ count. count ≡ moved * rows) }
{
    moved.checked_mul(rows).ok_or(AllocError)
}

// What a Reveal draws of the first tape.
fn reveal_first<'a>(
    tape: &mut Cursor<'a>,
    rows: usize,
    count: usize,
) -> (&'a Order, &'a [u64], &'a [u64])
    requires { IsNext (OrderOf rows ∷ ((replicate count Word ++ []) ++ replicate count Word)) (left tape.old) }
    ensures order { length result.0.now ≡ rows }
    ensures one { length result.1.now ≡ count }
    ensures two { length result.2.now ≡ count }
    ensures takes { Takes (OrderOf rows ∷ ((replicate count Word ++ []) ++ replicate count Word)) (left tape.old) (result.1.now ++ result.2.now) result.0.now (left tape.new) }
{
    cursor_laws();
    let order = next_order(tape);
    let one = next_words(tape, count);
    let two = next_words(tape, count);
    (order, one, two)
}

// What a Reveal draws of the second tape.
fn reveal_second<'a>(
    tape: &mut Cursor<'a>,
    rows: usize,
    count: usize,
) -> (&'a [u64], &'a Order, &'a [u64])
    requires { IsNext (replicate count Word ++ (OrderOf rows ∷ (replicate count Word ++ []))) (left tape.old) }
    ensures order { length result.1.now ≡ rows }
    ensures one { length result.0.now ≡ count }
    ensures two { length result.2.now ≡ count }
    ensures takes { Takes (replicate count Word ++ (OrderOf rows ∷ (replicate count Word ++ []))) (left tape.old) (result.0.now ++ result.2.now) result.1.now (left tape.new) }
{
    cursor_laws();
    let one = next_words(tape, count);
    let order = next_order(tape);
    let two = next_words(tape, count);
    (one, order, two)
}

// What a Reveal draws of the third tape.
fn reveal_third<'a>(
    tape: &mut Cursor<'a>,
    rows: usize,
    count: usize,
) -> (&'a [u64], &'a [u64], &'a Order)
    requires { IsNext ((replicate count Word ++ []) ++ (replicate count Word ++ (OrderOf rows ∷ []))) (left tape.old) }
    ensures order { length result.2.now ≡ rows }
    ensures one { length result.0.now ≡ count }
    ensures two { length result.1.now ≡ count }
    ensures takes { Takes ((replicate count Word ++ []) ++ (replicate count Word ++ (OrderOf rows ∷ []))) (left tape.old) (result.0.now ++ result.1.now) result.2.now (left tape.new) }
{
    cursor_laws();
    let one = next_words(tape, count);
    let two = next_words(tape, count);
    let order = next_order(tape);
    (one, two, order)
}

/// What a Reveal of so many registers draws.
pub fn draw_reveal<'a>(
    tapes: &mut Three<Cursor<'a>>,
    moved: usize,
    rows: usize,
) -> Result<RevealDraws<'a>, AllocError>
    requires { AreNext (needs_reveal moved rows) (lefts tapes.old) }
    ensures { IfOk result (λ d. IsRevealDraw moved rows (lefts tapes.old)
        (drawn d.one.order.now d.one.mask.now d.one.other.now)
        (drawn d.two.order.now d.two.mask.now d.two.other.now)
        (drawn d.three.order.now d.three.mask.now d.three.other.now) (lefts tapes.new)) }
{
    let count = count_words(moved, rows)?;
    let (first, second_mask, third_other) = reveal_first(&mut tapes.first, rows, count);
    let (first_other, second, third_mask) = reveal_second(&mut tapes.second, rows, count);
    let (first_mask, second_other, third) = reveal_third(&mut tapes.third, rows, count);
    Ok(RevealDraws {
        one: Drawn {
            order: first,
            mask: first_mask,
            other: first_other,
        },
        two: Drawn {
            order: second,
            mask: second_mask,
            other: second_other,
        },
        three: Drawn {
            order: third,
            mask: third_mask,
            other: third_other,
        },
    })
}

/// What a Steer draws: an order and two masks for the first phase, two masks for the second one.
#[derive(Clone, Copy, Debug)]
pub struct SteerDraws<'a> {
    /// Of the phase whose order is drawn.
    pub one: Drawn<'a>,
    /// What masks the words that the steering party takes.
    pub mask: &'a [u64],
    /// What masks the words that it gives back.
    pub other: &'a [u64],
}

// Of a Steer what is drawn of the party's own tape, the next one and the one before.
fn steer_draws<'a>(
    own: &mut Cursor<'a>,
    following: &mut Cursor<'a>,
    earlier: &mut Cursor<'a>,
    rows: usize,
    count: usize,
) -> SteerDraws<'a>
    requires own { IsNext ((replicate count Word ++ []) ++ []) (left own.old) }
    requires following { IsNext (OrderOf rows ∷ replicate count Word) (left following.old) }
    requires earlier { IsNext (replicate count Word ++ (replicate count Word ++ [])) (left earlier.old) }
    ensures one { IsDrawnFor rows count (drawn result.one.order.now result.one.mask.now result.one.other.now) }
    ensures mask { length result.mask.now ≡ count }
    ensures other { length result.other.now ≡ count }
    ensures own { Takes ((replicate count Word ++ []) ++ []) (left own.old) result.one.mask.now [] (left own.new) }
    ensures following { Takes (OrderOf rows ∷ replicate count Word) (left following.old) result.other.now result.one.order.now (left following.new) }
    ensures earlier { Takes (replicate count Word ++ (replicate count Word ++ [])) (left earlier.old) (result.one.other.now ++ result.mask.now) [] (left earlier.new) }
{
    cursor_laws();
    let order = next_order(following);
    let other = next_words(following, count);
    let own = next_words(own, count);
    let first_other = next_words(earlier, count);
    let mask = next_words(earlier, count);
    SteerDraws {
        one: Drawn {
            order,
            mask: own,
            other: first_other,
        },
        mask,
        other,
    }
}

/// What a party's Steer of so many registers draws.
pub fn draw_steer<'a>(
    tapes: &mut Three<Cursor<'a>>,
    by: Party,
    moved: usize,
    rows: usize,
) -> Result<SteerDraws<'a>, AllocError>
    requires { AreNext (needs_steer by moved rows) (lefts tapes.old) }
    ensures { IfOk result (λ d. IsSteerDraw by moved rows (lefts tapes.old)
        (drawn d.one.order.now d.one.mask.now d.one.other.now) d.mask.now d.other.now (lefts tapes.new)) }
{
    let count = count_words(moved, rows)?;
    let Three {
        first,
        second,
        third,
    } = tapes;
    Ok(match by {
        Party::First => steer_draws(first, second, third, rows, count),
        Party::Second => steer_draws(second, third, first, rows, count),
        Party::Third => steer_draws(third, first, second, rows, count),
    })
}
