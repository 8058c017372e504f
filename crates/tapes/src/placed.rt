ghost use Rattle.std.specs.Prelude.{◌≡◌, ◌<◌, ◌≤◌, ◌+◌, ◌-◌, ◌^◌, length, drop};
ghost use Rattle.tapes.specs.Laid.{draws_from, IsLaid, StandsAt, words_before};

use crate::order::Order;

/// An order of a tape, and the number of its draw.
#[derive(Debug, Drop)]
pub(crate) struct PlacedOrder {
    pub(crate) place: usize,
    pub(crate) order: Order,
}

/// How many words come next at a place that so many orders stand before.
pub(crate) fn words_ready(
    words: &[u64],
    orders: &[PlacedOrder],
    place: usize,
    passed: usize,
) -> usize
    requires { StandsAt words.now orders.now place passed }
    ensures { result ≡ words_before place (drop (place - passed) words.now) (drop passed orders.now) }
{
    if passed < orders.len() {
        orders[passed].place - place
    } else {
        words.len() - (place - passed)
    }
}

/// How many orders stand before a place.
pub(crate) fn orders_before(words: &[u64], orders: &[PlacedOrder], place: usize) -> usize
    requires laid { IsLaid words.now orders.now }
    requires all { length words.now + length orders.now < 2 ^ 64 }
    requires within { place ≤ length (draws_from 0 words.now orders.now) }
    ensures { StandsAt words.now orders.now place result }
{
    let mut low = 0;
    let mut high = orders.len();
    while low < high {
        let middle = low + (high - low) / 2;
        if orders[middle].place < place {
            low = middle + 1;
        } else {
            high = middle;
        }
    }
    low
}
