ghost use Rattle.std.specs.Prelude.{◌≡◌, ℕ, ◌<◌, ◌≤◌, ◌%◌, ◌^◌, ◌↔◌, ◌≢◌, IsTrue, MatchBool, length, slice_index};
ghost use Rattle.tapes.specs.Order.{IsOrder, IsShortOrder, AllBelow, NoneTwice};

// The bit that no place has in a list of at most this many.
const MARK: u32 = 0x8000_0000;

/// Whether the numbers are an order of their count; they are left as they were. Takes no memory:
/// each number marks its place by the highest bit, and the marks are taken off again.
pub(crate) fn is_order(places: &mut [u32]) -> bool
    ensures same { places.new ≡ places.old }
    ensures order { IsTrue result ↔ IsShortOrder places.old }
    ensures exact { IsTrue result ↔ IsOrder places.old }
{
    all_below(places) && none_twice(places)
}

fn all_below(places: &[u32]) -> bool
    ensures { IsTrue result ↔ AllBelow places.now }
{
    for place in places {
        if *place as usize >= places.len() {
            return false;
        }
    }
    true
}

fn none_twice(places: &mut [u32]) -> bool
    requires { AllBelow places.old }
    ensures same { places.new ≡ places.old }
    ensures apart { IsTrue result ↔ NoneTwice places.old }
{
    if places.len() > MARK as usize {
        return none_twice_in_pairs(places);
    }
    let apart = mark(places);
    unmark(places);
    apart
}

// Marks the place of each number, up to the first number whose place has a mark already.
fn mark(places: &mut [u32]) -> bool
    requires short { length places.old ≤ 2 ^ 31 }
    requires below { AllBelow places.old }
    ensures kept { (k : ℕ) → k < length places.old → slice_index places.new k % 2 ^ 31 ≡ slice_index places.old k }
    ensures apart { IsTrue result ↔ NoneTwice places.old }
{
    for i in 0..places.len() {
        let place = (places[i] % MARK) as usize;
        if places[place] >= MARK {
            return false;
        }
        places[place] += MARK;
    }
    true
}

fn unmark(places: &mut [u32])
    ensures { (k : ℕ) → k < length places.old → slice_index places.new k ≡ slice_index places.old k % 2 ^ 31 }
{
    for place in places.iter_mut() {
        *place %= MARK;
    }
}

// The plain test, for lists so long that a number may have the highest bit itself.
fn none_twice_in_pairs(places: &[u32]) -> bool
    ensures { IsTrue result ↔ NoneTwice places.now }
{
    for i in 0..places.len() {
        if occurs_before(places, i) {
            return false;
        }
    }
    true
}

// Whether the number at an index stands before it too.
fn occurs_before(places: &[u32], index: usize) -> bool
    requires { index < length places.now }
    ensures { MatchBool result ((k : ℕ) × (k < index) × (slice_index places.now k ≡ slice_index places.now index)) ((k : ℕ) → k < index → slice_index places.now k ≢ slice_index places.now index) }
{
    for i in 0..index {
        if places[i] == places[index] {
            return true;
        }
    }
    false
}
