ghost use Rattle.std.specs.Prelude.{◌≡◌, ℕ, ◌+◌, ◌*◌, ◌<◌, ◌^◌, IfOk, OnOk};
ghost use Rattle.rand_chacha.specs.ChaCha.{word_at};
ghost use Rattle.tapes.specs.Made.{key_bytes, key_word, worded, IsSortedByWords, IsMadeDraw, IsMadeTape, AreMade};
ghost use Rattle.tapes.specs.Grown.{IsPushed};
ghost use Rattle.tapes.specs.Needs.{Meets, FitsNeeds, FitsSchedule};
ghost use Rattle.tapes.specs.Order.{IsShortOrder};

use crate::draw::{Need, Schedule};
use crate::needs::Needs;
use crate::order::Order;
use crate::pairs::numbers_of;
use crate::tape::{Tape, Tapes};
use byteorder::{BigEndian, ByteOrder};
use rand_chacha::ChaCha20Rng;
use rand_core::SeedableRng;
use rand_core::utils::NextWord;
use std::alloc::{AllocError, Global};

/// The tapes of a seed for a schedule: the words and orders of ChaCha20 streams, whose keys are
/// made of the seed, the tape's number and the draw's.
pub fn make_tapes(alloc: Global, schedule: &Schedule, seed: u64) -> Result<Tapes, AllocError>
    ensures made { IfOk result (λ tapes. AreMade schedule.now seed tapes) }
    ensures fits { IfOk result (λ tapes. FitsSchedule schedule.now tapes) }
{
    let first = make_tape(alloc, seed, 1, &schedule.first)?;
    let second = make_tape(alloc, seed, 2, &schedule.second)?;
    let third = make_tape(alloc, seed, 3, &schedule.third)?;
    Ok(Tapes {
        first,
        second,
        third,
    })
}

fn make_tape(alloc: Global, seed: u64, tape: u8, needs: &Needs) -> Result<Tape, AllocError>
    ensures made { IfOk result (λ made. IsMadeTape seed tape needs.now made) }
    ensures fits { IfOk result (λ made. FitsNeeds needs.now made) }
{
    let mut made = Tape::with_room(alloc, needs.words())?;
    let mut words = ChaCha20Rng::from_seed(key(seed, tape, 0));
    for run in needs.runs() {
        for _draw in 0..run.count {
            let number = made.len() as u64;
            let word = next_word(&mut words);
            push_made(alloc, seed, tape, number, run.need, word, &mut made)?;
        }
    }
    Ok(made)
}

// Draw number `number` of a tape behind the earlier ones, where `word` is that word of the tape's
// key for words.
fn push_made(
    alloc: Global,
    seed: u64,
    tape: u8,
    number: u64,
    need: Need,
    word: u64,
    made: &mut Tape,
) -> Result<(), AllocError>
    requires number { number + 1 < 2 ^ 64 }
    requires word { word ≡ key_word (key_bytes seed tape 0) number }
    ensures pushed { OnOk result (IsPushed (λ draw. IsMadeDraw seed tape number need draw × Meets need draw) made.old made.new) }
{
    match need {
        Need::Word => made.push_word(word),
        Need::OrderOf(count) => {
            let order = order_by_words(alloc, key(seed, tape, number + 1), count)?;
            made.push_order(order)
        }
    }
}

// The key of a tape and a number.
fn key(seed: u64, tape: u8, number: u64) -> [u8; 32]
    ensures { result ≡ key_bytes seed tape number }
{
    let mut key = [0; 32];
    BigEndian::write_u64(&mut key, seed);
    key[8] = tape;
    BigEndian::write_u64(&mut key[9..], number);
    key
}

// The next two words of 32 bits as one, the first as the high half.
fn next_word(words: &mut ChaCha20Rng) -> u64
    requires { words.old.word_pos + 2 < 2 ^ 68 }
    ensures value { result ≡ word_at 10 words.old.key words.old.stream words.old.word_pos * 2 ^ 32 + word_at 10 words.old.key words.old.stream (words.old.word_pos + 1) }
    ensures moves { words.new ≡ record words.old { word_pos = words.old.word_pos + 2 } }
{
    let high = words.next_word();
    let low = words.next_word();
    u64::from(high) * 0x1_0000_0000 + u64::from(low)
}

// The numbers below a count, sorted by the words of a key and then by themselves.
fn order_by_words(alloc: Global, key: [u8; 32], count: u32) -> Result<Order, AllocError>
    ensures sorted { IfOk result (λ order. IsSortedByWords (λ i. key_word key i) count order) }
    ensures short { IfOk result (λ order. IsShortOrder order) }
{
    let mut worded = worded_numbers(alloc, key, count)?;
    worded.sort_unstable();
    let places = numbers_of(alloc, &worded)?;
    Ok(Order::from_permutation(places))
}

// Each number below a count after its word of the key.
fn worded_numbers(alloc: Global, key: [u8; 32], count: u32) -> Result<Vec<(u64, u32)>, AllocError>
    ensures { IfOk result (λ pairs. pairs.items ≡ worded (λ i. key_word key i) count) }
{
    let mut pairs = Vec::with_capacity(alloc, count as usize)?;
    let mut words = ChaCha20Rng::from_seed(key);
    for i in 0..count {
        pairs.push((next_word(&mut words), i))?;
    }
    Ok(pairs)
}
