ghost use Rattle.std.specs.Prelude.{◌≡◌, ℕ, ◌*◌, ◌≤◌, ◌<◌, ◌^◌, ◌++◌, IfOk, MatchBool, Some, None, length, drop, slice_index};
ghost use Rattle.std.specs.Int.{w32, w64, to_be_bytes};
ghost use Rattle.tapes.specs.Bytes.{number_bytes};
ghost use Rattle.tapes.specs.Grown.{IsPushed};
ghost use Rattle.tapes.specs.Needs.{width_of};
ghost use Rattle.tapes.specs.ReadDraw.{ReadsDraw};

use crate::draw::Need;
use crate::order::Order;
use crate::tape::Tape;
use std::alloc::{AllocError, Global};

/// How many bytes a draw of this sort takes.
pub(crate) fn width(need: Need) -> usize
    ensures { result ≡ width_of need }
{
    match need {
        Need::Word => 8,
        Need::OrderOf(count) => 4 * count as usize,
    }
}

/// Puts the draw that the bytes begin with behind a tape's draws; false where its numbers are no
/// order, and then the tape stays.
pub(crate) fn push_draw(
    alloc: Global,
    bytes: &[u8],
    need: Need,
    tape: &mut Tape,
) -> Result<bool, AllocError>
    requires { width_of need ≤ length bytes.now }
    ensures ok { IfOk result (λ is_draw. MatchBool is_draw (IsPushed (λ draw. ReadsDraw need bytes.now (Some draw)) tape.old tape.new) (ReadsDraw need bytes.now None × (tape.new ≡ tape.old))) }
{
    match need {
        Need::Word => tape.push_word(read_word(bytes))?,
        Need::OrderOf(count) => {
            let numbers = read_numbers(alloc, bytes, count)?;
            match Order::new(numbers) {
                Ok(order) => tape.push_order(order)?,
                Err(_) => return Ok(false),
            }
        }
    }
    Ok(true)
}

/// What follows the first `count` bytes.
pub(crate) fn after(bytes: &[u8], count: usize) -> &[u8]
    requires { count ≤ length bytes.now }
    ensures { result.now ≡ drop count bytes.now }
{
    bytes.split_at(count).1
}

fn read_word(bytes: &[u8]) -> u64
    requires { 8 ≤ length bytes.now }
    ensures { bytes.now ≡ to_be_bytes w64 result ++ drop 8 bytes.now }
{
    u64::from_be_bytes([
        bytes[0], bytes[1], bytes[2], bytes[3], bytes[4], bytes[5], bytes[6], bytes[7],
    ])
}

fn read_number(bytes: &[u8]) -> u32
    requires { 4 ≤ length bytes.now }
    ensures { bytes.now ≡ to_be_bytes w32 result ++ drop 4 bytes.now }
{
    u32::from_be_bytes([bytes[0], bytes[1], bytes[2], bytes[3]])
}

fn read_numbers(alloc: Global, bytes: &[u8], count: u32) -> Result<Vec<u32>, AllocError>
    requires { 4 * count ≤ length bytes.now }
    ensures count { IfOk result (λ numbers. length numbers.items ≡ count) }
    ensures small { IfOk result (λ numbers. (k : ℕ) → slice_index numbers.items k < 2 ^ 32) }
    ensures spelled { IfOk result (λ numbers. bytes.now ≡ number_bytes numbers.items ++ drop (4 * count) bytes.now) }
{
    let mut numbers = Vec::with_capacity(alloc, count as usize)?;
    for i in 0..count {
        numbers.push(read_number(after(bytes, 4 * i as usize)))?;
    }
    Ok(numbers)
}
