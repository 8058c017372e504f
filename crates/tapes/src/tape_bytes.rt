ghost use Rattle.std.specs.Prelude.{◌≡◌, ◌<◌, ◌++◌, Ok, Err, Some, true, IfOk, OnOk, length, slice_get};
ghost use Rattle.tapes.specs.Bytes.{tape_bytes, draw_bytes, number_bytes};
ghost use Rattle.std.specs.Int.{w64, to_be_bytes};
ghost use Rattle.tapes.specs.declared.draw.Draw.{Draw};
ghost use Rattle.tapes.specs.Reading.{moved_past};
ghost use Rattle.tapes.specs.ReadTape.{ReadsTape, IsOnlyAnswer};
ghost use Rattle.tapes.specs.declared.tape_bytes.TapeFault.TheVariants.{Memory};

use crate::cursor::Cursor;
use crate::needs::Needs;
use crate::read_draw::{after, push_draw, width};
use crate::tape::Tape;
use byteorder::{BigEndian, ByteOrder};
use std::alloc::{AllocError, AllocFailed, Global};
use thiserror::Error;

/// Why bytes are no tape of the given needs; `at` is the number of a draw, counted from 0.
#[derive(Clone, Copy, Debug, PartialEq, Eq, Error)]
pub enum TapeFault {
    /// The bytes end within this draw or before it.
    #[error("short at {at}")]
    Short { at: u64 },
    /// Bytes follow the last draw; `at` is the number of draws.
    #[error("long at {at}")]
    Long { at: u64 },
    /// The numbers of this draw are no order.
    #[error("not an order at {at}")]
    NotOrder { at: u64 },
    /// There is not enough memory.
    #[error("out of memory")]
    Memory,
}

impl From<AllocError> for TapeFault {
    ghost from_gives = { λ _ e. e ≡ Memory };

    fn from(_: AllocError) -> TapeFault {
        TapeFault::Memory
    }
}

impl<T: Drop> From<AllocFailed<T>> for TapeFault {
    ghost from_gives = { λ _ e. e ≡ Memory };

    fn from(_: AllocFailed<T>) -> TapeFault {
        TapeFault::Memory
    }
}

/// The tape that the bytes spell for these needs, or the first fault in the order of draws.
pub fn read_tape(alloc: Global, bytes: &[u8], needs: &Needs) -> Result<Tape, TapeFault>
    ensures caused { ReadsTape needs.now bytes.now result }
    ensures exact { IsOnlyAnswer needs.now bytes.now result }
{
    read_draws(alloc, bytes, needs)
}

fn read_draws(alloc: Global, bytes: &[u8], needs: &Needs) -> Result<Tape, TapeFault>
    ensures { ReadsTape needs.now bytes.now result }
{
    let mut tape = Tape::with_room(alloc, needs.words().min(bytes.len() / 8))?;
    let mut rest = bytes;
    for run in needs.runs() {
        let need = run.need;
        let taken = width(need);
        for _draw in 0..run.count {
            let at = tape.len() as u64;
            if rest.len() < taken {
                return Err(TapeFault::Short { at });
            }
            if !push_draw(alloc, rest, need, &mut tape)? {
                return Err(TapeFault::NotOrder { at });
            }
            rest = after(rest, taken);
        }
    }
    if !rest.is_empty() {
        return Err(TapeFault::Long {
            at: needs.len() as u64,
        });
    }
    Ok(tape)
}

/// The bytes of a tape, one draw after the other.
pub fn write_tape(alloc: Global, tape: &Tape) -> Result<Vec<u8>, AllocError>
    ensures { IfOk result (λ bytes. bytes.items ≡ tape_bytes tape.now) }
{
    let mut bytes = Vec::with_capacity(alloc, tape.count_bytes())?;
    let mut cursor = tape.cursor();
    for _draw in 0..tape.len() {
        push_next(&mut bytes, &mut cursor)?;
    }
    Ok(bytes)
}

// The bytes of the next draw behind these bytes.
fn push_next(bytes: &mut Vec<u8>, cursor: &mut Cursor<'_>) -> Result<(), AllocError>
    requires { cursor.old.place < length cursor.old.draws }
    ensures bytes { OnOk result ((draw : Draw) → slice_get cursor.old.draws cursor.old.place ≡ Some draw → bytes.new.items ≡ bytes.old.items ++ draw_bytes draw) }
    ensures moves { cursor.new ≡ moved_past cursor.old true }
{
    if let Some(word) = cursor.next_word() {
        return push_word(bytes, word);
    }
    match cursor.next_order() {
        Some(order) => push_numbers(bytes, order.places()),
        None => Ok(()),
    }
}

fn push_word(bytes: &mut Vec<u8>, word: u64) -> Result<(), AllocError>
    ensures { OnOk result (bytes.new.items ≡ bytes.old.items ++ to_be_bytes w64 word) }
{
    let mut spelled = [0; 8];
    BigEndian::write_u64(&mut spelled, word);
    bytes.extend_from_slice(&spelled)
}

fn push_numbers(bytes: &mut Vec<u8>, numbers: &[u32]) -> Result<(), AllocError>
    ensures { OnOk result (bytes.new.items ≡ bytes.old.items ++ number_bytes numbers.now) }
{
    for number in numbers {
        let mut spelled = [0; 4];
        BigEndian::write_u32(&mut spelled, *number);
        bytes.extend_from_slice(&spelled)?;
    }
    Ok(())
}
