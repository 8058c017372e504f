//! The rules of a well-formed list, tested on a layout and a step.
#![tactic(auto)]

ghost use Rattle.std.specs.Prelude.{◌≡◌, ◌<◌, ◌≤◌, ◌^◌, ◌-◌, ◌&&◌, ℕ, min, length, map, IsTrue, IfOk, ◌==◌, nat_lt, nat_le, not};
ghost use Rattle.std.specs.List.{list_all};
ghost use Rattle.lanes.specs.Three.{at};
ghost use Rattle.step_lists.specs.Layout.{party_of, length_of, shape_of, rows_moved, grown};
ghost use Rattle.step_lists.specs.Rules.{is_empty, is_party, is_register, is_slot, is_words, is_one_word, is_order_of, move_together, words_of_all, fits_lin, fits_layout, is_small};

use crate::layout::{Layout, is_party, rows_moved};
use crate::step::{LinOp, Shape, Step};
use crate::task::Task;
use std::alloc::{AllocError, Global};

fn is_words(shape: Shape) -> bool
    ensures { result ≡ is_words shape }
{
    matches!(shape, Shape::Words(_))
}

fn is_one_word(shape: Shape) -> bool
    ensures { result ≡ is_one_word shape }
{
    match shape {
        Shape::Words(count) => count == 1,
        Shape::OrderOf(_) => false,
    }
}

fn is_order_of(rows: u32, shape: Shape) -> bool
    ensures { result ≡ is_order_of rows shape }
{
    match shape {
        Shape::Words(_) => false,
        Shape::OrderOf(count) => count == rows,
    }
}

// Words are below 2^64 by their type, so only their number is looked at.
fn fits_const(words: &[u64]) -> bool
    ensures { result ≡ (list_all (λ w. nat_lt w (2 ^ 64)) words.now && nat_lt (length words.now) (2 ^ 32)) }
{
    words.len() <= u32::MAX as usize
}

fn are_below(places: &[u32], bound: u128) -> bool
    ensures { result ≡ list_all (λ p. nat_lt p bound) places.now }
{
    places.iter().all(|place| (*place as u128) < bound)
}

// How many words registers have, one after the other.
fn words_of_all(layout: &Layout, sources: &[u32]) -> u128
    ensures { result ≡ words_of_all layout.now.now sources.now }
{
    let mut count = 0u128;
    for source in sources {
        count += layout.length(*source) as u128;
    }
    count
}

// Whether these registers were made.
fn are_registers(layout: &Layout, registers: &[u32]) -> bool
    ensures { result ≡ list_all (is_register layout.now.now) registers.now }
{
    registers
        .iter()
        .all(|register| layout.is_register(*register))
}

// Whether these slots of a party were made.
fn are_slots(layout: &Layout, party: u8, slots: &[u32]) -> bool
    ensures { result ≡ list_all (is_slot layout.now.now party) slots.now }
{
    slots.iter().all(|slot| layout.is_slot(party, *slot))
}

// Whether a register was made with so many rows.
fn has_rows(layout: &Layout, register: u32, rows: u32) -> bool
    ensures { result ≡ (is_register layout.now.now register && (length_of layout.now.now register == rows)) }
{
    layout.is_register(register) && layout.length(register) == rows
}

// Whether all these registers were made with so many rows.
fn have_rows(layout: &Layout, moved: &[u32], rows: u32) -> bool
    ensures { result ≡ list_all (λ r. is_register layout.now.now r && (length_of layout.now.now r == rows)) moved.now }
{
    moved
        .iter()
        .all(|register| has_rows(layout, *register, rows))
}

// Whether these registers have one length and are at least one.
fn move_together(layout: &Layout, moved: &[u32]) -> bool
    ensures { result ≡ move_together layout.now.now moved.now }
{
    !moved.is_empty() && have_rows(layout, moved, rows_moved(layout, moved))
}

// Whether an operation's registers and places are there.
fn fits_lin(layout: &Layout, op: &LinOp) -> bool
    ensures { result ≡ fits_lin layout.now.now op.now }
{
    match op {
        LinOp::Xor(left, right) => {
            layout.is_register(*left)
                && layout.is_register(*right)
                && layout.length(*left) == layout.length(*right)
        }
        LinOp::Not(register) => layout.is_register(*register),
        LinOp::Left(register, by) => layout.is_register(*register) && *by <= 63,
        LinOp::Right(register, by) => layout.is_register(*register) && *by <= 63,
        LinOp::Mask(register, _) => layout.is_register(*register),
        LinOp::Spread(register) => layout.is_register(*register),
        LinOp::Gather { sources, places } => fits_gather(
            layout,
            sources.as_slice(),
            places.as_slice(),
        ),
    }
}

fn fits_gather(layout: &Layout, sources: &[u32], places: &[u32]) -> bool
    ensures { result ≡ (list_all (is_register layout.now.now) sources.now
        && list_all (λ p. nat_lt p (words_of_all layout.now.now sources.now)) places.now && nat_lt (length places.now) (2 ^ 32)) }
{
    are_registers(layout, sources)
        && are_below(places, words_of_all(layout, sources))
        && places.len() <= u32::MAX as usize
}

// The shapes of these slots of a party.
fn shapes_of(
    alloc: Global,
    layout: &Layout,
    party: u8,
    slots: &[u32],
) -> Result<Vec<Shape>, AllocError>
    ensures { IfOk result (λ shapes. shapes.items ≡ map (shape_of layout.now.now (party_of party)) slots.now) }
{
    slots
        .iter()
        .map(|slot| layout.shape(party, *slot))
        .collect(alloc)
}

// Whether a task takes these slots and gives these shapes.
fn fits_work<T: Task>(
    alloc: Global,
    layout: &Layout,
    party: u8,
    task: &T,
    takes: &[u32],
    gives: &[Shape],
) -> Result<bool, AllocError>
    ensures { IfOk result (λ fits. fits ≡ (is_party party && list_all (is_slot layout.now.now party) takes.now
        && T.accepts task.now (map (shape_of layout.now.now (party_of party)) takes.now) gives.now)) }
{
    if !is_party(party) || !are_slots(layout, party, takes) {
        return Ok(false);
    }
    let shapes = shapes_of(alloc, layout, party, takes)?;
    Ok(task.fits(&shapes, gives))
}

// Whether these are places of so many items, and at least one.
fn are_shown(shown: &[u32], moved: usize) -> bool
    ensures { result ≡ (not (is_empty shown.now) && list_all (λ k. nat_lt k moved) shown.now) }
{
    !shown.is_empty() && are_below(shown, moved as u128)
}

/// Whether what a step names was made, and has the lengths and shapes that go with it.
pub(crate) fn fits_layout<T: Task>(
    alloc: Global,
    layout: &Layout,
    step: &Step<T>,
) -> Result<bool, AllocError>
    ensures { IfOk result (λ fits. fits ≡ fits_layout T.accepts layout.now.now step.now) }
{
    match step {
        Step::Const { words } => Ok(fits_const(words.as_slice())),
        Step::Lin { op } => Ok(fits_lin(layout, op)),
        Step::And { left, right } => Ok(
            layout.is_register(*left)
                && layout.is_register(*right)
                && layout.length(*left) == layout.length(*right),
        ),
        Step::Share { party, slot } => {
            Ok(layout.is_slot(*party, *slot) && is_words(layout.shape(*party, *slot)))
        }
        Step::Reveal { to, moved, shown } => Ok(
            is_party(*to)
                && move_together(layout, moved.as_slice())
                && are_shown(shown.as_slice(), moved.len()),
        ),
        Step::Steer { by, slot, moved } => Ok(
            layout.is_slot(*by, *slot)
                && move_together(layout, moved.as_slice())
                && is_order_of(
                    rows_moved(layout, moved.as_slice()),
                    layout.shape(*by, *slot),
                ),
        ),
        Step::Tell {
            source,
            target,
            slot,
        } => Ok(
            layout.is_slot(*source, *slot)
                && is_party(*target)
                && *source != *target
                && is_words(layout.shape(*source, *slot)),
        ),
        Step::Work {
            party,
            task,
            takes,
            gives,
        } => fits_work(
            alloc,
            layout,
            *party,
            task,
            takes.as_slice(),
            gives.as_slice(),
        ),
        Step::Flag { party, slot } => {
            Ok(layout.is_slot(*party, *slot) && is_one_word(layout.shape(*party, *slot)))
        }
    }
}
