//! The lengths of registers and the shapes of slots that a list of steps has made so far.
#![tactic(auto)]

ghost use Rattle.std.specs.Prelude.{◌≡◌, All, ◌<◌, ◌^◌, ◌+◌, ◌++◌, length, replicate, IsTrue, slice_get, is_ok, nat_lt, if◌then◌else◌};
ghost use Rattle.lanes.specs.Three.{at};
ghost use Rattle.step_lists.specs.Layout.{party_of, starting, length_of, shape_of, count_in, lin_length, rows_moved, grown, with_lengths, with_shapes};
ghost use Rattle.step_lists.specs.Laid.{IsGrown, revealed};
ghost use Rattle.step_lists.specs.Rules.{fits_lin, is_fine, is_party, is_register, is_slot, is_small};

use crate::step::{LinOp, Shape, Step};
use crate::task::Task;
use lanes::{Party, Three};
use std::alloc::{AllocError, Global};
use std::marker::Model;

/// Lengths of registers, shapes of slots and a count of flags.
#[derive(Debug, Drop)]
pub(crate) struct Layout {
    first: Three<Vec<u32>>,
    registers: Vec<u32>,
    made: Three<Vec<Shape>>,
    flags: u32,
}

impl Model for Layout {
    ghost use Rattle.std.specs.Prelude.{IsTrue};
    ghost use Rattle.lanes.specs.Three.{each};
    ghost use Rattle.step_lists.specs.Laid.{Laid};
    ghost use Rattle.step_lists.specs.Rules.{is_small};

    ghost Value = { Laid };

    ghost use Rattle.step_lists.specs.Kept.{layout_by};

    ghost view = { λ l. record { first = each (λ v. v.items) l.first; now = layout_by l } };

    ghost invariant = { λ l. IsTrue (is_small (layout_by l)) };
}

/// The party of a number; one that isn't 1 or 2 is taken as the third.
pub(crate) fn party_of(number: u8) -> Party
    ensures { result ≡ party_of number }
{
    match number {
        1 => Party::First,
        2 => Party::Second,
        _ => Party::Third,
    }
}

/// Whether a number is a party's.
pub(crate) fn is_party(number: u8) -> bool
    ensures { result ≡ is_party number }
{
    1 <= number && number <= 3
}

// A length is below 2^32 by its type.
fn are_short(lengths: &[u32])
    ensures { All (λ n. n < 2 ^ 32) lengths.now }
{}

impl Layout {
    /// Before the first step, over first slots of these lengths.
    pub(crate) fn new(alloc: Global, first: Vec<u32>, second: Vec<u32>, third: Vec<u32>) -> Layout
        requires first { length first.items < 2 ^ 32 }
        requires second { length second.items < 2 ^ 32 }
        requires third { length third.items < 2 ^ 32 }
        ensures first { result.first ≡ record { first = first.items; second = second.items; third = third.items } }
        ensures now { result.now ≡ starting (record { first = first.items; second = second.items; third = third.items }) }
    {
        Layout {
            first: Three {
                first,
                second,
                third,
            },
            registers: Vec::new(alloc),
            made: Three {
                first: Vec::new(alloc),
                second: Vec::new(alloc),
                third: Vec::new(alloc),
            },
            flags: 0,
        }
    }

    /// The lengths of a party's first slots.
    pub(crate) fn first(&self, party: u8) -> &Vec<u32>
        ensures { result.now.items ≡ at (party_of party) self.now.first }
    {
        self.first.at(party_of(party))
    }

    /// How many registers there are.
    pub(crate) fn registers(&self) -> u32
        ensures count { result ≡ length self.now.now.registers }
        ensures short { All (λ n. n < 2 ^ 32) self.now.now.registers }
    {
        are_short(&self.registers);
        self.registers.len() as u32
    }

    /// The length of a register, 0 where it wasn't made.
    pub(crate) fn length(&self, register: u32) -> u32
        ensures { result ≡ length_of self.now.now register }
    {
        self.registers.get(register as usize).copied().unwrap_or(0)
    }

    /// Whether a register was made.
    pub(crate) fn is_register(&self, register: u32) -> bool
        ensures { result ≡ is_register self.now.now register }
    {
        (register as usize) < self.registers.len()
    }

    /// How many slots a party has.
    pub(crate) fn slots(&self, party: u8) -> u32
        ensures { result ≡ length (at (party_of party) self.now.now.slots) }
    {
        let party = party_of(party);
        (self.first.at(party).len() + self.made.at(party).len()) as u32
    }

    /// The shape of a slot of a party, no words where it wasn't made.
    #[tactic(auto, using(crate::proofs::Rooms::unwrap_or_slot))]
    pub(crate) fn shape(&self, party: u8, slot: u32) -> Shape
        ensures { result ≡ shape_of self.now.now (party_of party) slot }
    {
        self.shape_at(party, slot).unwrap_or(Shape::Words(0))
    }

    /// Whether a slot of a party was made.
    pub(crate) fn is_slot(&self, party: u8, slot: u32) -> bool
        ensures { result ≡ is_slot self.now.now party slot }
    {
        is_party(party) && self.shape_at(party, slot).is_some()
    }

    fn shape_at(&self, party: u8, slot: u32) -> Option<Shape>
        ensures { result ≡ slice_get (at (party_of party) self.now.now.slots) slot }
    {
        let party = party_of(party);
        let first = self.first.at(party);
        match first.get(slot as usize) {
            Some(count) => Some(Shape::Words(*count)),
            None => self
                .made
                .at(party)
                .get(slot as usize - first.len())
                .copied(),
        }
    }

    fn allocator(&self) -> Global {
        *self.registers.allocator()
    }

    // Whether there is room for so many more registers: fewer than 2^32 in all.
    fn has_registers(&self, count: usize) -> bool
        ensures { result ≡ nat_lt (length self.now.now.registers + count) (2 ^ 32) }
    {
        count <= u32::MAX as usize - self.registers.len()
    }

    // Whether there is room for so many more slots of a party.
    fn has_slots(&self, party: u8, count: usize) -> bool
        ensures { result ≡ nat_lt (length (at (party_of party) self.now.now.slots) + count) (2 ^ 32) }
    {
        count <= (u32::MAX - self.slots(party)) as usize
    }

    /// Whether the layout stays small behind a step: fewer than 2^32 registers, slots of each party and flags.
    pub(crate) fn has_room<T: Task>(&self, step: &Step<T>) -> bool
        ensures { result ≡ is_small (grown self.now.now step.now) }
    {
        match step {
            Step::Const { words: _ } => self.has_registers(1),
            Step::Lin { op: _ } => self.has_registers(1),
            Step::And { left: _, right: _ } => self.has_registers(1),
            Step::Share { party: _, slot: _ } => self.has_registers(1),
            Step::Reveal { to, moved, shown } => {
                self.has_registers(moved.len()) && self.has_slots(*to, shown.len())
            }
            Step::Steer {
                by: _,
                slot: _,
                moved,
            } => self.has_registers(moved.len()),
            Step::Tell {
                source: _,
                target,
                slot: _,
            } => self.has_slots(*target, 1),
            Step::Work {
                party,
                task: _,
                takes: _,
                gives,
            } => self.has_slots(*party, gives.len()),
            Step::Flag { party: _, slot: _ } => self.flags < u32::MAX,
        }
    }

    // More registers of one length. Where memory is wanting, all is as before.
    fn push_lengths(&mut self, length: u32, count: usize) -> Result<(), AllocError>
        requires { IsTrue (is_small (with_lengths self.old.now (replicate count length))) }
        ensures { IsGrown result self.old self.new (with_lengths self.old.now (replicate count length)) }
    {
        push_many(&mut self.registers, length, count)
    }

    // More slots of a party, of one shape.
    fn push_shapes(&mut self, party: u8, shape: Shape, count: usize) -> Result<(), AllocError>
        requires { IsTrue (is_small (with_shapes self.old.now (party_of party) (replicate count shape))) }
        ensures { IsGrown result self.old self.new (with_shapes self.old.now (party_of party) (replicate count shape)) }
    {
        match party_of(party) {
            Party::First => push_many(&mut self.made.first, shape, count),
            Party::Second => push_many(&mut self.made.second, shape, count),
            Party::Third => push_many(&mut self.made.third, shape, count),
        }
    }

    // More slots of a party, of these shapes.
    fn extend_shapes(&mut self, party: u8, shapes: &[Shape]) -> Result<(), AllocError>
        requires { IsTrue (is_small (with_shapes self.old.now (party_of party) shapes.now)) }
        ensures { IsGrown result self.old self.new (with_shapes self.old.now (party_of party) shapes.now) }
    {
        match party_of(party) {
            Party::First => self.made.first.extend_from_slice(shapes),
            Party::Second => self.made.second.extend_from_slice(shapes),
            Party::Third => self.made.third.extend_from_slice(shapes),
        }
    }

    // More registers of some rows, and more slots of a party of as many words.
    fn push_moved(
        &mut self,
        rows: u32,
        moved: usize,
        to: u8,
        shown: usize,
    ) -> Result<(), AllocError>
        requires { IsTrue (is_small (revealed self.old.now rows moved (party_of to) shown)) }
        ensures { IsGrown result self.old self.new (revealed self.old.now rows moved (party_of to) shown) }
    {
        let before = self.registers.len();
        self.push_lengths(rows, moved)?;
        if self.push_shapes(to, Shape::Words(rows), shown).is_err() {
            self.registers.truncate(before);
            return Err(AllocError);
        }
        Ok(())
    }

    /// Grows by a step that may come next. Where memory is wanting, all is as before.
    pub(crate) fn grow<T: Task>(&mut self, step: &Step<T>) -> Result<(), AllocError>
        requires { IsTrue (is_fine T.accepts self.old.now step.now) }
        ensures { IsGrown result self.old self.new (grown self.old.now step.now) }
    {
        match step {
            Step::Const { words } => self.push_lengths(words.len() as u32, 1),
            Step::Lin { op } => self.push_lengths(lin_length(self, op), 1),
            Step::And { left, right: _ } => self.push_lengths(self.length(*left), 1),
            Step::Share { party, slot } => {
                self.push_lengths(count_in(self.shape(*party, *slot)), 1)
            }
            Step::Reveal { to, moved, shown } => {
                let rows = rows_moved(self, moved.as_slice());
                self.push_moved(rows, moved.len(), *to, shown.len())
            }
            Step::Steer {
                by: _,
                slot: _,
                moved,
            } => self.push_lengths(rows_moved(self, moved.as_slice()), moved.len()),
            Step::Tell {
                source,
                target,
                slot,
            } => self.push_shapes(*target, self.shape(*source, *slot), 1),
            Step::Work {
                party,
                task: _,
                takes: _,
                gives,
            } => self.extend_shapes(*party, gives.as_slice()),
            Step::Flag { party: _, slot: _ } => {
                self.flags += 1;
                Ok(())
            }
        }
    }
}

// Adds so many equal items. Where memory is wanting, none.
fn push_many<T: Copy>(items: &mut Vec<T>, item: T, count: usize) -> Result<(), AllocError>
    ensures { items.new.items ≡ (if is_ok result then items.old.items ++ replicate count item else items.old.items) }
{
    items.reserve(count)?;
    for _ in 0..count {
        items.push(item).unwrap();
    }
    Ok(())
}

/// How many words a slot of a shape has.
pub(crate) fn count_in(shape: Shape) -> u32
    ensures { result ≡ count_in shape }
{
    match shape {
        Shape::Words(count) => count,
        Shape::OrderOf(count) => count,
    }
}

/// The rows of registers that are moved together, 0 where there is none.
pub(crate) fn rows_moved(layout: &Layout, moved: &[u32]) -> u32
    ensures { result ≡ rows_moved layout.now.now moved.now }
{
    match moved.first() {
        Some(register) => layout.length(*register),
        None => 0,
    }
}

// The length of the register that an operation makes.
fn lin_length(layout: &Layout, op: &LinOp) -> u32
    requires { IsTrue (fits_lin layout.now.now op.now) }
    ensures { result ≡ lin_length layout.now.now op.now }
{
    match op {
        LinOp::Xor(register, _) => layout.length(*register),
        LinOp::Not(register) => layout.length(*register),
        LinOp::Left(register, _) => layout.length(*register),
        LinOp::Right(register, _) => layout.length(*register),
        LinOp::Mask(register, _) => layout.length(*register),
        LinOp::Spread(register) => layout.length(*register),
        LinOp::Gather { sources: _, places } => places.len() as u32,
    }
}
