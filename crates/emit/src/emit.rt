//! Wires over a step list.
#![tactic(auto)]

ghost use Rattle.std.specs.Prelude.{◌≡◌, ◌<◌, ◌^◌, IfOk, OnErr, map};
ghost use Rattle.step_lists.specs.Possible.{ands_in};
ghost use Rattle.emit.specs.Emit.{IsAdded, calls_in};

use lanes::xor_laws;
use listed::{Numbers, Words};
use std::alloc::{AllocError, Global};
use step_lists::laws::ands_are_few;
use step_lists::{LinOp, Step, StepList, Task};
use wires::{Wire, Wires};

/// Wires over a step list: wire i is register i, and each call pushes one step. A step for whose register there is no
/// number left finds no memory. The AND words and the AND calls are those of the list, and never meet the cap.
#[derive(Drop)]
pub struct Emit<'a, T: Task> {
    list: &'a mut StepList<T>,
}

impl<'a, T: Task> Emit<'a, T> {
    ghost use Rattle.emit.specs.Borrowed.{IsOver};

    /// Wires over this list, whose registers are the first wires.
    pub fn new(list: &'a mut StepList<T>) -> Emit<'a, T>
        ensures { IsOver result list.entry }
    {
        Emit { list }
    }
}

// Pushes a step that makes one register.
fn add<T: Task>(list: &mut StepList<T>, step: Step<T>) -> Result<Wire, AllocError>
    ensures ok { IfOk result (λ wire. IsAdded list.old list.new step wire) }
    ensures err { OnErr result (list.new ≡ list.old) }
{
    let number = list.registers();
    match list.push(step) {
        Ok(()) => Ok(Wire(number)),
        Err(_) => Err(AllocError),
    }
}

// Each And makes a register, and so both counts are below the last one.
fn counts_are_few<T: Task>(list: &StepList<T>)
    ensures ands { ands_in list.now < 2 ^ 64 }
    ensures calls { calls_in list.now < 2 ^ 32 }
{
    ands_are_few::<T>();
    // Their contracts say that the list is well-formed, and its registers few and short.
    let _ = list.steps();
    let _ = list.registers();
}

fn allocator<T: Task>(list: &StepList<T>) -> Global {
    *list.steps().allocator()
}

impl<'a, T: Task> Wires for Emit<'a, T> {
    ghost use Rattle.step_lists.specs.Layout.{layout_of};
    ghost use Rattle.step_lists.specs.Possible.{ands_in};
    ghost use Rattle.emit.specs.Borrowed.{GrowsOver, borrowed};
    ghost use Rattle.emit.specs.BorrowedLaws.{over_keeps, over_refl, over_trans};
    ghost use Rattle.emit.specs.Emit.{AreOpenValues, calls_in};
    ghost use Rattle.emit.specs.EmitLaws.{circuit_possible, open_fits};

    ghost shape = { λ e. (layout_of (borrowed e).now).registers };

    ghost ands = { λ e. ands_in (borrowed e).now };

    ghost and_calls = { λ e. calls_in (borrowed e).now };

    ghost possible = { λ e. AreOpenValues T.answer (borrowed e).now };

    ghost grown = { GrowsOver };

    ghost grown_refl = { over_refl };

    ghost grown_trans = { over_trans };

    ghost grown_keeps = { over_keeps };

    ghost grown_possible = { λ a b h. circuit_possible T.answer (borrowed a).now (borrowed b).now h.steps };

    ghost fits = { λ a. open_fits T.answer (borrowed a).now };

    fn lanes(&self, wire: Wire) -> usize {
        self.list.length(wire.0) as usize
    }

    fn constant(&mut self, words: &[u64]) -> Result<Wire, AllocError> {
        let words = Words::from_slice(allocator(self.list), words)?;
        let new = add(self.list, Step::Const { words })?;
        Ok(new)
    }

    fn xor(&mut self, left: Wire, right: Wire) -> Result<Wire, AllocError> {
        xor_laws();
        let op = LinOp::Xor(left.0, right.0);
        let new = add(self.list, Step::Lin { op })?;
        Ok(new)
    }

    fn and(&mut self, left: Wire, right: Wire) -> Result<Wire, AllocError> {
        let step = Step::And {
            left: left.0,
            right: right.0,
        };
        let new = add(self.list, step)?;
        counts_are_few(self.list);
        Ok(new)
    }

    fn not(&mut self, wire: Wire) -> Result<Wire, AllocError> {
        let op = LinOp::Not(wire.0);
        let new = add(self.list, Step::Lin { op })?;
        Ok(new)
    }

    fn left(&mut self, wire: Wire, by: u32) -> Result<Wire, AllocError> {
        let op = LinOp::Left(wire.0, by);
        let new = add(self.list, Step::Lin { op })?;
        Ok(new)
    }

    fn right(&mut self, wire: Wire, by: u32) -> Result<Wire, AllocError> {
        let op = LinOp::Right(wire.0, by);
        let new = add(self.list, Step::Lin { op })?;
        Ok(new)
    }

    fn mask(&mut self, wire: Wire, word: u64) -> Result<Wire, AllocError> {
        let op = LinOp::Mask(wire.0, word);
        let new = add(self.list, Step::Lin { op })?;
        Ok(new)
    }

    fn spread(&mut self, wire: Wire) -> Result<Wire, AllocError> {
        let op = LinOp::Spread(wire.0);
        let new = add(self.list, Step::Lin { op })?;
        Ok(new)
    }

    fn gather(&mut self, sources: &[Wire], places: &[u32]) -> Result<Wire, AllocError> {
        let alloc = allocator(self.list);
        let sources = Numbers::from_vec(numbers_of(alloc, sources)?);
        let places = Numbers::from_slice(alloc, places)?;
        let op = LinOp::Gather { sources, places };
        let new = add(self.list, Step::Lin { op })?;
        Ok(new)
    }
}

// The registers of these wires.
fn numbers_of(alloc: Global, wires: &[Wire]) -> Result<Vec<u32>, AllocError>
    ensures { IfOk result (λ numbers. numbers.items ≡ map (λ wire. wire.0) wires.now) }
{
    wires.iter().map(|wire| wire.0).collect(alloc)
}
