//! Lists of steps.
#![tactic(auto)]

ghost use Rattle.std.specs.Prelude.{◌≡◌, All, ◌<◌, ◌^◌, [], ◌∷◌, length, IsTrue, IfOk, IfErr, OnOk};
ghost use Rattle.lanes.specs.Three.{at};
ghost use Rattle.step_lists.specs.Layout.{party_of, layout_of, length_of, shape_of};
ghost use Rattle.step_lists.specs.Possible.{behind};
ghost use Rattle.step_lists.specs.Pushed.{Pushed};
ghost use Rattle.step_lists.specs.Rules.{IsWellFormed, is_fine, is_party, is_register, is_slot};

use crate::layout::Layout;
use crate::rules::fits_layout;
use crate::step::{Shape, Step};
use crate::task::Task;
use std::alloc::{AllocError, Global};
use std::marker::Model;
use thiserror::Error;

/// A well-formed list of steps over first slots, seen as the lengths of the first slots and the steps.
#[derive(Debug, Drop)]
pub struct StepList<T: Task> {
    layout: Layout,
    steps: Vec<Step<T>>,
}

impl<T: Task> Model for StepList<T> {
    ghost use Rattle.step_lists.specs.Layout.{Steps};
    ghost use Rattle.step_lists.specs.Laid.{IsKept};

    ghost Value = { Steps T };

    ghost view = { λ l. record { first = l.layout.first; steps = l.steps.items } };

    ghost invariant = { λ l. IsKept T.accepts (record { first = l.layout.first; steps = l.steps.items }) l.layout.now };
}

/// Why a step wasn't added; the step comes back.
#[derive(Debug, Drop, Error)]
pub enum ListFault<T> {
    /// A rule of a well-formed list fails.
    #[error("ill-formed step")]
    IllFormed(Step<T>),
    /// There is not enough memory.
    #[error("out of memory")]
    Memory(Step<T>),
}

impl<T: Task> StepList<T> {
    /// No steps over first slots of these lengths.
    pub fn new(alloc: Global, first: Vec<u32>, second: Vec<u32>, third: Vec<u32>) -> StepList<T>
        requires first { length first.items < 2 ^ 32 }
        requires second { length second.items < 2 ^ 32 }
        requires third { length third.items < 2 ^ 32 }
        ensures { result ≡ record { first = record { first = first.items; second = second.items; third = third.items }; steps = [] } }
    {
        StepList {
            layout: Layout::new(alloc, first, second, third),
            steps: Vec::new(alloc),
        }
    }

    /// Adds a step where every rule of a well-formed list holds; else, or where memory is wanting, the step comes back
    /// and the list is as before. It costs no more than the step's own lists.
    pub fn push(&mut self, step: Step<T>) -> Result<(), ListFault<T>>
        ensures { Pushed T.accepts self.old self.new step result }
    {
        match self.admits(&step) {
            Ok(true) => match self.add(step) {
                Ok(()) => Ok(()),
                Err(step) => Err(ListFault::Memory(step)),
            },
            Ok(false) => Err(ListFault::IllFormed(step)),
            Err(_) => Err(ListFault::Memory(step)),
        }
    }

    // Whether a step may come next.
    fn admits(&self, step: &Step<T>) -> Result<bool, AllocError>
        ensures { IfOk result (λ fine. fine ≡ is_fine T.accepts (layout_of self.now) step.now) }
    {
        let fits = fits_layout(*self.steps.allocator(), &self.layout, step)?;
        Ok(fits && self.layout.has_room(step))
    }

    // Adds a step that may come next; where memory is wanting, it comes back.
    fn add(&mut self, step: Step<T>) -> Result<(), Step<T>>
        requires { IsTrue (is_fine T.accepts (layout_of self.old) step) }
        ensures ok { OnOk result (self.new ≡ behind self.old (step ∷ [])) }
        ensures err { IfErr result (λ back. (back ≡ step) × (self.new ≡ self.old)) }
    {
        if self.steps.reserve(1).is_err() || self.layout.grow(&step).is_err() {
            return Err(step);
        }
        self.steps.push(step).unwrap();
        Ok(())
    }

    /// The lengths of a party's first slots.
    pub fn first(&self, party: u8) -> &Vec<u32>
        requires { IsTrue (is_party party) }
        ensures { result.now.items ≡ at (party_of party) self.now.first }
    {
        self.layout.first(party)
    }

    /// The steps, in order; every list is well-formed.
    pub fn steps(&self) -> &Vec<Step<T>>
        ensures steps { result.now.items ≡ self.now.steps }
        ensures well_formed { IsWellFormed T.accepts self.now }
    {
        &self.steps
    }

    /// The layout that the steps have grown.
    pub(crate) fn layout(&self) -> &Layout
        ensures { result.now.now ≡ layout_of self.now }
    {
        &self.layout
    }

    /// How many registers there are; each is shorter than 2^32 words.
    pub fn registers(&self) -> u32
        ensures count { result ≡ length (layout_of self.now).registers }
        ensures short { All (λ n. n < 2 ^ 32) (layout_of self.now).registers }
    {
        self.layout.registers()
    }

    /// The length of a register.
    pub fn length(&self, register: u32) -> u32
        requires { IsTrue (is_register (layout_of self.now) register) }
        ensures { result ≡ length_of (layout_of self.now) register }
    {
        self.layout.length(register)
    }

    /// How many slots a party has.
    pub fn slots(&self, party: u8) -> u32
        requires { IsTrue (is_party party) }
        ensures { result ≡ length (at (party_of party) (layout_of self.now).slots) }
    {
        self.layout.slots(party)
    }

    /// The shape of a slot of a party.
    pub fn shape(&self, party: u8, slot: u32) -> Shape
        requires { IsTrue (is_slot (layout_of self.now) party slot) }
        ensures { result ≡ shape_of (layout_of self.now) (party_of party) slot }
    {
        self.layout.shape(party, slot)
    }
}
