//! Wires that carry their words.
#![tactic(auto)]

ghost use Rattle.std.specs.Prelude.{◌≡◌, ℕ, ◌+◌, ◌^◌, ◌<◌, ◌≤◌, [], length, slice_index, IfOk, OnErr, is_ok, if◌then◌else◌};
ghost use Rattle.lanes.specs.Lanes.{picked};
ghost use Rattle.wires.specs.Environment.{Environment, words};
ghost use Rattle.wires.specs.Growth.{AreMade, IsMade, total_lanes};

use crate::lane_words::{
    and_lanes, left_lanes, mask_lanes, not_lanes, right_lanes, spread_lanes, xor_lanes,
};
use crate::{Wire, Wires};
use std::alloc::{AllocError, Global};
use std::marker::Model;

/// Wires that carry their words: it computes each value at once.
#[derive(Debug, Drop)]
pub struct Clear {
    values: Vec<Vec<u64>>,
    and_words: u64,
    and_calls: u64,
}

impl Model for Clear {
    ghost use Rattle.wires.specs.Held.{Held};

    ghost Value = { Held };

    ghost use Rattle.wires.specs.Clear.{held_by, AreValues};

    ghost view = { held_by };

    ghost invariant = { AreValues };
}

impl Clear {
    ghost use Rattle.wires.specs.Held.{IsAssignment, IsValue, Pushes, held_shape, spending, value_of, values_of};

    /// No wire yet.
    pub fn new(alloc: Global) -> Clear
        ensures { result ≡ record { values = []; and_words = 0; and_calls = 0 } }
    {
        Clear {
            values: Vec::new(alloc),
            and_words: 0,
            and_calls: 0,
        }
    }

    // The words of a wire.
    fn words_of(&self, wire: Wire) -> &[u64]
        requires { IsMade (held_shape self.now) wire }
        ensures words { result.now ≡ value_of self.now wire }
        ensures value { IsValue result.now }
    {
        self.values[wire.0 as usize].as_slice()
    }

    // A new wire of these words.
    fn push(&mut self, words: Vec<u64>) -> Result<Wire, AllocError>
        requires { length words.items < 2 ^ 32 }
        ensures ok { IfOk result (λ wire. Pushes self.old self.new words.items wire) }
        ensures err { OnErr result (self.new ≡ self.old) }
    {
        if self.values.len() >= u32::MAX as usize {
            return Err(AllocError);
        }
        let wire = Wire(self.values.len() as u32);
        self.values.push(words)?;
        Ok(wire)
    }

    // One more AND call, of so many AND words.
    fn spend(&mut self, lanes: usize)
        ensures { self.new ≡ spending self.old lanes }
    {
        self.and_words = self.and_words.saturating_add(lanes as u64);
        self.and_calls = self.and_calls.saturating_add(1);
    }

    fn allocator(&self) -> Global {
        *self.values.allocator()
    }

    // The word at a place of the sources, which lie one after the other.
    fn word_at(&self, sources: &[Wire], place: u32) -> u64
        requires made { AreMade (held_shape self.now) sources.now }
        requires place { place < total_lanes (held_shape self.now) sources.now }
        ensures { result ≡ slice_index (values_of self.now sources.now) place }
    {
        let mut rest = place as usize;
        for source in sources {
            let words = self.words_of(*source);
            if rest < words.len() {
                return words[rest];
            }
            rest -= words.len();
        }
        unreachable!()
    }

    /// The words of a wire that was made, which are its value in the one possible environment.
    pub fn value(&self, wire: Wire) -> &Vec<u64>
        requires { IsMade (held_shape self.now) wire }
        ensures value { (v : Environment) → IsAssignment self.now v → words v wire ≡ result.now.items }
        ensures environment { (v : Environment) × IsAssignment self.now v }
    {
        &self.values[wire.0 as usize]
    }
}

impl Wires for Clear {
    ghost use Rattle.wires.specs.Held.{Extends, IsAssignment, held_shape};
    ghost use Rattle.wires.specs.HeldLaws.{assignment_fits, extends_keeps, extends_possible, extends_refl, extends_trans};

    ghost shape = { held_shape };

    ghost ands = { λ held. held.and_words };

    ghost and_calls = { λ held. held.and_calls };

    ghost possible = { IsAssignment };

    ghost grown = { Extends };

    ghost grown_refl = { extends_refl };

    ghost grown_trans = { extends_trans };

    ghost grown_keeps = { extends_keeps };

    ghost grown_possible = { extends_possible };

    ghost fits = { assignment_fits };

    fn lanes(&self, wire: Wire) -> usize {
        self.words_of(wire).len()
    }

    fn constant(&mut self, words: &[u64]) -> Result<Wire, AllocError> {
        let words = Vec::from_slice(self.allocator(), words)?;
        let new = self.push(words)?;
        Ok(new)
    }

    fn xor(&mut self, left: Wire, right: Wire) -> Result<Wire, AllocError> {
        let words = xor_lanes(self.allocator(), self.words_of(left), self.words_of(right))?;
        let new = self.push(words)?;
        Ok(new)
    }

    fn and(&mut self, left: Wire, right: Wire) -> Result<Wire, AllocError> {
        let words = and_lanes(self.allocator(), self.words_of(left), self.words_of(right))?;
        let lanes = words.len();
        let new = self.push(words)?;
        self.spend(lanes);
        Ok(new)
    }

    fn not(&mut self, wire: Wire) -> Result<Wire, AllocError> {
        let words = not_lanes(self.allocator(), self.words_of(wire))?;
        let new = self.push(words)?;
        Ok(new)
    }

    fn left(&mut self, wire: Wire, by: u32) -> Result<Wire, AllocError> {
        let words = left_lanes(self.allocator(), self.words_of(wire), by)?;
        let new = self.push(words)?;
        Ok(new)
    }

    fn right(&mut self, wire: Wire, by: u32) -> Result<Wire, AllocError> {
        let words = right_lanes(self.allocator(), self.words_of(wire), by)?;
        let new = self.push(words)?;
        Ok(new)
    }

    fn mask(&mut self, wire: Wire, word: u64) -> Result<Wire, AllocError> {
        let words = mask_lanes(self.allocator(), self.words_of(wire), word)?;
        let new = self.push(words)?;
        Ok(new)
    }

    fn spread(&mut self, wire: Wire) -> Result<Wire, AllocError> {
        let words = spread_lanes(self.allocator(), self.words_of(wire))?;
        let new = self.push(words)?;
        Ok(new)
    }

    fn gather(&mut self, sources: &[Wire], places: &[u32]) -> Result<Wire, AllocError> {
        let mut words = Vec::with_capacity(self.allocator(), places.len())?;
        for place in places {
            words.push(self.word_at(sources, *place))?;
        }
        let new = self.push(words)?;
        Ok(new)
    }
}
