//! Wires that are only counted.
#![tactic(auto)]

ghost use Rattle.std.specs.Prelude.{◌≡◌, ◌+◌, ◌∷◌, ◌++◌, ◌^◌, ◌<◌, [], length, IfOk, OnErr};
ghost use Rattle.wires.specs.Growth.{IsMade, capped, lanes_of};

use crate::{Wire, Wires};
use std::alloc::{AllocError, Global};
use std::marker::Model;

/// Wires of which only the lanes and the counts of AND words and AND calls are kept: no environment is possible,
/// so nothing is told of values.
#[derive(Debug, Drop)]
pub struct Tally {
    lanes: Vec<u32>,
    and_words: u64,
    and_calls: u64,
}

impl Model for Tally {
    ghost use Rattle.wires.specs.Counted.{Counted};

    ghost Value = { Counted };

    ghost use Rattle.wires.specs.Tally.{counted_by};

    ghost view = { counted_by };
}

impl Tally {
    ghost use Rattle.wires.specs.Counted.{Made, charging};

    /// No wire yet.
    pub fn new(alloc: Global) -> Tally
        ensures { result ≡ record { lanes = []; and_words = 0; and_calls = 0 } }
    {
        Tally {
            lanes: Vec::new(alloc),
            and_words: 0,
            and_calls: 0,
        }
    }

    /// The AND words so far, which stand still at 2^64 - 1.
    pub fn and_words(&self) -> u64
        ensures { result ≡ self.now.and_words }
    {
        self.and_words
    }

    /// The AND calls so far, which stand still at 2^64 - 1.
    pub fn and_calls(&self) -> u64
        ensures { result ≡ self.now.and_calls }
    {
        self.and_calls
    }

    // A new wire of so many lanes.
    fn push(&mut self, lanes: u32) -> Result<Wire, AllocError>
        ensures ok { IfOk result (λ wire. Made self.old self.new lanes wire) }
        ensures err { OnErr result (self.new ≡ self.old) }
    {
        if self.lanes.len() >= u32::MAX as usize {
            return Err(AllocError);
        }
        let wire = Wire(self.lanes.len() as u32);
        self.lanes.push(lanes)?;
        Ok(wire)
    }

    // The lanes of a wire.
    fn lanes_at(&self, wire: Wire) -> u32
        requires { IsMade self.now.lanes wire }
        ensures { result ≡ lanes_of self.now.lanes wire }
    {
        self.lanes[wire.0 as usize]
    }

    // One more AND call, of so many AND words.
    fn charge(&mut self, lanes: u32)
        ensures { self.new ≡ charging self.old lanes }
    {
        self.and_words = self.and_words.saturating_add(u64::from(lanes));
        self.and_calls = self.and_calls.saturating_add(1);
    }

    // A wire with the lanes of another one.
    fn push_like(&mut self, wire: Wire) -> Result<Wire, AllocError>
        requires { IsMade self.old.lanes wire }
        ensures ok { IfOk result (λ new. Made self.old self.new (lanes_of self.old.lanes wire) new) }
        ensures err { OnErr result (self.new ≡ self.old) }
    {
        let lanes = self.lanes_at(wire);
        let new = self.push(lanes)?;
        Ok(new)
    }
}

impl Wires for Tally {
    ghost use Rattle.wires.specs.Counted.{IsNoAssignment, KeepsLanes};
    ghost use Rattle.wires.specs.CountedLaws.{keeps_keeps, keeps_possible, keeps_refl, keeps_trans, none_fits};

    ghost shape = { λ counted. counted.lanes };

    ghost ands = { λ counted. counted.and_words };

    ghost and_calls = { λ counted. counted.and_calls };

    ghost possible = { IsNoAssignment };

    ghost grown = { KeepsLanes };

    ghost grown_refl = { keeps_refl };

    ghost grown_trans = { keeps_trans };

    ghost grown_keeps = { keeps_keeps };

    ghost grown_possible = { keeps_possible };

    ghost fits = { none_fits };

    fn lanes(&self, wire: Wire) -> usize {
        self.lanes_at(wire) as usize
    }

    fn constant(&mut self, words: &[u64]) -> Result<Wire, AllocError> {
        let new = self.push(words.len() as u32)?;
        Ok(new)
    }

    fn xor(&mut self, left: Wire, _right: Wire) -> Result<Wire, AllocError> {
        let new = self.push_like(left)?;
        Ok(new)
    }

    fn and(&mut self, left: Wire, _right: Wire) -> Result<Wire, AllocError> {
        let lanes = self.lanes_at(left);
        let new = self.push(lanes)?;
        self.charge(lanes);
        Ok(new)
    }

    fn not(&mut self, wire: Wire) -> Result<Wire, AllocError> {
        let new = self.push_like(wire)?;
        Ok(new)
    }

    fn left(&mut self, wire: Wire, _by: u32) -> Result<Wire, AllocError> {
        let new = self.push_like(wire)?;
        Ok(new)
    }

    fn right(&mut self, wire: Wire, _by: u32) -> Result<Wire, AllocError> {
        let new = self.push_like(wire)?;
        Ok(new)
    }

    fn mask(&mut self, wire: Wire, _word: u64) -> Result<Wire, AllocError> {
        let new = self.push_like(wire)?;
        Ok(new)
    }

    fn spread(&mut self, wire: Wire) -> Result<Wire, AllocError> {
        let new = self.push_like(wire)?;
        Ok(new)
    }

    fn gather(&mut self, _sources: &[Wire], places: &[u32]) -> Result<Wire, AllocError> {
        let new = self.push(places.len() as u32)?;
        Ok(new)
    }
}
