//! The trait of generic words.
#![tactic(auto)]

ghost use Rattle.std.specs.Prelude.{◌≡◌, ℕ, ◌+◌, ◌^◌, ◌<◌, ◌≤◌, List, length, slice_index, IfOk, is_ok, if◌then◌else◌, bit_and, bit_xor};
ghost use Rattle.lanes.specs.Lanes.{lanewise, lanewise1, picked};
ghost use Rattle.lanes.specs.Word.{word_not};
ghost use Rattle.wires.specs.Environment.{Environment, words, all_words};
ghost use Rattle.wires.specs.Growth.{Carries, Grows, IsMade, AreMade, KeepsWires, HasLanes, lanes_of, total_lanes, capped};
ghost use Rattle.lanes.specs.Shifts.{shifted_left, shifted_right, spread_word};

use crate::Wire;
use std::alloc::AllocError;

/// Words in lanes, made one wire after the other.
///
/// Each call makes one wire and no more, or answers want of memory and makes none; either way the state has grown
/// from what it was. A `Wires` holds at most 2^32 - 1 wires: a growth past that finds no memory. In the manner of
/// a circuit builder over an abstract algebra. Own.
pub trait Wires {
    ghost use Rattle.wires.specs.declared.wire.Wire.{Wire};

    // The number of lanes of each wire that was made.
    ghost shape: { Self → List ℕ };
    // The AND words spent so far, which stand still at 2^64 - 1.
    ghost ands: { Self → ℕ };
    // The calls of `and` so far, which stand still at 2^64 - 1.
    ghost and_calls: { Self → ℕ };
    // The environments that are possible in this state.
    ghost possible: { Self → Environment → Type 0 };
    // The second state has grown from the first.
    ghost grown: { Self → Self → Type 0 };

    /// How many lanes a wire has.
    fn lanes(&self, wire: Wire) -> usize
        requires { IsMade (shape self.now) wire }
        ensures lanes { result ≡ lanes_of (shape self.now) wire }
        ensures few { result < 2 ^ 32 };

    /// A wire of these words.
    fn constant(&mut self, words: &[u64]) -> Result<Wire, AllocError>
        requires { length words.now < 2 ^ 32 }
        ensures grows { Grows grown possible shape self.old self.new }
        ensures ok { IfOk result (λ new. Carries (possible self.new) (shape self.new) new (length words.now) (λ _. words.now)) }
        ensures count { ands self.new ≡ ands self.old }
        ensures calls { and_calls self.new ≡ and_calls self.old }
        ensures wires { length (shape self.new) ≡ length (shape self.old) + (if is_ok result then 1 else 0) };

    /// The xor of two wires, lane by lane.
    fn xor(&mut self, left: Wire, right: Wire) -> Result<Wire, AllocError>
        requires left { IsMade (shape self.old) left }
        requires right { IsMade (shape self.old) right }
        requires lanes { lanes_of (shape self.old) left ≡ lanes_of (shape self.old) right }
        ensures grows { Grows grown possible shape self.old self.new }
        ensures ok { IfOk result (λ new. Carries (possible self.new) (shape self.new) new (lanes_of (shape self.old) left)
            (λ v. lanewise bit_xor (words v left) (words v right))) }
        ensures count { ands self.new ≡ ands self.old }
        ensures calls { and_calls self.new ≡ and_calls self.old }
        ensures wires { length (shape self.new) ≡ length (shape self.old) + (if is_ok result then 1 else 0) };

    /// The and of two wires, lane by lane; it costs an AND word a lane, and is one AND call.
    fn and(&mut self, left: Wire, right: Wire) -> Result<Wire, AllocError>
        requires left { IsMade (shape self.old) left }
        requires right { IsMade (shape self.old) right }
        requires lanes { lanes_of (shape self.old) left ≡ lanes_of (shape self.old) right }
        ensures grows { Grows grown possible shape self.old self.new }
        ensures ok { IfOk result (λ new. Carries (possible self.new) (shape self.new) new (lanes_of (shape self.old) left)
            (λ v. lanewise bit_and (words v left) (words v right))) }
        ensures count { ands self.new ≡ (if is_ok result then capped (ands self.old + lanes_of (shape self.old) left) else ands self.old) }
        ensures calls { and_calls self.new ≡ (if is_ok result then capped (and_calls self.old + 1) else and_calls self.old) }
        ensures wires { length (shape self.new) ≡ length (shape self.old) + (if is_ok result then 1 else 0) };

    /// Each bit of a wire turned.
    fn not(&mut self, wire: Wire) -> Result<Wire, AllocError>
        requires { IsMade (shape self.old) wire }
        ensures grows { Grows grown possible shape self.old self.new }
        ensures ok { IfOk result (λ new. Carries (possible self.new) (shape self.new) new (lanes_of (shape self.old) wire)
            (λ v. lanewise1 word_not (words v wire))) }
        ensures count { ands self.new ≡ ands self.old }
        ensures calls { and_calls self.new ≡ and_calls self.old }
        ensures wires { length (shape self.new) ≡ length (shape self.old) + (if is_ok result then 1 else 0) };

    /// Each word of a wire shifted to the left, towards the high bits.
    fn left(&mut self, wire: Wire, by: u32) -> Result<Wire, AllocError>
        requires made { IsMade (shape self.old) wire }
        requires by { by ≤ 63 }
        ensures grows { Grows grown possible shape self.old self.new }
        ensures ok { IfOk result (λ new. Carries (possible self.new) (shape self.new) new (lanes_of (shape self.old) wire)
            (λ v. lanewise1 (shifted_left by) (words v wire))) }
        ensures count { ands self.new ≡ ands self.old }
        ensures calls { and_calls self.new ≡ and_calls self.old }
        ensures wires { length (shape self.new) ≡ length (shape self.old) + (if is_ok result then 1 else 0) };

    /// Each word of a wire shifted to the right, towards the low bits.
    fn right(&mut self, wire: Wire, by: u32) -> Result<Wire, AllocError>
        requires made { IsMade (shape self.old) wire }
        requires by { by ≤ 63 }
        ensures grows { Grows grown possible shape self.old self.new }
        ensures ok { IfOk result (λ new. Carries (possible self.new) (shape self.new) new (lanes_of (shape self.old) wire)
            (λ v. lanewise1 (shifted_right by) (words v wire))) }
        ensures count { ands self.new ≡ ands self.old }
        ensures calls { and_calls self.new ≡ and_calls self.old }
        ensures wires { length (shape self.new) ≡ length (shape self.old) + (if is_ok result then 1 else 0) };

    /// The and of each word of a wire with one word that is known.
    fn mask(&mut self, wire: Wire, word: u64) -> Result<Wire, AllocError>
        requires { IsMade (shape self.old) wire }
        ensures grows { Grows grown possible shape self.old self.new }
        ensures ok { IfOk result (λ new. Carries (possible self.new) (shape self.new) new (lanes_of (shape self.old) wire)
            (λ v. lanewise1 (λ x. bit_and x word) (words v wire))) }
        ensures count { ands self.new ≡ ands self.old }
        ensures calls { and_calls self.new ≡ and_calls self.old }
        ensures wires { length (shape self.new) ≡ length (shape self.old) + (if is_ok result then 1 else 0) };

    /// Each word of a wire filled with its bit 0.
    fn spread(&mut self, wire: Wire) -> Result<Wire, AllocError>
        requires { IsMade (shape self.old) wire }
        ensures grows { Grows grown possible shape self.old self.new }
        ensures ok { IfOk result (λ new. Carries (possible self.new) (shape self.new) new (lanes_of (shape self.old) wire)
            (λ v. lanewise1 spread_word (words v wire))) }
        ensures count { ands self.new ≡ ands self.old }
        ensures calls { and_calls self.new ≡ and_calls self.old }
        ensures wires { length (shape self.new) ≡ length (shape self.old) + (if is_ok result then 1 else 0) };

    /// The words at these places of the sources, which lie one after the other.
    fn gather(&mut self, sources: &[Wire], places: &[u32]) -> Result<Wire, AllocError>
        requires made { AreMade (shape self.old) sources.now }
        requires few { length places.now < 2 ^ 32 }
        requires places { (k : ℕ) → k < length places.now → slice_index places.now k < total_lanes (shape self.old) sources.now }
        ensures grows { Grows grown possible shape self.old self.new }
        ensures ok { IfOk result (λ new. Carries (possible self.new) (shape self.new) new (length places.now)
            (λ v. picked places.now (all_words v sources.now))) }
        ensures count { ands self.new ≡ ands self.old }
        ensures calls { and_calls self.new ≡ and_calls self.old }
        ensures wires { length (shape self.new) ≡ length (shape self.old) + (if is_ok result then 1 else 0) };

    // Each state has grown from itself.
    ghost grown_refl: { (s : Self) → grown s s };
    // Growth after growth is growth.
    ghost grown_trans: { (a b c : Self) → grown a b → grown b c → grown a c };
    // Growth keeps the wires and their lanes.
    ghost grown_keeps: { (a b : Self) → grown a b → KeepsWires (shape a) (shape b) };
    // An environment that is possible after growth was possible before it.
    ghost grown_possible: { (a b : Self) → grown a b → (v : Environment) → possible b v → possible a v };
    // In a possible environment a wire has a word for each of its lanes, of which there are fewer than 2^32.
    ghost fits: { (s : Self) (v : Environment) (wire : Wire) → possible s v → IsMade (shape s) wire → HasLanes v wire (lanes_of (shape s) wire) };
}
