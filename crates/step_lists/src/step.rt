//! Shapes of slots, and the nine kinds of step.
#![tactic(auto)]

use listed::{Listed, Numbers, Words};

/// What a slot of a party holds.
#[derive(Clone, Copy, Debug, PartialEq, Eq)]
pub enum Shape {
    /// So many words.
    Words(u32),
    /// An order of so many items: the numbers below it, each once.
    OrderOf(u32),
}

/// An operation that each party does on its own shares, since it goes through xor.
///
/// The first number names a register, in `Xor` the second one too. Own.
#[derive(Debug, Drop)]
pub enum LinOp {
    /// The xor of two registers of one length.
    Xor(u32, u32),
    /// Each bit turned.
    Not(u32),
    /// Each word shifted towards the high bits, by at most 63.
    Left(u32, u32),
    /// Each word shifted towards the low bits, by at most 63.
    Right(u32, u32),
    /// The and of each word with this one.
    Mask(u32, u64),
    /// Each word filled with its bit 0.
    Spread(u32),
    /// The words at these places of the sources, which lie one after the other.
    Gather { sources: Numbers, places: Numbers },
}

/// A step of three parties. A party is 1, 2 or 3; registers and each party's slots are numbered from 0 in the
/// order in which they are made.
///
/// And is after Araki et al. (2016), the phases of Reveal and Steer after Laur, Willemson and Zhang (2011); the
/// kinds are this project's own.
#[derive(Debug, Drop)]
pub enum Step<T> {
    /// A register of these words, which all know.
    Const {
        words: Words,
    },
    /// A register of an operation on registers.
    Lin {
        op: LinOp,
    },
    /// A register of the and of two registers of one length.
    And {
        left: u32,
        right: u32,
    },
    /// A register of a slot's words.
    Share {
        party: u8,
        slot: u32,
    },
    /// The moved registers in an order that no party knows; of these the shown ones, named by their places in
    /// `moved`, become slots of `to`.
    Reveal {
        to: u8,
        moved: Numbers,
        shown: Numbers,
    },
    /// The moved registers in the order of a slot that its party alone knows.
    Steer {
        by: u8,
        slot: u32,
        moved: Numbers,
    },
    /// A slot of the target with the words of a slot of the source.
    Tell {
        source: u8,
        target: u8,
        slot: u32,
    },
    /// Slots of a party that it computes from other slots of its own.
    Work {
        party: u8,
        task: T,
        takes: Numbers,
        gives: Listed<Shape>,
    },
    /// All stop where the word of this slot isn't 0.
    Flag {
        party: u8,
        slot: u32,
    },
}
