//! Values of cells: words of 64 bits, the kinds of columns, and what a field's bytes mean.
//!
//! Stands on no crate of the repository. A word is a number below 2^64, a label is seen as a list of bytes.
//! The main promises: `read_num` gives exactly the number that the bytes write in decimal, or the first
//! reason why they write none. `pack_text` does the same for texts, `unpack_text` gives each text back,
//! and texts are ordered as their words.
#![tactic(auto)]

mod column;
mod num;
mod text;

pub use column::{Column, Kind, Label};
pub use num::{ValueFault, read_num};
pub use text::{
    pack_text, packing_keeps_order, spread, texts_are_words, texts_come_back, unpack_text,
    words_come_back,
};
