//! Words in lanes: the algebra of xor and and on lists of words, picking by places, three parties
//! that go round, and a value for each of them.
//!
//! Every crate that speaks of masks, shares or orders stands on it, and it stands on `listed` alone.
//! The definitions on lists pad xor with zeros and cut and to the shorter list, so that nearly all
//! laws hold at any lengths.
#![tactic(auto)]

mod lane_work;
mod laws;
mod log;
mod party;
mod three;

pub use lane_work::{pick_words, shared_and, shared_ands, xor_into, xor_words};
pub use laws::{
    fold_laws, item_laws, lane_laws, log_laws, party_laws, shared_and_laws, table_laws, word_laws,
    xor_laws,
};
pub use log::ceil_log2;
pub use party::Party;
pub use three::Three;
