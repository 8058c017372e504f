//! Lists as contracts see them: a vector that is the list of its items, so that an enum or a struct
//! that holds one is plain data there, and lists of words that are lent. It stands on no crate.
#![tactic(auto)]

mod lent;
mod listed;

pub use lent::lend;
pub use listed::{Listed, Numbers, Words};
