//! Laws of the parts of three parties in one joint run.
#![tactic(auto)]

mod laws;

pub use laws::{
    fronts_fit, fronts_grow, parts_are_in_machine, parts_grow, parts_have_words, stages_hold,
};
