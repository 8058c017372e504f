//! Wires over a step list: a circuit that is written once over `Wires` becomes steps.
//!
//! Stands on `wires` and `step_lists`. Wire i is register i, and each call pushes one step, which makes one register.
//! The main promise: in each environment of the list a wire has its register's open value, so what a circuit says of
//! its wires is said of the list; and whatever is called, the list that was borrowed begins the list that it becomes,
//! with constants, linear steps and Ands alone behind it.
#![tactic(auto)]

mod emit;
pub mod laws;

pub use emit::Emit;
