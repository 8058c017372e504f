//! Three parties in lockstep: three shares of each register, each party's slots, and the words on six links.
#![tactic(auto)]

mod clear;
mod draw_steps;
mod draws;
mod joint;
mod laws;
mod links;
mod local;
mod machine;
mod masked;
mod phases;
mod reveal;
mod run;
mod shown;
mod steer;
mod steps;

pub use draws::{RevealDraws, SteerDraws, draw_reveal, draw_steer};
pub use joint::{JointFault, JointRun, check_run, joint_run};
pub use laws::{link_laws, opened_laws, steps_fit};
pub use machine::Machine;
pub use phases::{Drawn as PhaseDrawn, Turned, phase};
pub use run::start;
pub use shown::open;
