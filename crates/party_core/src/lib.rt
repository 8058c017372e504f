//! One party of three that carries out a list: what it is seen as, and what is known of it. It holds its own slots, its two
//! tapes and the words that came, and never another party's data.
#![tactic(auto)]

mod checks;
mod clear;
mod draws;
mod faults;
mod laws;
mod lists;
mod local;
mod masked;
mod messages;
mod moving;
mod orders;
mod outbox;
mod pairs;
mod party;
mod phases;
mod places;
mod portion;
mod reveal;
mod sending;
mod stages;
mod state;
mod steer;
mod stepping;
mod supply;
mod want;

pub use faults::{CoreFault, TakeFault};
pub use laws::{core_laws, move_laws};
pub use outbox::Outbox;
pub use party::Core;
pub use want::Want;
