//! Where each node of a graph is worked, and at what price.
//!
//! Stands on `trust_sets` and `rewrites`. The places of a graph are seen as the place and the AND words of each node, the
//! sum with the outputs, and the flags of its bounds. The main promise: `check_places` gives exactly these
//! (`specs/Place.antt`, `specs/Cost.antt`, `specs/Bounds.antt`), or exactly the first bound that no party counts, or else
//! the sum that is above the most.
//!
//! `plan_text` writes them down, each byte by `specs/PlanText.antt`.
#![tactic(auto)]

mod bounds;
mod broken;
mod check;
mod cost;
mod flags;
pub mod laws;
mod opened;
mod party_rows;
mod place;
mod places;
mod placing;
mod plan;
mod total;

pub use broken::excess;
pub use check::check_places;
pub use place::{Place, PlaceFault};
pub use places::Places;
pub use plan::plan_text;
