// Hulls over a touch list: V, building and placing.
#![tactic(auto)]

pub mod build;
mod doubles;
mod face;
mod four_corner;
pub mod place;
mod raise;
mod rooms;
mod start;
mod step;
mod whole;
