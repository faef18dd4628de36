// Floors: transformations of a tower.
#![tactic(auto)]

mod action;
mod directed;
mod floor;
mod numbers;

pub use action::Action;
pub use floor::Floor;
