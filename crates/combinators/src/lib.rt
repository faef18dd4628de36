// Rules made of other rules.
#![tactic(auto)]

mod choice;
mod lift;

pub use choice::Choice;
pub use lift::Lift;
