// Turing machines as rules, on rings.
#![tactic(auto)]

mod configuration;
mod machine;
mod sizes;
mod transition;
mod turing;

pub use configuration::Configuration;
pub use machine::Turing;
pub use transition::{Move, Transition, UnknownMove};
