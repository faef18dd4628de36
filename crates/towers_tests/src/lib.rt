// Examples for the crate `towers`, as tests.
#![tactic(auto)]

#[cfg(test)]
mod actions;
#[cfg(test)]
mod codes;
#[cfg(test)]
mod limits;
