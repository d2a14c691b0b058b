// Writing the families with an immediate: shifts, and modified immediates.
#![tactic(auto)]

pub mod modimm;
pub mod shift;
