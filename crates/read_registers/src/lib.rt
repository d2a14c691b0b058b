// Reading the families of three registers: of the same length, and of different lengths.
#![tactic(auto)]

pub mod diff;
pub mod same3;
