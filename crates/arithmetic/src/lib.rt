// Numbers of w bits: arithmetic from 0, and by sign.
#![tactic(auto)]

pub mod arith;
pub mod whole;
