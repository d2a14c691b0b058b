// Tables A7-9 and A7-10 as numbers: each cell holds its mnemonic's number, and a blank cell a number that is no mnemonic's.
#![tactic(auto)]

pub mod diff;
pub mod same3;
