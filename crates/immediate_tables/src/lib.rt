// Tables A7-12 and A7-14 as numbers: each cell holds its mnemonic's number, and a blank cell a number that is no mnemonic's.
#![tactic(auto)]

pub mod modimm;
pub mod shift;
