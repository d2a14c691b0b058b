// The steps of a sum sheet: its bytes as steps, the step rules, and the faults of a step.
#![tactic(auto)]

pub mod bytes;
pub mod faults;
pub mod lawful;
pub mod rules;

// One step, its bytes by name; the two words are the last sixteen bytes.
#[derive(Clone, Copy)]
pub struct Step {
    pub kind: u8,
    pub target: u8,
    pub a: u8,
    pub b: u8,
    pub c: u8,
    pub width: u8,
    pub amount: u8,
    pub sign: u8,
    pub low: u64,
    pub high: u64,
}

// What a translation comes with: the rows that were filled beforehand, row r at bit r.
#[derive(Clone, Copy)]
pub struct Terms {
    pub filled: u16,
}
