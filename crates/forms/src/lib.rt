// What a mnemonic's operands are, and what it does with them.
#![tactic(auto)]

use double_lanes::DoubleOp;
use insn::{Sign, Width};
use lanes::LaneOp;
use operations::{BitOp, ConstantOp};

// A shift at each lane: left, right, left with twice the bits, or right with half of them.
#[derive(Clone, Copy)]
pub enum Direction {
    Left,
    Right(Sign),
    Long(Sign),
    Narrow,
}

// The operands that a mnemonic takes, and what it does with them.
#[derive(Clone, Copy)]
pub enum Form {
    // Target and two sources, lane by lane.
    Lanes(LaneOp, Width),
    // Target and two sources, bit by bit.
    Bits(BitOp),
    // Target and the source that is copied.
    Copy,
    // Target, source and amount.
    Shift(Direction, Width),
    // Target and two sources of unlike length, lane by lane.
    Double(DoubleOp, Width),
    // Target and a source of half its length, whose lanes are extended.
    Extend(Sign, Width),
    // Target and a number for elements of the width.
    Number(ConstantOp, Width),
    // Target and a float.
    Float,
    // No meaning.
    Nothing,
}
