// Reading a pair of halfwords.
#![tactic(auto)]

ghost use Rattle.std.specs.Prelude.{◌≡◌};
ghost use Rattle.insn.specs.Answers.{answer};
ghost use Rattle.decode.specs.Editions.{is_fused, is_withheld, reading_in};
ghost use Rattle.decode.specs.Reading.{family_of};

use insn::{Edition, Insn, Refusal};
use read_immediates::{modimm, shift};
use read_registers::{diff, same3};

// The families of document 01, 'Four families'.
#[derive(Clone, Copy)]
pub enum Family {
    ThreeSame,
    ThreeDifferent,
    Shift,
    ModifiedImmediate,
    NoFamily,
}

// The family of a pair, by its fixed bits.
#[tactic(auto, unfolding(crate::specs::Reading::family_of))]
pub fn family_of(hw1: u16, hw2: u16) -> Family
    ensures { result ≡ family_of hw1 hw2 }
{
    if hw1 / 8192 % 8 != 7 || hw1 / 256 % 16 != 15 {
        return Family::NoFamily;
    }
    if hw1 / 128 % 2 == 0 {
        return Family::ThreeSame;
    }
    if hw2 / 16 % 2 == 1 {
        if amounts::is_modimm_escape((hw2 / 128 % 2) as u8, (hw1 % 64) as u8) {
            return Family::ModifiedImmediate;
        }
        return Family::Shift;
    }
    if hw2 / 64 % 2 == 1 {
        return Family::NoFamily;
    }
    if hw1 / 16 % 4 != 3 {
        return Family::ThreeDifferent;
    }
    Family::NoFamily // other tables of A7.4
}

// Whether a pair is a vfma or a vfms, by its fixed bits.
fn is_fused(hw1: u16, hw2: u16) -> bool
    ensures { result ≡ is_fused hw1 hw2 }
{
    hw1 / 128 % 512 == 0x1de && hw1 / 16 % 2 == 0 && hw2 / 256 % 16 == 12 && hw2 / 16 % 2 == 1
}

// Whether the edition withholds the name of the pair's cell.
fn is_withheld(edition: Edition, hw1: u16, hw2: u16) -> bool
    ensures { result ≡ is_withheld edition hw1 hw2 }
{
    match edition {
        Edition::B => is_fused(hw1, hw2),
        Edition::C => false,
    }
}

// Reads a pair at an address, as the edition has it.
#[tactic(auto, unfolding(crate::specs::Reading::reading, crate::specs::Reading::in_family))]
pub fn read(edition: Edition, hw1: u16, hw2: u16, address: u32) -> Result<Insn, Refusal>
    ensures { answer result ≡ reading_in edition hw1 hw2 address }
{
    if is_withheld(edition, hw1, hw2) {
        return Err(Refusal::BlankCell);
    }
    match family_of(hw1, hw2) {
        Family::ThreeSame => same3::decode_same3(hw1, hw2, address),
        Family::ThreeDifferent => diff::decode_diff(hw1, hw2, address),
        Family::Shift => shift::decode_shift(hw1, hw2, address),
        Family::ModifiedImmediate => modimm::decode_modimm(hw1, hw2, address),
        Family::NoFamily => Err(Refusal::NoFamily),
    }
}
