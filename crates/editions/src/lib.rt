// The editions of the manual: which mnemonics an edition withholds, and the number by which a caller names it.
#![tactic(auto)]

ghost use Rattle.std.specs.Prelude.{◌≡◌};
ghost use Rattle.names.specs.Names.{name_of};
ghost use Rattle.editions.specs.Editions.{withholds, edition_of};

use insn::Edition;

// vfma.f32 and vfms.f32, which edition B has not.
const VFMA: u16 = 79;

const VFMS: u16 = 80;

// Whether the edition withholds mnemonic m.
#[tactic(auto, using(crate::proofs::ByNumber::by_number))]
pub fn withholds(edition: Edition, m: u16) -> bool
    ensures { result ≡ withholds edition (name_of m) }
{
    match edition {
        Edition::B => m == VFMA || m == VFMS,
        Edition::C => false,
    }
}

// The edition that a number names: 1 is B, any other is C.
pub fn edition_of(n: u32) -> Edition
    ensures { result ≡ edition_of n }
{
    if n == 1 { Edition::B } else { Edition::C }
}
