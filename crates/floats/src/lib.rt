// The floats that an immediate stands for, and the immediate of a float.
#![tactic(auto)]

ghost use Rattle.std.specs.Prelude.{◌≡◌};
ghost use Rattle.laws.specs.Search.{found};
ghost use Rattle.floats.specs.Floats.{k_of, float_of, float_bits};
ghost use Rattle.floats.specs.Found.{find_float};

// k of the float k/128.
#[tactic(auto, using(crate::proofs::Exact::k_fits))]
pub fn float_k(imm8: u8) -> u16
    ensures { result ≡ k_of imm8 }
{
    ((16 + imm8 % 16) as u16) << ((imm8 / 16 + 4) % 8)
}

// The float of an immediate.
pub fn imm_float(imm8: u8) -> f64
    ensures { result ≡ float_of imm8 }
{
    let x = float_k(imm8) as f64 / 128.0;
    if imm8 < 128 { x } else { -x }
}

// The 32-bit pattern of the float of an immediate.
pub fn float_bits(imm8: u8) -> u64
    ensures { result ≡ float_bits imm8 }
{
    let b = imm8 as u64;
    b / 128 % 2 * 0x8000_0000
        + (1 - b / 64 % 2) * 0x4000_0000
        + b / 64 % 2 * 0x3e00_0000
        + b % 64 * 0x8_0000
}

// The immediate whose float compares equal to x: the one that x's bits name, if it does.
pub fn float_imm8(x: f64) -> Option<u8>
    ensures { found result ≡ find_float x }
{
    if x.is_nan() {
        return None;
    }
    let bits = x.to_bits();
    let imm8 = (bits / 0x8000_0000_0000_0000 % 2 * 128 + bits / 0x1_0000_0000_0000 % 128) as u8;
    if imm_float(imm8) == x {
        Some(imm8)
    } else {
        None
    }
}
