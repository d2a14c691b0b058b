// A 64-bit pattern as a signed number, and back.
ghost use Rattle.std.specs.Prelude.{◌≡◌};
ghost use Rattle.laws.specs.Signed.{twos_complement, modulo};

// The number whose two's complement is p.
#[tactic(auto, using(crate::proofs::Signs::signed_is))]
pub fn signed_of(p: u64) -> i64
    ensures { result ≡ twos_complement 64 p }
{
    p.cast_signed()
}

// The two's complement of v.
#[tactic(auto, using(crate::proofs::Signs::pattern_is))]
pub fn pattern_of(v: i64) -> u64
    ensures { result ≡ modulo 64 v }
{
    v.cast_unsigned()
}
