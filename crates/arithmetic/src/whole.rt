// Lanes read by sign. A signed lane is an i64, and goes back to its bits.
ghost use Rattle.std.specs.Prelude.{◌≡◌, ◌+◌, ◌*◌, ◌/◌, ◌%◌, ◌^◌, ◌<◌, ◌≤◌, int_lt};
ghost use Rattle.std.specs.Int.Signed.{shr_z};
ghost use Rattle.insn.specs.declared.Sign.TheVariants.{Signed};
ghost use Rattle.arithmetic.specs.Whole.{read_as, greater, lesser};
ghost use Rattle.laws.specs.Signed.{modulo};

use crate::arith::Bits;
use insn::Sign;
use insn::signed::signed_of;

// Where lane i of a word is; lane 0 is the lowest.
#[derive(Clone, Copy)]
pub struct Place {
    pub bits: Bits,
    pub i: u32,
    ghost inside: { bits.count * i + bits.count ≤ 64 },
}

// A lane: a number of so many bits.
#[derive(Clone, Copy)]
pub struct Lane {
    pub bits: Bits,
    pub x: u64,
    ghost fits: { x < 2 ^ bits.count },
}

// The lanes of an operation's two sources, with as many bits each.
#[derive(Clone, Copy)]
pub struct Sources {
    pub bits: Bits,
    pub x: u64,
    pub y: u64,
    ghost x_fits: { x < 2 ^ bits.count },
    ghost y_fits: { y < 2 ^ bits.count },
}

impl Bits {
    // The lane of a whole number.
    pub fn lane_of(self, z: i64) -> u64
        ensures { result ≡ modulo self.count z }
    {
        self.cut(z.cast_unsigned())
    }
}

impl Place {
    // The lane there, as a number.
    pub fn number(self, v: u64) -> u64
        ensures { result ≡ v / 2 ^ (self.bits.count * self.i) % 2 ^ self.bits.count }
    {
        self.bits.cut(v >> (self.bits.count * self.i))
    }

    // The lane there.
    pub fn lane(self, v: u64) -> Lane
        ensures bits { result.bits.count ≡ self.bits.count }
        ensures x { result.x ≡ v / 2 ^ (self.bits.count * self.i) % 2 ^ self.bits.count }
    {
        Lane {
            bits: self.bits,
            x: self.number(v),
        }
    }

    // The lanes there of two sources.
    pub fn sources(self, n: u64, m: u64) -> Sources
        ensures bits { result.bits.count ≡ self.bits.count }
        ensures x { result.x ≡ n / 2 ^ (self.bits.count * self.i) % 2 ^ self.bits.count }
        ensures y { result.y ≡ m / 2 ^ (self.bits.count * self.i) % 2 ^ self.bits.count }
    {
        Sources {
            bits: self.bits,
            x: self.number(n),
            y: self.number(m),
        }
    }
}

impl Lane {
    // The lane in two's complement: its top bit goes to the top of a word, and the shift back copies it.
    fn signed(self) -> i64
        ensures { result ≡ read_as Signed self.bits.count self.x }
    {
        signed_of(self.x << (64 - self.bits.count)) >> (64 - self.bits.count)
    }

    // The floor of the lane over 2^k. From k = 63 on, a signed lane leaves only its sign.
    pub fn right(self, s: Sign, k: u32) -> u64
        ensures { result ≡ modulo self.bits.count (shr_z (read_as s self.bits.count self.x) (2 ^ k)) }
    {
        match s {
            Sign::Unsigned => { if k < 64 { self.x >> k } else { 0 } }
            Sign::Signed => {
                if k < 64 {
                    self.bits.lane_of(self.signed() >> k)
                } else {
                    self.bits.lane_of(self.signed() >> 63)
                }
            }
        }
    }

    // The lane with v bits, extended by its sign.
    pub fn extend(self, s: Sign, v: Bits) -> u64
        ensures { result ≡ modulo v.count (read_as s self.bits.count self.x) }
    {
        match s {
            Sign::Unsigned => v.cut(self.x),
            Sign::Signed => v.lane_of(self.signed()),
        }
    }
}

impl Sources {
    // The first of them.
    pub fn first(self) -> Lane
        ensures bits { result.bits.count ≡ self.bits.count }
        ensures x { result.x ≡ self.x }
    {
        Lane {
            bits: self.bits,
            x: self.x,
        }
    }

    // The second of them.
    pub fn second(self) -> Lane
        ensures bits { result.bits.count ≡ self.bits.count }
        ensures x { result.x ≡ self.y }
    {
        Lane {
            bits: self.bits,
            x: self.y,
        }
    }

    // Each as the other.
    pub fn swapped(self) -> Sources
        ensures bits { result.bits.count ≡ self.bits.count }
        ensures x { result.x ≡ self.y }
        ensures y { result.y ≡ self.x }
    {
        Sources {
            bits: self.bits,
            x: self.y,
            y: self.x,
        }
    }

    // Whether x is less than y.
    pub fn less(self, s: Sign) -> bool
        ensures { result ≡ int_lt (read_as s self.bits.count self.x) (read_as s self.bits.count self.y) }
    {
        match s {
            Sign::Unsigned => self.x < self.y,
            Sign::Signed => self.first().signed() < self.second().signed(),
        }
    }

    // The greater of the two.
    pub fn greatest(self, s: Sign) -> u64
        ensures { result ≡ modulo self.bits.count (greater (read_as s self.bits.count self.x) (read_as s self.bits.count self.y)) }
    {
        if self.less(s) { self.y } else { self.x }
    }

    // The lesser of the two.
    pub fn least(self, s: Sign) -> u64
        ensures { result ≡ modulo self.bits.count (lesser (read_as s self.bits.count self.x) (read_as s self.bits.count self.y)) }
    {
        if self.less(s) { self.x } else { self.y }
    }
}
