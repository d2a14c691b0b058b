// Numbers of so many bits from 0: sums, differences and products that wrap, and the left shift.
ghost use Rattle.std.specs.Prelude.{◌≡◌, ◌+◌, ◌-◌, ◌*◌, ◌%◌, ◌^◌, ◌<◌, ◌≤◌, pos, ◌-ℤ◌};
ghost use Rattle.insn.specs.Widths.{bits_of};
ghost use Rattle.arithmetic.specs.Whole.{ones_if};
ghost use Rattle.laws.specs.Signed.{modulo};

use insn::Width;
use insn::widths::bits;

// How many bits a lane has.
#[derive(Clone, Copy)]
pub struct Bits {
    pub count: u32,
    ghost positive: { 0 < count },
    ghost within: { count ≤ 64 },
}

impl From<Width> for Bits {
    ghost from_gives = { λ w b. b.count ≡ bits_of w };

    fn from(w: Width) -> Bits {
        Bits { count: bits(w) }
    }
}

impl Bits {
    // The number with its lowest bits set.
    pub fn ones(self) -> u64
        ensures { result ≡ 2 ^ self.count - 1 }
    {
        u64::MAX >> (64 - self.count)
    }

    // The lowest bits of v.
    pub fn cut(self, v: u64) -> u64
        ensures { result ≡ v % 2 ^ self.count }
    {
        v & self.ones()
    }

    // x + y modulo 2^count.
    pub fn sum(self, x: u64, y: u64) -> u64
        ensures { result ≡ (x + y) % 2 ^ self.count }
    {
        self.cut(x.wrapping_add(y))
    }

    // x - y modulo 2^count.
    pub fn difference(self, x: u64, y: u64) -> u64
        ensures { result ≡ modulo self.count (pos x -ℤ pos y) }
    {
        self.cut(x.wrapping_sub(y))
    }

    // x * y modulo 2^count.
    pub fn product(self, x: u64, y: u64) -> u64
        ensures { result ≡ (x * y) % 2 ^ self.count }
    {
        self.cut(product64(x, y))
    }

    // d + x * y modulo 2^count.
    pub fn product_added(self, d: u64, x: u64, y: u64) -> u64
        ensures { result ≡ (d + x * y) % 2 ^ self.count }
    {
        self.sum(d, product64(x, y))
    }

    // d - x * y modulo 2^count.
    pub fn product_taken(self, d: u64, x: u64, y: u64) -> u64
        ensures { result ≡ modulo self.count (pos d -ℤ pos (x * y)) }
    {
        self.difference(d, product64(x, y))
    }

    // x * 2^k modulo 2^count.
    pub fn left(self, x: u64, k: u32) -> u64
        ensures { result ≡ (x * 2 ^ k) % 2 ^ self.count }
    {
        if k < 64 { self.cut(x << k) } else { 0 }
    }

    // All ones where the test holds, else 0.
    pub fn ones_if(self, t: bool) -> u64
        ensures { result ≡ modulo self.count (ones_if t self.count) }
    {
        if t { self.ones() } else { 0 }
    }
}

// The low 64 bits of the product, from the products of halves of 32 bits.
fn product64(x: u64, y: u64) -> u64
    ensures { result ≡ (x * y) % 2 ^ 64 }
{
    let a = x / 0x1_0000_0000;
    let b = x % 0x1_0000_0000;
    let c = y / 0x1_0000_0000;
    let d = y % 0x1_0000_0000;
    let mid = (a * d) % 0x1_0000_0000 + (b * c) % 0x1_0000_0000;
    (b * d).wrapping_add((mid % 0x1_0000_0000) * 0x1_0000_0000)
}
