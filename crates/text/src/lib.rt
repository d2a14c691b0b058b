// Pages, and numbers and literal texts on a page of bytes. An element past its end is not stored but counted, so that to
// measure is to write to nothing.
#![tactic(auto)]

ghost use Rattle.std.specs.Prelude.{◌≡◌, ◌∷◌, [], ◌+◌, ◌-◌, ◌/◌, ◌%◌, ◌<◌, ◌^◌, length, set};
ghost use Rattle.text.specs.Writes.{Writes};
ghost use Rattle.text.specs.Text.{decimal, minus, signed_decimal, hex_digit, hex4};

// One element at a place.
pub fn store<T: Copy>(out: &mut [T], at: usize, x: T)
    ensures { out.new ≡ set out.old at x }
{
    if at < out.len() {
        out[at] = x;
    }
}

// A lent buffer and the place where writing goes on.
#[derive(Drop)]
pub struct Page<'a, T> {
    pub out: &'a mut [T],
    pub at: usize,
}

impl<'a, T: Copy> Page<'a, T> {
    // From the start of a buffer.
    pub fn new(out: &'a mut [T]) -> Page<'a, T>
        ensures buffer { result.out.ghost_name ≡ out.entry.ghost_name }
        ensures elements { result.out.now ≡ out.old }
        ensures start { result.at ≡ 0 }
    {
        Page { out, at: 0 }
    }

    // One element.
    pub fn put(&mut self, x: T)
        requires { self.old.at < 2 ^ 64 - 1 }
        ensures { Writes 1 self.old (x ∷ []) self.new }
    {
        let at = self.at;
        store(self.out, at, x);
        self.at = at + 1;
    }
}

impl<'a> Page<'a, u8> {
    // Four bytes; one test for all, where there is room.
    pub fn put_word(&mut self, a: u8, b: u8, c: u8, d: u8)
        requires { self.old.at < 2 ^ 62 }
        ensures { Writes 4 self.old (a ∷ b ∷ c ∷ d ∷ []) self.new }
    {
        let at = self.at;
        if at + 4 <= self.out.len() {
            let out = &mut *self.out;
            out[at] = a;
            out[at + 1] = b;
            out[at + 2] = c;
            out[at + 3] = d;
            self.at = at + 4;
        } else {
            self.put(a);
            self.put(b);
            self.put(c);
            self.put(d);
        }
    }

    // Two decimal digits.
    fn put_two(&mut self, n: u64)
        requires at_bound { self.old.at < 2 ^ 63 }
        requires n_bound { n < 100 }
        ensures { Writes 2 self.old ((48 + n / 10) ∷ (48 + n % 10) ∷ []) self.new }
    {
        let at = self.at;
        let out = &mut *self.out;
        store(out, at, 48 + (n / 10) as u8);
        store(out, at + 1, 48 + (n % 10) as u8);
        self.at = at + 2;
    }

    // A number of one or two digits, with no branch: the last digit is stored over a leading 0.
    pub fn put_small(&mut self, n: u64)
        requires at_bound { self.old.at < 2 ^ 62 }
        requires n_bound { n < 100 }
        ensures { Writes 2 self.old (decimal n) self.new }
    {
        let at = self.at;
        let last = at + usize::from(10 <= n);
        let out = &mut *self.out;
        store(out, at, 48 + (n / 10) as u8);
        store(out, last, 48 + (n % 10) as u8);
        self.at = last + 1;
    }

    // Four decimal digits.
    fn put_four(&mut self, n: u64)
        requires at_bound { self.old.at < 2 ^ 62 }
        requires n_bound { n < 10000 }
        ensures { Writes 4 self.old ((48 + n / 100 / 10) ∷ (48 + n / 100 % 10) ∷ (48 + n % 100 / 10) ∷ (48 + n % 100 % 10) ∷ []) self.new }
    {
        self.put_word(
            48 + (n / 100 / 10) as u8,
            48 + (n / 100 % 10) as u8,
            48 + (n % 100 / 10) as u8,
            48 + (n % 100 % 10) as u8,
        );
    }

    // A number of at most five digits.
    pub fn put_five(&mut self, n: u64)
        requires at_bound { self.old.at < 2 ^ 61 }
        requires n_bound { n < 100000 }
        ensures { Writes 5 self.old (decimal n) self.new }
    {
        if n < 100 {
            self.put_small(n);
        } else if n < 10000 {
            self.put_small(n / 100);
            self.put_two(n % 100);
        } else {
            self.put(48 + (n / 10000) as u8);
            self.put_four(n % 10000);
        }
    }

    // A number in decimal.
    pub fn put_decimal(&mut self, n: u64)
        requires { self.old.at < 2 ^ 60 }
        ensures { Writes 20 self.old (decimal n) self.new }
    {
        if n < 100000 {
            self.put_five(n);
        } else {
            self.put_decimal(n / 10000);
            self.put_four(n % 10000);
        }
    }

    // A minus for what is negative.
    pub fn put_minus(&mut self, negative: bool)
        requires { self.old.at < 2 ^ 62 }
        ensures { Writes 1 self.old (minus negative) self.new }
    {
        if negative {
            self.put(b'-');
        }
    }

    // A whole number, with a sign only when it is negative.
    pub fn put_signed(&mut self, v: i64)
        requires { self.old.at < 2 ^ 59 }
        ensures { Writes 20 self.old (signed_decimal v) self.new }
    {
        self.put_minus(v < 0);
        self.put_decimal(v.unsigned_abs());
    }

    // The four hexadecimal digits of a halfword, after a space.
    pub fn put_halfword(&mut self, h: u16)
        requires { self.old.at < 2 ^ 61 }
        ensures { Writes 5 self.old (32 ∷ hex4 h) self.new }
    {
        self.put(b' ');
        self.put_word(
            hex_digit(h / 4096),
            hex_digit(h / 256),
            hex_digit(h / 16),
            hex_digit(h),
        );
    }

    // All bytes of a text.
    pub fn put_text(&mut self, s: &[u8])
        requires { self.old.at < 2 ^ 62 }
        ensures { Writes (length s.now) self.old s.now self.new }
    {
        for b in s {
            self.put(*b);
        }
    }
}

fn hex_digit(d: u16) -> u8
    ensures { result ≡ hex_digit (d % 16) }
{
    let digit = (d % 16) as u8;
    if digit < 10 { 48 + digit } else { 87 + digit }
}
