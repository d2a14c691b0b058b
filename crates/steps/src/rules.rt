// The step rules.
ghost use Rattle.std.specs.Prelude.{◌≡◌, ◌<◌};
ghost use Rattle.steps.specs.Rules.{uses_of, keeps_rows, keeps_numbers, keeps, allows};
ghost use Rattle.insn.specs.Widths.{bits_at};
ghost use Rattle.steps.specs.Own.{limit, limits};

use crate::Step;

// How many values each byte of a step may have; a byte that its kind does not use has one, 0.
#[derive(Clone, Copy)]
pub struct Values {
    pub a: u8,
    pub b: u8,
    pub c: u8,
    pub width: u8,
    pub sign: u8,
}

const CONSTANT: Values = Values {
    a: 1,
    b: 1,
    c: 1,
    width: 1,
    sign: 1,
};

const COPY: Values = Values { a: 14, ..CONSTANT };

const BITS: Values = Values { b: 14, ..COPY };

const SUM: Values = Values { width: 4, ..BITS };

const PRODUCT: Values = Values { width: 3, ..BITS };

const LEFT: Values = Values { width: 4, ..COPY };

const RIGHT: Values = Values { sign: 2, ..LEFT };

const ORDER: Values = Values { sign: 2, ..PRODUCT };

const PICK: Values = Values { c: 14, ..BITS };

// The values of each kind, 0 to 14.
const VALUES: [Values; 15] = [
    CONSTANT, COPY, SUM, SUM, PRODUCT, BITS, BITS, BITS, COPY, LEFT, RIGHT, ORDER, ORDER, ORDER,
    PICK,
];

// The values of a kind; one past the table uses no byte.
#[inline(always)]
pub fn values_of(kind: u8) -> Values
    ensures { result ≡ limits (uses_of kind) }
{
    if kind < 15 {
        let rows = &VALUES;
        rows[kind as usize]
    } else {
        CONSTANT
    }
}

// The rows and the width code.
fn keeps_rows(s: Step) -> bool
    ensures { result ≡ keeps_rows (uses_of s.kind) s }
{
    let v = values_of(s.kind);
    (s.target < 14) & ((s.a < v.a) & ((s.b < v.b) & ((s.c < v.c) & (s.width < v.width))))
}

// How many amounts a kind and a width allow.
fn amounts(kind: u8, width: u8) -> u16
    requires { width < 4 }
    ensures { result ≡ limit ((uses_of kind).amount (bits_at width)) }
{
    if kind == 9 {
        8u16 << width
    } else if kind == 10 {
        (8u16 << width) + 1
    } else {
        1
    }
}

// A word that the kind does not use is 0.
fn keeps_word(kind: u8, v: u64) -> bool
    ensures { result ≡ allows (uses_of kind).words v }
{
    if kind == 0 { true } else { v < 1 }
}

// The amount, the sign and the words.
fn keeps_numbers(s: Step) -> bool
    requires { s.width < 4 }
    ensures { result ≡ keeps_numbers (uses_of s.kind) s }
{
    let v = values_of(s.kind);
    let low = keeps_word(s.kind, s.low);
    let high = keeps_word(s.kind, s.high);
    let limit = amounts(s.kind, s.width);
    ((s.amount as u16) < limit) & ((s.sign < v.sign) & (low & high))
}

// Whether a step keeps the step rules.
pub fn keeps_rules(s: Step) -> bool
    ensures { result ≡ keeps s }
{
    if 15 <= s.kind {
        return false;
    }
    keeps_rows(s) && keeps_numbers(s)
}
