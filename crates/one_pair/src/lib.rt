// The one modified-immediate pair that leaves 64 bits in a D register, where there is one.
#![tactic(auto)]

ghost use Rattle.std.specs.Prelude.{true, ◌≡◌, ◌≢◌, ◌*◌, ◌/◌, ◌%◌, ◌<◌};
ghost use Rattle.tables.specs.Cells.{cell_at};
ghost use Rattle.immediate_tables.specs.Modimm.{modimm};
ghost use Rattle.fields.specs.Halfwords.{bit, field};
ghost use Rattle.laws.specs.Search.{found};
ghost use Rattle.one_pair.specs.One.{setting, one_at, one_for};
ghost use Rattle.one_pair.specs.Own.{turned as turned_of, Covers};

use immediate_values::{byte_bits, halfword_offset, word_offset};

// The first places of rows op:cmode, and of the rows with op 1.
const HALFWORDS: u16 = 0x800;

const HIGH_BYTES: u16 = 0xa00;

const BYTES: u16 = 0xe00;

const FLOATS: u16 = 0xf00;

const OP_1: u16 = 0x1000;

const EACH_BIT: u16 = 0x1e00;

// What a row leaves of its pattern: VMVN the complement.
fn turned(row: u8, p: u64) -> u64
    ensures { result ≡ turned_of row p }
{
    if row < 16 {
        return p;
    }
    if row == 30 {
        return p;
    }
    !p
}

// Where a halfword would stand that fills 64 bits: eight bytes alike, one byte of it beside 0, or beside ones.
fn halfword_place(h: u64) -> u16
    requires { h < 0x1_0000 }
    ensures { Covers (h * 0x1_0001 * 0x1_0000_0001) result }
{
    if h % 0x100 == h / 0x100 {
        if h == 0 {
            return 0;
        }
        return BYTES + (h % 0x100) as u16;
    }
    if h < 0x100 {
        return HALFWORDS + h as u16;
    }
    if h % 0x100 == 0 {
        return HIGH_BYTES + (h / 0x100) as u16;
    }
    OP_1 + HALFWORDS + halfword_offset(0xffff - h)
}

// Where a word would stand that fills 64 bits and whose two halfwords differ: a byte at its place, perhaps with ones below it, or the complement of
// such a word; a float; or bytes of 0 and 255 alone.
fn word_place(w: u64) -> u16
    requires { (w < 0x1_0000_0000) × (w % 0x1_0000 ≢ w / 0x1_0000) }
    ensures { Covers (w * 0x1_0000_0001) result }
{
    if w < 0x100_0000 {
        if w == 0xff_ff00 {
            return EACH_BIT + 0x66;
        }
        return word_offset(w);
    }
    if w % 0x100_0000 == 0 {
        return word_offset(w);
    }
    if w % 0x1_0000 == 0 {
        if w < 0xff00_0000 {
            return FLOATS + (w / 0x8000_0000 * 0x80 + w / 0x8_0000 % 0x80) as u16;
        }
        return OP_1 + word_offset(0xffff_ffff - w);
    }
    if w == 0xff00_00ff {
        return EACH_BIT + 0x99;
    }
    OP_1 + word_offset(0xffff_ffff - w)
}

// The one place to try for v. Two words that differ are left by VMOV.I64 alone.
fn candidate(v: u64) -> u16
    ensures { Covers v result }
{
    let w = v % 0x1_0000_0000;
    if w != v / 0x1_0000_0000 {
        return EACH_BIT + byte_bits(v);
    }
    let h = w % 0x1_0000;
    if h == w / 0x1_0000 {
        return halfword_place(h);
    }
    word_place(w)
}

// Whether a place of a VMOV or a VMVN is read, and leaves v.
fn is_left(t: u16, v: u64) -> bool
    requires { (t < 8192) × (setting (cell_at modimm (bit 12 t) (field 11 8 t)) ≡ true) }
    ensures { result ≡ one_at v t }
{
    let row = (t / 256) as u8;
    let imm8 = (t % 256) as u8;
    if immediates::is_zero_refused(row % 16, imm8) {
        return false;
    }
    match immediates::expand_imm(row / 16, row % 16, imm8) {
        Ok(p) => turned(row, p) == v,
        Err(_) => false,
    }
}

// The lowest place that leaves v.
pub fn one_for(v: u64) -> Option<u16>
    ensures { found result ≡ one_for v }
{
    let t = candidate(v);
    if is_left(t, v) {
        return Some(t);
    }
    None
}
