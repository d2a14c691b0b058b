// The pairs of steps, put into a lent output as far as it reaches.
#![tactic(auto)]

ghost use Rattle.std.specs.Prelude.{◌≡◌, [], ◌∷◌, ◌+◌, ◌*◌, ◌/◌, ◌%◌, ◌^◌, ◌<◌, ◌≤◌, length};
ghost use Rattle.laws.specs.Answer.{accepted};
ghost use Rattle.laws.specs.Placed.{Placed};
ghost use Rattle.recipes.specs.Pairs.{add_byte, word_pairs, join_pairs, half_pairs, pairs_by, pairs_of, halfwords, halfwords_of};
ghost use Rattle.steps.specs.Rules.{AllKeep};
ghost use Rattle.steps.specs.Steps.{steps_of};
ghost use Rattle.text.specs.Writes.{Writes};
ghost use Rattle.write_immediates.specs.Modimm.{modimm_pair};
ghost use Rattle.writings.specs.Answers.{writing_answer};

use insn::{Edition, Insn, Refusal};
use recipes::{Recipe, recipe_of, records};
use steps::Step;
use steps::bytes::step_at;
use steps::lawful::LawfulStep;
use text::{Page, store};
use write_immediates::modimm::modimm_pair;

// The places op:cmode:imm8 of VMOV.I32 with a zero, and of VMOV.I64 with a word of ones.
const ZERO: u16 = 0;

const LOW_WORD: u16 = 0x1e0f;

// Puts two halfwords.
fn put_pair(page: &mut Page<u16>, hw1: u16, hw2: u16)
    requires { page.old.at < 2 ^ 32 }
    ensures { Writes 2 page.old (hw1 ∷ hw2 ∷ []) page.new }
{
    let at = page.at;
    let out = &mut *page.out;
    store(out, at, hw1);
    store(out, at + 1, hw2);
    page.at = at + 2;
}

// Puts what was written, if it was.
fn put_written(page: &mut Page<u16>, w: Result<(u16, u16), Refusal>)
    requires { page.old.at < 2 ^ 32 }
    ensures { Writes 2 page.old (halfwords (writing_answer w)) page.new }
{
    if let Ok((hw1, hw2)) = w {
        put_pair(page, hw1, hw2);
    }
}

// Puts a record's pair, as edition C has it.
fn put(page: &mut Page<u16>, i: Insn)
    requires { page.old.at < 2 ^ 32 }
    ensures { Writes 2 page.old (halfwords_of (i ∷ [])) page.new }
{
    put_written(page, encode::write(Edition::C, i));
}

// Puts the pair of a place op:cmode:imm8 that is read, and a register.
fn put_place(page: &mut Page<u16>, t: u16, quad: bool, d: u8)
    requires { page.old.at < 2 ^ 32 }
    ensures { Writes 2 page.old (halfwords (accepted (modimm_pair t quad d))) page.new }
{
    let (hw1, hw2) = modimm_pair(t, quad, d);
    put_pair(page, hw1, hw2);
}

// VORR.I32 of the lowest byte of v at bit 8k, where it is not 0: its row is 2k + 1.
fn put_byte(page: &mut Page<u16>, r: u8, v: u32, k: u16)
    requires { (page.old.at < 2 ^ 32) × ((r < 32) × (k < 4)) }
    ensures { Writes 2 page.old (halfwords_of (add_byte r (v % 256 * 2 ^ (8 * k)))) page.new }
{
    let byte = (v % 0x100) as u16;
    if byte != 0 {
        put_place(page, (2 * k + 1) * 0x100 + byte, false, r);
    }
}

// 32 bits, in both words of a D register: VMOV.I32 of the lowest byte, in row 0, and the others joined.
fn put_word(page: &mut Page<u16>, r: u8, v: u32)
    requires { (page.old.at < 2 ^ 31) × (r < 32) }
    ensures { Writes 8 page.old (halfwords_of (word_pairs r v)) page.new }
{
    put_place(page, (v % 0x100) as u16, false, r);
    put_byte(page, r, v / 0x100, 1);
    put_byte(page, r, v / 0x1_0000, 2);
    put_byte(page, r, v / 0x100_0000, 3);
}

// The mask of a low word, in D30, and the high word by it.
fn put_joined(page: &mut Page<u16>, r: u8)
    requires { (page.old.at < 2 ^ 31) × (r < 32) }
    ensures { Writes 4 page.old (halfwords_of (join_pairs r)) page.new }
{
    put_place(page, LOW_WORD, false, 30);
    put(page, records::join_words(r));
}

// 64 bits in a D register, by their recipe.
fn put_half(page: &mut Page<u16>, r: u8, v: u64)
    requires { (page.old.at < 2 ^ 30) × (r < 32) }
    ensures { Writes 20 page.old (halfwords_of (half_pairs r v)) page.new }
{
    let half = recipe_of(v);
    match half {
        Recipe::One(t) => put_place(page, t, false, r),
        Recipe::Twice(word) => put_word(page, r, word),
        Recipe::Joined(low, high) => {
            put_word(page, r, low);
            put_word(page, 28, high);
            put_joined(page, r);
        }
    }
}

// Kind 0: the low half, then the high.
#[tactic(auto, using(steps::proofs::Kept::bytes_small))]
fn put_constant(page: &mut Page<u16>, s: LawfulStep)
    requires { page.old.at < 2 ^ 29 }
    ensures { Writes 40 page.old (halfwords_of (pairs_by 0 s.step)) page.new }
{
    put_half(page, 2 * s.step.target, s.step.low);
    put_half(page, 2 * s.step.target + 1, s.step.high);
}

// Kind 8: a zero in Q14, and VORN with it.
fn put_not(page: &mut Page<u16>, s: Step)
    requires { page.old.at < 2 ^ 29 }
    ensures { Writes 4 page.old (halfwords_of (pairs_by 8 s)) page.new }
{
    put_place(page, ZERO, true, 28);
    put(page, records::invert(s.target, s.a));
}

// Kind 14: c goes to Q14 and picks there, before the target is written.
fn put_picked(page: &mut Page<u16>, s: Step)
    requires { page.old.at < 2 ^ 29 }
    ensures { Writes 6 page.old (halfwords_of (pairs_by 14 s)) page.new }
{
    put(page, records::copy(14, s.c));
    put(page, records::pick(s.a, s.b));
    put(page, records::copy(s.target, 14));
}

// Puts a step's pairs.
#[tactic(auto, using(steps::proofs::Kept::bytes_small))]
fn put_step(page: &mut Page<u16>, s: LawfulStep)
    requires { page.old.at < 2 ^ 29 }
    ensures { Writes 40 page.old (halfwords_of (pairs_by s.step.kind s.step)) page.new }
{
    match s.step.kind {
        0 => put_constant(page, s),
        8 => put_not(page, s.step),
        14 => put_picked(page, s.step),
        _ => put(page, records::single(s)),
    }
}

// Puts the pairs of a sheet's steps.
fn put_sheet(page: &mut Page<u16>, sheet: &[u8])
    requires { (page.old.at < 2 ^ 28) × ((length sheet.now / 24 ≤ 256) × AllKeep (steps_of sheet.now)) }
    ensures { Writes (40 * (length sheet.now / 24)) page.old (halfwords_of (pairs_of (steps_of sheet.now))) page.new }
{
    for i in 0..sheet.len() / 24 {
        let step = step_at(sheet, 24 * i);
        put_step(page, LawfulStep { step });
    }
}

// Puts the pairs of a sheet's steps from the start of out, as far as out reaches; the answer is how many halfwords they are.
pub fn put_steps(sheet: &[u8], out: &mut [u16]) -> usize
    requires { (length sheet.now / 24 ≤ 256) × AllKeep (steps_of sheet.now) }
    ensures { Placed (40 * (length sheet.now / 24)) out.old 0 (halfwords_of (pairs_of (steps_of sheet.now))) out.new result }
{
    let mut page = Page::new(out);
    put_sheet(&mut page, sheet);
    page.at
}
