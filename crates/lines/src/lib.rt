// The lines of a listing.
#![tactic(auto)]

ghost use Rattle.std.specs.Prelude.{◌≡◌, ◌∷◌, [], ◌++◌, map, ◌+◌, ◌*◌, ◌/◌, ◌<◌, ◌≤◌, ◌^◌, length};
ghost use Rattle.laws.specs.Answer.{refused};
ghost use Rattle.insn.specs.Refusals.{number};
ghost use Rattle.decode.specs.Reading.{reading};
ghost use Rattle.totals.specs.Totals.{sort_of, totals_text};
ghost use Rattle.lines.specs.Listing.{halfword_at, reading_text, line_text, pair_line, numbers_below, figure, is_listable, ended_lines, listing};
ghost use Rattle.lines.specs.Own.{most};
ghost use Rattle.laws.specs.Placed.{Placed};
ghost use Rattle.text.specs.Writes.{Writes};

use insn::{Edition, Refusal};
use name_text::Names;
use text::Page;
use totals::Sort;

// The refusal of a pair.
fn put_refusal(page: &mut Page<u8>, f: Refusal)
    requires { page.old.at < 2 ^ 54 }
    ensures { Writes 13 page.old (reading_text (refused (number f))) page.new }
{
    page.put_word(b'r', b'e', b'f', b'u');
    page.put_word(b's', b'e', b'd', b' ');
    page.put_five(u8::from(f) as u64);
}

// The record that a pair reads as under edition C, or the refusal; the answer is the pair's sort, refused by the same
// reading, else its family's.
fn put_reading(page: &mut Page<u8>, hw1: u16, hw2: u16, names: &Names) -> Sort
    requires { page.old.at < 2 ^ 54 }
    ensures text { Writes 78 page.old (reading_text (reading hw1 hw2 0)) page.new }
    ensures sort { result ≡ sort_of hw1 hw2 }
{
    let if_accepted = totals::family_sort(decode::family_of(hw1, hw2));
    match decode::read(Edition::C, hw1, hw2, 0) {
        Ok(i) => {
            display::put_insn(page, i, names);
            if_accepted
        }
        Err(f) => {
            put_refusal(page, f);
            Sort::Refused
        }
    }
}

// A pair's line and its end; the answer is the pair's sort.
fn put_line(page: &mut Page<u8>, i: u64, hw1: u16, hw2: u16, names: &Names) -> Sort
    requires at_bound { page.old.at < 2 ^ 53 }
    requires i_bound { i < 16384 }
    ensures text { Writes 55 page.old (line_text i hw1 hw2 ++ 10 ∷ []) page.new }
    ensures sort { result ≡ sort_of hw1 hw2 }
{
    page.put_five(i);
    page.put_halfword(hw1);
    page.put_halfword(hw2);
    page.put(b' ');
    let sort = put_reading(page, hw1, hw2, names);
    page.put(b'\n');
    sort
}

// The halfword whose lower byte is at place k.
fn halfword_at(input: &[u8], k: usize) -> u16
    requires { k + 1 < length input.now }
    ensures { result ≡ halfword_at input.now k }
{
    u16::from_le_bytes([input[k], input[k + 1]])
}

// A line for each pair, and the totals.
fn put_lines(page: &mut Page<u8>, input: &[u8], names: &Names)
    requires at_bound { page.old.at < 2 ^ 52 }
    requires input_len_bound { length input.now ≤ 65536 }
    ensures { Writes (55 * (length input.now / 4) + 58) page.old (ended_lines (map (pair_line input.now) (numbers_below (length input.now / 4)) ++ totals_text (figure input.now) ∷ [])) page.new }
{
    let mut counts = [0u16; 5];
    for i in 0..input.len() / 4 {
        let sort = put_line(
            page,
            i as u64,
            halfword_at(input, 4 * i),
            halfword_at(input, 4 * i + 2),
            names,
        );
        totals::count_one(&mut counts, sort);
    }
    totals::put_totals(page, &counts);
}

// Whether so many bytes have a listing of pairs.
#[tactic(auto, unfolding(crate::specs::Listing::is_listable))]
fn is_listable(n: usize) -> bool
    ensures { result ≡ is_listable n }
{
    n % 4 == 0 && n <= 65536
}

// No listing of so many bytes is longer.
pub fn most(n: usize) -> usize
    ensures { result ≡ most n }
{
    if is_listable(n) {
        12 + 55 * (n / 4) + 58
    } else {
        11
    }
}

// The whole listing.
fn put_all(page: &mut Page<u8>, input: &[u8], names: &Names)
    requires { page.old.at < 2 ^ 50 }
    ensures { Writes (most (length input.now)) page.old (listing input.now) page.new }
{
    if is_listable(input.len()) {
        page.put_text(b"pairs ");
        page.put_five((input.len() / 4) as u64);
        page.put(b'\n');
        put_lines(page, input, names);
    } else {
        page.put_text(b"refused 11\n");
    }
}

// The whole listing, from the start of out, as far as out reaches; the answer is its length.
pub fn put_listing(out: &mut [u8], input: &[u8], names: &Names) -> usize
    ensures { Placed (most (length input.now)) out.old 0 (listing input.now) out.new result }
{
    let mut page = Page::new(out);
    put_all(&mut page, input, names);
    page.at
}
