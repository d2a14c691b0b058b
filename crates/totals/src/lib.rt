// The totals under a listing: how many pairs there are of each sort.
#![tactic(auto)]

ghost use Rattle.std.specs.Prelude.{◌≡◌, ◌∷◌, [], ◌++◌, ◌+◌, ◌<◌, ◌^◌, length};
ghost use Rattle.text.specs.Text.{decimal};
ghost use Rattle.text.specs.Writes.{Writes};
ghost use Rattle.totals.specs.Totals.{family_sort, totals_text};
ghost use Rattle.totals.specs.Own.{figure_in, counted};

use decode::Family;
use text::Page;

// The sort of a pair: its family if it is accepted, else refused; in the order of the columns.
#[derive(Clone, Copy)]
pub enum Sort {
    Same,
    Diff,
    Shifted,
    Imm,
    Refused,
}

// The sort of an accepted pair of a family.
#[tactic(auto, unfolding(crate::specs::Totals::family_sort))]
pub fn family_sort(f: Family) -> Sort
    ensures { result ≡ family_sort f }
{
    match f {
        Family::ThreeSame => Sort::Same,
        Family::ThreeDifferent => Sort::Diff,
        Family::Shift => Sort::Shifted,
        Family::ModifiedImmediate => Sort::Imm,
        Family::NoFamily => Sort::Refused,
    }
}

// One more of a sort.
pub fn count_one(counts: &mut [u16; 5], s: Sort)
    requires { figure_in counts.old s < 65535 }
    ensures { counts.new ≡ counted counts.old s }
{
    counts[s as usize] += 1;
}

// A word and its figure.
fn put_figure(page: &mut Page<u8>, word: &[u8], n: u16)
    requires at_bound { page.old.at < 2 ^ 60 }
    requires word_len_bound { length word.now < 10 }
    ensures { Writes (length word.now + 5) page.old (word.now ++ decimal n) page.new }
{
    page.put_text(word);
    page.put_five(n as u64);
}

// The line of totals and its end.
pub fn put_totals(page: &mut Page<u8>, counts: &[u16; 5])
    requires { page.old.at < 2 ^ 59 }
    ensures { Writes 58 page.old (totals_text (figure_in counts.now) ++ 10 ∷ []) page.new }
{
    put_figure(page, b"same ", counts[0]);
    put_figure(page, b" diff ", counts[1]);
    put_figure(page, b" shift ", counts[2]);
    put_figure(page, b" imm ", counts[3]);
    put_figure(page, b" refused ", counts[4]);
    page.put(b'\n');
}
