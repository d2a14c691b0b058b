// A list of rows, as the text of an argument, to the set of them: row r at bit r.
#![tactic(auto)]

ghost use Rattle.std.specs.Prelude.{◌≡◌, ◌∷◌, [], ◌+◌, ◌≤◌};
ghost use Rattle.row_list.specs.Answers.{list_answer};
ghost use Rattle.row_list.specs.Lists.{words_of, rows_named, as_set, list_of};
ghost use Rattle.row_list.specs.Own.{digit_row};

// The set of row `first` + d, where a byte is the digit d, below n.
fn digit_row(first: u8, n: u8, b: u8) -> Option<u16>
    requires { first + n ≤ 16 }
    ensures { result ≡ digit_row first n b }
{
    let d = b.checked_sub(b'0')?;
    if n <= d {
        return None;
    }
    Some(1u16 << (first + d))
}

// The set of the one row that a word names: a digit, or `1` and a digit up to 3.
#[tactic(auto, using(crate::proofs::Named::one_byte, crate::proofs::Named::no_length, crate::proofs::Named::no_one, crate::proofs::Named::two_bytes))]
fn word_row(word: &[u8]) -> Option<u16>
    ensures { list_answer result ≡ as_set (rows_named (word.now ∷ [])) }
{
    match word {
        [b] => digit_row(0, 10, *b),
        [b'1', b] => digit_row(10, 4, *b),
        _ => None,
    }
}

// The set of the rows that the words of a text name.
fn words_rows(text: &[u8]) -> Option<u16>
    ensures { list_answer result ≡ as_set (rows_named (words_of text.now)) }
{
    let mut rows: u16 = 0;
    for word in text.split(|b| *b == b',') {
        let row = word_row(word)?;
        rows |= row;
    }
    Some(rows)
}

// The set of the rows of a list: `none`, `all`, or rows in decimal with a comma between each two.
#[tactic(auto, unfolding(crate::specs::Lists::rows_listed, steps::specs::Sets::set_of, names::specs::Names::codes))]
pub fn row_list(text: &[u8]) -> Option<u16>
    ensures { list_answer result ≡ list_of text.now }
{
    if text == b"none".as_slice() {
        return Some(0);
    }
    if text == b"all".as_slice() {
        return Some(16383);
    }
    words_rows(text)
}
