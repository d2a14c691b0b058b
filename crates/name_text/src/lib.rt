// The name of a mnemonic.
#![tactic(auto)]

ghost use Rattle.std.specs.Prelude.{◌∷◌, [], ◌++◌, ◌<◌, ◌^◌, drop};
ghost use Rattle.names.specs.Names.{codes, name_of};
ghost use Rattle.names.specs.Own.{NameTable};
ghost use Rattle.text.specs.Writes.{Writes};

use names::COUNT;
use text::Page;

// The spellings of all mnemonics, of twelve bytes each.
#[derive(Drop)]
pub struct Names {
    pub bytes: [u8; 4152],
    ghost table: { NameTable bytes },
}

impl Names {
    pub fn new() -> Names {
        Names {
            bytes: names::table(),
        }
    }

    // What follows the first four bytes of the name of mnemonic m, and a space, with no branch: all the row's spaces are
    // stored in one place.
    fn put_ending(&self, page: &mut Page<u8>, m: u16)
        requires at_bound { page.old.at < 2 ^ 62 }
        requires m_bound { m < 346 }
        ensures { Writes 9 page.old (drop 4 (codes (name_of m)) ++ 32 ∷ []) page.new }
    {
        let row = m as usize * 12;
        let out = &mut *page.out;
        let mut at = page.at;
        for j in 0..8 {
            let c = self.bytes[row + (4 + j)];
            text::store(out, at, c);
            at += usize::from(c != b' ');
        }
        text::store(out, at, b' ');
        page.at = at + 1;
    }

    // The name of a mnemonic and a space; every name has at least four bytes.
    pub fn put_name(&self, page: &mut Page<u8>, m: u16)
        requires { page.old.at < 2 ^ 61 }
        ensures { Writes 13 page.old (codes (name_of m) ++ 32 ∷ []) page.new }
    {
        if COUNT <= m {
            page.put(b' ');
        } else {
            let row = m as usize * 12;
            page.put_word(
                self.bytes[row],
                self.bytes[row + 1],
                self.bytes[row + 2],
                self.bytes[row + 3],
            );
            self.put_ending(page, m);
        }
    }
}
