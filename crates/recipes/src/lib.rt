// The records that a step is written as, and how a constant's half is put together.
#![tactic(auto)]

ghost use Rattle.std.specs.Prelude.{◌≡◌};
ghost use Rattle.recipes.specs.Pairs.{by_words, recipe_of};

use one_pair::one_for;

pub mod records;

// One pair, by its place op:cmode:imm8; one word in both words of a D register; or a low and a high word, joined.
#[derive(Clone, Copy)]
pub enum Recipe {
    One(u16),
    Twice(u32),
    Joined(u32, u32),
}

// How a half is made by words.
#[tactic(auto, unfolding(crate::specs::Pairs::by_words))]
fn by_words(v: u64) -> Recipe
    ensures { result ≡ by_words v }
{
    let low = (v % 0x1_0000_0000) as u32;
    let high = (v / 0x1_0000_0000) as u32;
    if low == high {
        Recipe::Twice(low)
    } else {
        Recipe::Joined(low, high)
    }
}

// How a half of a constant is made: by one pair where one will do.
#[tactic(auto, unfolding(crate::specs::Pairs::recipe_of))]
pub fn recipe_of(v: u64) -> Recipe
    ensures { result ≡ recipe_of v }
{
    match one_for(v) {
        Some(t) => Recipe::One(t),
        None => by_words(v),
    }
}
