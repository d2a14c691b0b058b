// Reading and writing one after the other: what is read is written back, and what is written is read back.
#![tactic(auto)]

ghost use Rattle.std.specs.Prelude.{◌≡◌};
ghost use Rattle.insn.specs.Answers.{answer};
ghost use Rattle.decode.specs.Editions.{reading_in};
ghost use Rattle.writings.specs.Answers.{writing_answer};
ghost use Rattle.encode.specs.Writing.{writing_in};
ghost use Rattle.trips.specs.Spelling.{spelling, canonical};
ghost use Rattle.trips.specs.Calls.{same_pair, read_back, SpelledBack};

use insn::{Edition, Insn, Refusal};

// Reads a pair and writes it again, in one edition: a pair that is read comes back, whatever the address.
pub fn read_and_write(
    edition: Edition,
    hw1: u16,
    hw2: u16,
    address: u32,
) -> Result<(u16, u16), Refusal>
    ensures { writing_answer result ≡ same_pair (reading_in edition hw1 hw2 address) hw1 hw2 }
{
    let i = decode::read(edition, hw1, hw2, address)?;
    encode::write(edition, i)
}

// Writes a record and reads the pair at an address, in one edition: a record that is written comes back in its
// canonical spelling.
pub fn write_and_read(edition: Edition, i: Insn, address: u32) -> Result<Insn, Refusal>
    ensures { (answer result ≡ read_back edition (writing_in edition i) address) × SpelledBack (writing_in edition i) (canonical (spelling i)) address (answer result) }
{
    let (hw1, hw2) = encode::write(edition, i)?;
    decode::read(edition, hw1, hw2, address)
}
