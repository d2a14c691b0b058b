// A listing as bytes in a lent buffer.
#![tactic(auto)]

ghost use Rattle.std.specs.Prelude.{◌≡◌};
ghost use Rattle.insn.specs.Answers.{answer};
ghost use Rattle.listing.specs.Answers.{length_for, out_after};
ghost use Rattle.lines.specs.Listing.{listing};

use insn::Refusal;
use name_text::Names;

// No listing is longer.
pub const ENOUGH: usize = 12 + 55 * 16384 + 58;

// Lists the pairs of the input from the start of out, which stays untouched where the listing does not fit; the answer is
// the listing's length.
pub fn list(input: &[u8], out: &mut [u8]) -> Result<usize, Refusal>
    ensures answer { answer result ≡ length_for (listing input.now) out.old }
    ensures after { out.new ≡ out_after (listing input.now) out.old }
{
    let names = Names::new();
    if lines::most(input.len()) <= out.len() {
        return Ok(lines::put_listing(out, input, &names));
    }
    let length = lines::put_listing(&mut [], input, &names);
    if length <= out.len() {
        lines::put_listing(out, input, &names);
        Ok(length)
    } else {
        Err(Refusal::ShortOutput)
    }
}
