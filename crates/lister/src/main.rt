// Lists the pairs of standard input on standard output.
#![tactic(auto)]

ghost use Rattle.std.specs.Prelude.{◌≡◌, length};
ghost use Rattle.listing.specs.Answers.{enough};

use listing::ENOUGH;

// Where the pairs come from, and where their listing goes.
const STDIN: i32 = 0;

const STDOUT: i32 = 1;

// Room for the longest input, and one byte more, by which a longer one is noticed.
fn input_buffer() -> [u8; 65537]
    ensures { 65537 ≡ length result }
{
    [0; 65537]
}

// Room for every listing.
fn output_buffer() -> [u8; ENOUGH]
    ensures { enough ≡ length result }
{
    [0; ENOUGH]
}

fn main() {
    let mut input = input_buffer();
    let n = io::read_full(STDIN, &mut input);
    let mut out = output_buffer();
    if let Ok(k) = listing::list(&input[..n], &mut out) {
        io::write_all(STDOUT, &out[..k]);
    }
}
