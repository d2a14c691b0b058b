// Steps a list of pairs on one file and mark, round after round, for tools/compare to time.
// Standard input has D0 to D31 at the start and then the list, which goes to its end: 32 lines of a doubleword and at
// most 255 of two halfwords, in hexadecimal. The gate's has every operation at every width once: 80 with registers of one
// length, then the 34 saturating and halving ones, then 63 with registers of different lengths. The argument says how
// many rounds; the one line that is written says how many pairs were done, what the registers add up to, and the mark.
#![tactic(auto)]

ghost use Rattle.std.specs.Prelude.{◌<◌};

use effects::State;
use replay::{STDIN, STDOUT, field, half_at, put};
use std::rt::Env;

// How many pairs were done, and the state that they left.
#[derive(Drop)]
struct Tally {
    done: u64,
    state: State,
}

// The number that the digits make, below a hundred million; none make 0.
fn decimal(digits: &[u8; 8]) -> u64 {
    digits
        .iter()
        .filter(|c| c.is_ascii_digit())
        .fold(0, |value, c| value % 10000000 * 10 + u64::from(*c % 16))
}

// How many pairs a text of so many bytes has: 544 are the registers', 10 a pair's.
fn pairs_in(bytes: usize) -> usize
    ensures { result < 256 }
{
    bytes.saturating_sub(544) / 10 % 256
}

// The registers at the start.
fn file_of(text: &[u8; 3094]) -> [u64; 32] {
    std::array::from_fn(|k| field(text, 17 * k, 16))
}

// The list's halfwords.
fn code_of(text: &[u8; 3094]) -> [u16; 510] {
    std::array::from_fn(|k| half_at(text, 544 + 5 * k))
}

// Every pair of the list once.
fn round(code: &[u16], tally: &mut Tally) {
    for pair in code.chunks_exact(2) {
        if let Ok(next) = machine::step(tally.state, pair[0], pair[1]) {
            tally.state = next;
            tally.done = tally.done.wrapping_add(1);
        }
    }
}

fn sum(file: &[u64; 32]) -> u64 {
    file.iter().fold(0, |total, x| total.wrapping_add(*x))
}

fn main(rt: HostRuntime) {
    let mut digits = [0u8; 8];
    let _ = rt.arg(1, &mut digits);
    let mut text = [0u8; 3094];
    let pairs = pairs_in(io::read_full(STDIN, &mut text));
    let code = code_of(&text);
    let mut tally = Tally {
        done: 0,
        state: State {
            file: file_of(&text),
            mark: false,
        },
    };
    for _ in 0..decimal(&digits) {
        round(&code[..2 * pairs], &mut tally);
    }
    io::print_decimal(STDOUT, tally.done);
    put(b" pairs, registers ");
    io::print_decimal(STDOUT, sum(&tally.state.file));
    put(b", mark ");
    io::print_decimal(STDOUT, u64::from(tally.state.mark));
    put(b"\n");
}
