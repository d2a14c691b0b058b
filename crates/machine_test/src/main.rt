// Runs worked vectors through the machine and prints how many passed. A line of the input is a sign, a vector, and then
// how the result was worked; after the sign # it is text. After a space the vector has a mnemonic, a shape, a number, the
// old target, the first source, the second source and the result, and is run on doublewords and on both halves of
// quadwords. After : + and ! it has a mnemonic, the operands, a number, and the quadwords Q0, Q1, Q2 and then Q0
// afterwards; after + the mark turns, and those after ! are refused.
#![tactic(auto)]

use replay::{Blocks, block, put, put_count};
use vectors::{count_meanings, passes, passes_unlike};

// Reads past the end of a line.
fn skip() {
    for [byte] in Blocks::<1>::new(1000) {
        if byte == b'\n' {
            return;
        }
    }
}

// Whether a vector passed; the line of one that did not is printed.
fn told(line: &[u8], passed: bool) -> bool {
    if !passed {
        put(b"failed ");
        put(line);
        put(b"\n");
    }
    passed
}

// Reads the vector after a sign and runs it, one with registers of one length both ways: whether it passes.
fn vector(sign: u8) -> bool {
    if sign == b' ' {
        block::<100>().is_some_and(|line| told(&line, passes(&line, false) && passes(&line, true)))
    } else {
        block::<153>().is_some_and(|line| told(&line, passes_unlike(&line, sign)))
    }
}

fn main() {
    let mut read: u64 = 0;
    let mut passed: u64 = 0;
    for [sign] in Blocks::<1>::new(1000) {
        if sign != b'#' {
            read = read.wrapping_add(1);
            passed = passed.wrapping_add(u64::from(vector(sign)));
        }
        skip();
    }
    put_count(b"vectors ", read);
    put_count(b"passed ", passed);
    put_count(b"names with a meaning ", count_meanings());
}
