// Prints how many mnemonics there are, the longest name's length, every number and name, and the float of every immediate.
#![tactic(auto)]

use insn::Operand;

// Where everything is written.
const STDOUT: i32 = 1;

fn put(text: &[u8]) {
    io::write_all(STDOUT, text);
}

fn put_number(n: u64) {
    io::print_decimal(STDOUT, n);
}

// The name that twelve bytes of the table hold: those before their first space.
fn name(padded: &[u8]) -> &[u8] {
    let length = padded.iter().position(|b| *b == b' ');
    &padded[..length.unwrap_or(padded.len())]
}

// How many numbers from 0 on have a name.
fn count_names(names: &[u8; 4152]) -> usize {
    names
        .chunks_exact(12)
        .take_while(|padded| !name(padded).is_empty())
        .count()
}

fn longest_name(names: &[u8; 4152]) -> usize {
    names
        .chunks_exact(12)
        .map(|padded| name(padded).len())
        .max()
        .unwrap_or(0)
}

fn put_names(names: &[u8; 4152]) {
    for (m, padded) in names.chunks_exact(12).enumerate() {
        put_number(m as u64);
        put(b" ");
        put(name(padded));
        put(b"\n");
    }
}

// The k below 65535 for which x is k/128, found by comparing floats; 0 where there is none.
fn k_of(x: f64) -> u16 {
    (1..65535u16).find(|k| *k as f64 / 128.0 == x).unwrap_or(0)
}

fn put_float(x: f64) {
    if x < 0.0 {
        put(b"-");
        put_number(k_of(-x) as u64);
    } else {
        put_number(k_of(x) as u64);
    }
}

fn put_immediate(imm8: u8) {
    put(b"float ");
    put_number(imm8 as u64);
    put(b" ");
    match immediates::modimm_operand(0, 15, imm8) {
        Operand::Float(x) => put_float(x),
        _ => put(b"none"),
    }
    put(b"\n");
}

fn main() {
    let names = names::table();
    put(b"mnemonics ");
    put_number(count_names(&names) as u64);
    put(b"\nlongest ");
    put_number(longest_name(&names) as u64);
    put(b"\n");
    put_names(&names);
    for imm8 in 0..=255u8 {
        put_immediate(imm8);
    }
}
