// Lists the replayed pairs, inputs at the bounds of what is listed, and 16384 pairs of one sort, for each sort.
// Standard input has the replayed pairs as bytes, and then 64 pairs of each sort. tools/relist makes it, and what is due
// from the original's answers.
#![tactic(auto)]

ghost use Rattle.std.specs.Prelude.{◌≡◌, ◌<◌, ◌≤◌, length};
ghost use Rattle.listing.specs.Answers.{enough};

use listing::ENOUGH;

// Where the pairs come from, and where everything is written.
const STDIN: i32 = 0;

const STDOUT: i32 = 1;

fn put(text: &[u8]) {
    io::write_all(STDOUT, text);
}

fn put_count(what: &[u8], n: u64) {
    put(what);
    io::print_decimal(STDOUT, n);
}

fn input_buffer() -> [u8; 65540]
    ensures { 65540 ≡ length result }
{
    [0; 65540]
}

fn output_buffer() -> [u8; ENOUGH]
    ensures { enough ≡ length result }
{
    [0; ENOUGH]
}

// The pairs over and over.
fn repeated(pairs: &[u8]) -> [u8; 65540]
    requires { 0 < length pairs.now }
    ensures { 65540 ≡ length result }
{
    let mut bytes = input_buffer();
    for i in 0..65540 {
        bytes[i] = pairs[i % pairs.len()];
    }
    bytes
}

// Lists the first n bytes; the answer is the listing's length, or 0 where out is too short for it.
fn listed(bytes: &[u8], n: usize, out: &mut [u8]) -> usize
    requires { n ≤ length bytes.now }
    ensures { result ≤ length out.new }
{
    match listing::list(&bytes[..n], out) {
        Ok(k) => k,
        Err(_) => {
            put(b"too short\n");
            0
        }
    }
}

// The listing of the first n bytes itself.
fn show(bytes: &[u8], n: usize, out: &mut [u8])
    requires { n ≤ length bytes.now }
{
    let k = listed(bytes, n, out);
    put(&out[..k]);
}

fn mixed(sum: u64, b: u8) -> u64 {
    (sum % 0x1_0000_0000 * 31 + b as u64) % 0x1_0000_0000
}

// Where the last line of a text begins.
fn last_line(text: &[u8]) -> usize
    ensures { result ≤ length text.now }
{
    let end = text.len().saturating_sub(1);
    match text[..end].iter().rposition(|b| *b == b'\n') {
        Some(k) => k + 1,
        None => 0,
    }
}

// Bytes, lines and a checksum of a text, and its last line.
fn weigh(text: &[u8]) {
    let lines = text.iter().filter(|b| **b == b'\n').count();
    let sum = text.iter().fold(0, |sum, b| mixed(sum, *b));
    put_count(b"bytes ", text.len() as u64);
    put_count(b", lines ", lines as u64);
    put_count(b", sum ", sum);
    put(b", last: ");
    let k = last_line(text);
    put(&text[k..]);
}

// What a long listing weighs.
fn show_weight(bytes: &[u8], n: usize, out: &mut [u8])
    requires { n ≤ length bytes.now }
{
    let k = listed(bytes, n, out);
    weigh(&out[..k]);
}

// A listing in a buffer that may be too short for it, and what the buffer then holds.
fn show_buffer(input: &[u8], out: &mut [u8]) {
    match listing::list(input, out) {
        Ok(k) => put_count(b"length ", k as u64),
        Err(_) => put(b"too short"),
    }
    put(b": ");
    put(out);
    put(b"\n");
}

// Buffers of a listing's length, one less and four more.
fn show_buffers(three: &[u8]) {
    let mut exact = [b'.'; 46];
    show_buffer(&three[..0], &mut exact);
    let mut less = [b'.'; 45];
    show_buffer(&three[..0], &mut less);
    let mut more = [b'.'; 50];
    show_buffer(&three[..0], &mut more);
    let mut refused = [b'.'; 11];
    show_buffer(three, &mut refused);
    let mut short = [b'.'; 10];
    show_buffer(three, &mut short);
}

// Lengths at the bounds of what is listed.
fn show_bounds(bytes: &[u8], out: &mut [u8])
    requires { 65540 ≤ length bytes.now }
{
    show(bytes, 0, out);
    show(bytes, 1, out);
    show(bytes, 2, out);
    show(bytes, 3, out);
    show(bytes, 5, out);
    show_weight(bytes, 65536, out);
    show_weight(bytes, 65540, out);
    show_buffers(&bytes[..3]);
}

// 16384 pairs of each sort: 64 of them over and over.
fn show_sorts(groups: &[u8], out: &mut [u8])
    requires { 1280 ≤ length groups.now }
{
    for group in groups.chunks_exact(256) {
        show_weight(&repeated(group), 65536, out);
    }
}

fn main() {
    let mut pairs = [0u8; 12160];
    io::read_full(STDIN, &mut pairs);
    let mut groups = [0u8; 1280];
    io::read_full(STDIN, &mut groups);
    let bytes = repeated(&pairs);
    let mut out = output_buffer();
    show(&pairs, 12160, &mut out);
    show_bounds(&bytes, &mut out);
    show_sorts(&groups, &mut out);
}
