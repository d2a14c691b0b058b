// Lines of a replayed list, and the counts that a test prints.
#![tactic(auto)]

ghost use Rattle.std.specs.Prelude.{◌≡◌, ◌%◌, ◌<◌, drop, eqb};
ghost use Rattle.std.specs.Iterator.{at_most};
ghost use Rattle.replay.specs.Lines.{outcome_number, number_at, FileAt, record_in, digit_value};

use effects::State;
use insn::Refusal;

// The numbers of the standard streams: where a test's cases come from, and where everything is written.
pub const STDIN: i32 = 0;

pub const STDOUT: i32 = 1;

// Writes a text.
pub fn put(text: &[u8]) {
    io::write_all(STDOUT, text);
}

// Writes what is counted, and the count.
pub fn put_count(what: &[u8], n: u64) {
    put(what);
    io::print_decimal(STDOUT, n);
    put(b"\n");
}

// Writes how many cases got the refusal k.
pub fn put_refused(k: u64, n: u64) {
    put(b"refused ");
    io::print_decimal(STDOUT, k);
    put_count(b": ", n);
}

// The next N bytes of standard input; nothing where fewer are left.
pub fn block<const N: usize>() -> Option<[u8; N]> {
    let mut bytes = [0u8; N];
    if io::read_full(STDIN, &mut bytes) < N {
        return None;
    }
    Some(bytes)
}

// Standard input in blocks of N bytes, at most `left` of them.
#[derive(Drop)]
pub struct Blocks<const N: usize> {
    left: u32,
}

impl<const N: usize> Iterator for Blocks<N> {
    type Item = [u8; N];

    ghost remaining = { λ s. at_most s.left };

    fn next(&mut self) -> Option<[u8; N]> {
        self.left = self.left.checked_sub(1)?;
        block()
    }

    fn size_hint(&self) -> (usize, Option<usize>) {
        (0, Some(self.left as usize))
    }
}

impl<const N: usize> Blocks<N> {
    // The next blocks, at most so many.
    pub fn new(most: u32) -> Self {
        Blocks { left: most }
    }
}

// The number of a refusal, or 0 where there is none.
pub fn number_of(outcome: Result<(), Refusal>) -> u8
    ensures { result ≡ outcome_number outcome }
{
    match outcome {
        Ok(()) => 0,
        Err(f) => u8::from(f),
    }
}

// The lines of an emulator's cases: how many there were, how many came out otherwise, and in how many the saturation mark
// comes as no and is left as yes.
#[derive(Clone, Copy, Default)]
pub struct Tally {
    pub lines: u64,
    pub wrong: u64,
    pub turned: u64,
}

impl Tally {
    // One line more: the states that it says before and after, and whether the case comes out so.
    pub fn count(&mut self, before: &State, after: &State, agrees: bool) {
        self.lines = self.lines.wrapping_add(1);
        self.wrong = self.wrong.wrapping_add(u64::from(!agrees));
        self.turned = self
            .turned
            .wrapping_add(u64::from(!before.mark && after.mark));
    }

    // Writes what the lines are, and the counts.
    pub fn put(&self, what: &[u8]) {
        put_count(what, self.lines);
        put_count(b"not as the emulator ", self.wrong);
        put_count(b"marks turned ", self.turned);
    }
}

// The value of a hexadecimal digit.
pub fn digit(c: u8) -> u64
    ensures { (result ≡ digit_value c) × (result < 16) }
{
    if c < b'a' {
        return (c % 16) as u64;
    }
    ((c % 16 + 9) % 16) as u64
}

// What is left of the line from a place on.
fn rest(line: &[u8], at: usize) -> &[u8]
    ensures { result.now ≡ drop at line.now }
{
    if at < line.len() { &line[at..] } else { &[] }
}

// The number of n hexadecimal digits from a place of the line on; places past its end add nothing.
pub fn field(line: &[u8], at: usize, n: usize) -> u64
    ensures { result ≡ number_at line.now at n }
{
    rest(line, at).iter().take(n).fold(0, |value, c| value % 0x1000_0000_0000_0000 * 16 + digit(*c))
}

// The halfword of 4 digits at a place of the line.
pub fn half_at(line: &[u8], at: usize) -> u16
    ensures { result ≡ number_at line.now at 4 % 65536 }
{
    (field(line, at, 4) % 65536) as u16
}

// The 32 doublewords of 16 digits each from a place of the line on.
pub fn file_at(line: &[u8], at: u16) -> [u64; 32]
    ensures { FileAt line.now at result }
{
    std::array::from_fn(|k| field(line, at as usize + 16 * k, 16))
}

// The state of a text: the mark, and the file from its third place on.
pub fn state_of(text: &[u8]) -> State
    ensures mark { result.mark ≡ eqb (number_at text.now 0 1) 1 }
    ensures file { FileAt text.now 2 result.file }
{
    State {
        mark: field(text, 0, 1) == 1,
        file: file_at(text, 2),
    }
}

// The record in a line of a list of pairs, as the words of the C boundary.
pub fn record(line: &[u8]) -> [u64; 10]
    ensures { result ≡ record_in line.now }
{
    [
        field(line, 24, 4),
        field(line, 29, 1),
        field(line, 12, 8),
        field(line, 31, 1),
        field(line, 33, 1),
        field(line, 35, 16),
        field(line, 52, 1),
        field(line, 54, 16),
        field(line, 71, 1),
        field(line, 73, 16),
    ]
}
