// Replays the sum sheets on standard input, whose answers tools/sheets worked out with a model of documents 01 and 02.
// A case is two lines: 1110 bytes with what is handed in and what comes back, then the sheet in hexadecimal.
#![tactic(auto)]

use replay::{Blocks, STDIN, field, put, put_count, put_refused};
use sheet_cases::{agrees, bytes_of};

// How many cases there were and gave each answer, 0 to 16; the steps of those that were done, the pairs executed, and
// how many cases were not as the model says.
#[derive(Clone, Copy, Default)]
struct Tally {
    cases: u64,
    answers: [u64; 17],
    steps: u64,
    pairs: u64,
    wrong: u64,
}

// The second line of a case, whose sheet has that many bytes.
fn sheet_line(length: usize) -> [u8; 6200] {
    let mut text = [0u8; 12400];
    io::read_full(STDIN, &mut text[..2 * (length % 6200) + 1]);
    bytes_of(&text)
}

impl Tally {
    // One case more, with its answer, its steps and the pairs that it executes.
    fn count(&mut self, answer: usize, steps: usize, pairs: u64) {
        self.cases = self.cases.wrapping_add(1);
        if let Some(n) = self.answers.get_mut(answer) {
            *n = n.wrapping_add(1);
        }
        if answer == 0 {
            self.steps = self.steps.wrapping_add(steps as u64);
        }
        self.pairs = self.pairs % 1000000000 + pairs % 65536;
    }

    // The case of a line, and of the sheet on the line after it.
    fn replay(&mut self, line: &[u8; 1110]) {
        let length = (field(line, 0, 4) % 6200) as usize;
        let sheet = sheet_line(length);
        self.count(field(line, 54, 2) as usize, length / 24, field(line, 62, 4));
        if !agrees(line, &sheet[..length]) {
            self.wrong = self.wrong.wrapping_add(1);
            put(b"not so: ");
            put(line);
        }
    }

    fn put(&self) {
        put_count(b"cases ", self.cases);
        put_count(b"done ", self.answers[0]);
        for (k, n) in self.answers.iter().enumerate().skip(11) {
            put_refused(k as u64, *n);
        }
        put_count(b"steps of the sheets done ", self.steps);
        put_count(b"pairs executed ", self.pairs);
        put_count(b"not as the model ", self.wrong);
    }
}

fn main() {
    let mut tally = Tally::default();
    for line in Blocks::<1110>::new(1000000) {
        tally.replay(&line);
    }
    tally.put();
}
