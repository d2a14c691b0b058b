// Replays the readings and writings on standard input, which tools/replay made from the Rust original's answers, with the
// refusals of edition B. Each line has 90 bytes: r or w, under B R or W, then hw1 hw2 address answer mnemonic mark count,
// then kind and value of three places.
#![tactic(auto)]

use replay::{Blocks, field, half_at, put, put_count, put_refused, record};

// How many readings and writings gave each answer, 0 to 9.
#[derive(Clone, Copy, Default)]
struct Answers {
    read: [u64; 10],
    written: [u64; 10],
}

// The answers under edition C and under B; and how many lines were not as the list says.
#[derive(Clone, Copy, Default)]
struct Tally {
    c: Answers,
    b: Answers,
    wrong: u64,
}

// Whether a line's pair reads as the line says; on a refusal the record stays as it was.
fn reads(line: &[u8; 90], edition: u32) -> bool {
    let answer = field(line, 21, 2);
    let address = (field(line, 12, 8) % 0x1_0000_0000) as u32;
    let before = [77u64; 10];
    let mut got = before;
    let code = capi::bodlixo_read(
        edition,
        half_at(line, 2),
        half_at(line, 7),
        address,
        &mut got,
    );
    let due = if answer == 0 { record(line) } else { before };
    u64::from(code) == answer && got == due
}

// Whether a line's record is written as the line says; on a refusal the pair stays as it was.
fn writes(line: &[u8; 90], edition: u32) -> bool {
    let answer = field(line, 21, 2);
    let before = [7u16; 2];
    let mut pair = before;
    let code = capi::bodlixo_write(edition, &record(line), &mut pair);
    let due = if answer == 0 {
        [half_at(line, 2), half_at(line, 7)]
    } else {
        before
    };
    u64::from(code) == answer && pair == due
}

// One more line with its answer.
fn one_more(answers: &mut [u64; 10], line: &[u8; 90]) {
    let at = (field(line, 21, 2) % 10) as usize;
    answers[at] = answers[at].wrapping_add(1);
}

// Writes how many were done, and how many got each of some refusals.
fn put_answers(what: &[u8], answers: &[u64; 10], refusals: &[usize]) {
    put_count(what, answers[0]);
    for k in refusals {
        if let Some(n) = answers.get(*k) {
            put_refused(*k as u64, *n);
        }
    }
}

impl Answers {
    fn put(&self) {
        put_answers(b"read ", &self.read, &[1, 2, 3, 4, 5, 6]);
        put_answers(b"written ", &self.written, &[5, 7, 8, 9]);
    }
}

impl Tally {
    // One line more.
    fn count(&mut self, line: &[u8; 90]) {
        let agrees = match line[0] {
            b'r' => {
                one_more(&mut self.c.read, line);
                reads(line, 0)
            }
            b'w' => {
                one_more(&mut self.c.written, line);
                writes(line, 0)
            }
            b'R' => {
                one_more(&mut self.b.read, line);
                reads(line, 1)
            }
            b'W' => {
                one_more(&mut self.b.written, line);
                writes(line, 1)
            }
            _ => false,
        };
        if !agrees {
            self.wrong = self.wrong.wrapping_add(1);
            put(b"not so: ");
            put(line);
        }
    }
}

fn main() {
    let mut tally = Tally::default();
    for line in Blocks::<90>::new(1000000) {
        tally.count(&line);
    }
    tally.c.put();
    put(b"edition B\n");
    tally.b.put();
    put_count(b"not as the list says ", tally.wrong);
}
