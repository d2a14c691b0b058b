// loading SHEET START [FILLED]: runs a sum sheet on a start file, and writes the pair count and rows 0 to 13, or the
// refusal; and `saturated` where the mark, which starts as no, ends as yes. FILLED lists the rows that were filled
// beforehand, as 0,1,2; all were where it is left out.
#![tactic(auto)]

ghost use Rattle.std.specs.Prelude.{◌≤◌, length, IfSome};
ghost use Rattle.loader.specs.Start.{StartFile};

use effects::State;
use little_endian::word_at;
use report::{put, put_answer};
use row_list::row_list;
use std::env::FillError;
use std::fs::File;
use std::io::{Error, Read};
use std::rt::{Env, Files};

// Where it is written why a file was not opened.
const STDERR: i32 = 2;

// Writes a line to standard error: what failed, a colon and why.
fn fail(what: &[u8], why: &[u8]) {
    io::write_all(STDERR, what);
    io::write_all(STDERR, b": ");
    io::write_all(STDERR, why);
    io::write_all(STDERR, b"\n");
}

// Says why a file was not opened, without the error's number.
fn say_why(rt: &impl Alloc, path: &str, e: Error) {
    match e.to_string(rt.alloc()) {
        Ok(text) => {
            let all = text.as_str();
            let why = all
                .split_once(" (os error ")
                .map_or(all, |(before, _)| before);
            fail(path.as_bytes(), why.as_bytes());
        }
        Err(_) => fail(path.as_bytes(), b"no memory to say why"),
    }
}

// Opens the file at a path; says why where it cannot.
fn open_file<R: Files + Alloc>(rt: &R, path: &[u8]) -> Option<R::File> {
    let Ok(text) = std::str::from_utf8(path) else {
        fail(path, b"not UTF-8");
        return None;
    };
    match File::open(rt, text) {
        Ok(file) => Some(file),
        Err(e) => {
            say_why(rt, text, e);
            None
        }
    }
}

// Reads until buf is full, the file ends or a read fails: how many bytes it put at the start of buf.
fn read_from(file: &mut impl Read, buf: &mut [u8]) -> usize
    ensures { result ≤ length buf.new }
{
    let mut done = 0;
    while done < buf.len() {
        let n = file.read(&mut buf[done..]).unwrap_or(0);
        if n == 0 {
            break;
        }
        done += n;
    }
    done
}

// Reads the file that argument k names, as far as the buffer reaches: how many bytes, where there is such a file.
fn read_file(rt: &(impl Env + Files + Alloc), k: usize, buf: &mut [u8]) -> Option<usize>
    ensures { IfSome result (λ n. n ≤ length buf.new) }
{
    let mut path = io::buffer();
    let n = rt.arg(k, &mut path).ok()?;
    let mut file = open_file(rt, &path[..n])?;
    Some(read_from(&mut file, buf))
}

// The doublewords of a start file.
fn file_of(start: &[u8; 257]) -> [u64; 32]
    ensures { StartFile start.now result }
{
    std::array::from_fn(|k| word_at(start, 8 * k))
}

// Evaluates a sheet on a start file, with a list of filled rows, and writes what comes of it.
fn evaluate(sheet: &[u8], start: &[u8; 257], filled: u16) {
    let mut state = State {
        file: file_of(start),
        mark: false,
    };
    let mut out = [0u16; 10240];
    let answer = sheet::evaluate(
        sheet,
        filled,
        &mut out,
        &mut state.file,
        u64::MAX,
        &mut state.mark,
    );
    put_answer(answer, sheet, filled, &state);
}

// Runs the sheet of the first argument on the start file of the second, with a list of filled rows as text.
pub fn load_listed(rt: &(impl Env + Files + Alloc), list: &[u8]) {
    let mut sheet = [0u8; 6145];
    let Some(n) = read_file(rt, 1, &mut sheet) else {
        put(b"no sheet: loading SHEET START [FILLED]\n");
        return;
    };
    let mut start = [0u8; 257];
    if read_file(rt, 2, &mut start) != Some(256) {
        put(b"no start file of 256 bytes: loading SHEET START [FILLED]\n");
        return;
    }
    match row_list(list) {
        Some(rows) => evaluate(&sheet[..n], &start, rows),
        None => put(b"no list of rows, as 0,1,2 or none or all: loading SHEET START [FILLED]\n"),
    }
}

// The same with the list that is the third argument; all rows where there is none.
pub fn load(rt: &(impl Env + Files + Alloc)) {
    let mut list = io::buffer();
    match rt.arg(3, &mut list) {
        Ok(n) => {
            if let Err(FillError::NotPresent) = rt.arg(4, &mut [0u8; 1]) {
                load_listed(rt, &list[..n]);
            } else {
                put(b"not more than one list of rows: loading SHEET START [FILLED]\n");
            }
        }
        Err(FillError::NotPresent) => load_listed(rt, b"all"),
        Err(FillError::TooLong) => {
            put(b"no list of rows of at most 4096 bytes: loading SHEET START [FILLED]\n");
        }
    }
}
