// Calls `basis::basis` for the generators on standard input, and prints the part that it hands back and then the whole buffer, to be
// compared with the second program's. A record is the length of a description, the description padded to 65 bytes, t in two bytes, l,
// and how much of the buffer is lent: all of it, as much as a work buffer, or one word less.
#![tactic(auto)]

ghost use Rattle.std.specs.Prelude.{◌≤◌};

use document::{Dimension, Fields, ROW_WORDS, Resolution, WORK_WORDS};
use records::Records;
use std::array;

const RECORD_BYTES: usize = 70;

// The words behind the work buffer, and what every word holds before a call.
const BEHIND: usize = 8;

const MARK: u64 = 0xaaaa_aaaa_aaaa_aaaa;

// The words of the whole buffer.
const BUFFER_WORDS: usize = WORK_WORDS + BEHIND;

// How much of the buffer is lent.
#[derive(Clone, Copy)]
enum Lent {
    All,
    WorkBuffer,
    OneWordShort,
}

impl From<u8> for Lent {
    fn from(mode: u8) -> Lent {
        match mode {
            0 => Lent::All,
            1 => Lent::WorkBuffer,
            _ => Lent::OneWordShort,
        }
    }
}

impl Lent {
    fn words(self) -> usize
        ensures { result ≤ BUFFER_WORDS }
    {
        match self {
            Lent::All => BUFFER_WORDS,
            Lent::WorkBuffer => WORK_WORDS,
            Lent::OneWordShort => WORK_WORDS - 1,
        }
    }
}

fn main(rt: HostRuntime) {
    for entry in Records::<_, RECORD_BYTES>::new(rt.stdin()) {
        show(&rt, &entry);
    }
}

fn show(rt: &impl Print, entry: &[u8; RECORD_BYTES]) {
    let reading = description::read(records::description(entry));
    let t = Dimension(usize::from(u16::from_be_bytes([entry[66], entry[67]])));
    let l = Resolution(usize::from(entry[68]));
    let mut work = [MARK; BUFFER_WORDS];
    let lent = Lent::from(entry[69]).words();
    hand(rt, reading.fields, t, l, &mut work[..lent]);
    print_buffer(rt, &work);
}

// The sixteen digits of a word. Not by `print!`, which lays a buffer for each: a record has thousands of words.
fn digits(word: u64) -> [u8; 16] {
    array::from_fn(|i| b"0123456789abcdef"[(word >> (60 - 4 * i)) as usize % 16])
}

// The check call's number, then the part. Here and below each piece is a write of its own, and one that fails is passed over: the next is
// tried all the same.
fn hand(rt: &impl Print, g: Fields, t: Dimension, l: Resolution, work: &mut [u64]) {
    let _ = print!(rt; "{}", basis::basis_check(g, t, l, work.len()));
    let _ = rt.write_all(b"\n");
    print_part(rt, basis::basis(g, t, l, work));
}

// The rows of the part, one to a line.
fn print_part(rt: &impl Print, part: &[u64]) {
    for (i, word) in part.iter().enumerate() {
        let _ = rt.write_all(&digits(*word));
        let end = if i % ROW_WORDS == ROW_WORDS - 1 {
            b"\n"
        } else {
            b" "
        };
        let _ = rt.write_all(end);
    }
}

// Every word of the buffer: how often it stands there in a row, and the word.
fn print_buffer(rt: &impl Print, work: &[u64]) {
    for run in work.chunk_by(|a, b| a == b) {
        let _ = print!(rt; "{}", run.len());
        let _ = rt.write_all(b" ");
        let _ = rt.write_all(&digits(run[0]));
        let _ = rt.write_all(b"\n");
    }
    let _ = rt.write_all(b"\n");
}
