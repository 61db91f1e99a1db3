// Asks the generators on standard input and prints the replies, to be compared with the second program's.
// A record is the length of a description, the description padded to 65 bytes, and what is asked: every question, the report,
// a question with a work buffer one word short, or the question (0, 0).
#![tactic(auto)]

use document::{Dimension, Fields, MOST_BITS, MOST_OUTPUT, Refusal, Resolution, WORK_WORDS};
use question::Reply;
use records::Records;
use report::Report;
use std::fmt::Display;

const RECORD_BYTES: usize = 67;

// What a record asks.
#[derive(Clone, Copy)]
enum Asked {
    EveryQuestion,
    Report,
    ShortBuffer,
    Nothing,
}

impl From<u8> for Asked {
    fn from(mode: u8) -> Asked {
        match mode {
            0 => Asked::EveryQuestion,
            1 => Asked::Report,
            2 => Asked::ShortBuffer,
            _ => Asked::Nothing,
        }
    }
}

fn main(rt: HostRuntime) {
    let mut work = [0u64; WORK_WORDS];
    for entry in Records::<_, RECORD_BYTES>::new(rt.stdin()) {
        show(&rt, &entry, &mut work);
    }
}

fn show(rt: &impl Print, entry: &[u8; RECORD_BYTES], work: &mut [u64; WORK_WORDS]) {
    let fields = match description::parse(records::description(entry)) {
        Ok(fields) => fields,
        Err(refusal) => return print_refused(rt, u32::from(refusal)),
    };
    match Asked::from(entry[66]) {
        Asked::EveryQuestion => ask_all(rt, fields, work),
        Asked::Report => print_report(rt, &report::report(fields, work)),
        Asked::ShortBuffer => print_reply(
            rt,
            1,
            1,
            &ask(fields, 1, 1, &mut work[..WORK_WORDS - 1]),
        ),
        Asked::Nothing => print_reply(rt, 0, 0, &ask(fields, 0, 0, work)),
    }
}

fn ask(g: Fields, t: usize, l: usize, work: &mut [u64]) -> Reply {
    question::question(g, Dimension(t), Resolution(l), work)
}

// A space and a number. Here and below each piece is a write of its own, and one that fails is passed over: the next is tried all the same.
fn print_next<D: Display + Drop>(rt: &impl Print, number: D) {
    let _ = rt.write_all(b" ");
    let _ = rt.print(number);
}

fn print_refused(rt: &impl Print, refusal: u32) {
    let _ = rt.write_all(b"refused ");
    let _ = rt.print(refusal);
    let _ = rt.write_all(b"\n");
}

fn print_reply(rt: &impl Print, t: usize, l: usize, reply: &Reply) {
    let _ = rt.print(t);
    print_next(rt, l);
    print_next(rt, reply.refusal);
    print_next(rt, u8::from(reply.yes));
    print_next(rt, reply.d);
    for word in &reply.set {
        let _ = rt.write_all(b" ");
        let _ = print!(rt; "{word:016x}");
    }
    let _ = rt.write_all(b"\n");
}

// Was t or l refused? The reply is C's and has the refusal's number.
fn is_out_of_range(reply: &Reply) -> bool {
    reply.refusal == u32::from(Refusal::Dimension)
        || reply.refusal == u32::from(Refusal::Resolution)
}

// Every resolution of a dimension, until one is out of range, as each is of a dimension out of range; gives how many were not.
fn ask_dimension(rt: &impl Print, g: Fields, t: usize, work: &mut [u64]) -> usize {
    for l in 1..=MOST_OUTPUT {
        let reply = ask(g, t, l, work);
        if is_out_of_range(&reply) {
            return l - 1;
        }
        print_reply(rt, t, l, &reply);
    }
    MOST_OUTPUT
}

fn ask_all(rt: &impl Print, g: Fields, work: &mut [u64]) {
    for t in 1..=MOST_BITS {
        if ask_dimension(rt, g, t, work) == 0 {
            break;
        }
    }
}

fn print_table(rt: &impl Print, table: &[u32]) {
    for entry in table {
        let _ = rt.print(*entry);
        let _ = rt.write_all(b"\n");
    }
}

fn print_report(rt: &impl Print, r: &Report) {
    print_table(rt, &r.resolutions);
    print_table(rt, &r.dimensions);
    let _ = rt.print(r.resolution_sum);
    print_next(rt, r.dimension_sum);
    print_next(rt, u8::from(r.me));
    let _ = rt.write_all(b"\n");
}
