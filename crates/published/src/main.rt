// Runs the generators on standard input and prints their outputs, to be compared with the second program's.
// A record is the length of a description, the description padded to 65 bytes, how many outputs are wanted, and the start state.
#![tactic(auto)]

use document::{Dimension, ROW_WORDS};
use records::Records;
use std::array;

const RECORD_BYTES: usize = 131;

// No more outputs are wanted.
const MOST_OUTPUTS: usize = 40;

fn main(rt: HostRuntime) {
    for entry in Records::<_, RECORD_BYTES>::new(rt.stdin()) {
        show(&rt, &entry);
    }
}

fn show(rt: &impl Print, entry: &[u8; RECORD_BYTES]) {
    let fields = match description::parse(records::description(entry)) {
        Ok(fields) => fields,
        Err(refusal) => return refused(rt, u32::from(refusal)),
    };
    let t = usize::from(entry[66]).min(MOST_OUTPUTS);
    let mut out = [0u32; MOST_OUTPUTS];
    let refusal = outputs::outputs(fields, Dimension(t), state(entry), &mut out);
    // The call answers with the number that C gets.
    if refusal != 0 {
        return refused(rt, refusal);
    }
    list(rt, &out[..t]);
}

// Here and below each piece is a write of its own, and one that fails is passed over: the next is tried all the same.
fn refused(rt: &impl Print, refusal: u32) {
    let _ = rt.write_all(b"refused ");
    let _ = print!(rt; "{refusal}");
    let _ = rt.write_all(b"\n");
}

fn list(rt: &impl Print, out: &[u32]) {
    for y in out {
        let _ = print!(rt; "{y}");
        let _ = rt.write_all(b"\n");
    }
    let _ = rt.write_all(b"\n");
}

// The start state: eight words, the high byte of each first.
fn state(entry: &[u8; RECORD_BYTES]) -> [u64; ROW_WORDS] {
    let (words, _) = entry[67..].as_chunks::<8>();
    array::from_fn(|i| u64::from_be_bytes(words[i]))
}
