// The listing program: one description from standard input, its report or `refused N` to standard output.
#![tactic(auto)]

ghost use Rattle.std.specs.Prelude.{◌≤◌, length};

use listing_text::MOST_TEXT;
use std::io::Read;

// One byte more than the longest description, so that one that is too long is seen.
const MOST_INPUT: usize = 66;

fn main(rt: HostRuntime) {
    let mut input = [0u8; MOST_INPUT];
    let mut text = [0u8; MOST_TEXT];
    let n = read_full(&mut rt.stdin(), &mut input);
    let end = listing_text::listing(&input[..n], &mut text);
    let _ = rt.write_all(&text[..end]);
}

// Reads until the buffer is full, the input ends or a read fails; gives how many bytes were read, which `read_exact` doesn't say of a
// short input, and `read_to_end` needs the heap.
fn read_full<R: Read>(input: &mut R, buf: &mut [u8]) -> usize
    ensures { result ≤ length buf.new }
{
    let mut done = 0;
    for _ in 0..buf.len() {
        match input.read(&mut buf[done..]) {
            Ok(0) | Err(_) => break,
            Ok(n) => done += n,
        }
    }
    done
}
