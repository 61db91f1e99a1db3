// The listing of a description.
ghost use Rattle.std.specs.Prelude.{◌≤◌, length};
ghost use Rattle.listing_text.specs.Text.{most_text};
ghost use Rattle.listing_text.specs.Listing.{Listed, Told};

use crate::whole::{put_page, put_refused};
use description::parse;
use document::{MOST_BITS, MOST_OUTPUT, Refusal, WORK_WORDS};
use report::{report_of, sizes};
use running::prepare;

// No line is longer, and no listing.
pub const LINE_BYTES: usize = 32;

pub const MOST_TEXT: usize = (MOST_BITS + MOST_OUTPUT + 3) * LINE_BYTES;

// The page of the bytes of a description, at the front of a lent buffer, and its length; or why there is none, and the buffer is left.
fn page(bytes: &[u8], out: &mut [u8]) -> Result<usize, Refusal>
    requires { most_text ≤ length out.old }
    ensures { Told bytes.now out.old result out.new }
{
    let p = prepare(parse(bytes)?);
    let mut work = [0; WORK_WORDS];
    let report = report_of(p, &mut work);
    Ok(put_page(out, sizes(p), &report))
}

// The listing of the bytes of a description, at the front of a lent buffer, and its length; 0 where the buffer could be too short:
// C gets this number.
pub fn listing(bytes: &[u8], out: &mut [u8]) -> usize
    ensures { Listed bytes.now out.old result out.new }
{
    if out.len() < MOST_TEXT {
        return 0;
    }
    match page(bytes, out) {
        Ok(end) => end,
        Err(refusal) => put_refused(out, refusal),
    }
}
