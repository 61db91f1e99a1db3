// The host's boundary: every call of document 01 for C, Rust and Python. Lent slices pass as a pointer and a length, replies by value.
// Each function promises what the call that it hands on to promises, and asks nothing.
#![tactic(auto)]

ghost use Rattle.std.specs.Prelude.{◌≡◌};
ghost use Rattle.description.specs.Promises.{ReadAs, WrittenAs};
ghost use Rattle.outputs.specs.Promises.{RanAs};
ghost use Rattle.value.specs.Promises.{ValuedAs};
ghost use Rattle.question.specs.Promises.{Asked};
ghost use Rattle.report.specs.Promises.{ReportedAs};
ghost use Rattle.document.specs.Refusals.{basis_refusal};
ghost use Rattle.basis.specs.Promises.{BasisRows};
ghost use Rattle.listing_text.specs.Listing.{Listed};

use basis::BasisReply;
use description::Reading;
use document::{Dimension, Fields, ROW_WORDS, Resolution};
use question::Reply;
use report::Report;
use value::Valued;

// A start state, or a set: bit i is worth 2^(i mod 64) in word i div 64.
#[repr(C)]
#[derive(Clone, Copy)]
pub struct Words {
    pub words: [u64; ROW_WORDS],
}

#[unsafe(no_mangle)]
pub extern "C" fn dayunglipo_read(bytes: &[u8]) -> Reading
    ensures { ReadAs bytes.now result }
{
    description::read(bytes)
}

#[unsafe(no_mangle)]
pub extern "C" fn dayunglipo_write(g: Fields, out: &mut [u8]) -> u32
    ensures { WrittenAs g out.old result out.new }
{
    description::write(g, out)
}

#[unsafe(no_mangle)]
pub extern "C" fn dayunglipo_outputs(g: Fields, t: usize, state: Words, out: &mut [u32]) -> u32
    ensures { RanAs g t state.words out.old result out.new }
{
    let words = state.words;
    outputs::outputs(g, Dimension(t), words, out)
}

#[unsafe(no_mangle)]
pub extern "C" fn dayunglipo_value(y: u64, l: u32) -> Valued
    ensures { ValuedAs y l result }
{
    value::value(y, l)
}

#[unsafe(no_mangle)]
pub extern "C" fn dayunglipo_question(g: Fields, t: usize, l: usize, work: &mut [u64]) -> Reply
    ensures { Asked g (record { 0 = t }) (record { 0 = l }) work.old result work.new }
{
    question::question(g, Dimension(t), Resolution(l), work)
}

#[unsafe(no_mangle)]
pub extern "C" fn dayunglipo_report(g: Fields, work: &mut [u64]) -> Report
    ensures { ReportedAs g work.old result work.new }
{
    report::report(g, work)
}

#[unsafe(no_mangle)]
pub extern "C" fn dayunglipo_basis_check(g: Fields, t: usize, l: usize, room: usize) -> u32
    ensures { result ≡ basis_refusal g t l room }
{
    basis::basis_check(g, Dimension(t), Resolution(l), room)
}

// The rows stand at the front of `work`; the reply counts their words.
#[unsafe(no_mangle)]
pub extern "C" fn dayunglipo_basis(g: Fields, t: usize, l: usize, work: &mut [u64]) -> BasisReply
    ensures { BasisRows g (record { 0 = t }) (record { 0 = l }) work.old result work.new }
{
    basis::basis_rows(g, Dimension(t), Resolution(l), work)
}

// The text that the program `listing` prints for these bytes; the reply counts its bytes.
#[unsafe(no_mangle)]
pub extern "C" fn dayunglipo_listing(bytes: &[u8], text: &mut [u8]) -> usize
    ensures { Listed bytes.now text.old result text.new }
{
    listing_text::listing(bytes, text)
}
