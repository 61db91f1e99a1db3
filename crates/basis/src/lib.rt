// The reduced basis of (t, l): its check call, its rows at the front of a lent buffer, and that
// front part itself.
#![tactic(auto)]

ghost use Rattle.std.specs.Prelude.{◌≡◌, ◌*◌, ◌≤◌, length, IfOk};
ghost use Rattle.document.specs.Answer.{refusal_of};
ghost use Rattle.document.specs.Generator.{size};
ghost use Rattle.document.specs.Limits.{most_bits, work_words};
ghost use Rattle.document.specs.Refusals.{basis_refusal};
ghost use Rattle.running.specs.Prepared.{machine_of};
ghost use Rattle.filling.specs.Asked.{AskedFor};
ghost use Rattle.basis.specs.Promises.{Based, BasisRows, BasisPart, reply_of};

use document::{Dimension, Fields, ROW_WORDS, Refusal, Resolution, WORK_WORDS};
use filling::{LAYOUT, OutputBits};
use running::Runs;

// How many words of the lent buffer are the basis; a refusal is a number above 0, with none. C gets this struct, so the number stays
// beside the words.
#[repr(C)]
#[derive(Clone, Copy)]
pub struct BasisReply {
    pub refusal: u32,
    pub words: usize,
}

impl From<Result<usize, Refusal>> for BasisReply {
    ghost from_gives = { λ answer reply. reply ≡ reply_of answer };

    fn from(answer: Result<usize, Refusal>) -> BasisReply {
        match answer {
            Ok(words) => BasisReply { refusal: 0, words },
            Err(refusal) => BasisReply {
                refusal: u32::from(refusal),
                words: 0,
            },
        }
    }
}

// The output bits whose rows a basis is of, or what refuses it: the fields, then t, l, t·l and the room.
fn admitted(g: Fields, t: Dimension, l: Resolution, room: usize) -> Result<OutputBits, Refusal>
    ensures number { refusal_of result ≡ basis_refusal g t.0 l.0 room }
    ensures accepted { IfOk result (λ bits. AskedFor g t.0 l.0 bits × (t.0 * l.0 ≤ size g) × (work_words ≤ room)) }
{
    let bits = OutputBits::asked(g, t, l)?;
    if bits.generator.size() < t.0 * l.0 {
        return Err(Refusal::Product);
    }
    arguments::room_refusal(WORK_WORDS, room)?;
    Ok(bits)
}

// What refuses a basis, as the number that C gets; 0 where nothing does.
pub fn basis_check(g: Fields, t: Dimension, l: Resolution, room: usize) -> u32
    ensures { result ≡ basis_refusal g t.0 l.0 room }
{
    // `and`: the number is of the refusal alone, the output bits are not needed.
    document::refusal_of(admitted(g, t, l, room).and(Ok(())))
}

// Brings the first n rows into reduced row echelon form at the front of the buffer, with zeros
// behind them; gives their number. The buffer is a slice of any length, as C lends it; `admitted` tests it once.
fn reduced_rows(work: &mut [u64], bits: OutputBits, n: usize) -> usize
    requires { (n ≤ most_bits) × (work_words ≤ length work.old) }
    ensures { Based (machine_of bits.generator) bits.l n work.old result work.new }
{
    let k = bits.generator.size();
    bits.fill(work, n);
    let rank = reduction::reduce(work, n, LAYOUT, k);
    reduction::pack(work, rank, LAYOUT, WORK_WORDS);
    rank
}

// The words of the basis, whose rows then stand at the front of `work`, or what refuses it.
fn basis_words(g: Fields, t: Dimension, l: Resolution, work: &mut [u64]) -> Result<usize, Refusal>
    ensures { BasisRows g t l work.old (reply_of result) work.new }
{
    let bits = admitted(g, t, l, work.len())?;
    let rank = reduced_rows(work, bits, t.0 * l.0);
    Ok(ROW_WORDS * rank)
}

// The rows of the basis at the front of `work`, zeros behind them, and the words past the work
// buffer as they were; a refusal leaves all.
pub fn basis_rows(g: Fields, t: Dimension, l: Resolution, work: &mut [u64]) -> BasisReply
    ensures { BasisRows g t l work.old result work.new }
{
    BasisReply::from(basis_words(g, t, l, work))
}

// The front part of `work` that holds the rows of the basis; empty if `basis_check` refuses.
pub fn basis<'a>(g: Fields, t: Dimension, l: Resolution, work: &'a mut [u64]) -> &'a mut [u64]
    ensures { BasisPart g t l (length work.old) result.now }
{
    let reply = basis_rows(g, t, l, work);
    let n = reply.words;
    &mut work[..n]
}
