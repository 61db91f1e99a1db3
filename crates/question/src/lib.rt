// The question (t, l): is it yes, or which output bits always sum to zero? That the rows fit the buffer is asked at each call, as in
// elimination.
#![tactic(auto)]

ghost use Rattle.std.specs.Prelude.{◌≡◌, ◌+◌, ◌*◌, ◌<◌, ◌≤◌, length, IfOk, IfSome};
ghost use Rattle.document.specs.Answer.{refusal_of};
ghost use Rattle.document.specs.Limits.{row_words, most_bits, work_words};
ghost use Rattle.document.specs.Refusals.{question_refusal};
ghost use Rattle.running.specs.Prepared.{machine_of};
ghost use Rattle.filling.specs.Rows.{stride};
ghost use Rattle.filling.specs.Asked.{AskedFor};
ghost use Rattle.question.specs.Searches.{Enough, Searched, Gives, Decided};
ghost use Rattle.question.specs.Promises.{Asked, reply_of};

use document::{Dimension, Fields, ROW_WORDS, Refusal, Resolution, WORK_WORDS};
use elimination::Layout;
use filling::{OutputBits, STRIDE};
use running::Runs;

// The answer to a question: yes with d = 0 and the empty set, or no with the first set, which ends
// at d. A refusal is a number above 0, with all else 0. C gets this struct, so these flags stay.
#[repr(C)]
#[derive(Clone, Copy)]
pub struct Reply {
    pub refusal: u32,
    pub yes: bool,
    pub d: usize,
    pub set: [u64; ROW_WORDS],
}

// The first set of output bits that always sums to zero, and the number d at which it ends.
#[derive(Clone, Copy)]
struct Dependent {
    d: usize,
    set: [u64; ROW_WORDS],
}

impl From<Result<Option<Dependent>, Refusal>> for Reply {
    ghost from_gives = { λ answer reply. reply ≡ reply_of answer };

    fn from(answer: Result<Option<Dependent>, Refusal>) -> Reply {
        match answer {
            Ok(None) => Reply {
                refusal: 0,
                yes: true,
                d: 0,
                set: [0; ROW_WORDS],
            },
            Ok(Some(first)) => {
                // In two steps: the checker covers no literal with a field that is another struct's array.
                let set = first.set;
                Reply {
                    refusal: 0,
                    yes: false,
                    d: first.d,
                    set,
                }
            }
            Err(refusal) => Reply {
                refusal: u32::from(refusal),
                yes: false,
                d: 0,
                set: [0; ROW_WORDS],
            },
        }
    }
}

// The output bits that a question is about, or what refuses it: the fields, then t, l and the room.
fn admitted(g: Fields, t: Dimension, l: Resolution, room: usize) -> Result<OutputBits, Refusal>
    ensures number { refusal_of result ≡ question_refusal g t.0 l.0 room }
    ensures accepted { IfOk result (λ bits. AskedFor g t.0 l.0 bits × (work_words ≤ room)) }
{
    let bits = OutputBits::asked(g, t, l)?;
    arguments::room_refusal(WORK_WORDS, room)?;
    Ok(bits)
}

// The rows that tell of t·l output bits: one more than the state has bits is enough.
fn enough(bits: OutputBits, t: Dimension) -> usize
    requires { t.0 ≤ (machine_of bits.generator).size }
    ensures { Enough (machine_of bits.generator).size (t.0 * bits.l) result }
{
    (t.0 * bits.l).min(bits.generator.size() + 1)
}

// The first of the first n rows that is a sum of those before it, which then carries the set.
fn search(work: &mut [u64], bits: OutputBits, n: usize) -> Option<usize>
    requires { (n ≤ 64 * row_words) × (n * stride ≤ length work.old) }
    ensures { Searched (machine_of bits.generator) bits.l n work.old result work.new }
{
    bits.fill(work, n);
    // The sets are added up with the rows.
    let layout = Layout {
        stride: STRIDE,
        width: STRIDE,
        lead: ROW_WORDS,
    };
    elimination::set_tags(work, n, layout);
    let mut slots = [0; 64 * ROW_WORDS];
    elimination::eliminate(work, n, layout, &mut slots)
}

// The set that the row found carries.
fn carried_set(work: &[u64], found: Option<usize>) -> Option<Dependent>
    requires { IfSome found (λ d. d * stride + stride ≤ length work.now) }
    ensures { Gives work.now found result }
{
    let d = found?;
    Some(Dependent {
        d,
        set: filling::get_row(work, d * STRIDE + ROW_WORDS),
    })
}

// The first dependent set of n rows, if there is one; leaves the work buffer as zero. The buffer is a slice of any length, as C lends it;
// `admitted` tests it once.
fn decide(work: &mut [u64], bits: OutputBits, n: usize) -> Option<Dependent>
    requires { (n ≤ most_bits + 1) × (work_words ≤ length work.old) }
    ensures { Decided (machine_of bits.generator) bits.l n work.old result work.new }
{
    let found = search(work, bits, n);
    let first = carried_set(work, found);
    elimination::clear_words(work, 0, WORK_WORDS);
    first
}

// The first dependent set of t·l output bits, if there is one, or what refuses the question.
fn answer(
    g: Fields,
    t: Dimension,
    l: Resolution,
    work: &mut [u64],
) -> Result<Option<Dependent>, Refusal>
    ensures { Asked g t l work.old (reply_of result) work.new }
{
    let bits = admitted(g, t, l, work.len())?;
    let n = enough(bits, t);
    Ok(decide(work, bits, n))
}

// Yes or no for (t, l). The first words of `work` end as zero, and the others are as they were; a
// refusal leaves all.
pub fn question(g: Fields, t: Dimension, l: Resolution, work: &mut [u64]) -> Reply
    ensures { Asked g t l work.old result work.new }
{
    Reply::from(answer(g, t, l, work))
}
