// Outputs: t numbers from a start state, into the front of a lent buffer.
#![tactic(auto)]

ghost use Rattle.std.specs.Prelude.{◌≡◌, length};
ghost use Rattle.digits.specs.Def.{bits_of};
ghost use Rattle.document.specs.Answer.{refusal_of};
ghost use Rattle.document.specs.Refusals.{outputs_refusal};
ghost use Rattle.document.specs.Memory.{Front};
ghost use Rattle.document.specs.Outputs.{output};
ghost use Rattle.running.specs.Prepared.{machine_of};
ghost use Rattle.outputs.specs.Promises.{RanAs};

use arguments::{dimension_refusal, room_refusal, size, state_refusal};
use document::{Dimension, Fields, ROW_WORDS, Refusal};
use fields::field_refusal;
use running::{Prepared, Runs, prepare};

// What refuses a run into a buffer of `room` numbers: the fields, then t, the start state and the room.
fn outputs_refusal(
    g: Fields,
    t: Dimension,
    state: [u64; ROW_WORDS],
    room: usize,
) -> Result<(), Refusal>
    ensures { refusal_of result ≡ outputs_refusal g t.0 state room }
{
    field_refusal(g)?;
    let k = size(g);
    dimension_refusal(k, t)?;
    state_refusal(k, state)?;
    room_refusal(t.0, room)
}

// Runs a prepared generator, an output for each place of the buffer: output 0 is made from the start state itself.
fn run(p: Prepared, start: [u64; ROW_WORDS], out: &mut [u32])
    ensures { Front (length out.old) (λ n. output (machine_of p) n (bits_of start)) out.old out.new }
{
    let mut s = start;
    for place in out.iter_mut() {
        *place = p.output(s);
        // In two steps: in one, the checker says that it does not cover the array both lent to the call and laid by it here.
        let next = p.moved(s);
        s = next;
    }
}

// The first t outputs from a start state, or why there are none.
fn run_checked(
    g: Fields,
    t: Dimension,
    state: [u64; ROW_WORDS],
    out: &mut [u32],
) -> Result<(), Refusal>
    ensures { RanAs g t.0 state out.old (refusal_of result) out.new }
{
    outputs_refusal(g, t, state, out.len())?;
    run(prepare(g), state, &mut out[..t.0]);
    Ok(())
}

// The same; the number of the refusal, which C gets, or 0.
pub fn outputs(g: Fields, t: Dimension, state: [u64; ROW_WORDS], out: &mut [u32]) -> u32
    ensures { RanAs g t.0 state out.old result out.new }
{
    document::refusal_of(run_checked(g, t, state, out))
}
