// The output bits that a call asks for, by a generator's fields and a pair (t, l).
// Those are C's parameters; from here on they are one value.
ghost use Rattle.std.specs.Prelude.{◌≡◌, IfOk};
ghost use Rattle.document.specs.Answer.{refusal_of};
ghost use Rattle.document.specs.Refusals.{lowest, asked_cases};
ghost use Rattle.filling.specs.Asked.{AskedFor};

use crate::OutputBits;
use document::{Dimension, Fields, Refusal, Resolution};

impl OutputBits {
    // The output bits of the resolution l, or what refuses the fields, t or l.
    pub fn asked(g: Fields, t: Dimension, l: Resolution) -> Result<OutputBits, Refusal>
        ensures number { refusal_of result ≡ lowest (asked_cases g t.0 l.0) }
        ensures accepted { IfOk result (AskedFor g t.0 l.0) }
    {
        arguments::asked_refusal(g, t, l)?;
        Ok(OutputBits {
            generator: running::prepare(g),
            l: l.0,
        })
    }
}
