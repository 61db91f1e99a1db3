// k, the state bits of a generator, from its fields alone.
ghost use Rattle.std.specs.Prelude.{◌≡◌, IfOk};
ghost use Rattle.document.specs.Answer.{refusal_of};
ghost use Rattle.document.specs.Generator.{size};
ghost use Rattle.document.specs.Ranges.{Accepted};
ghost use Rattle.document.specs.Refusals.{field_refusal};
ghost use Rattle.arguments.specs.Promises.{SizedAs, size_reply_of};

use document::{Fields, Kind, Refusal};
use fields::field_refusal;

// The state bits of a generator; a refusal is a number above 0, with k = 0. A struct still: the theorem `sizes_agree` speaks of it.
#[repr(C)]
#[derive(Clone, Copy)]
pub struct SizeReply {
    pub refusal: u32,
    pub k: usize,
}

impl From<Result<usize, Refusal>> for SizeReply {
    ghost from_gives = { λ answer reply. reply ≡ size_reply_of answer };

    fn from(answer: Result<usize, Refusal>) -> SizeReply {
        match answer {
            Ok(k) => SizeReply { refusal: 0, k },
            Err(refusal) => SizeReply {
                refusal: u32::from(refusal),
                k: 0,
            },
        }
    }
}

// The state bits of fields that are not refused.
#[tactic(auto, using(crate::proofs::Counts::size_by_kind, document::proofs::Columns::in_column, crate::proofs::Counts::p_below))]
pub fn size(g: Fields) -> usize
    requires { Accepted g }
    ensures { result ≡ size g }
{
    match Kind::column(g.kind) {
        Kind::Tausworthe => usize::from(g.k),
        Kind::Gfsr | Kind::Twisted => usize::from(g.r) * usize::from(g.w),
        Kind::Mersenne => usize::from(g.r) * usize::from(g.w) - usize::from(g.p),
    }
}

// The state bits of a generator, or why there are none.
fn checked_size(g: Fields) -> Result<usize, Refusal>
    ensures number { refusal_of result ≡ field_refusal g }
    ensures accepted { IfOk result (λ k. k ≡ size g) }
{
    field_refusal(g)?;
    Ok(size(g))
}

// The same, as a reply in plain numbers.
pub fn sized(g: Fields) -> SizeReply
    ensures { SizedAs g result }
{
    SizeReply::from(checked_size(g))
}
