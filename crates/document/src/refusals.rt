// Why a call refuses its arguments, and the number that the table gives it.
ghost use Rattle.std.specs.Prelude.{◌≡◌};
ghost use Rattle.document.specs.Answer.{refusal_number, refusal_of};

// A row of the table of refusals: what was wrong.
#[derive(Clone, Copy, Debug, PartialEq, Eq)]
pub enum Refusal {
    Kind = 1,
    Length = 2,
    Size = 3,
    Bits = 4,
    Shift = 5,
    Value = 6,
    Dimension = 7,
    Resolution = 8,
    State = 9,
    Product = 10,
    Room = 11,
}

impl From<Refusal> for u32 {
    ghost from_gives = { λ refusal number. number ≡ refusal_number refusal };

    fn from(refusal: Refusal) -> u32 {
        // `as`: std has no `From` of an enum's number.
        refusal as u32
    }
}

// The number of what a check answered: 0 where it refused nothing.
pub fn refusal_of(answer: Result<(), Refusal>) -> u32
    ensures { result ≡ refusal_of answer }
{
    match answer {
        Ok(()) => 0,
        Err(refusal) => u32::from(refusal),
    }
}
