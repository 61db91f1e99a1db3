// The four kinds of generator, and the bytes that name them.
ghost use Rattle.std.specs.Prelude.{◌≡◌};
ghost use Rattle.document.specs.Answer.{Names, column};

use crate::refusals::Refusal;

// A kind of generator.
#[derive(Clone, Copy, Debug, PartialEq, Eq)]
pub enum Kind {
    Tausworthe = 1,
    Gfsr = 2,
    Twisted = 3,
    Mersenne = 4,
}

impl TryFrom<u8> for Kind {
    type Error = Refusal;

    ghost try_from_gives = { Names };

    fn try_from(byte: u8) -> Result<Self, Refusal> {
        match byte {
            1 => Ok(Kind::Tausworthe),
            2 => Ok(Kind::Gfsr),
            3 => Ok(Kind::Twisted),
            4 => Ok(Kind::Mersenne),
            _ => Err(Refusal::Kind),
        }
    }
}

impl Kind {
    // The kind by whose rules fields with this byte are read: a byte that names no kind goes by the last one's.
    // No Option: `range_refusal` and `length_of` promise an answer for every byte.
    pub fn column(byte: u8) -> Kind
        ensures { result ≡ column byte }
    {
        Kind::try_from(byte).unwrap_or(Kind::Mersenne)
    }
}
