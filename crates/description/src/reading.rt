// Read: any bytes to a refusal, or to the kind and the fields. A function for each kind, since the bodies differ in which fields stand where.
ghost use Rattle.std.specs.Prelude.{◌≡◌, IfOk, length, get_or};
ghost use Rattle.document.specs.Answer.{column, refusal_of};
ghost use Rattle.document.specs.declared.kind.Kind.TheVariants.{Tausworthe, Gfsr, Twisted, Mersenne};
ghost use Rattle.document.specs.Description.{length_of, fields_of};
ghost use Rattle.document.specs.Refusals.{read_refusal};
ghost use Rattle.description.specs.Promises.{ReadAs, reading_of};

use crate::numbers::{coefficients, number2, number4};
use crate::writing::length_of;
use document::{Fields, Kind, Refusal};
use fields::range_refusal;

// The answer of a reading: 0 and the fields, or a refusal and no fields. C gets this struct, so the number stays beside the fields.
#[repr(C)]
#[derive(Clone, Copy)]
pub struct Reading {
    pub refusal: u32,
    pub fields: Fields,
}

impl From<Result<Fields, Refusal>> for Reading {
    ghost from_gives = { λ answer reading. reading ≡ reading_of answer };

    fn from(answer: Result<Fields, Refusal>) -> Reading {
        match answer {
            Ok(fields) => Reading { refusal: 0, fields },
            Err(refusal) => Reading {
                refusal: u32::from(refusal),
                fields: Fields::NONE,
            },
        }
    }
}

// The fields in the bytes of kind 1.
#[tactic(auto, using(document::proofs::Columns::at_column), unfolding(document::specs::Description::fields_of))]
fn tausworthe(bytes: &[u8]) -> Fields
    requires kind { column (get_or bytes.now 0 0) ≡ Tausworthe }
    requires long { length bytes.now ≡ 65 }
    ensures { result ≡ fields_of bytes.now }
{
    Fields {
        kind: bytes[0],
        k: number2(bytes, 1),
        bits: bytes[3],
        nu: bytes[4],
        coefficients: coefficients(bytes),
        ..Fields::NONE
    }
}

// The fields in the bytes of kind 2.
#[tactic(auto, using(document::proofs::Columns::at_column), unfolding(document::specs::Description::fields_of))]
fn gfsr(bytes: &[u8]) -> Fields
    requires kind { column (get_or bytes.now 0 0) ≡ Gfsr }
    requires long { length bytes.now ≡ 65 }
    ensures { result ≡ fields_of bytes.now }
{
    Fields {
        kind: bytes[0],
        r: number2(bytes, 1),
        w: bytes[3],
        bits: bytes[4],
        coefficients: coefficients(bytes),
        ..Fields::NONE
    }
}

// The fields in the bytes of kind 3.
#[tactic(auto, using(document::proofs::Columns::at_column), unfolding(document::specs::Description::fields_of))]
fn twisted(bytes: &[u8]) -> Fields
    requires kind { column (get_or bytes.now 0 0) ≡ Twisted }
    requires long { length bytes.now ≡ 21 }
    ensures { result ≡ fields_of bytes.now }
{
    Fields {
        kind: bytes[0],
        r: number2(bytes, 1),
        m: number2(bytes, 3),
        w: bytes[5],
        bits: bytes[6],
        a: number4(bytes, 7),
        s: bytes[11],
        t: bytes[12],
        b: number4(bytes, 13),
        c: number4(bytes, 17),
        ..Fields::NONE
    }
}

// The fields in the bytes of kind 4.
#[tactic(auto, using(document::proofs::Columns::at_column), unfolding(document::specs::Description::fields_of))]
fn mersenne(bytes: &[u8]) -> Fields
    requires kind { column (get_or bytes.now 0 0) ≡ Mersenne }
    requires long { length bytes.now ≡ 24 }
    ensures { result ≡ fields_of bytes.now }
{
    Fields {
        kind: bytes[0],
        r: number2(bytes, 1),
        m: number2(bytes, 3),
        w: bytes[5],
        p: bytes[6],
        bits: bytes[7],
        a: number4(bytes, 8),
        u: bytes[12],
        s: bytes[13],
        b: number4(bytes, 14),
        t: bytes[18],
        c: number4(bytes, 19),
        v: bytes[23],
        ..Fields::NONE
    }
}

// The fields of a description whose length is right.
#[tactic(auto, using(document::proofs::Columns::at_column, crate::proofs::Laws::length_some))]
fn fields_of(bytes: &[u8]) -> Fields
    requires { length bytes.now ≡ length_of (get_or bytes.now 0 0) }
    ensures { result ≡ fields_of bytes.now }
{
    match Kind::column(bytes[0]) {
        Kind::Tausworthe => tausworthe(bytes),
        Kind::Gfsr => gfsr(bytes),
        Kind::Twisted => twisted(bytes),
        Kind::Mersenne => mersenne(bytes),
    }
}

// The fields in a description, or why it is refused.
pub fn parse(bytes: &[u8]) -> Result<Fields, Refusal>
    ensures number { refusal_of result ≡ read_refusal bytes.now }
    ensures accepted { IfOk result (λ fields. fields ≡ fields_of bytes.now) }
{
    let Some(&kind) = bytes.first() else {
        return Err(Refusal::Kind);
    };
    // From here on the byte is known to name a kind, which `length_of` and `fields_of` ask of it.
    Kind::try_from(kind)?;
    if bytes.len() != length_of(kind) {
        return Err(Refusal::Length);
    }
    let g = fields_of(bytes);
    range_refusal(g)?;
    Ok(g)
}

// Reads a description.
pub fn read(bytes: &[u8]) -> Reading
    ensures { ReadAs bytes.now result }
{
    Reading::from(parse(bytes))
}
