// Write: the description of a generator at the front of a lent buffer. A function for each layout of the body.
ghost use Rattle.std.specs.Prelude.{◌≡◌, ◌∷◌, ◌++◌, length, drop, ◌≤◌};
ghost use Rattle.document.specs.Answer.{column, refusal_of};
ghost use Rattle.document.specs.declared.kind.Kind.TheVariants.{Tausworthe, Gfsr, Twisted, Mersenne};
ghost use Rattle.document.specs.Description.{bytes, length_of, description};
ghost use Rattle.document.specs.Refusals.{write_refusal};
ghost use Rattle.description.specs.Promises.{WrittenAs};

use document::{Fields, Kind, Refusal, refusal_of};
use fields::field_refusal;

// The length of a description of this kind; a byte and no `Kind`, since it promises a length for every byte.
#[tactic(auto, using(document::proofs::Columns::in_column))]
pub fn length_of(kind: u8) -> usize
    ensures { result ≡ length_of kind }
{
    match Kind::column(kind) {
        Kind::Tausworthe | Kind::Gfsr => 65,
        Kind::Twisted => 21,
        Kind::Mersenne => 24,
    }
}

// The kind, a number of two bytes and two of one, and the coefficients: a description of kind 1 or 2.
#[tactic(auto, unfolding(document::specs::Description::bytes))]
fn long(g: Fields, size: u16, first: u8, second: u8) -> [u8; 65]
    ensures { result ≡ g.kind ∷ (bytes 2 size ++ (bytes 1 first ++ (bytes 1 second ++ g.coefficients))) }
{
    let [high, low] = size.to_be_bytes();
    let mut d = [0; 65];
    d[..5].copy_from_slice(&[g.kind, high, low, first, second]);
    d[5..].copy_from_slice(&g.coefficients);
    d
}

// The bytes of a generator of kind 1.
#[tactic(auto, using(document::proofs::Columns::at_column), unfolding(document::specs::Description::description, document::specs::Description::bytes))]
fn tausworthe(g: Fields) -> [u8; 65]
    requires { column g.kind ≡ Tausworthe }
    ensures { result ≡ description g }
{
    long(g, g.k, g.bits, g.nu)
}

// The bytes of a generator of kind 2.
#[tactic(auto, using(document::proofs::Columns::at_column), unfolding(document::specs::Description::description, document::specs::Description::bytes))]
fn gfsr(g: Fields) -> [u8; 65]
    requires { column g.kind ≡ Gfsr }
    ensures { result ≡ description g }
{
    long(g, g.r, g.w, g.bits)
}

// The bytes of a generator of kind 3.
fn twisted(g: Fields) -> [u8; 21]
    requires { column g.kind ≡ Twisted }
    ensures { result ≡ description g }
{
    let [r1, r0] = g.r.to_be_bytes();
    let [m1, m0] = g.m.to_be_bytes();
    let [a3, a2, a1, a0] = g.a.to_be_bytes();
    let [b3, b2, b1, b0] = g.b.to_be_bytes();
    let [c3, c2, c1, c0] = g.c.to_be_bytes();
    [
        g.kind, r1, r0, m1, m0, g.w, g.bits, a3, a2, a1, a0, g.s, g.t, b3, b2, b1, b0, c3, c2, c1,
        c0,
    ]
}

// The bytes of a generator of kind 4.
fn mersenne(g: Fields) -> [u8; 24]
    requires { column g.kind ≡ Mersenne }
    ensures { result ≡ description g }
{
    let [r1, r0] = g.r.to_be_bytes();
    let [m1, m0] = g.m.to_be_bytes();
    let [a3, a2, a1, a0] = g.a.to_be_bytes();
    let [b3, b2, b1, b0] = g.b.to_be_bytes();
    let [c3, c2, c1, c0] = g.c.to_be_bytes();
    [
        g.kind, r1, r0, m1, m0, g.w, g.p, g.bits, a3, a2, a1, a0, g.u, g.s, b3, b2, b1, b0, g.t,
        c3, c2, c1, c0, g.v,
    ]
}

// Puts bytes at the front of a buffer that has room for them.
fn put_front(bytes: &[u8], out: &mut [u8])
    requires { length bytes.now ≤ length out.old }
    ensures { out.new ≡ bytes.now ++ drop (length bytes.now) out.old }
{
    out[..bytes.len()].copy_from_slice(bytes);
}

// Puts the description of a generator into a buffer that has room for it.
#[tactic(auto, using(document::proofs::Columns::at_column))]
fn put(g: Fields, out: &mut [u8])
    requires { length_of g.kind ≤ length out.old }
    ensures { out.new ≡ description g ++ drop (length_of g.kind) out.old }
{
    match Kind::column(g.kind) {
        Kind::Tausworthe => put_front(&tausworthe(g), out),
        Kind::Gfsr => put_front(&gfsr(g), out),
        Kind::Twisted => put_front(&twisted(g), out),
        Kind::Mersenne => put_front(&mersenne(g), out),
    }
}

// What refuses to write: the fields, then the room.
fn write_refusal(g: Fields, room: usize) -> Result<(), Refusal>
    ensures { refusal_of result ≡ write_refusal g room }
{
    field_refusal(g)?;
    if room < length_of(g.kind) {
        return Err(Refusal::Room);
    }
    Ok(())
}

// Writes the description at the front of `out`, or says why not and leaves it.
fn written(g: Fields, out: &mut [u8]) -> Result<(), Refusal>
    ensures { WrittenAs g out.old (refusal_of result) out.new }
{
    write_refusal(g, out.len())?;
    put(g, out);
    Ok(())
}

// The same, with the refusal as its number, which C gets.
pub fn write(g: Fields, out: &mut [u8]) -> u32
    ensures { WrittenAs g out.old result out.new }
{
    refusal_of(written(g, out))
}
