// Runs the engine on worked matrices and writes what it answers: the first row that is a sum of
// earlier ones, with the set and without, the rank, and a checksum of the reduced rows. The stored
// stdout is that of tests/engine_vectors, which shares no code with this.
#![tactic(auto)]

ghost use Rattle.std.specs.Prelude.{◌*◌, ◌≤◌};
ghost use Rattle.matrices.specs.declared.TheConstants.{WORDS};

use std::fmt::Display;

// The words of the buffer, and of the engine's slots.
const WORDS: usize = 10101;

const SLOTS: usize = 832;

// What each matrix is made and answered in.
#[derive(Drop)]
struct Room {
    buf: [u64; WORDS],
    slots: [usize; SLOTS],
}

// A matrix: so many rows, each of `stride` words, of which the first `lead` are mixed and the next `sets` take its set.
#[derive(Clone, Copy)]
struct Shape {
    rows: usize,
    stride: usize,
    sets: usize,
    lead: usize,
    ghost wide: { 1 ≤ stride },
    ghost some: { stride ≤ rows * stride },
    ghost fits: { rows * stride ≤ WORDS },
    ghost few_sets: { sets ≤ 500 },
    ghost few_leads: { lead ≤ 500 },
}

impl Shape {
    fn new(rows: usize, stride: usize, sets: usize, lead: usize) -> Shape
        requires wide { 1 ≤ stride }
        requires some { stride ≤ rows * stride }
        requires fits { rows * stride ≤ WORDS }
        requires few { (sets ≤ 500) × (lead ≤ 500) }
    {
        Shape {
            rows,
            stride,
            sets,
            lead,
        }
    }
}

// What is made of a mixed matrix: all zero, as it is, the first row zero, or the last row a sum of rows before it.
#[derive(Clone, Copy)]
enum Kind {
    Zero,
    Mixed,
    FirstZero,
    LastSum,
}

// A number mixed by sums and shifts (Wang's hash): no bit is a sum modulo 2 of a few others.
fn mixed(x: u64) -> u64 {
    let a = (x << 21).wrapping_sub(x.wrapping_add(1));
    let b = a ^ (a >> 24);
    let c = b.wrapping_add(b << 3).wrapping_add(b << 8);
    let d = c ^ (c >> 14);
    let e = d.wrapping_add(d << 2).wrapping_add(d << 4);
    let f = e ^ (e >> 28);
    f.wrapping_add(f << 31)
}

// Word i of the matrix: mixed in the first `lead` words of a row, zero behind them. `as`: a `u64` has no `From<usize>`.
fn entry(i: usize, shape: Shape) -> u64 {
    if i % shape.stride < shape.lead {
        mixed(mixed(i as u64))
    } else {
        0
    }
}

// Does the last row have row p? `as`, as above.
fn chosen(p: usize) -> bool {
    mixed(p as u64) % 2 == 1
}

fn add(row: &mut [u64], other: &[u64]) {
    for (x, y) in row.iter_mut().zip(other) {
        *x ^= *y;
    }
}

// Makes the last row the sum of the chosen rows before it.
fn sum_chosen(buf: &mut [u64; WORDS], shape: Shape) {
    let end = shape.rows * shape.stride;
    let (before, last) = buf[..end].split_at_mut(end - shape.stride);
    last.fill(0);
    for (p, row) in before.chunks(shape.stride).enumerate() {
        if chosen(p) {
            add(last, row);
        }
    }
}

fn prepare(buf: &mut [u64; WORDS], shape: Shape, kind: Kind) {
    for (i, word) in buf.iter_mut().enumerate() {
        *word = entry(i, shape);
    }
    match kind {
        Kind::Zero => buf.fill(0),
        Kind::Mixed => {}
        Kind::FirstZero => buf[..shape.stride].fill(0),
        Kind::LastSum => sum_chosen(buf, shape),
    }
}

fn checksum(buf: &[u64]) -> u64 {
    buf.iter()
        .fold(0, |sum, word| mixed(sum).wrapping_add(*word))
}

// A label and a number. Each is a write of its own, and one that fails is passed over: the next is tried all the same.
fn put<D: Display + Drop>(rt: &impl Print, label: &[u8], number: D) {
    let _ = rt.write_all(label);
    let _ = rt.print(number);
}

// The first row that is a sum of earlier ones, and the set.
fn show_set(rt: &impl Print, room: &mut Room, shape: Shape) {
    let Shape {
        rows,
        stride,
        sets,
        lead,
    } = shape;
    let d = engine::dayunglipo_engine_first_set(
        &mut room.buf,
        rows,
        stride,
        lead + sets,
        lead,
        &mut room.slots,
    );
    put(rt, b"d ", d);
    if d >= rows {
        return;
    }
    let _ = rt.write_all(b" set");
    for word in room.buf.iter().skip(d * stride + lead).take(sets) {
        put(rt, b" ", *word);
    }
}

// The same without sets.
fn show_row(rt: &impl Print, room: &mut Room, shape: Shape) {
    let Shape {
        rows,
        stride,
        lead,
        ..
    } = shape;
    let d = engine::dayunglipo_engine_eliminate(
        &mut room.buf,
        rows,
        stride,
        lead,
        lead,
        &mut room.slots,
    );
    put(rt, b" again ", d);
}

// The rank, and a checksum of the whole buffer with the reduced rows at its front.
fn show_basis(rt: &impl Print, room: &mut Room, shape: Shape) {
    let Shape {
        rows,
        stride,
        lead,
        ..
    } = shape;
    let rank = engine::dayunglipo_engine_basis(&mut room.buf, rows, stride, lead, 64 * lead);
    put(rt, b" rank ", rank);
    put(rt, b" sum ", checksum(&room.buf));
    let _ = rt.write_all(b"\n");
}

// The three answers for one matrix, which each of them destroys.
fn answer(rt: &impl Print, room: &mut Room, shape: Shape, kind: Kind) {
    prepare(&mut room.buf, shape, kind);
    show_set(rt, room, shape);
    prepare(&mut room.buf, shape, kind);
    show_row(rt, room, shape);
    prepare(&mut room.buf, shape, kind);
    show_basis(rt, room, shape);
}

// Rows of one leading word: zero, of full rank, dependent at the last row, more rows than bits.
fn narrow(rt: &impl Print, room: &mut Room) {
    answer(rt, room, Shape::new(5, 2, 1, 1), Kind::Zero);
    answer(rt, room, Shape::new(50, 3, 1, 1), Kind::Mixed);
    answer(rt, room, Shape::new(60, 2, 1, 1), Kind::LastSum);
    answer(rt, room, Shape::new(100, 3, 2, 1), Kind::Mixed);
}

// Eight leading words: dependent at the first row, at the last, of full rank, at the 481st row.
fn middle(rt: &impl Print, room: &mut Room) {
    answer(rt, room, Shape::new(40, 16, 8, 8), Kind::FirstZero);
    answer(rt, room, Shape::new(100, 16, 8, 8), Kind::LastSum);
    answer(rt, room, Shape::new(480, 16, 8, 8), Kind::Mixed);
    answer(rt, room, Shape::new(481, 16, 8, 8), Kind::LastSum);
}

// Thirteen leading words: dependent at the 481st row; and of full rank, with a set too wide.
fn wide(rt: &impl Print, room: &mut Room) {
    answer(rt, room, Shape::new(481, 21, 8, 13), Kind::LastSum);
    answer(rt, room, Shape::new(481, 21, 9, 13), Kind::Mixed);
}

fn show(rt: &impl Print) {
    let mut room = Room {
        buf: [0; WORDS],
        slots: [0; SLOTS],
    };
    narrow(rt, &mut room);
    middle(rt, &mut room);
    wide(rt, &mut room);
}

fn main(rt: HostRuntime) {
    show(&rt);
}
