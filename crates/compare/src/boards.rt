// One board after the other, each loaded over the one before; and memory that is too short for any.
use crate::ask::load;
use crate::call::Call;
use crate::dice;
use crate::judge::judged;
use crate::plain::{Plain, bare, listed};
use crate::runs::run;
use crate::table::{Area, Row, Table, number_of, put_in};
use crate::tally::{Tally, add, count};
use crate::told::spoken;
use crate::week::block_of;
use loading::INPUT;
use std::io;
use zorder::COSTS;

// The bytes that the largest board needs.
pub const MEMORY: usize = 263168;

// Number, block and costs.
fn input_of(r: Row) -> [u16; INPUT] {
    let mut q = r;
    q[0] = number_of(r);
    q[1] = block_of(r);
    q
}

fn put_input(input: &mut [[u16; INPUT]], i: usize, r: Row) {
    if let Some(place) = input.get_mut(i) {
        *place = input_of(r);
    }
}

// The rows of a load, put on the plain board too; numbers go down.
fn fill(b: Plain, t: &mut Table, input: &mut [[u16; INPUT]], seed: usize, n: usize) {
    let mut s = seed;
    for i in 0..n {
        let r = dice::row(s, ((n - 1 - i) % 65536) as u16, b.d, b.style);
        put_in(t, Area::Board, i, r);
        put_input(input, i, r);
        s = dice::next(s);
    }
}

fn loaded(b: Plain, t: &mut Table, m: &mut [u8], s: usize, n: usize) -> Plain {
    let mut input = [[0u16; INPUT]; 4096];
    fill(b, t, &mut input, s, n);
    let said = spoken(b, load(m, b.c, b.d, &input, n), 0, 0);
    judged(listed(b, t, n), said, t, 0)
}

// No rows, few, all, or some.
fn rows(s: usize, c: usize) -> usize {
    match s % 8 {
        0 => 0,
        1 => s / 8 % 12,
        2 => c,
        _ => s / 8 % (c % 5000 + 1),
    }
}

// The size of board i: one in 60 is the largest, one in 10 some hundreds, the others are small.
fn size(s: usize, i: usize) -> usize {
    if i % 60 == 59 {
        4096
    } else if i % 10 == 7 {
        16 + s % 400
    } else {
        16 + s % 48
    }
}

// Board i, with what is drawn for it.
fn first(t: &mut Table, m: &mut [u8], i: usize, s: usize) -> Plain {
    let c = size(s, i);
    let none = bare(c, 2 + i % (COSTS - 1), i / 3 % 4);
    loaded(none, t, m, s, rows(s / 65536, c))
}

fn one(
    rt: &impl Print,
    t: &mut Table,
    m: &mut [u8; MEMORY],
    u: &mut Tally,
    i: usize,
    s: usize,
) -> io::Result<()> {
    let b = first(t, m, i, s);
    add(u, b'#', 1);
    add(u, b'^', b.c / 4096);
    count(rt, u, Call::Load(b.c), b)?;
    let calls = if b.c == 4096 { 30 } else { 300 };
    run(rt, b, t, m, u, s / 2, calls)
}

// Memory a byte too short for the least board: no load, and no board.
fn short(rt: &impl Print, t: &mut Table, u: &mut Tally) -> io::Result<()> {
    let mut m = [0u8; 2047];
    let b = bare(0, 2, 0);
    let said = spoken(b, load(&mut m, 16, 2, &[], 0), 0, 0);
    let after = judged(b.refused(1, 0), said, t, 0);
    count(rt, u, Call::Load(16), after)?;
    run(rt, after, t, &mut m, u, 1, 300)
}

// Runs so many boards.
pub fn all(rt: &impl Print, t: &mut Table, m: &mut [u8; MEMORY], n: usize) -> io::Result<Tally> {
    let mut u = [0u64; 128];
    short(rt, t, &mut u)?;
    let mut s = 88172645463325252;
    for i in 0..n {
        one(rt, t, m, &mut u, i, s)?;
        s = dice::next(s ^ 12345);
    }
    Ok(u)
}
