// Numbers that look random, the same at each run; costs made of them, and the calls that the runs
// make: most are accepted, some are to be refused.
use crate::call::{Call, Change, Query, Read};
use crate::plain::{Plain, find};
use crate::table::{Area, Row, Table, number_of, row_at};
use crate::week::{bad_block, block_of};
use dominance::Move;
use rows::ROW;
use std::array;
use zorder::COSTS;

// Gives the number after s.
pub fn next(s: usize) -> usize {
    s % 4294967296 * 4294957665 + s / 4294967296 % 4294967296
}

// The kinds of draws: any cost; of four values, so that many moves are equal; every second one
// makes up for the one before it, so that few moves dominate; the ends of the range and its middle.
fn cost(s: usize, style: usize, second: bool, last: u16) -> u16 {
    let n = (s % 65536) as u16;
    match style {
        0 => n,
        1 => n % 4,
        2 => if second {
            20000 - last % 20000 + n % 8
        } else {
            n % 20000
        },
        _ => n % 2 * 32768 + n / 2 % 2 * 32767,
    }
}

// Gives a row with d costs drawn.
pub fn row(seed: usize, number: u16, d: usize, style: usize) -> Row {
    let mut r = [0u16; ROW];
    r[1] = number;
    let mut s = seed ^ 11400714819323198485;
    for i in 0..d % (COSTS + 1) {
        s = next(s);
        r[2 + i] = cost(s, style, i % 2 == 1, r[1 + i]);
    }
    r
}

// Boards grow for 24 changes, then shrink for as many.
fn is_growing(i: usize) -> bool {
    i / 72 % 2 == 0
}

// Any number, at times past the last; of a board that is to shrink one on it.
fn number(b: Plain, t: &Table, n: usize, growing: bool) -> u16 {
    if growing {
        (n % (b.c % 5000 + b.c % 5000 / 16 + 1) % 65536) as u16
    } else {
        number_of(row_at(t, Area::Board, n % (b.n % 5000 + 1)))
    }
}

// A number on the board is withdrawn or re-costed, another entered; at times the other way round.
fn asked(n: usize, present: bool, growing: bool, coming: Move, block: u16) -> planning::Change {
    if present == (n % 12 == 0) {
        planning::Change::Enter { coming, block }
    } else if n % 96 < if growing { 12 } else { 50 } {
        planning::Change::Withdraw {
            number: coming.number,
        }
    } else {
        planning::Change::Recost { coming, block }
    }
}

// The rows lent: enough for every call, about as many as the list has, or few.
fn lent(b: Plain, n: usize) -> usize {
    match n % 6 {
        0 => n / 8 % 4,
        1 => (b.listed % 4100 + 4099) % 4100,
        2 => b.listed,
        _ => b.c % 5000 + 1,
    }
}

// A change, at times with costs past d or a block past the last.
fn change(b: Plain, t: &Table, s: usize, growing: bool) -> Change {
    let n = s / 65536;
    let number = number(b, t, n, growing);
    let row = row(s, number, if n % 24 == 0 { COSTS } else { b.d }, b.style);
    let past = if n % 32 == 5 { 64 } else { 0 };
    let costs = array::from_fn(|j| row[j + 2]);
    let coming = Move { number, costs };
    let present = find(t, b.n, number).is_some();
    Change {
        asked: asked(s, present, growing, coming, block_of(row) | past),
        lent: lent(b, n / 32),
    }
}

// Says whether a change is looked at before a call and not made: so before one call in eight.
pub fn looks(s: usize) -> bool {
    s / 16777216 % 8 == 0
}

// Draws such a change aside, so that the calls are those that they are without it.
pub fn looked_at(b: Plain, t: &Table, s: usize, i: usize) -> Change {
    change(b, t, next(s ^ 54321), is_growing(i))
}

// The argument is mostly small, at times at the ends of the range and past them.
fn argument(n: usize) -> usize {
    if n % 60 < 10 { 4094 + n % 4 } else { n % 10 }
}

// Of chosen costs any set, none or one too many, at times far past them.
fn chosen(b: Plain, n: usize) -> usize {
    if n % 60 < 10 {
        4094 + n % 4
    } else {
        n / 64 % (1 + (1usize << (b.d % (COSTS + 1))) % 512)
    }
}

// One of the other lists, by the first number, with an argument by the second.
fn other(b: Plain, n: usize, x: usize) -> Query {
    match n % 26 / 5 {
        0 => Query::Band(argument(x)),
        1 => Query::Rank(argument(x)),
        2 => Query::OnK(argument(x)),
        3 => Query::Chosen(chosen(b, x)),
        _ => Query::Hours(x % 4096000 % 10240, bad_block(x % 4096000 / 10240)),
    }
}

// A load of the board's own size, or of one out of range.
fn load(b: Plain, x: usize) -> Call {
    Call::Load(if argument(x) % 2 == 0 { b.c } else { 4097 })
}

// Gives the calls in turn: a change, the list, another list or at times a load.
pub fn drawn(b: Plain, t: &Table, s: usize, i: usize) -> Call {
    let lent = lent(b, s / 4096);
    match i % 3 {
        0 => Call::Change(change(b, t, s, is_growing(i))),
        1 => Call::Read(Read {
            query: Query::List,
            lent,
        }),
        _ if s / 64 % 26 == 25 => load(b, s / 65536),
        _ => Call::Read(Read {
            query: other(b, s / 64, s / 65536),
            lent,
        }),
    }
}
