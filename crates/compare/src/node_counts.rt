// The nodes that a call is to tell as opened, from the words of document 01 and of Card 1: every
// node that the heights in the board's memory make is held against all rows of the plain board.
use crate::call::{Call, Change, Query, Read};
use crate::plain::{Plain, find};
use crate::rules::{ALL, Part, Test, beats, count, nowhere_greater};
use crate::table::{Area, Row, Table, row_at, unlike};
use zorder::COSTS;

// What opens a node: of these rows only the going one may beat its near corner, and that one is
// nowhere greater than its far corner, so that it beats or equals it. For a list none goes.
#[derive(Clone, Copy)]
pub struct Opening {
    pub against: Part,
    pub goes: Option<Row>,
}

// The highest level of the nodes that start at a place, 0 where none does.
fn height(m: &[u8], c: usize, i: usize) -> u8 {
    let at = 16 + 2 * (c % 5000) + i % 5000;
    if at < m.len() { m[at] } else { 0 }
}

// The last place of the node at a level that starts at place i.
fn last(m: &[u8], b: Plain, i: usize, level: u8) -> usize {
    let mut last = i;
    for e in i % 5000 + 1..b.n {
        if level <= height(m, b.c, e) {
            break;
        }
        last = e;
    }
    last
}

// The bits of a cost that the square of two rows leaves open: from the first group on in which
// their addresses differ.
fn open_bits(p: Row, q: Row) -> u16 {
    match unlike(p, q) {
        Some(k) => 65535u16 >> (k / COSTS % 16),
        None => 0,
    }
}

// A corner of the square: the open bits set, or then cleared.
fn corner(p: Row, bits: u16, cleared: u16) -> Row {
    let mut r = p;
    for cost in &mut r[2..] {
        *cost = (*cost | bits) ^ cleared;
    }
    r
}

// Whether the node with this first and this last row is opened.
fn opens(t: &Table, by: Opening, first: Row, last: Row) -> bool {
    let bits = open_bits(first, last);
    let near = corner(first, bits, bits);
    let (own, reaches) = match by.goes {
        Some(goes) => (
            usize::from(beats(ALL, goes, near)),
            nowhere_greater(ALL, goes, corner(first, bits, 0)),
        ),
        None => (0, true),
    };
    reaches && count(t, by.against, Test::Beats(ALL), near, own) == own
}

// How many nodes that start at place i are opened.
fn opened_at(m: &[u8], b: Plain, t: &Table, by: Opening, i: usize) -> usize {
    let first = row_at(t, Area::Board, i);
    (1..=height(m, b.c, i))
        .filter(|&level| { opens(t, by, first, row_at(t, Area::Board, last(m, b, i, level))) })
        .count()
}

fn opened_by(m: &[u8], b: Plain, t: &Table, by: Opening) -> usize {
    let mut k: usize = 0;
    for i in 0..b.n {
        k = k % 5000 + opened_at(m, b, t, by, i) % 5000;
    }
    k
}

// Of a withdrawal, if the move is listed.
fn withdrawn(m: &[u8], b: Plain, t: &Table, number: u16) -> usize {
    let against = Part {
        area: b.list,
        count: b.listed,
    };
    let goes = find(t, b.n, number);
    match goes {
        Some(r) if count(t, against, Test::Same, r, 0) == 1 => opened_by(
            m,
            b,
            t,
            Opening { against, goes },
        ),
        _ => 0,
    }
}

// Counts the nodes of a call that is accepted: a list, and the withdrawal of a listed move.
pub fn opened(m: &[u8], b: Plain, t: &Table, k: Call) -> usize {
    let list = Opening {
        against: Part {
            area: Area::Board,
            count: b.n,
        },
        goes: None,
    };
    match k {
        Call::Read(
            Read {
                query: Query::List,
                ..
            },
        ) => opened_by(m, b, t, list),
        Call::Change(
            Change {
                asked: planning::Change::Withdraw { number },
                ..
            },
        ) => withdrawn(m, b, t, number),
        _ => 0,
    }
}
