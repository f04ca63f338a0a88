// The comparison of two costs and dominance, of what a line has and of pairs of rows drawn, whose
// answers are held against a test by the signs of the language.
ghost use Rattle.std.specs.Prelude.{◌≤◌};
ghost use Rattle.zorder.specs.Address.{row_costs};

use crate::said::{Said, put};
use crate::values::{costs, narrow, value};
use crate::word::Pair;
use dominance::{dominates, less};
use std::io;
use zorder::COSTS;

// Pairs in which the first cost is less, pairs in which the first row dominates, and answers that
// are not the plain ones.
#[derive(Clone, Copy)]
struct Tally {
    lesser: u64,
    dominating: u64,
    wrong: u64,
}

fn plain_dominates(d: usize, p: [u16; COSTS], q: [u16; COSTS]) -> bool
    requires { d ≤ row_costs }
{
    (0..d).all(|i| p[i] <= q[i]) && (0..d).any(|i| p[i] < q[i])
}

// The number after s, of a row that looks random.
fn next(s: usize) -> usize {
    s % 4294967296 * 4294957665 + s / 4294967296 % 4294967296
}

// Any cost, one equal to another or next to it, or one at the ends of the range or in its middle.
fn cost(s: usize, other: u16) -> u16 {
    let n = (s % 65536) as u16;
    match s / 65536 % 4 {
        0 => n,
        1 => other,
        2 => other / 2 * 2 + n % 2,
        _ => n % 2 * 32768 + n / 2 % 2 * 32767,
    }
}

fn row(seed: usize, other: [u16; COSTS]) -> [u16; COSTS] {
    let mut r = other;
    let mut s = seed;
    for c in &mut r {
        s = next(s);
        *c = cost(s, *c);
    }
    r
}

fn with_answer(t: Tally, lesser: bool, dominating: bool, right: bool) -> Tally {
    Tally {
        lesser: t.lesser % 4294967296 + u64::from(lesser),
        dominating: t.dominating % 4294967296 + u64::from(dominating),
        wrong: t.wrong % 4294967296 + u64::from(!right),
    }
}

// The tally with one pair more.
fn with_pair(t: Tally, d: usize, p: [u16; COSTS], q: [u16; COSTS]) -> Tally
    requires { d ≤ row_costs }
{
    let a = p[0];
    let b = q[0];
    let lesser = less(a, b) == 1;
    let dominating = dominates(d, p, q);
    let right = (lesser == (a < b)) & (dominating == plain_dominates(d, p, q));
    with_answer(t, lesser, dominating, right)
}

fn drawn(n: u64) -> Tally {
    let mut t = Tally {
        lesser: 0,
        dominating: 0,
        wrong: 0,
    };
    let mut s: usize = 1;
    for _ in 0..n {
        s = next(s);
        let p = row(s, [0u16; COSTS]);
        let q = row(s ^ 11400714819323198485, p);
        t = with_pair(t, s % (COSTS + 1), p, q);
    }
    t
}

fn put_drawn(rt: &impl Print, values: &[u64], s: Said, t: Tally) -> io::Result<Said> {
    let lesser = put(rt, values, s, t.lesser)?;
    let dominating = put(rt, values, lesser, t.dominating)?;
    put(rt, values, dominating, t.wrong)
}

// Answers a line on two rows: the comparison and dominance.
pub fn answer(rt: &impl Print, values: &[u64], asked: Pair, s: Said) -> io::Result<Said> {
    let first = value(values, 0);
    match asked {
        Pair::Less => {
            let lesser = less(narrow(first), narrow(value(values, 1)));
            put(rt, values, s, lesser as u64)
        }
        Pair::Dominates => {
            let d = (first as usize).min(COSTS);
            let dominating = dominates(d, costs(values, 1), costs(values, 1 + COSTS));
            put(rt, values, s, u64::from(dominating))
        }
        Pair::Drawn => put_drawn(rt, values, s, drawn(first)),
    }
}
