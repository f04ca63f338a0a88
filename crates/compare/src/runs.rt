// The mixed run of calls on a board, each made on both: a change after its preview, the list,
// another list or at times a load to be refused; before some of them a preview of a change that is
// not made.
use crate::ask::ask;
use crate::call::{Call, Change};
use crate::expect::{expect, foreseen};
use crate::judge::judged;
use crate::node_counts::opened;
use crate::plain::Plain;
use crate::table::Table;
use crate::tally::{Tally, add, count, count_preview};
use crate::{change, dice};
use std::io;

// The last answer before a change is that of its preview, and the change is to answer the same.
fn call(b: Plain, t: &mut Table, m: &mut [u8], k: Call) -> Plain {
    let nodes = opened(m, b, t, k);
    let want = expect(b, t, k);
    let said = ask(m, k, t, b);
    let mut after = judged(want, said, t, nodes);
    after.right &= !k.changes() | (b.answer == said.answer);
    after
}

// Board, list and holder stay.
fn preview(b: Plain, t: &mut Table, m: &[u8], x: Change) -> Plain {
    let nodes = opened(m, b, t, Call::Change(x));
    let want = foreseen(b, t, x);
    let said = change::preview(m, x, t, b);
    judged(want, said, t, nodes)
}

fn looked(
    rt: &impl Print,
    b: Plain,
    t: &mut Table,
    m: &[u8],
    u: &mut Tally,
    x: Change,
) -> io::Result<Plain> {
    let after = preview(b, t, m, x);
    count_preview(rt, u, x, after)?;
    Ok(after)
}

fn turn(
    rt: &impl Print,
    b: Plain,
    t: &mut Table,
    m: &mut [u8],
    u: &mut Tally,
    s: usize,
    i: usize,
) -> io::Result<Plain> {
    let k = dice::drawn(b, t, s, i);
    let mut before = b;
    if dice::looks(s) {
        before = looked(rt, before, t, m, u, dice::looked_at(b, t, s, i))?;
        add(u, b'a', usize::from(before.answer.accepts()));
    }
    if let Call::Change(x) = k {
        before = looked(rt, before, t, m, u, x)?;
    }
    let after = call(before, t, m, k);
    count(rt, u, k, after)?;
    Ok(after)
}

// Runs calls on one board and holds every answer against the plain one.
pub fn run(
    rt: &impl Print,
    b: Plain,
    t: &mut Table,
    m: &mut [u8],
    u: &mut Tally,
    seed: usize,
    calls: usize,
) -> io::Result<()> {
    let mut board = b;
    let mut s = seed;
    for i in 0..calls {
        board = turn(rt, board, t, m, u, s, i)?;
        s = dice::next(s);
    }
    Ok(())
}
