// What each call is to answer, judged on the plain board and the rows lent.
use crate::call::{Call, Change, Query, Read};
use crate::plain::{Plain, exchange, find, kept, listed, notice, rank_all};
use crate::rules::{ALL, Test};
use crate::table::{Area, Row, Table, put_row, row_at};
use crate::week::is_shut;
use rows::ROW;

// Whether a cost past the first d is not zero.
fn costs_past(d: usize, r: Row) -> bool {
    (2 + d % ROW..ROW).any(|i| r[i] != 0)
}

// What turns a change down, but for 3 and 8.
fn judge(b: Plain, x: Change, present: bool) -> Result<(), usize> {
    let enters = matches!(
        x.asked,
        planning::Change::Enter {
            coming: _,
            block: _
        }
    );
    if b.c <= usize::from(x.asked.number()) {
        Err(4)
    } else if x.asked.block().is_some_and(|block| 63 < block) {
        Err(11)
    } else if x.coming().is_some_and(|r| costs_past(b.d, r)) {
        Err(7)
    } else if enters != present {
        Ok(())
    } else if enters {
        Err(5)
    } else {
        Err(6)
    }
}

// The change made on the plain board, and undone where too few rows are lent for its notice.
fn make(b: Plain, t: &mut Table, x: Change, old: Option<Row>) -> Plain {
    let new = x.coming();
    let n = exchange(t, b.n, old, new);
    let after = listed(b, t, n);
    let need = notice(t, b, after);
    if need <= x.lent {
        after.accepted(need)
    } else {
        exchange(t, n, new, old);
        b.refused(8, need)
    }
}

fn change(b: Plain, t: &mut Table, x: Change) -> Plain {
    let old = find(t, b.n, x.asked.number());
    match judge(b, x, old.is_some()) {
        Ok(()) => make(b, t, x, old),
        Err(refusal) => b.refused(refusal, 0),
    }
}

// Gives what a preview is to answer: that of the change, made and undone. The row past the last is
// put back too, since the dice may read it.
pub fn foreseen(b: Plain, t: &mut Table, x: Change) -> Plain {
    let old = find(t, b.n, x.asked.number());
    let past = row_at(t, Area::Board, b.n);
    let after = expect(b, t, Call::Change(x));
    if after.answer.accepts() {
        exchange(t, after.n, x.coming(), old);
    }
    put_row(t, Area::Board, b.n, past);
    let mut seen = b;
    seen.answer = after.answer;
    seen
}

// Whether a list's argument is out of range.
fn is_bad(d: usize, query: Query) -> bool {
    match query {
        Query::List => false,
        Query::Band(most) => 4095 < most,
        Query::Rank(most) => most < 1 || 4096 < most,
        Query::OnK(k) => k < 1 || d < k,
        Query::Chosen(set) => set < 1 || (1usize << (d % 64)) <= set,
        Query::Hours(minute, _) => 10079 < minute,
    }
}

// What turns a list down, but for 3 and 8, with the detail.
fn judge_list(d: usize, query: Query) -> Result<(), (usize, usize)> {
    if is_bad(d, query) {
        return Err((7, 0));
    }
    match query {
        Query::Hours(_, Some(bad)) if !is_shut(bad) => Err((12, bad)),
        _ => Ok(()),
    }
}

// The rows of a list among the wanted ones; how many they are.
fn rows(b: Plain, t: &mut Table, query: Query) -> usize {
    match query {
        Query::List => kept(t, b.n, Test::Hides, 0, Area::Want),
        Query::Band(most) => kept(t, b.n, Test::Beats(ALL), most, Area::Want),
        Query::Rank(most) => rank_all(t, b, most),
        Query::OnK(k) => kept(t, b.n, Test::BeatsOn(k, b.d), 0, Area::Want),
        Query::Chosen(set) => kept(t, b.n, Test::Beats(set), 0, Area::Want),
        Query::Hours(minute, _) => kept(t, b.n, Test::HidesAt(minute), 0, Area::Want),
    }
}

fn list(b: Plain, t: &mut Table, q: Read) -> Plain {
    if let Err((refusal, detail)) = judge_list(b.d, q.query) {
        return b.refused(refusal, detail);
    }
    let need = rows(b, t, q.query);
    if need <= q.lent {
        b.accepted(need)
    } else {
        b.refused(8, need)
    }
}

// Gives the plain board after the call, with its answer. A load of the board's own size has a row
// with a number too large.
pub fn expect(b: Plain, t: &mut Table, k: Call) -> Plain {
    match k {
        Call::Load(c) => b.refused(if (c == b.c) & (0 < c) { 4 } else { 2 }, 0),
        _ if b.c == 0 => b.refused(3, 0),
        Call::Change(x) => change(b, t, x),
        Call::Read(q) => list(b, t, q),
    }
}
