// A move taken out of the line; the moves under removed nodes are entered again.
ghost use Rattle.tree.specs.Withdraw as withdraw;

use crate::enter::{enter_line, with_rows};
use crate::field::{Heights, Numbers, lower};
use dominance::Move;
use memory::{Head, costs_of, height_at, number_at, set_height, set_work, work_at};
use nodes::{entries, node_end, node_start};
use std::ops::Range;

// Gives the place of the move of a number, if it is on the board.
pub fn place_of(m: &[u8], c: usize, n: usize, number: u16) -> Option<usize>
    requires { withdraw.RowsAsked c n m.now }
    ensures { withdraw.PlaceFound c n number m.now result }
{
    for p in 0..n {
        if number_at(m, c, p) == number {
            return Some(p);
        }
    }
    None
}

// The rows that go with the move at place p: those of the highest removed node, or its own.
fn widened(m: &[u8], c: usize, n: usize, p: usize) -> Range<usize>
    requires { withdraw.RangeAsked c n p m.now }
    ensures { withdraw.Widened c n p result.start result.end m.now }
{
    let top = height_at(m, c, 0);
    let mut rows = p..p + 1;
    for l in 1..top {
        let s = node_start(m, c, l, rows.start);
        let e = node_end(m, c, n, l, rows.start);
        if 3 < entries(m, c, l - 1, s, e) {
            return rows;
        }
        rows = s..e;
    }
    rows
}

// The numbers of some rows, but for one, put into the work area; how many they are.
fn save(m: &mut [u8], c: usize, rows: &Range<usize>, number: u16) -> usize
    requires { withdraw.SaveAsked c rows.now.start rows.now.end m.old }
    ensures { withdraw.Saved c rows.now.start rows.now.end number m.old m.new result }
{
    let mut k = 0;
    for i in rows.start..rows.end {
        let other = number_at(m, c, i);
        if other != number {
            set_work(m, c, k, other);
            k += 1;
        }
    }
    k
}

// The rows behind a gap moved down into it.
fn close_gap(m: &mut [u8], c: usize, n: usize, gap: &Range<usize>)
    requires { withdraw.GapAsked c n gap.now.start gap.now.end m.old }
    ensures { withdraw.Closed c n gap.now.start gap.now.end m.old m.new }
{
    lower::<Numbers>(m, c, n, gap);
    lower::<Heights>(m, c, n, gap);
}

// The range taken out; the row after it starts at least what the range started.
fn cut_out(m: &mut [u8], c: usize, n: usize, rows: &Range<usize>)
    requires { withdraw.GapAsked c n rows.now.start rows.now.end m.old }
    ensures { withdraw.CutOut c n rows.now.start rows.now.end m.old m.new }
{
    let k = height_at(m, c, rows.start);
    close_gap(m, c, n, rows);
    if rows.end < n {
        let h = height_at(m, c, rows.start);
        if h < k {
            set_height(m, c, rows.start, k);
        }
    }
}

// While an upper root has one child, the first row loses a level.
fn lower_root(m: &mut [u8], c: usize, n: usize)
    requires { withdraw.RowsAsked c n m.old }
    ensures { withdraw.Lowered c n m.old m.new }
{
    if n == 0 {
        return;
    }
    let top = height_at(m, c, 0);
    for l in (1..top).rev() {
        if 1 < entries(m, c, l, 0, n) {
            return;
        }
        set_height(m, c, 0, l);
    }
}

// The k moves of the work area entered again, in order, among the rows.
fn enter_saved(m: &mut [u8], h: Head, k: usize)
    requires { withdraw.SavedAsked h.size h.dimension h.count k m.old }
    ensures { withdraw.SavedEntered h.size h.dimension h.count k m.old
        m.new }
{
    let n = h.count;
    for j in 0..k {
        let number = work_at(m, h.size, j);
        let x = Move {
            number,
            costs: costs_of(m, h.size, h.dimension, number),
        };
        enter_line(m, with_rows(h, n + j), x);
    }
}

// Takes the move at place p out of the rows.
pub fn withdraw_line(m: &mut [u8], h: Head, p: usize)
    requires { withdraw.WithdrawAsked h.size h.dimension h.count p m.old }
    ensures { withdraw.Withdrawn h.size h.dimension h.count p m.old
        m.new }
{
    let n = h.count;
    let number = number_at(m, h.size, p);
    let rows = widened(m, h.size, n, p);
    let k = save(m, h.size, &rows, number);
    cut_out(m, h.size, n, &rows);
    let left = n - (rows.end - rows.start);
    lower_root(m, h.size, left);
    enter_saved(m, with_rows(h, left), k);
}
