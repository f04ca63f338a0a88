// A move entered into the line.
ghost use Rattle.std.specs.Prelude.{◌≡◌, ◌<◌};
ghost use Rattle.dominance.specs.Move.{as_move};
ghost use Rattle.tree.specs.Enter as enter;

use crate::insert::{insert_row, place_for};
use crate::split::cascade;
use dominance::Move;
use memory::{Head, costs_of, height_at, number_at, set_height};
use nodes::{node_end, node_start};
use zorder::side_of;

// Whether x becomes the first of the nodes that start at place p: before the first move always, in
// a gap if the later neighbour gets the lesser side.
fn takes_over(m: &[u8], h: Head, p: usize, x: Move) -> bool
    requires { enter.PlaceAsked h.size h.dimension h.count p m.now }
    ensures { enter.TakesOver h.size h.dimension h.count p (as_move x)
        m.now result }
{
    let n = h.count;
    if p == 0 {
        return true;
    }
    if n <= p {
        return false;
    }
    let k = height_at(m, h.size, p);
    if k == 0 {
        return false;
    }
    let first = costs_of(
        m,
        h.size,
        h.dimension,
        number_at(m, h.size, node_start(m, h.size, k, p - 1)),
    );
    let last = costs_of(
        m,
        h.size,
        h.dimension,
        number_at(m, h.size, node_end(m, h.size, n, k, p) - 1),
    );
    side_of(h.dimension, x.costs, last) < side_of(h.dimension, first, x.costs)
}

// The row of x put at place p.
fn put_row(m: &mut [u8], h: Head, p: usize, x: Move)
    requires { enter.PutAsked h.size h.dimension h.count p (as_move x) m.old }
    ensures { enter.RowPut h.size h.dimension h.count p (as_move x) m.old
        m.new }
{
    if takes_over(m, h, p, x) {
        let k = height_at(m, h.size, p);
        set_height(m, h.size, p, 0);
        insert_row(m, h.size, h.count, p, x.number, k);
    } else {
        insert_row(m, h.size, h.count, p, x.number, 0);
    }
}

// Gives the same board with n rows.
pub fn with_rows(h: Head, n: usize) -> Head
    ensures { result ≡ enter.with_rows h n }
{
    Head { count: n, ..h }
}

// Enters x among the rows. Its costs stand in the memory already.
pub fn enter_line(m: &mut [u8], h: Head, x: Move)
    requires { enter.EnterAsked h.size h.dimension h.count (as_move x) m.old }
    ensures { enter.Entered h.size h.dimension h.count (as_move x) m.old
        m.new }
{
    let n = h.count;
    if n == 0 {
        insert_row(m, h.size, 0, 0, x.number, 1);
        return;
    }
    let p = place_for(m, h, x);
    put_row(m, h, p, x);
    cascade(m, with_rows(h, n + 1), p);
}
