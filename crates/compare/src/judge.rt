// What the board said, held against what the plain board wants.
use crate::plain::Plain;
use crate::table::{Area, Table, same_rows};

// The holder, if there is one, has the list.
fn holds(b: Plain, t: &Table) -> bool {
    match b.held {
        Some(n) => n == b.listed && same_rows(t, Area::Held, b.list, n),
        None => true,
    }
}

// Gives the plain board after a call that is to tell so many nodes if it is accepted, with what the
// board said of it.
pub fn judged(want: Plain, said: Plain, t: &Table, opened: usize) -> Plain {
    let mut wanted = want.answer;
    wanted.opened = if wanted.accepts() { opened } else { 0 };
    let mut b = said;
    b.n = want.n;
    b.list = want.list;
    b.listed = want.listed;
    b.right = said.right & (said.answer == wanted) & holds(b, t);
    b
}
