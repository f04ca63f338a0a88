// Enter, withdraw and re-cost, and their previews: only a change is carried out.
use crate::said::Said;
use crate::told::put_change;
use crate::values::{move_at, value_before};
use crate::word::{Asks, Kind};
use board::carry_out;
use dominance::Move;
use planning::{Change, plan_change};
use std::io;

// A change and its preview ask the same.
fn asked(values: &[u64], x: Asks) -> Change {
    let given = move_at(values, 0, x.block);
    let number = given.number;
    let block = given.block;
    let costs = given.costs;
    let coming = Move { number, costs };
    match x.kind {
        Kind::Enter => Change::Enter { coming, block },
        Kind::Withdraw => Change::Withdraw { number },
        Kind::Recost => Change::Recost { coming, block },
    }
}

// The last number asked is that of the rows lent.
fn lent(values: &[u64], s: Said) -> usize {
    value_before(values, s.asked) as usize
}

// Answers a line that changes the board.
pub fn change(
    rt: &impl Print,
    memory: &mut [u8],
    x: Asks,
    values: &[u64],
    s: Said,
) -> io::Result<Said> {
    let p = plan_change(memory, asked(values, x), lent(values, s));
    let r = put_change(rt, memory, p, x.opened, values, s)?;
    carry_out(memory, p);
    Ok(r)
}

// Answers a line that previews a change.
pub fn preview(
    rt: &impl Print,
    memory: &[u8],
    x: Asks,
    values: &[u64],
    s: Said,
) -> io::Result<Said> {
    let p = plan_change(memory, asked(values, x), lent(values, s));
    put_change(rt, memory, p, x.opened, values, s)
}
