// The lists of which a plan has the rows, and rank, which has them in lent space.
ghost use Rattle.std.specs.Prelude.{◌<◌};
ghost use Rattle.rows.specs.Telling.{TellingAsked};

use crate::said::Said;
use crate::told::{put_answer, put_list, put_row};
use crate::values::{ROWS, value};
use crate::word::List;
use rows::{Plan, ROW};
use std::io;

fn plan_of(asked: List, m: &[u8], values: &[u64]) -> Plan
    ensures { 0 < result.telling.count → TellingAsked result.telling.told m.now }
{
    let x = value(values, 0) as usize;
    let lent = value(values, 1) as usize;
    match asked {
        List::All => listing::plan_list(m, x),
        List::Band => query::plan_band(m, x, lent),
        List::OnK => query::plan_on_k(m, x, lent),
        List::Chosen => query::plan_chosen(m, x, lent),
    }
}

// Answers a line that asks for a list.
pub fn list(
    rt: &impl Print,
    memory: &[u8],
    asked: List,
    values: &[u64],
    s: Said,
) -> io::Result<Said> {
    let nodes = matches!(asked, List::All);
    put_list(rt, memory, plan_of(asked, memory, values), nodes, values, s)
}

fn put_ranked(
    rt: &impl Print,
    rows: &[[u16; ROW]],
    count: usize,
    values: &[u64],
    s: Said,
) -> io::Result<Said> {
    let mut r = s;
    for row in &rows[..count.min(rows.len())] {
        r = put_row(rt, values, r, *row)?;
    }
    Ok(r)
}

fn rank_in(
    rt: &impl Print,
    memory: &[u8],
    rows: &mut [[u16; ROW]],
    values: &[u64],
    s: Said,
) -> io::Result<Said> {
    let n = (value(values, 1) as usize).min(rows.len());
    let r = ranking::rank(memory, value(values, 0) as usize, &mut rows[..n]);
    let answered = put_answer(rt, values, s, r, false)?;
    put_ranked(rt, rows, r.count, values, answered)
}

// Answers a line that asks for a rank.
pub fn rank(rt: &impl Print, memory: &[u8], values: &[u64], s: Said) -> io::Result<Said> {
    rank_in(rt, memory, &mut [[0u16; ROW]; ROWS], values, s)
}
