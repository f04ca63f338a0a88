// The calls on the board's memory; and the holder, who hears the rows of some.
ghost use Rattle.std.specs.Prelude.{◌<◌};
ghost use Rattle.rows.specs.Telling.{TellingAsked};

use crate::call::{Call, Query, Read};
use crate::change::change;
use crate::plain::{Plain, hear};
use crate::table::{Area, Row, Table};
use crate::told::{spoken, told, with_rows};
use crate::week::entries;
use loading::INPUT;
use promises::Verdict;
use rows::Plan;

fn plan_hours(m: &[u8], minute: usize, bad: Option<usize>, lent: usize) -> Plan
    ensures { 0 < result.telling.count → TellingAsked result.telling.told m.now }
{
    hours::plan_hours(m, minute, &entries(bad), lent)
}

// The plan of any list but rank, which has none.
fn plan_query(m: &[u8], q: Read) -> Plan
    ensures { 0 < result.telling.count → TellingAsked result.telling.told m.now }
{
    match q.query {
        Query::List | Query::Rank(_) => listing::plan_list(m, q.lent),
        Query::Band(most) => query::plan_band(m, most, q.lent),
        Query::OnK(k) => query::plan_on_k(m, k, q.lent),
        Query::Chosen(set) => query::plan_chosen(m, set, q.lent),
        Query::Hours(minute, bad) => plan_hours(m, minute, bad, q.lent),
    }
}

fn rank(m: &[u8], most: usize, lent: usize, b: Plain, rows: &mut [Row]) -> Plain {
    let room = lent.min(rows.len());
    let a = ranking::rank(m, most, &mut rows[..room]);
    spoken(b, a.verdict, a.count, a.opened)
}

fn ranked(m: &[u8], most: usize, lent: usize, t: &mut Table, b: Plain) -> Plain {
    let said = rank(m, most, lent, b, t);
    with_rows(said, t, Area::Told, said.answer.count)
}

// Loads the first n rows.
pub fn load(m: &mut [u8], c: usize, d: usize, rows: &[[u16; INPUT]], n: usize) -> Verdict {
    loading::load(m, c, d, &rows[..n.min(rows.len())])
}

// A load to be refused: C out of range, or of the board's own C and a row with a number too large.
fn reload(m: &mut [u8], c: usize, b: Plain) -> Plain {
    spoken(b, load(m, c, b.d, &[[65535u16; INPUT]], 1), 0, 0)
}

fn read(m: &[u8], q: Read, t: &mut Table, b: Plain) -> Plain {
    match q.query {
        Query::Rank(most) => ranked(m, most, q.lent, t, b),
        _ => told(m, plan_query(m, q), t, b, Area::Told),
    }
}

fn asked(m: &mut [u8], k: Call, t: &mut Table, b: Plain) -> Plain {
    match k {
        Call::Change(x) => change(m, x, t, b),
        Call::Read(q) => read(m, q, t, b),
        Call::Load(c) => reload(m, c, b),
    }
}

// Makes the call on the memory of the board b; what it said, and how many rows the holder then
// holds. He listens to notices; before there is one, a list is read.
pub fn ask(m: &mut [u8], k: Call, t: &mut Table, b: Plain) -> Plain {
    let mut said = asked(m, k, t, b);
    let count = said.answer.count;
    said.held = match b.held {
        Some(held) if k.changes() => Some(hear(t, held, count)),
        None if k.lists() && said.answer.accepts() => Some(hear(t, 0, count)),
        held => held,
    };
    said
}
