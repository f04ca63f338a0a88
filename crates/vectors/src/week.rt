// The hours call. An entry of the line is a block, a count and so many windows, at most four. As
// many entries are lent as the last block named asks for: of those not named the count is 0. What
// stands past a count nobody looks at.
ghost use Rattle.std.specs.Prelude.{◌≤◌};

use crate::said::Said;
use crate::told::put_list;
use crate::values::{VALUES, narrow, value, value_after};
use hours::HOURS;
use std::{array, io};

const BLOCKS: usize = 64;

const RUBBISH: u16 = 42405;

// How many numbers the entry at a place has.
fn written(values: &[u64], at: usize) -> usize
    ensures { result ≤ 10 }
{
    2 + 2 * (value_after(values, at, 1) as usize).min(4)
}

// Number j of the entry at a place.
fn part(values: &[u64], at: usize, j: usize) -> u16 {
    if j < written(values, at) {
        narrow(value_after(values, at, j))
    } else {
        RUBBISH
    }
}

// The entry at a place as it is lent, without its block.
fn entry(values: &[u64], at: usize) -> [u16; HOURS] {
    array::from_fn(|j| part(values, at, j + 1))
}

// The entry at a place put at its block; how many entries it asks for.
fn put_entry(entries: &mut [[u16; HOURS]], values: &[u64], at: usize) -> usize {
    let block = value(values, at) as usize;
    if block < entries.len() {
        entries[block] = entry(values, at);
        return block + 1;
    }
    0
}

// The entries of the line put at their blocks; how many are lent.
fn read_entries(values: &[u64], entries: &mut [[u16; HOURS]]) -> usize {
    let mut lent: usize = 0;
    let mut at: usize = 3;
    for _ in 0..value(values, 2) {
        lent = lent.max(put_entry(entries, values, at));
        at = at.min(VALUES) + written(values, at);
    }
    lent
}

fn tell(
    rt: &impl Print,
    memory: &[u8],
    entries: &[[u16; HOURS]],
    lent: usize,
    values: &[u64],
    s: Said,
) -> io::Result<Said> {
    let k = lent.min(entries.len());
    let minute = value(values, 0) as usize;
    let p = hours::plan_hours(memory, minute, &entries[..k], value(values, 1) as usize);
    put_list(rt, memory, p, false, values, s)
}

// Answers a line that asks for the hours call.
pub fn hours_at(rt: &impl Print, memory: &[u8], values: &[u64], s: Said) -> io::Result<Said> {
    let mut none = [RUBBISH; HOURS];
    none[0] = 0;
    let mut entries = [none; BLOCKS];
    let lent = read_entries(values, &mut entries);
    tell(rt, memory, &entries, lent, values, s)
}
