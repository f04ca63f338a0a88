// Yard block hours: a block for each row, which blocks are open at a minute, and the entries that
// say so. Every eighth block has no window; the others have one, of half a week, and may be made
// bad by an end equal to the start.
use crate::table::{Row, number_of};
use hours::HOURS;
use std::array;

const BLOCKS: usize = 64;

// Gives the block that goes with a row, by its number and first cost.
pub fn block_of(r: Row) -> u16 {
    (number_of(r) ^ r[2]) % 64
}

fn start(k: usize) -> u16 {
    (k % BLOCKS * 157) as u16
}

fn end(k: usize) -> u16 {
    ((k % BLOCKS * 157 + 5040) % 10080) as u16
}

// Says whether a block has no window.
pub fn is_shut(k: usize) -> bool {
    k % 8 == 7
}

// The minutes since the window's start, round the week, are fewer than it lasts.
pub fn is_open(minute: usize, r: Row) -> bool {
    let k = block_of(r) as usize;
    let since = (minute % 10080 + (10080 - k % BLOCKS * 157)) % 10080;
    !is_shut(k) & (since < 5040)
}

// Gives the block that is to have bad hours, if there is such a block.
pub fn bad_block(k: usize) -> Option<usize> {
    if k < BLOCKS { Some(k) } else { None }
}

// Slots past the count hold what would be refused.
fn entry(k: usize, bad: Option<usize>) -> [u16; HOURS] {
    let mut e = [7u16; HOURS];
    e[0] = if is_shut(k) { 0 } else { 1 };
    e[1] = start(k);
    e[2] = if bad == Some(k) { start(k) } else { end(k) };
    e
}

// Makes the hours of all blocks.
pub fn entries(bad: Option<usize>) -> [[u16; HOURS]; BLOCKS] {
    array::from_fn(|k| entry(k, bad))
}
