// A load.
ghost use Rattle.std.specs.Prelude.{◌≤◌};

use crate::said::Said;
use crate::told::put_verdict;
use crate::values::{Given, ROWS, move_at, value};
use loading::INPUT;
use std::io;

// The place of row i, below ROWS.
fn place(blocks: bool, i: usize) -> usize
    ensures { result ≤ 4096 }
{
    if blocks {
        4 + INPUT * (i % ROWS)
    } else {
        4 + (INPUT - 1) * (i % ROWS)
    }
}

// A row as it is lent.
fn row(x: Given) -> [u16; INPUT] {
    let mut r = [0u16; INPUT];
    r[0] = x.number;
    r[1] = x.block;
    r[2..].copy_from_slice(&x.costs);
    r
}

fn read_rows(values: &[u64], blocks: bool, input: &mut [[u16; INPUT]]) {
    for (i, r) in input.iter_mut().enumerate() {
        *r = row(move_at(values, place(blocks, i), blocks));
    }
}

fn load_rows(
    rt: &impl Print,
    memory: &mut [u8],
    input: &[[u16; INPUT]],
    values: &[u64],
    s: Said,
) -> io::Result<Said> {
    let k = (value(values, 3) as usize).min(input.len());
    let size = value(values, 1) as usize;
    let dimension = value(values, 2) as usize;
    let verdict = loading::load(memory, size, dimension, &input[..k]);
    put_verdict(rt, values, s, verdict)
}

// Answers a line that loads a board.
pub fn load(
    rt: &impl Print,
    memory: &mut [u8],
    blocks: bool,
    values: &[u64],
    s: Said,
) -> io::Result<Said> {
    let mut input = [[0u16; INPUT]; ROWS];
    read_rows(values, blocks, &mut input);
    load_rows(rt, memory, &input, values, s)
}
