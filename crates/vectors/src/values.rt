// The numbers of a line.
ghost use Rattle.std.specs.Prelude.{◌≤◌};

use std::array;
use zorder::COSTS;

// A move as a line has it.
#[derive(Clone, Copy)]
pub struct Given {
    pub number: u16,
    pub block: u16,
    pub costs: [u16; COSTS],
}

// No line has so many.
pub const VALUES: usize = 4096;

// More rows than a line of so many numbers has.
pub const ROWS: usize = 409;

// Gives the number at place i, or 0 past the end.
pub fn value(values: &[u64], i: usize) -> u64 {
    values.get(i).copied().unwrap_or(0)
}

// Gives the number j places after place i, or 0 past the end.
pub fn value_after(values: &[u64], i: usize, j: usize) -> u64 {
    value(values, i.saturating_add(j))
}

// Gives the number before place i, or 0 at the start.
pub fn value_before(values: &[u64], i: usize) -> u64 {
    if 0 < i { value(values, i - 1) } else { 0 }
}

// Cuts a number to 16 bits.
pub fn narrow(n: u64) -> u16 {
    (n % 65536) as u16
}

// Gives the costs from place i on.
pub fn costs(values: &[u64], i: usize) -> [u16; COSTS] {
    array::from_fn(|j| narrow(value_after(values, i, j)))
}

// Gives the move that stands at a place; without a block it lies in block 0.
pub fn move_at(values: &[u64], at: usize, with_block: bool) -> Given
    requires { at ≤ 4096 }
{
    let number = narrow(value(values, at));
    let (block, rest) = if with_block {
        (narrow(value(values, at + 1)), at + 2)
    } else {
        (0, at + 1)
    };
    Given {
        number,
        block,
        costs: costs(values, rest),
    }
}
