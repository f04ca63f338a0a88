// A row that a call tells: mark, number, costs; as a struct and as numbers.
ghost use Rattle.std.specs.Prelude.{◌≡◌};
ghost use Rattle.dominance.specs.Move.{as_move};
ghost use Rattle.rows.specs.Rows.{row_numbers, move_numbers};

use dominance::Move;
use promises::{WORDS, costs_from};
use zorder::COSTS;

pub const ROW: usize = WORDS;

#[repr(C)]
#[derive(Clone, Copy)]
pub struct Row {
    pub mark: u16,
    pub number: u16,
    pub costs: [u16; COSTS],
}

// Gives the numbers of a move's row.
pub fn row_of(x: Move, mark: u16) -> [u16; ROW]
    ensures { result ≡ move_numbers mark (as_move x) }
{
    let mut row = [0u16; ROW];
    row[0] = mark;
    row[1] = x.number;
    row[2..].copy_from_slice(&x.costs);
    row
}

// Gives the row of these numbers.
pub fn row_from(numbers: [u16; ROW]) -> Row
    ensures { row_numbers result ≡ numbers }
{
    Row {
        mark: numbers[0],
        number: numbers[1],
        costs: costs_from(numbers),
    }
}
