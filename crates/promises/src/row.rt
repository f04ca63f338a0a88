// A row as numbers, as load takes it and as a call tells it: two numbers, then the costs.
ghost use Rattle.std.specs.Prelude.{◌≡◌, drop};

use std::array;
use zorder::COSTS;

pub const WORDS: usize = COSTS + 2;

// Gives the costs of a row.
pub fn costs_from(row: [u16; WORDS]) -> [u16; COSTS]
    ensures { result ≡ drop 2 row }
{
    array::from_fn(|j| row[j + 2])
}
