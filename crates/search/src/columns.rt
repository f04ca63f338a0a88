// Sixty-four moves as columns, cost by cost: cost k of column j stands at 64 k + j, and one
// question to all of them takes eight columns a vector.
ghost use Rattle.std.specs.Prelude.{cond, ◌≡◌, ◌≤◌, ◌<◌, eqb};
ghost use Rattle.search.specs.Columns as spec;
ghost use Rattle.zorder.specs.Address.{row_costs};

use dominance::{less, over};
use zorder::COSTS;

pub const COLUMNS: usize = 64;

pub const CELLS: usize = 512;

// 1 if a is 0, else 0.
fn zero(a: u16) -> u16
    ensures { result ≡ cond (eqb a 0) 1 0 }
{
    1 - (less(0, a) as u16)
}

// Gives 1 if column j is nowhere greater than q in the first w costs, else 0.
pub fn fits_column(columns: &[u16; CELLS], w: usize, j: usize, q: [u16; COSTS]) -> u16
    requires { (w ≤ row_costs) × (j < 64) }
    ensures { result ≡ cond (spec.column_fits w columns.now q j) 1 0 }
{
    let mut worse: u16 = 0;
    for k in 0..w {
        worse = worse | over(columns[COLUMNS * k + j], q[k]);
    }
    zero(worse)
}

// How many columns are nowhere greater than q in the first w costs. Where w is a number, the
// compiler takes eight columns at once.
fn fitting(columns: &[u16; CELLS], w: usize, q: [u16; COSTS]) -> u16
    requires { w ≤ row_costs }
    ensures { result ≡ spec.fitting w columns.now q }
{
    let mut fitting: u16 = 0;
    for j in 0..COLUMNS {
        fitting += fits_column(columns, w, j, q);
    }
    fitting
}

// Says whether a column is nowhere greater than q, a row of bounds for d costs.
pub fn some_fits(columns: &[u16; CELLS], d: usize, q: [u16; COSTS]) -> bool
    requires { spec.Bounds d q }
    ensures { spec.SomeFits columns.now q result }
{
    if d <= 4 {
        return 0 < fitting(columns, 4, q);
    }
    0 < fitting(columns, 8, q)
}

// Puts a move in as column `at`.
pub fn put(columns: &mut [u16; CELLS], at: usize, costs: [u16; COSTS])
    requires { at < 64 }
    ensures { spec.Put columns.old at costs columns.new }
{
    // As a slice its length is known to proofs.
    let cells: &mut [u16] = columns;
    for k in 0..COSTS {
        cells[COLUMNS * k + at] = costs[k];
    }
}

// Puts a move in as every column.
pub fn fill(columns: &mut [u16; CELLS], costs: [u16; COSTS])
    ensures { spec.Filled costs columns.new }
{
    for at in 0..COLUMNS {
        put(columns, at, costs);
    }
}
