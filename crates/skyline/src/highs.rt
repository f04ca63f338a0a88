// For each run of 64 places the greatest of what its listed moves are held to, cost by cost.
ghost use Rattle.std.specs.Prelude.{◌≡◌, ◌≤◌, length};
ghost use Rattle.skyline.specs.Chunks as spec;

use dominance::greatest;
use memory::Board;
use search::{Among, RUN, RUNS, bounds_at, looks_at, run_end};
use zorder::COSTS;

// A row with the listed moves from place i up to `to`.
fn run_high(b: &Board, i: usize, to: usize, high: [u16; COSTS]) -> [u16; COSTS]
    requires { (i ≤ to) × (to ≤ b.now.head.count) }
    ensures { spec.HighWith b.now.head.size b.now.head.dimension b.now.bytes.now i to high result }
{
    let mut top = high;
    for j in i..to {
        if looks_at(b, j, Among::Listed) {
            let higher = greatest(top, bounds_at(b, j));
            top = higher;
        }
    }
    top
}

// Raises each run's row to what its listed moves are held to.
pub(crate) fn put_highs(b: &Board, highs: &mut [[u16; COSTS]; RUNS])
    requires { length highs.old ≡ 64 }
    ensures { spec.Highs b.now.head.size b.now.head.dimension b.now.bytes.now b.now.head.count
        highs.new }
{
    let n = b.head.count;
    let mut i = 0;
    while i < n {
        let e = run_end(i, n);
        let high = highs[i / RUN];
        highs[i / RUN] = run_high(b, i, e, high);
        i = e;
    }
}
