// What turns a change down, in the stated order, but for 3 and 8.
ghost use Rattle.std.specs.Prelude.{◌≤◌, ◌≡◌};
ghost use Rattle.zorder.specs.Address.{row_costs};
ghost use Rattle.planning.specs.Kind as spec;

use crate::change::Change;
use memory::Head;
use promises::{Reason, block_bad};
use zorder::zero_past;

// Says whether a move would get a block that there is not.
fn gets_bad_block(x: Change) -> bool
    ensures { result ≡ spec.gets_bad_block x }
{
    x.block().is_some_and(|block| block_bad(block))
}

// Says whether a move would get a cost past the first d.
fn gets_past_cost(d: usize, x: Change) -> bool
    requires { d ≤ row_costs }
    ensures { result ≡ spec.gets_past_cost d x }
{
    x.coming().is_some_and(|coming| !zero_past(d, coming.costs))
}

// `on` says whether the number is on the board. The detail is zero in every case.
pub fn judge(h: Head, x: Change, on: bool) -> Result<(), Reason>
    requires { h.dimension ≤ row_costs }
    ensures { spec.JudgesBy h x on result }
{
    if h.size <= (x.number() as usize) {
        return Err(Reason::NumberTooLarge);
    }
    if gets_bad_block(x) {
        return Err(Reason::BlockTooLarge);
    }
    if gets_past_cost(h.dimension, x) {
        return Err(Reason::BadArgument);
    }
    if x.is_new() != on {
        return Ok(());
    }
    Err(if on {
        Reason::NumberTwice
    } else {
        Reason::NumberAbsent
    })
}
