// The flags of a loaded board, from the first move on: a move is listed unless a listed one before
// it hides it.
ghost use Rattle.memory.specs.Room.{Readable, InOrder};
ghost use Rattle.upkeep.specs.Flag.{Once, Flagged};

use memory::{Board, Head, set_listed};
use search::{Among, RUN, RUNS, corner_with};
use skyline::hider_before;
use zorder::COSTS;

// Flags the moves in Z-order, so that what can hide one is flagged before it.
pub fn flag_all(m: &mut [u8], h: Head)
    requires readable { Readable h m.old × InOrder h m.old }
    requires once { Once h.size h.count m.old }
    ensures { Flagged h.size h.dimension h.count m.old m.new }
{
    let n = h.count;
    let mut corners = [[65535u16; COSTS]; RUNS];
    let mut last = 0;
    for i in 0..n {
        let b = Board { bytes: m, head: h };
        let hider = hider_before(&b, i, last, &corners);
        let number = b.number_at(i);
        set_listed(m, h.size, number, hider.is_none());
        let b = Board { bytes: m, head: h };
        let low = corners[i / RUN];
        corners[i / RUN] = corner_with(&b, i, Among::Listed, low);
        last = hider.unwrap_or(last);
    }
}
