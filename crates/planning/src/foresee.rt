// What a plan is made of. The memory is only read.
ghost use Rattle.std.specs.Prelude.{cond, ◌≡◌};
ghost use Rattle.memory.specs.Room.{InOrder};
ghost use Rattle.upkeep.specs.Change.{ComingPlace};
ghost use Rattle.planning.specs.Change.{Counted};
ghost use Rattle.planning.specs.Plan as plan;

use memory::Board;
use numbers::empty;
use tree::place_for;
use upkeep::{Exchange, Upkeep};

// Nobody leaves or enters the list.
pub fn no_upkeep() -> Upkeep
    ensures { result.left ≡ 0 }
{
    Upkeep {
        changed: empty(),
        left: 0,
        entered: 0,
        opened: 0,
        listed: false,
    }
}

// Gives the rows that the notice of a change needs.
pub fn needed(u: Upkeep) -> usize
    requires { Counted u }
    ensures { result ≡ Rattle.planning.specs.Change.needed_rows u }
{
    if u.listed {
        return u.left + u.entered + 1;
    }
    u.left + u.entered
}

// Gives the nodes that a change reports as opened: a withdrawal those opened while looking for
// moves that come up, the others none.
pub fn reported(comes: bool, opened: usize) -> usize
    ensures { result ≡ cond comes 0 opened }
{
    if comes { 0 } else { opened }
}

// Says whether a move comes for one that goes, with its costs.
pub fn alike(b: &Board, k: Exchange) -> bool
    ensures { result ≡ plan.alike b.now.head.size b.now.head.dimension b.now.head.count k
        b.now.bytes.now }
{
    let Some(x) = k.coming else {
        return false;
    };
    k.goes < b.head.count && x.costs == b.costs_at(k.goes)
}

// Gives the place that a coming move gets among the moves before the change; past the last where
// none comes.
pub fn coming_place(b: &Board, k: Exchange) -> usize
    requires { InOrder b.now.head b.now.bytes.now }
    ensures { ComingPlace b.now.head k b.now.bytes.now result }
{
    let Some(x) = k.coming else {
        return b.head.count;
    };
    place_for(b.bytes, b.head, x)
}
