// An exchange of moves, what it does to the list, and what hides a move after it. The move at one
// place goes, or none; a move comes, or none.
ghost use Rattle.std.specs.Prelude.{◌≡◌, ◌≤◌};
ghost use Rattle.dominance.specs.Move.{as_move};
ghost use Rattle.search.specs.declared.search.Among.TheVariants.{All};
ghost use Rattle.upkeep.specs.Change as spec;
ghost use Rattle.zorder.specs.Address.{row_costs};

use dominance::{Move, bounds_of, hides};
use numbers::WORDS;
use search::Index;

// `goes` is a place, or the number of moves where none goes.
#[derive(Clone, Copy)]
pub struct Exchange {
    pub goes: usize,
    pub coming: Option<Move>,
}

// The numbers of the moves whose flag changes, the coming one apart; how many leave the list and
// enter it; the nodes opened while looking for those that enter; whether the coming one is listed.
// The flags before the change say who leaves and who enters: a second set would be copied with
// each plan.
#[derive(Clone, Copy)]
pub struct Upkeep {
    pub changed: [u64; WORDS],
    pub left: usize,
    pub entered: usize,
    pub opened: usize,
    pub listed: bool,
}

// Says whether a move other than that at place `goes` hides x, whose place is i: only earlier moves
// can, and they do where they are nowhere greater.
pub fn hidden_by_others(all: &Index, goes: usize, i: usize, x: Move) -> bool
    requires all { all.now.among ≡ All }
    requires parted { spec.Parted all.now.board.head.size all.now.board.head.dimension
        all.now.board.head.count i (as_move x) all.now.board.bytes.now }
    ensures { result ≡ spec.hidden_by_others all.now.board.head.size all.now.board.head.dimension
        all.now.board.head.count goes (as_move x)
        all.now.board.bytes.now }
{
    let b = &all.board;
    let costs = x.costs;
    let q = bounds_of(b.head.dimension, costs);
    let Some(j) = all.next_within(0, i, q) else {
        return false;
    };
    if j != goes {
        return true;
    }
    all.next_within(j + 1, i, q).is_some()
}

// Says whether the coming move hides x.
pub fn hidden_by_coming(d: usize, k: Exchange, x: Move) -> bool
    requires { d ≤ row_costs }
    ensures { result ≡ spec.hidden_by_coming d k (as_move x) }
{
    k.coming.is_some_and(|coming| hides(d, coming, x))
}
