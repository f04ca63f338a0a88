// What a change does to the kept list, found without writing.
ghost use Rattle.std.specs.Prelude.{◌≡◌, ◌<◌};
ghost use Rattle.search.specs.declared.search.Among.TheVariants.{All};
ghost use Rattle.upkeep.specs.Change as spec;

use crate::entering::find_entering;
use crate::exchange::{Exchange, Upkeep, hidden_by_coming, hidden_by_others};
use memory::Board;
use numbers::{WORDS, add, empty};
use search::{Among, Index};

// Whether the move at place i leaves the list.
fn leaves(b: &Board, k: Exchange, i: usize) -> bool
    requires { i < b.now.head.count }
    ensures { result ≡ spec.leaves_at b.now.head.size b.now.head.dimension k b.now.bytes.now i }
{
    if !b.is_listed(b.number_at(i)) {
        return false;
    }
    if i == k.goes {
        return true;
    }
    hidden_by_coming(b.head.dimension, k, b.move_at(i))
}

// The moves that leave the list.
fn find_leaving(b: &Board, k: Exchange, changed: &mut [u64; WORDS]) -> usize
    ensures { spec.Passing b.now.head.size b.now.bytes.now (spec.leaves_at b.now.head.size
        b.now.head.dimension k b.now.bytes.now) changed.old 0 b.now.head.count
        changed.new result }
{
    let n = b.head.count;
    let mut left: usize = 0;
    for i in 0..n {
        if leaves(b, k, i) {
            add(changed, b.number_at(i));
            left += 1;
        }
    }
    left
}

// Whether a move comes and is listed afterwards; its place is that among the moves before the
// change.
fn coming_listed(all: &Index, k: Exchange, place: usize) -> bool
    requires change_asked { spec.ChangeAsked all.now.board.head k all.now.board.bytes.now }
    requires all { all.now.among ≡ All }
    requires coming_place { spec.ComingPlace all.now.board.head k all.now.board.bytes.now place }
    ensures { result ≡ spec.coming_listed all.now.board.head.size all.now.board.head.dimension
        all.now.board.head.count k
        all.now.board.bytes.now }
{
    let Some(x) = k.coming else {
        return false;
    };
    !hidden_by_others(all, k.goes, place, x)
}

// Finds who leaves the list and who enters it; a coming move gets `place`.
pub fn upkeep_of(b: &Board, k: Exchange, place: usize) -> Upkeep
    requires change_asked { spec.ChangeAsked b.now.head k b.now.bytes.now }
    requires coming_place { spec.ComingPlace b.now.head k b.now.bytes.now place }
    ensures { spec.Upkept b.now.head k b.now.bytes.now result }
{
    let all = Index::new(b, Among::All);
    let listed = coming_listed(&all, k, place);
    let mut changed = empty();
    let left = find_leaving(b, k, &mut changed);
    let entered = find_entering(&all, k, &mut changed);
    Upkeep {
        changed,
        left,
        entered: entered.count,
        opened: entered.opened,
        listed,
    }
}
