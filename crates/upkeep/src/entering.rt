// Who enters the list by a change, looked for through the nodes.
ghost use Rattle.std.specs.Prelude.{◌≡◌, ◌≤◌, ◌<◌};
ghost use Rattle.promises.specs.Layout.{move_in};
ghost use Rattle.memory.specs.Held.{SoundAt};
ghost use Rattle.search.specs.declared.search.Among.TheVariants.{All};
ghost use Rattle.upkeep.specs.Change as spec;

use crate::exchange::{Exchange, hidden_by_coming, hidden_by_others};
use dominance::hides;
use memory::Board;
use nodes::next_leaf;
use numbers::{WORDS, add};
use search::{Among, Index};

// How many moves enter the list, and the nodes opened while looking for them.
#[derive(Clone, Copy)]
pub struct Entered {
    pub count: usize,
    pub opened: usize,
}

// Whether the move at place i, which is not listed, comes up: that can be only where the going one,
// which is listed, hides it.
fn comes_up(all: &Index, k: Exchange, i: usize) -> bool
    requires goes_listed { spec.GoesListed all.now.board.head k all.now.board.bytes.now }
    requires all { all.now.among ≡ All }
    requires place { i < all.now.board.head.count }
    ensures { result ≡ spec.comes_up all.now.board.head.size all.now.board.head.dimension
        all.now.board.head.count k
        (move_in all.now.board.head.size all.now.board.head.dimension all.now.board.bytes.now i)
        all.now.board.bytes.now }
{
    let b = &all.board;
    let goes = k.goes;
    let x = b.move_at(i);
    let going = b.move_at(goes);
    if !hides(b.head.dimension, going, x) {
        return false;
    }
    if hidden_by_coming(b.head.dimension, k, x) {
        return false;
    }
    !hidden_by_others(all, goes, i, x)
}

// Whether the move at place i enters the list, where a listed one goes.
fn enters(all: &Index, k: Exchange, i: usize) -> bool
    requires goes_listed { spec.GoesListed all.now.board.head k all.now.board.bytes.now }
    requires all { all.now.among ≡ All }
    requires place { i < all.now.board.head.count }
    ensures { result ≡ spec.enters_at all.now.board.head.size all.now.board.head.dimension
        all.now.board.head.count k all.now.board.bytes.now i }
{
    let b = &all.board;
    if b.is_listed(b.number_at(i)) {
        return false;
    }
    if i == k.goes {
        return false;
    }
    comes_up(all, k, i)
}

// Whether a move goes and is listed.
fn goes_listed(b: &Board, goes: usize) -> bool
    ensures { result ≡ spec.goes_listed b.now.head.size b.now.head.count goes b.now.bytes.now }
{
    if b.head.count <= goes {
        return false;
    }
    b.is_listed(b.number_at(goes))
}

// The moves of a leaf that enter the list.
fn find_in_leaf(
    all: &Index,
    k: Exchange,
    start: usize,
    end: usize,
    changed: &mut [u64; WORDS],
) -> usize
    requires goes_listed { spec.GoesListed all.now.board.head k all.now.board.bytes.now }
    requires all { all.now.among ≡ All }
    requires place { (start ≤ end) × (end ≤ all.now.board.head.count) }
    ensures { spec.Passing all.now.board.head.size all.now.board.bytes.now (spec.enters_at
        all.now.board.head.size all.now.board.head.dimension
        all.now.board.head.count k all.now.board.bytes.now) changed.old start end changed.new
        result }
{
    let b = &all.board;
    let mut entered: usize = 0;
    for i in start..end {
        if enters(all, k, i) {
            add(changed, b.number_at(i));
            entered += 1;
        }
    }
    entered
}

// The moves that enter the list, where a listed one goes: they are looked for in the leaves that
// are opened, and nowhere else.
fn find_in_leaves(all: &Index, k: Exchange, changed: &mut [u64; WORDS]) -> Entered
    requires goes_listed { spec.GoesListed all.now.board.head k all.now.board.bytes.now }
    requires all { all.now.among ≡ All }
    ensures { spec.Entering all.now.board.head.size all.now.board.head.dimension
        all.now.board.head.count k all.now.board.bytes.now
        changed.old changed.new result }
{
    let b = &all.board;
    let n = b.head.count;
    let listed = Index::new(b, Among::Listed);
    let mut count: usize = 0;
    let mut opened: usize = 0;
    let mut i = 0;
    while i < n {
        let leaf = next_leaf(&listed, k.goes, i);
        count += find_in_leaf(all, k, leaf.start, leaf.end, changed);
        opened += leaf.opened;
        i = leaf.end;
    }
    Entered { count, opened }
}

// Gives the moves that enter the list: none does unless a listed one goes.
pub fn find_entering(all: &Index, k: Exchange, changed: &mut [u64; WORDS]) -> Entered
    requires sound_at { SoundAt all.now.board.head all.now.board.bytes.now }
    requires all { all.now.among ≡ All }
    ensures { spec.Entering all.now.board.head.size all.now.board.head.dimension
        all.now.board.head.count k all.now.board.bytes.now
        changed.old changed.new result }
{
    let b = &all.board;
    if goes_listed(b, k.goes) {
        return find_in_leaves(all, k, changed);
    }
    Entered {
        count: 0,
        opened: 0,
    }
}
