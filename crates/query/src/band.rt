// Band: the moves that at most so many others dominate. Who dominates a move stands before it, and
// a listed move none does.
ghost use Rattle.std.specs.Prelude.{◌≡◌, ◌<◌};
ghost use Rattle.memory.specs.Held.{SoundAt, move_held};
ghost use Rattle.search.specs.declared.search.Among.TheVariants.{All};
ghost use Rattle.upkeep.specs.Found.{FindsMoves};
ghost use Rattle.query.specs.Band.{band_of, few_before};

use dominance::{bounds_of, exceeds};
use memory::Board;
use numbers::empty;
use search::{Among, Index, next_within};
use upkeep::{Found, add_found};

// Whether at most `most` of the moves before place i dominate the one at i. What the search finds
// is nowhere greater, and dominates if it is somewhere less.
fn few_before(all: &Index, most: usize, i: usize) -> bool
    requires place { i < all.now.board.head.count }
    requires all { all.now.among ≡ All }
    ensures { result ≡ few_before all.now.board.head most all.now.board.bytes.now i }
{
    let b = &all.board;
    let costs = b.costs_at(i);
    let q = bounds_of(b.head.dimension, costs);
    let mut found: usize = 0;
    let mut next = next_within(b, 0, i, Among::All, &all.corners, q);
    while let Some(j) = next {
        if exceeds(b.head.dimension, costs, b.costs_at(j)) {
            if found == most {
                return false;
            }
            found += 1;
        }
        next = next_within(b, j + 1, i, Among::All, &all.corners, q);
    }
    true
}

// Whether at most `most` moves dominate the one at place i.
fn in_band(all: &Index, most: usize, i: usize) -> bool
    requires sound_at { SoundAt all.now.board.head all.now.board.bytes.now
        × (i < all.now.board.head.count) }
    requires all { all.now.among ≡ All }
    ensures { result ≡ band_of all.now.board.head most all.now.board.bytes.now (move_held
        all.now.board.head all.now.board.bytes.now i) }
{
    let b = &all.board;
    if b.is_listed(b.number_at(i)) {
        return true;
    }
    few_before(all, most, i)
}

// Finds the moves that at most `most` others dominate.
pub(crate) fn find_band(b: &Board, most: usize) -> Found
    requires { SoundAt b.now.head b.now.bytes.now }
    ensures { FindsMoves b.now.head (band_of b.now.head most b.now.bytes.now) b.now.bytes.now
        result }
{
    let n = b.head.count;
    let all = Index::new(b, Among::All);
    let mut numbers = empty();
    let mut count: usize = 0;
    for i in 0..n {
        let found = in_band(&all, most, i);
        count += add_found(b, i, found, &mut numbers);
    }
    Found { numbers, count }
}
