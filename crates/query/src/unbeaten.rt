// On k and chosen costs: the moves that none beats. What some move beats, a listed one does, so
// each move is held against the listed ones only.
ghost use Rattle.std.specs.Prelude.{◌≡◌, ◌≤◌, ◌<◌, ◌%◌, ◌^◌};
ghost use Rattle.zorder.specs.Address.{row_costs};
ghost use Rattle.dominance.specs.Lanes.{Lanes, bound, is_chosen};
ghost use Rattle.memory.specs.Held.{SoundAt};
ghost use Rattle.search.specs.declared.search.Among.TheVariants.{Listed};
ghost use Rattle.memory.specs.Tests.{is_listed};
ghost use Rattle.search.specs.Search.{FirstFound};
ghost use Rattle.upkeep.specs.Found.{FindsMoves};
ghost use Rattle.query.specs.Rule.{Fair};
ghost use Rattle.query.specs.Unbeaten as spec;

use crate::rule::{Rule, beats};
use dominance::bounds_in;
use memory::Board;
use numbers::empty;
use search::{Among, Index, next_within};
use upkeep::{Found, add_found};
use zorder::COSTS;

// The next listed place from i on.
fn next_listed(b: &Board, i: usize) -> Option<usize>
    requires { i ≤ b.now.head.count }
    ensures { FirstFound (is_listed b.now.head.size b.now.bytes.now) i b.now.head.count result }
{
    for j in i..b.head.count {
        if b.is_listed(b.number_at(j)) {
            return Some(j);
        }
    }
    None
}

// Bounds on those of the first d costs that are in the set.
fn chosen_bounds(d: usize, set: usize, q: [u16; COSTS]) -> [u16; COSTS]
    requires { d ≤ row_costs }
    ensures { Lanes (bound (is_chosen (set % 2 ^ d)) q) result }
{
    bounds_in(set % (1usize << d), q)
}

// The next place from j on with a listed move that may beat these costs: on chosen costs one that
// is nowhere greater there.
fn candidate(listed: &Index, rule: Rule, j: usize, costs: [u16; COSTS]) -> Option<usize>
    requires place { j ≤ listed.now.board.head.count }
    requires listed { listed.now.among ≡ Listed }
    ensures { spec.NextFound listed.now.board.head rule listed.now.board.bytes.now costs j result }
{
    let b = &listed.board;
    match rule {
        Rule::OnK(_) => next_listed(b, j),
        Rule::Chosen(set) => {
            let q = chosen_bounds(b.head.dimension, set, costs);
            next_within(b, j, b.head.count, Among::Listed, &listed.corners, q)
        }
    }
}

// A place with a listed move that beats these costs; if there is none, no move does.
fn listed_beater(listed: &Index, rule: Rule, costs: [u16; COSTS]) -> Option<usize>
    requires sound_at { SoundAt listed.now.board.head listed.now.board.bytes.now × Fair rule }
    requires listed { listed.now.among ≡ Listed }
    ensures { spec.BeaterFound listed.now.board.head rule listed.now.board.bytes.now costs result }
{
    let b = &listed.board;
    let mut found = candidate(listed, rule, 0, costs);
    while let Some(j) = found {
        if beats(b.head.dimension, rule, b.costs_at(j), costs) {
            return Some(j);
        }
        found = candidate(listed, rule, j + 1, costs);
    }
    None
}

// A place with a move that beats these costs, `last` if that does.
fn beater(listed: &Index, rule: Rule, last: usize, costs: [u16; COSTS]) -> Option<usize>
    requires sound_at { SoundAt listed.now.board.head listed.now.board.bytes.now × Fair rule }
    requires listed { listed.now.among ≡ Listed }
    ensures { spec.BeaterFound listed.now.board.head rule listed.now.board.bytes.now costs result }
{
    let b = &listed.board;
    if last < b.head.count {
        if beats(b.head.dimension, rule, b.costs_at(last), costs) {
            return Some(last);
        }
    }
    listed_beater(listed, rule, costs)
}

// Finds the moves that none beats. What beat one move often beats the next.
pub(crate) fn find_unbeaten(b: &Board, rule: Rule) -> Found
    requires { SoundAt b.now.head b.now.bytes.now × Fair rule }
    ensures { FindsMoves b.now.head (spec.unbeaten_of b.now.head rule b.now.bytes.now)
        b.now.bytes.now result }
{
    let n = b.head.count;
    let listed = Index::new(b, Among::Listed);
    let mut numbers = empty();
    let mut count: usize = 0;
    let mut last = 0;
    for i in 0..n {
        let found = beater(&listed, rule, last, b.costs_at(i));
        count += add_found(b, i, found.is_none(), &mut numbers);
        last = found.unwrap_or(last);
    }
    Found { numbers, count }
}
