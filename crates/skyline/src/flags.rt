// Whether the kept list is the list of the moves: each move is held against the listed moves that
// stand before it only.
ghost use Rattle.std.specs.Prelude.{◌≡◌, ◌<◌, is_some, IfSome};
ghost use Rattle.memory.specs.Room.{InOrder};
ghost use Rattle.search.specs.Search as search;
ghost use Rattle.memory.specs.Tests as tests;

use crate::chunks::listed_right;
use crate::hiders::{found_from, hidden_right};
use memory::Board;
use search::{CELLS, RUNS, bounds_at};
use zorder::COSTS;

// Gives a place before i with a listed move that hides the one at i, `last` if that does. An
// earlier move that is nowhere greater hides: of equal costs the lower number stands first.
pub fn hider_before(
    b: &Board,
    i: usize,
    last: usize,
    corners: &[[u16; COSTS]; RUNS],
) -> Option<usize>
    requires place { InOrder b.now.head b.now.bytes.now × (i < b.now.head.count) }
    requires listed_corners { search.ListedCorners b.now.head b.now.bytes.now i corners.now }
    ensures hidden { tests.hidden_at b.now.head.size b.now.head.dimension b.now.bytes.now i
        ≡ is_some result }
    ensures place { IfSome result (λ j. j < i) }
{
    found_from(b, i, last, corners, bounds_at(b, i))
}

// Every move that is not listed is hidden, and no listed one.
pub fn flags_right(b: &Board) -> bool
    requires { InOrder b.now.head b.now.bytes.now }
    ensures { result ≡ tests.flags_right b.now.head.size b.now.head.dimension b.now.head.count
        b.now.bytes.now }
{
    // Working space that the halves share, one after the other: 1 KB each would be twice that.
    let mut rows = [[65535u16; COSTS]; RUNS];
    let mut columns = [65535u16; CELLS];
    if !hidden_right(b, &mut rows, &mut columns) {
        return false;
    }
    rows = [[0u16; COSTS]; RUNS];
    listed_right(b, &mut rows, &mut columns)
}
