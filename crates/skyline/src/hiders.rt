// Whether each move that is not listed is hidden by a listed one before it. What hid one often
// hides the next, or one of the last eight hiders does: these are tried before the search is asked.
ghost use Rattle.std.specs.Prelude.{true, ◌≡◌, ◌<◌, length, Some, OnSome};
ghost use Rattle.memory.specs.Room.{InOrder};
ghost use Rattle.search.specs.Search as search;
ghost use Rattle.memory.specs.Tests as tests;

use memory::Board;
use search::{
    Among, CELLS, RUN, RUNS, bounds_at, corner_with, fits_at, fits_column, looks_at, next_within,
    put, seen_at,
};
use zorder::COSTS;

const HIDERS: usize = 8;

// Of the first eight columns those that are nowhere greater than q, a bit for each.
fn fitting_hiders(columns: &[u16; CELLS], q: [u16; COSTS]) -> u16 {
    let mut fitting: u16 = 0;
    for j in 0..HIDERS {
        fitting = fitting | (fits_column(columns, COSTS, j, q) << (j as u16));
    }
    fitting
}

// Where the first hider stands that is nowhere greater than q, or any of them. Nothing is promised:
// what it says is tried.
fn guess(columns: &[u16; CELLS], places: &[usize; HIDERS], q: [u16; COSTS]) -> usize {
    let first = (u16::trailing_zeros(fitting_hiders(columns, q)) % 8) as usize;
    places[first]
}

// Whether place k is before i, and its move listed and nowhere greater than q.
fn tried(b: &Board, k: usize, i: usize, q: [u16; COSTS]) -> bool
    requires { i < b.now.head.count }
    ensures { result ≡ true → search.ListedFound b.now.head b.now.bytes.now q i (Some k) }
{
    if k < i {
        return fits_at(b, k, Among::Listed, q);
    }
    false
}

// A place before i with a listed move that is nowhere greater than q, of the last hiders; none if
// those tried are none.
fn guessed(
    b: &Board,
    i: usize,
    last: usize,
    columns: &[u16; CELLS],
    places: &[usize; HIDERS],
    q: [u16; COSTS],
) -> Option<usize>
    requires { i < b.now.head.count }
    ensures { OnSome result (search.ListedFound b.now.head b.now.bytes.now q i result) }
{
    if tried(b, last, i, q) {
        return Some(last);
    }
    let other = guess(columns, places, q);
    if tried(b, other, i, q) {
        return Some(other);
    }
    None
}

// Gives a place before i with a listed move that is nowhere greater than q, `first` if that is one.
pub(crate) fn found_from(
    b: &Board,
    i: usize,
    first: usize,
    corners: &[[u16; COSTS]; RUNS],
    q: [u16; COSTS],
) -> Option<usize>
    requires place { i < b.now.head.count }
    requires listed_corners { search.ListedCorners b.now.head b.now.bytes.now i corners.now }
    ensures { search.ListedFound b.now.head b.now.bytes.now q i result }
{
    if tried(b, first, i, q) {
        return Some(first);
    }
    next_within(b, 0, i, Among::Listed, corners, q)
}

// The two arrays are working space: corners as of no place, and columns of any content.
pub(crate) fn hidden_right(
    b: &Board,
    corners: &mut [[u16; COSTS]; RUNS],
    columns: &mut [u16; CELLS],
) -> bool
    requires { InOrder b.now.head b.now.bytes.now × (length corners.old ≡ 64) }
    ensures { result ≡ tests.hidden_right b.now.head.size b.now.head.dimension b.now.head.count
        b.now.bytes.now }
{
    let n = b.head.count;
    let mut places = [0usize; HIDERS];
    let mut at = 0;
    let mut last = 0;
    let mut nearest = 0;
    for i in 0..n {
        if looks_at(b, i, Among::Listed) {
            let low = corners[i / RUN];
            corners[i / RUN] = corner_with(b, i, Among::Listed, low);
            nearest = i;
        } else {
            let q = bounds_at(b, i);
            if let Some(hider) = guessed(b, i, last, columns, &places, q) {
                last = hider;
            } else {
                let Some(hider) = found_from(b, i, nearest, corners, q) else {
                    return false;
                };
                last = hider;
                places[at] = last;
                put(columns, at, seen_at(b, last, Among::Listed));
                at = (at + 1) % HIDERS;
            }
        }
    }
    true
}
