// One search for everything. Places go in runs of 64, and each run has a corner, the least of each
// cost over its moves: where the corner is somewhere greater than what is looked for, every move of
// the run is, and the run is passed by.
ghost use Rattle.std.specs.Prelude.{◌≡◌, ◌+◌, ◌-◌, ◌*◌, ◌/◌, ◌≤◌, ◌<◌, get_or};
ghost use Rattle.dominance.specs.Lanes.{Lanes};
ghost use Rattle.memory.specs.Room.{Room};
ghost use Rattle.search.specs.Search as spec;

use dominance::{bounds_of, exceeds, least};
use memory::{Board, block_of, is_listed};
use std::array;
use zorder::COSTS;

pub const RUN: usize = 64;

pub const RUNS: usize = 64;

// Which moves a search looks at. Hidden ones are seen from above, each cost as what it lacks of
// 65535: what is nowhere less than a move is found as what is nowhere greater. Of blocks, bit k of
// the number stands for block k.
#[derive(Clone, Copy)]
pub enum Among {
    All,
    Listed,
    Hidden,
    InBlocks(u64),
}

// Says whether the move of a number lies in one of these blocks.
pub fn in_blocks(m: &[u8], c: usize, number: u16, blocks: u64) -> bool
    requires { Room c m.now × (number < c) }
    ensures { result ≡ spec.in_blocks blocks c m.now number }
{
    (blocks >> (block_of(m, c, number) % 64)) & 1 == 1
}

// Says whether a search looks at the move of a number.
pub fn looks(m: &[u8], c: usize, number: u16, among: Among) -> bool
    requires { Room c m.now × (number < c) }
    ensures { result ≡ spec.looks among c m.now number }
{
    match among {
        Among::All => true,
        Among::Listed => is_listed(m, c, number),
        Among::Hidden => !is_listed(m, c, number),
        Among::InBlocks(blocks) => in_blocks(m, c, number, blocks),
    }
}

fn lack(cost: u16) -> u16
    ensures { result ≡ 65535 - cost }
{
    65535 - cost
}

fn from_above(costs: [u16; COSTS]) -> [u16; COSTS]
    ensures { Lanes (λ i. 65535 - get_or costs i 0) result }
{
    costs.map(lack)
}

// Gives costs as a search sees them.
pub fn seen(among: Among, costs: [u16; COSTS]) -> [u16; COSTS]
    ensures { result ≡ spec.seen among costs }
{
    match among {
        Among::Hidden => from_above(costs),
        Among::All | Among::Listed | Among::InBlocks(_) => costs,
    }
}

// Gives all words of the row, also those past d, which the bounds of what is looked for leave out.
pub fn seen_at(b: &Board, i: usize, among: Among) -> [u16; COSTS]
    requires { i < b.now.head.count }
    ensures { result ≡ spec.seen_at among b.now.head.size b.now.bytes.now i }
{
    seen(among, b.words_of(b.number_at(i)))
}

// Says whether a search looks at the move at place i.
pub fn looks_at(b: &Board, i: usize, among: Among) -> bool
    requires { i < b.now.head.count }
    ensures { result ≡ spec.looks_at among b.now.head.size b.now.bytes.now i }
{
    looks(b.bytes, b.head.size, b.number_at(i), among)
}

// Gives what a move before place i that hides the one there is nowhere greater than.
pub fn bounds_at(b: &Board, i: usize) -> [u16; COSTS]
    requires { i < b.now.head.count }
    ensures { result ≡ spec.bounds_at b.now.head.size b.now.head.dimension b.now.bytes.now i }
{
    bounds_of(b.head.dimension, seen_at(b, i, Among::Listed))
}

// Gives a corner with the move at place i, if the search looks at it.
pub fn corner_with(b: &Board, i: usize, among: Among, low: [u16; COSTS]) -> [u16; COSTS]
    requires { i < b.now.head.count }
    ensures { spec.CornerWith among b.now.head.size b.now.bytes.now i (i + 1) low result }
{
    if looks_at(b, i, among) {
        return least(low, seen_at(b, i, among));
    }
    low
}

// A corner with the moves from place i up to `to`: kept in registers until the run is through.
fn run_corner(b: &Board, i: usize, to: usize, among: Among, low: [u16; COSTS]) -> [u16; COSTS]
    requires { (i ≤ to) × (to ≤ b.now.head.count) }
    ensures { spec.CornerWith among b.now.head.size b.now.bytes.now i to low result }
{
    let mut corner = low;
    for j in i..to {
        let lower = corner_with(b, j, among, corner);
        corner = lower;
    }
    corner
}

// Finds where the run of place i ends, or `to` if that is before.
pub fn run_end(i: usize, to: usize) -> usize
    requires { (i < to) × (to ≤ 4096) }
    ensures { (i < result) × (result ≤ to) × (result ≤ 64 * (i / 64) + 64) }
{
    let end = RUN * (i / RUN) + RUN;
    end.min(to)
}

// Makes the corner of each run, 65535 in every cost where none of its moves is looked at.
pub fn corners_of(b: &Board, among: Among) -> [[u16; COSTS]; RUNS]
    ensures { spec.Corners among b.now.head.size b.now.bytes.now b.now.head.count result }
{
    Index::new(b, among).corners
}

// Says whether the search looks at the move at place i, and that is nowhere greater than q. Most
// moves are greater: the costs are asked first.
pub fn fits_at(b: &Board, i: usize, among: Among, q: [u16; COSTS]) -> bool
    requires { i < b.now.head.count }
    ensures { result ≡ spec.fits among b.now.head.size b.now.bytes.now q i }
{
    if exceeds(COSTS, seen_at(b, i, among), q) {
        return false;
    }
    looks_at(b, i, among)
}

// The first place from i up to `to` that fits.
fn within(b: &Board, i: usize, to: usize, among: Among, q: [u16; COSTS]) -> Option<usize>
    requires { (i ≤ to) × (to ≤ b.now.head.count) }
    ensures { spec.FirstFound (spec.fits among b.now.head.size b.now.bytes.now q) i to result }
{
    for j in i..to {
        if fits_at(b, j, among, q) {
            return Some(j);
        }
    }
    None
}

// Finds the same as `within`, run by run.
pub fn next_within(
    b: &Board,
    i: usize,
    to: usize,
    among: Among,
    corners: &[[u16; COSTS]; RUNS],
    q: [u16; COSTS],
) -> Option<usize>
    requires places { (i ≤ to) × (to ≤ b.now.head.count) }
    requires corners { spec.Corners among b.now.head.size b.now.bytes.now to corners.now }
    ensures { spec.FirstFound (spec.fits among b.now.head.size b.now.bytes.now q) i to result }
{
    let mut f = i;
    while f < to {
        let e = run_end(f, to);
        let low = corners[f / RUN];
        if !exceeds(COSTS, low, q) {
            if let Some(j) = within(b, f, e, among, q) {
                return Some(j);
            }
        }
        f = e;
    }
    None
}

// A board with the corners of its runs for one kind of search.
#[derive(Clone, Copy)]
pub struct Index<'a> {
    pub board: Board<'a>,
    pub among: Among,
    pub corners: [[u16; COSTS]; RUNS],
    ghost indexed: { spec.Corners among board.head.size board.bytes.now board.head.count corners },
}

impl<'a> Index<'a> {
    // Makes the corner of each run, 65535 in every cost where none of its moves is looked at. The
    // corners are made here: handed back by a function they would stand on the stack twice.
    pub fn new(b: &Board<'a>, among: Among) -> Self
        ensures board { result.board ≡ b.now }
        ensures among { result.among ≡ among }
    {
        let n = b.head.count;
        let mut corners = [[65535u16; COSTS]; RUNS];
        let mut i = 0;
        while i < n {
            let e = run_end(i, n);
            let low = corners[i / RUN];
            corners[i / RUN] = run_corner(b, i, e, among, low);
            i = e;
        }
        Index {
            board: *b,
            among,
            corners,
        }
    }

    // Finds the first place from i up to `to` that fits.
    pub fn next_within(&self, i: usize, to: usize, q: [u16; COSTS]) -> Option<usize>
        requires { (i ≤ to) × (to ≤ self.now.board.head.count) }
        ensures { spec.FirstFound (spec.fits self.now.among self.now.board.head.size
            self.now.board.bytes.now q) i to result }
    {
        next_within(&self.board, i, to, self.among, &self.corners, q)
    }
}
