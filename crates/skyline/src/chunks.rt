// Whether no listed move is hidden: the listed moves are held against each other in chunks of 64,
// as columns.
ghost use Rattle.std.specs.Prelude.{◌≡◌, ◌≤◌, ◌<◌, length};
ghost use Rattle.memory.specs.Room.{InOrder};
ghost use Rattle.skyline.specs.Chunks as spec;
ghost use Rattle.memory.specs.Tests as tests;

use crate::highs::put_highs;
use dominance::{exceeds, least};
use memory::Board;
use search::{
    Among, CELLS, COLUMNS, RUN, RUNS, bounds_at, fill, looks_at, put, run_end, seen_at, some_fits,
};
use zorder::COSTS;

// The listed moves from one place up to another, and the least of each of their costs.
#[derive(Clone, Copy)]
pub struct Chunk {
    pub from: usize,
    pub to: usize,
    pub low: [u16; COSTS],
}

// The next 64 listed moves from place `from` on, or as many as there are, each held against those
// before it in the chunk; none if one of those hides it. The first becomes every column, so that
// whichever of them fits is a move of the chunk.
fn next_chunk(b: &Board, from: usize, columns: &mut [u16; CELLS]) -> Option<Chunk>
    requires { from < b.now.head.count }
    ensures { spec.NextChunk b.now.head b.now.bytes.now from columns.new result }
{
    let n = b.head.count;
    let mut low = [65535u16; COSTS];
    let mut count = 0;
    let mut i = from;
    while (i < n) & (count < COLUMNS) {
        if looks_at(b, i, Among::Listed) {
            let q = bounds_at(b, i);
            if (0 < count) & !exceeds(COSTS, low, q) {
                if some_fits(columns, b.head.dimension, q) {
                    return None;
                }
            }
            let costs = seen_at(b, i, Among::Listed);
            if count == 0 {
                fill(columns, costs);
            }
            put(columns, count, costs);
            let lower = least(low, costs);
            low = lower;
            count += 1;
        }
        i += 1;
    }
    Some(Chunk { from, to: i, low })
}

// Whether no move of the chunk hides a listed one of the later places from i up to `to`.
fn run_unhidden(b: &Board, i: usize, to: usize, chunk: Chunk, columns: &[u16; CELLS]) -> bool
    requires place { (chunk.to ≤ i) × (i ≤ to) × (to ≤ b.now.head.count) }
    requires gathered_chunk { spec.GatheredChunk b.now.head b.now.bytes.now columns.now chunk
        × spec.SomeListed b.now.head
        b.now.bytes.now chunk }
    ensures { spec.UnhiddenSaid b.now.head b.now.bytes.now chunk.from chunk.to i to result }
{
    let low = chunk.low;
    for j in i..to {
        if looks_at(b, j, Among::Listed) {
            let q = bounds_at(b, j);
            if !exceeds(COSTS, low, q) {
                if some_fits(columns, b.head.dimension, q) {
                    return false;
                }
            }
        }
    }
    true
}

// The same for all places after the chunk. A run is passed by where the chunk's least costs exceed
// what its moves are held to.
fn later_unhidden(
    b: &Board,
    chunk: Chunk,
    columns: &[u16; CELLS],
    highs: &[[u16; COSTS]; RUNS],
) -> bool
    requires place { chunk.to ≤ b.now.head.count }
    requires gathered_chunk { spec.GatheredChunk b.now.head b.now.bytes.now columns.now chunk
        × (chunk.to < b.now.head.count
        → spec.SomeListed b.now.head b.now.bytes.now chunk) }
    requires highs { spec.Highs b.now.head.size b.now.head.dimension b.now.bytes.now
        b.now.head.count highs.now }
    ensures { spec.UnhiddenSaid b.now.head b.now.bytes.now chunk.from chunk.to chunk.to
        b.now.head.count result }
{
    let n = b.head.count;
    let low = chunk.low;
    let mut f = chunk.to;
    while f < n {
        let e = run_end(f, n);
        let high = highs[f / RUN];
        if !exceeds(COSTS, low, high) {
            if !run_unhidden(b, f, e, chunk, columns) {
                return false;
            }
        }
        f = e;
    }
    true
}

// The two arrays are working space: rows of nothing, and columns of any content.
pub(crate) fn listed_right(
    b: &Board,
    highs: &mut [[u16; COSTS]; RUNS],
    columns: &mut [u16; CELLS],
) -> bool
    requires { InOrder b.now.head b.now.bytes.now × (length highs.old ≡ 64) }
    ensures { result ≡ tests.listed_right b.now.head.size b.now.head.dimension b.now.head.count
        b.now.bytes.now }
{
    let n = b.head.count;
    let mut from = 0;
    while from < n {
        let Some(chunk) = next_chunk(b, from, columns) else {
            return false;
        };
        if chunk.to < n {
            // Where one chunk has all listed moves, no run is asked for its greatest bounds.
            if from == 0 {
                put_highs(b, highs);
            }
            if !later_unhidden(b, chunk, columns, highs) {
                return false;
            }
        }
        from = chunk.to;
    }
    true
}
