// The search through the nodes, a parent before its children: a node that is not opened is passed
// by with all below it. Opened are the nodes whose near corner no listed move dominates. Where a
// move goes, at place `goes`, it is not among these moves, and a node is opened only if the going
// move is nowhere greater than its far corner. For a list none goes: the place is past the last.
ghost use Rattle.std.specs.Prelude.{not, ◌≡◌, ◌≤◌, ◌<◌};
ghost use Rattle.zorder.specs.Between.{far_of};
ghost use Rattle.search.specs.declared.search.Among.TheVariants.{Listed};
ghost use Rattle.nodes.specs.Search as search;

use crate::places::node_end;
use dominance::{bounds_of, exceeds};
use memory::Board;
use search::{Among, Index};
use zorder::{COSTS, far_of, near_of};

// Whether a listed move at a place before i, but for the going one, dominates a corner. What fits
// is nowhere greater; where it is nowhere less either, the search goes on.
fn corner_dominated(listed: &Index, goes: usize, i: usize, near: [u16; COSTS]) -> bool
    requires listed { listed.now.among ≡ Listed }
    requires place { i ≤ listed.now.board.head.count }
    ensures { result ≡ search.corner_dominated listed.now.board.head.size
        listed.now.board.head.dimension goes i listed.now.board.bytes.now near }
{
    let b = &listed.board;
    let q = bounds_of(b.head.dimension, near);
    let mut found = listed.next_within(0, i, q);
    while let Some(j) = found {
        let costs = b.costs_of(b.number_at(j));
        if (j != goes) & exceeds(b.head.dimension, near, costs) {
            return true;
        }
        found = listed.next_within(j + 1, i, q);
    }
    false
}

// Whether the going move, if one goes, is somewhere greater than the far corner of the node with
// this first and this last move.
fn exceeds_far(b: &Board, goes: usize, first: [u16; COSTS], last: [u16; COSTS]) -> bool
    ensures { result ≡ not (search.goes_within b.now.head.size b.now.head.dimension goes
        b.now.head.count b.now.bytes.now (far_of b.now.head.dimension first last)) }
{
    if b.head.count <= goes {
        return false;
    }
    let going = b.costs_of(b.number_at(goes));
    exceeds(
        b.head.dimension,
        going,
        far_of(b.head.dimension, first, last),
    )
}

// Whether the node from place i up to place e is opened. What dominates the near corner dominates
// the node's first move too, and so stands before it: only places before the node are asked.
fn opens(listed: &Index, goes: usize, i: usize, e: usize) -> bool
    requires listed { listed.now.among ≡ Listed }
    requires node { (i < e) × (e ≤ listed.now.board.head.count) }
    ensures { result ≡ search.opens_places listed.now.board.head.size
        listed.now.board.head.dimension goes listed.now.board.head.count
        listed.now.board.bytes.now i e }
{
    let b = &listed.board;
    let first = b.costs_of(b.number_at(i));
    let last = b.costs_of(b.number_at(e - 1));
    if exceeds_far(b, goes, first, last) {
        return false;
    }
    !corner_dominated(listed, goes, i, near_of(b.head.dimension, first, last))
}

// The height of the row at place i, or 0 at the end.
fn level_at(b: &Board, i: usize) -> u8
    ensures { search.LevelAt b.now.head.size b.now.head.count b.now.bytes.now i result }
{
    if i < b.head.count { b.height_at(i) } else { 0 }
}

// An opened leaf, by the places from its first up to its end, and how many nodes were opened on the
// way to it, itself among them. Past the last place there is none.
#[derive(Clone, Copy)]
pub struct Leaf {
    pub start: usize,
    pub end: usize,
    pub opened: usize,
}

// Gives the next leaf that is opened, from place `from` on, where a node starts.
pub fn next_leaf(listed: &Index, goes: usize, from: usize) -> Leaf
    requires sound_at { search.SoundAt listed.now.board.head listed.now.board.bytes.now }
    requires listed { listed.now.among ≡ Listed }
    requires nodes_from { search.NodesFrom listed.now.board.head.size
        listed.now.board.head.count listed.now.board.bytes.now from }
    ensures { search.LeafFrom listed.now.board.head goes listed.now.board.bytes.now from result }
{
    let b = &listed.board;
    let n = b.head.count;
    let mut opened = 0;
    let mut i = from;
    let mut l = level_at(b, from);
    while i < n {
        let e = node_end(b.bytes, b.head.size, n, l, i);
        if !opens(listed, goes, i, e) {
            i = e;
            l = level_at(b, e);
        } else if l == 1 {
            return Leaf {
                start: i,
                end: e,
                opened: opened + 1,
            };
        } else {
            opened += 1;
            l -= 1;
        }
    }
    Leaf {
        start: n,
        end: n,
        opened,
    }
}

// Counts how many nodes a list opens.
pub fn nodes_opened(b: &Board) -> usize
    requires { search.SoundAt b.now.head b.now.bytes.now }
    ensures { search.Opened b.now.head.dimension b.now.bytes.now result }
{
    let n = b.head.count;
    let listed = Index::new(b, Among::Listed);
    let mut opened = 0;
    let mut i = 0;
    while i < n {
        let leaf = next_leaf(&listed, n, i);
        opened += leaf.opened;
        i = leaf.end;
    }
    opened
}
