// Nodes of nine cut in two, from the leaf up.
ghost use Rattle.std.specs.Prelude.{◌<◌};
ghost use Rattle.tree.specs.Split as split;

use memory::{Head, height_at, set_height};
use nodes::{entries, entry_at, node_end, node_start, side_between};
use std::ops::Range;

// The sum of the two sides if a node is cut before place q.
fn cut_sides(m: &[u8], h: Head, node: &Range<usize>, q: usize) -> u32
    requires { split.CutAsked h.size h.dimension node.now.start q node.now.end m.now }
    ensures { split.CutSides h.size h.dimension node.now.start q node.now.end m.now result }
{
    side_between(m, h.size, h.dimension, node.start, q - 1)
        + side_between(m, h.size, h.dimension, q, node.end - 1)
}

// Where a node of nine at level l is cut: before its entry 3, 4, 5 or 6.
fn cut_place(m: &[u8], h: Head, l: u8, node: &Range<usize>) -> usize
    requires { split.NodeOfNine h.size h.dimension h.count l node.now.start node.now.end m.now }
    ensures { split.CutPlace h.size h.dimension h.count l node.now.start node.now.end m.now result }
{
    let mut q = entry_at(m, h.size, h.count, l - 1, node.start, 3);
    let mut best = q;
    let mut least = cut_sides(m, h, node, q);
    for _ in 3..6usize {
        q = node_end(m, h.size, h.count, l - 1, q);
        let sides = cut_sides(m, h, node, q);
        if sides < least {
            least = sides;
            best = q;
        }
    }
    best
}

// The cut made; a root gets a new root.
fn cut(m: &mut [u8], h: Head, l: u8, node: &Range<usize>)
    requires { split.NodeOfNine h.size h.dimension h.count l node.now.start node.now.end m.old }
    ensures { split.Cut h.size h.dimension h.count l node.now.start node.now.end m.old
        m.new }
{
    let q = cut_place(m, h, l, node);
    let top = height_at(m, h.size, 0);
    set_height(m, h.size, q, l);
    if top == l {
        set_height(m, h.size, 0, l + 1);
    }
}

// Splits from the leaf that holds place p up, while the node has nine entries.
pub fn cascade(m: &mut [u8], h: Head, p: usize)
    requires { split.CascadeAsked h.size h.dimension h.count p m.old }
    ensures { split.Cascaded h.size h.dimension h.count p m.old
        m.new }
{
    let top = height_at(m, h.size, 0);
    for l in 1..top + 2 {
        let s = node_start(m, h.size, l, p);
        let e = node_end(m, h.size, h.count, l, p);
        if entries(m, h.size, l - 1, s, e) <= 8 {
            return;
        }
        cut(m, h, l, &(s..e));
    }
}
