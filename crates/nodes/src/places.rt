// Nodes and entries by places of the line.
ghost use Rattle.std.specs.Prelude.{◌≤◌, ◌<◌};
ghost use Rattle.memory.specs.Room.{Room};
ghost use Rattle.nodes.specs.Places.{NodeEnd, NodeStart, Entries, EntryAt, SideAt, SideAsked};
ghost use Rattle.nodes.specs.Places.{EntryAsked};

use memory::{costs_of, height_at, number_at};
use zorder::side_of;

// Finds where the node at level l that holds place p ends.
pub fn node_end(m: &[u8], c: usize, n: usize, l: u8, p: usize) -> usize
    requires { Room c m.now × (n ≤ c) × (p < n) }
    ensures { NodeEnd c n l p m.now result }
{
    for e in p + 1..n {
        if l <= height_at(m, c, e) {
            return e;
        }
    }
    n
}

// Finds where it starts.
pub fn node_start(m: &[u8], c: usize, l: u8, p: usize) -> usize
    requires { Room c m.now × (p < c) }
    ensures { NodeStart c l p m.now result }
{
    for s in (1..p + 1).rev() {
        if l <= height_at(m, c, s) {
            return s;
        }
    }
    0
}

// Counts how many entries of level l start from place s up to place e.
pub fn entries(m: &[u8], c: usize, l: u8, s: usize, e: usize) -> usize
    requires { Room c m.now × (s ≤ e) × (e ≤ c) }
    ensures { Entries c l s e m.now result }
{
    let mut k = 0;
    for i in s..e {
        if l <= height_at(m, c, i) {
            k += 1;
        }
    }
    k
}

// Finds where the entry j of level l, counted from place s on from 0, starts.
pub fn entry_at(m: &[u8], c: usize, n: usize, l: u8, s: usize, j: usize) -> usize
    requires { EntryAsked c n l s j m.now }
    ensures { EntryAt c n l s j m.now result }
{
    let mut q = s;
    for _ in 0..j {
        q = node_end(m, c, n, l, q);
    }
    q
}

// Gives the side of the region from place i to place j.
pub fn side_between(m: &[u8], c: usize, d: usize, i: usize, j: usize) -> u32
    requires { SideAsked c d i j m.now }
    ensures { SideAt c d i j m.now result }
{
    let first = costs_of(m, c, d, number_at(m, c, i));
    let last = costs_of(m, c, d, number_at(m, c, j));
    side_of(d, first, last)
}
