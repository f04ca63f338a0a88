// Whether the heights are those of a tree: the first is the highest, and at each level every node
// has entries in number.
ghost use Rattle.std.specs.Prelude.{◌≡◌, ◌≤◌, ◌<◌, cond, leb};
ghost use Rattle.line.specs.Heights as definition;
ghost use Rattle.memory.specs.Room.{Room};
ghost use Rattle.promises.specs.Layout.{heights_from};

use memory::height_at;

fn first_highest(m: &[u8], c: usize, n: usize) -> bool
    requires { Room c m.now × (n ≤ c) }
    ensures { result ≡ definition.first_highest (heights_from c n m.now) }
{
    if n == 0 {
        return true;
    }
    let top = height_at(m, c, 0);
    if top == 0 {
        return false;
    }
    for i in 1..n {
        if top <= height_at(m, c, i) {
            return false;
        }
    }
    true
}

// Whether every node at level l, which is at least 1, has lo to 8 entries.
fn counts_right(m: &[u8], c: usize, n: usize, l: u8, lo: usize) -> bool
    requires { Room c m.now × (n ≤ c) × (0 < n) × (0 < l) }
    ensures { result ≡ definition.counts_at l lo (heights_from c n m.now) }
{
    let mut entries: usize = 1;
    for i in 1..n {
        let h = height_at(m, c, i);
        if l <= h {
            if entries < lo || 8 < entries {
                return false;
            }
            entries = 1;
        } else if l <= h + 1 {
            entries += 1;
        }
    }
    lo <= entries && entries <= 8
}

// The least number of entries of a node at level l of a tree of `top` levels.
fn least_entries(top: u8, l: u8) -> usize
    requires { 0 < l }
    ensures { result ≡ cond (leb top l) (definition.root_count l) 3 }
{
    if l < top {
        3
    } else if l < 2 {
        1
    } else {
        2
    }
}

// Says whether the heights of n places are those of a tree.
pub(crate) fn heights_right(m: &[u8], c: usize, n: usize) -> bool
    requires { Room c m.now × (n ≤ c) }
    ensures { result ≡ definition.heights_right (heights_from c n m.now) }
{
    if n == 0 {
        return true;
    }
    if !first_highest(m, c, n) {
        return false;
    }
    let top = height_at(m, c, 0);
    for l in (1..=top).rev() {
        if !counts_right(m, c, n, l, least_entries(top, l)) {
            return false;
        }
    }
    true
}
