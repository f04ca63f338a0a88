// The heights of a loaded tree: one pass a level, until one node is left.
ghost use Rattle.std.specs.Prelude.{◌≡◌, ◌+◌, ◌≤◌, ◌<◌};
ghost use Rattle.line.specs.Load as definition;
ghost use Rattle.memory.specs.Room.{Room};
ghost use Rattle.tree.specs.Rows.{Raised, RaisedAll};

use memory::{height_at, set_height};

// Whether entry j of n starts a group.
fn starts_group(n: usize, j: usize) -> bool
    requires { j + 3 < 65536 }
    ensures { result ≡ definition.starts_group n j }
{
    if j == 0 {
        return true;
    }
    if j % 8 == 0 && j + 3 <= n {
        return true;
    }
    j + 3 == n && 8 < n && (n % 8 == 1 || n % 8 == 2)
}

// Of the rows with height l or more, `entries` in all, those that start a group get height l + 1.
fn raise_level(m: &mut [u8], c: usize, n: usize, l: u8, entries: usize)
    requires { Room c m.old × (n ≤ c) × (l < 255) }
    ensures { Raised c n l entries m.old m.new }
{
    let mut j = 0;
    for i in 0..n {
        if l <= height_at(m, c, i) {
            if starts_group(entries, j) {
                set_height(m, c, i, l + 1);
            }
            j += 1;
        }
    }
}

// Makes all levels, from rows of height 0.
pub fn raise_levels(m: &mut [u8], c: usize, n: usize)
    requires { Room c m.old × (n ≤ c) × (0 < n) }
    ensures { RaisedAll c n m.old m.new }
{
    let mut entries = n;
    let mut l: u8 = 0;
    while 8 < entries {
        raise_level(m, c, n, l, entries);
        entries = (entries + 7) / 8;
        l += 1;
    }
    raise_level(m, c, n, l, entries);
}
