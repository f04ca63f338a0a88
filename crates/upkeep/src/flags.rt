// The flags after a change.
ghost use Rattle.std.specs.Prelude.{◌<◌};
ghost use Rattle.promises.specs.Layout.{number_in};
ghost use Rattle.memory.specs.Room.{Room, Readable};
ghost use Rattle.upkeep.specs.Flag as spec;

use crate::exchange::Upkeep;
use memory::{Head, is_listed, number_at, set_listed};
use numbers::{WORDS, has};

// The flag of the move at place i, after the change: the other one if it changes.
fn set_flag(m: &mut [u8], c: usize, i: usize, changed: &[u64; WORDS])
    requires { Room c m.old × (i < c) × (number_in c m.old i < c) }
    ensures { spec.SetFlag c i changed.now m.old m.new }
{
    let number = number_at(m, c, i);
    if has(changed, number) {
        let listed = is_listed(m, c, number);
        set_listed(m, c, number, !listed);
    }
}

// Sets the flags of the moves that stood before the change.
pub fn set_flags(m: &mut [u8], h: Head, u: Upkeep)
    requires readable { Readable h m.old }
    requires once { spec.Once h.size h.count m.old }
    ensures { spec.SetFlags h.size h.count u.changed m.old
        m.new }
{
    for i in 0..h.count {
        set_flag(m, h.size, i, &u.changed);
    }
}
