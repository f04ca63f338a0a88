// Each field written.
ghost use Rattle.std.specs.Prelude.{◌≡◌, ◌≤◌, ◌<◌, length};
ghost use Rattle.memory.specs.Room.{Room};
ghost use Rattle.memory.specs.Stores as stores;

use crate::bytes::set_word;
use crate::fields::FORMAT;
use crate::places::{
    COUNT_PLACE, DIMENSION_PLACE, FORMAT_PLACE, SIZE_PLACE, block_place, costs_place, flag_place,
    height_place, number_place, work_place,
};
use zorder::COSTS;

// Writes C, d, the format and the number of moves.
pub fn set_head(m: &mut [u8], c: usize, d: usize, n: usize)
    requires { (16 ≤ length m.old) × (c < 65536) × (d < 256) × (n < 65536) }
    ensures { m.new ≡ stores.set_head c d n m.old }
{
    set_word(m, SIZE_PLACE, c as u16);
    m[DIMENSION_PLACE] = d as u8;
    m[FORMAT_PLACE] = FORMAT;
    set_word(m, COUNT_PLACE, n as u16);
}

// Writes the number of moves.
pub fn set_count(m: &mut [u8], n: usize)
    requires { (16 ≤ length m.old) × (n < 65536) }
    ensures { m.new ≡ stores.set_count n m.old }
{
    set_word(m, COUNT_PLACE, n as u16);
}

// Writes the number of the move at place i.
pub fn set_number(m: &mut [u8], c: usize, i: usize, number: u16)
    requires { Room c m.old × (i < c) }
    ensures { m.new ≡ stores.set_number c i number m.old }
{
    set_word(m, number_place(i), number);
}

// Writes the highest level of the nodes that start at place i.
pub fn set_height(m: &mut [u8], c: usize, i: usize, height: u8)
    requires { Room c m.old × (i < c) }
    ensures { m.new ≡ stores.set_height c i height m.old }
{
    m[height_place(c, i)] = height;
}

// Flags the move of a number as listed or hidden.
pub fn set_listed(m: &mut [u8], c: usize, number: u16, listed: bool)
    requires { Room c m.old × (number < c) }
    ensures { m.new ≡ stores.set_listed c number listed m.old }
{
    m[flag_place(c, number)] = u8::from(listed);
}

// Writes the block of a number's move.
pub fn set_block(m: &mut [u8], c: usize, number: u16, block: u16)
    requires { Room c m.old × (number < c) × (block < 256) }
    ensures { m.new ≡ stores.set_block c number block m.old }
{
    m[block_place(c, number)] = block as u8;
}

// Writes the costs of a number's move, all words of the row.
pub fn set_costs(m: &mut [u8], c: usize, number: u16, costs: [u16; COSTS])
    requires { Room c m.old × (number < c) }
    ensures { m.new ≡ stores.set_costs c number costs m.old }
{
    let at = costs_place(c, number);
    for j in 0..COSTS {
        set_word(m, at + 2 * j, costs[j]);
    }
}

// Writes number i of the work area.
pub fn set_work(m: &mut [u8], c: usize, i: usize, number: u16)
    requires { Room c m.old × (i < c) }
    ensures { m.new ≡ stores.set_work c i number m.old }
{
    set_word(m, work_place(c, i), number);
}
