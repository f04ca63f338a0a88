// The blocks of accepted rows.
ghost use Rattle.std.specs.Prelude.{map};
ghost use Rattle.promises.specs.Answers.{input_row};
ghost use Rattle.memory.specs.Room.{Room};
ghost use Rattle.loading.specs.Blocks.{Storable, BlocksGiven};

use crate::INPUT;
use crate::judge::{block_of, number_of};
use memory::set_block;

// Gives the blocks from the last row on, as the definition gives them.
pub fn give_blocks(m: &mut [u8], c: usize, rows: &[[u16; INPUT]])
    requires { Room c m.old × Storable c (map input_row rows.now) }
    ensures { BlocksGiven c (map input_row rows.now) m.old
        m.new }
{
    for left in (0..rows.len()).rev() {
        let row = rows[left];
        set_block(m, c, number_of(row), block_of(row));
    }
}
