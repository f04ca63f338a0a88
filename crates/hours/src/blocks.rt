// The blocks by their entries: the lowest that is refused, and those that are open. A block past
// the last entry is shut; entries past the 64th are not read.
ghost use Rattle.std.specs.Prelude.{map, ◌≡◌, length, take};
ghost use Rattle.model.specs.Hours.{block_count};
ghost use Rattle.promises.specs.Answers.{block_hours};
ghost use Rattle.hours.specs.Open.{FirstBadFound, OpenBlocks};

use crate::windows::{hours_bad, open_at};
use crate::{BLOCKS, HOURS};

// How many entries are read.
fn entries_read(hours: &[[u16; HOURS]]) -> usize
    ensures { result ≡ length (take block_count hours.now) }
{
    hours.len().min(BLOCKS)
}

// Gives the lowest block whose hours are refused.
pub(crate) fn first_bad(hours: &[[u16; HOURS]]) -> Option<usize>
    ensures { FirstBadFound (map block_hours hours.now) result }
{
    let n = entries_read(hours);
    for k in 0..n {
        if hours_bad(hours[k]) {
            return Some(k);
        }
    }
    None
}

// Gives the blocks open at a minute.
pub(crate) fn open_blocks(minute: u16, hours: &[[u16; HOURS]]) -> u64
    ensures { OpenBlocks minute (map block_hours hours.now) result }
{
    let n = entries_read(hours);
    let mut blocks = 0u64;
    for k in 0..n {
        if open_at(hours[k], minute) {
            blocks = blocks | (1u64 << k);
        }
    }
    blocks
}
