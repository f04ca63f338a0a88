// Load: the memory is overwritten with a board of the given rows.
ghost use Rattle.std.specs.Prelude.{map};
ghost use Rattle.promises.specs.Answers.{input_row};
ghost use Rattle.calls.specs.Exported.{LoadExported};

use calls::{Answer, handed};
use loading::{INPUT, load};

// Writes a board of size c with d costs, whatever the memory holds.
#[unsafe(no_mangle)]
pub extern "C" fn dolzhev_load(
    memory: &mut [u8],
    c: usize,
    d: usize,
    rows: &[[u16; INPUT]],
) -> Answer
    ensures { LoadExported c d (map input_row rows.now) memory.old result
        memory.new }
{
    let verdict = load(memory, c, d, rows);
    handed(verdict, 0, 0)
}
