// Rank (Definition 4): the rows are put in order where they are lent. The memory is lent for
// reading only.
ghost use Rattle.std.specs.Prelude.{map};
ghost use Rattle.model.specs.Calls.{rank_query};
ghost use Rattle.promises.specs.Answers.{result_row};
ghost use Rattle.calls.specs.Exported.{QueryExported};

use calls::{Answer, handed};
use ranking::rank;
use rows::ROW;

// Tells the first t listed moves. Its rows are read again and again while they are put in order:
// arrays of the row's layout, as load's are.
#[unsafe(no_mangle)]
pub extern "C" fn dolzhev_rank(memory: &[u8], t: usize, rows: &mut [[u16; ROW]]) -> Answer
    ensures { QueryExported (rank_query t) memory.now
        (map result_row rows.old) result (map result_row rows.new) }
{
    let r = rank(memory, t, rows);
    handed(r.verdict, r.count, r.opened)
}
