// The lists: planned, then told. The memory is lent for reading only.
ghost use Rattle.std.specs.Prelude.{map};
ghost use Rattle.model.specs.Calls.{list, band_query, on_k_query, chosen_query, hours_query};
ghost use Rattle.promises.specs.Answers.{block_hours};
ghost use Rattle.calls.specs.Exported.{rows_of, QueryExported};

use calls::{Answer, tell_list};
use hours::{HOURS, plan_hours};
use listing::plan_list;
use query::{plan_band, plan_chosen, plan_on_k};
use rows::Row;

// Tells the list (Definition 2, with Card 4's rule).
#[unsafe(no_mangle)]
pub extern "C" fn dolzhev_list(memory: &[u8], rows: &mut [Row]) -> Answer
    ensures { QueryExported list memory.now (rows_of rows.old) result
        (rows_of rows.new) }
{
    let p = plan_list(memory, rows.len());
    tell_list(rows, memory, p)
}

// Tells a band (Definition 3): the moves that b others or fewer dominate.
#[unsafe(no_mangle)]
pub extern "C" fn dolzhev_band(memory: &[u8], b: usize, rows: &mut [Row]) -> Answer
    ensures { QueryExported (band_query b) memory.now (rows_of rows.old)
        result (rows_of rows.new) }
{
    let p = plan_band(memory, b, rows.len());
    tell_list(rows, memory, p)
}

// Tells the moves that none dominates on k of the costs (Definition 6).
#[unsafe(no_mangle)]
pub extern "C" fn dolzhev_on_k(memory: &[u8], k: usize, rows: &mut [Row]) -> Answer
    ensures { QueryExported (on_k_query k) memory.now (rows_of rows.old) result
        (rows_of rows.new) }
{
    let p = plan_on_k(memory, k, rows.len());
    tell_list(rows, memory, p)
}

// Tells the moves that none dominates on the chosen costs (Definition 8). Bit i of the set stands
// for cost i.
#[unsafe(no_mangle)]
pub extern "C" fn dolzhev_chosen(memory: &[u8], set: usize, rows: &mut [Row]) -> Answer
    ensures { QueryExported (chosen_query set) memory.now
        (rows_of rows.old) result (rows_of rows.new) }
{
    let p = plan_chosen(memory, set, rows.len());
    tell_list(rows, memory, p)
}

// Tells the list of the blocks that are open at a minute of the week (document 02, Card 8). An
// entry for each block, from block 0 on: arrays of the layout that the header has, as load's rows
// are.
#[unsafe(no_mangle)]
pub extern "C" fn dolzhev_hours(
    memory: &[u8],
    minute: usize,
    hours: &[[u16; HOURS]],
    rows: &mut [Row],
) -> Answer
    ensures { QueryExported (hours_query minute (map block_hours hours.now))
        memory.now (rows_of rows.old) result (rows_of rows.new) }
{
    let p = plan_hours(memory, minute, hours, rows.len());
    tell_list(rows, memory, p)
}
