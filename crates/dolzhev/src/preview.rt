// Previews of enter, withdraw and re-cost (document 02, Card 2): planned and told, and nothing is
// carried out. The memory is lent for reading only.
ghost use Rattle.model.specs.Calls.{withdraw};
ghost use Rattle.planning.specs.Kind.{call_of};
ghost use Rattle.calls.specs.Exported as spec;
ghost use Rattle.calls.specs.Exported.{rows_of, PreviewExported};

use calls::{Answer, Move, asked_enter, asked_recost, asked_withdraw, tell_notice};
use planning::{Change, plan_change};
use rows::Row;

fn preview(memory: &[u8], x: Change, rows: &mut [Row]) -> Answer
    ensures { PreviewExported (call_of x) memory.now
        (rows_of rows.old) result (rows_of rows.new) }
{
    let p = plan_change(memory, x, rows.len());
    tell_notice(rows, memory, p)
}

// Answers and tells what `dolzhev_enter` would.
#[unsafe(no_mangle)]
pub extern "C" fn dolzhev_preview_enter(memory: &[u8], given: Move, rows: &mut [Row]) -> Answer
    ensures { PreviewExported (spec.entering given) memory.now
        (rows_of rows.old) result (rows_of rows.new) }
{
    preview(memory, asked_enter(given), rows)
}

// Answers and tells what `dolzhev_withdraw` would.
#[unsafe(no_mangle)]
pub extern "C" fn dolzhev_preview_withdraw(memory: &[u8], number: u16, rows: &mut [Row]) -> Answer
    ensures { PreviewExported (withdraw number) memory.now
        (rows_of rows.old) result (rows_of rows.new) }
{
    preview(memory, asked_withdraw(number), rows)
}

// Answers and tells what `dolzhev_recost` would.
#[unsafe(no_mangle)]
pub extern "C" fn dolzhev_preview_recost(memory: &[u8], given: Move, rows: &mut [Row]) -> Answer
    ensures { PreviewExported (spec.recosting given) memory.now
        (rows_of rows.old) result (rows_of rows.new) }
{
    preview(memory, asked_recost(given), rows)
}
