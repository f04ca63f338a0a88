// Enter, withdraw and re-cost: planned and told; only then is the memory written.
ghost use Rattle.model.specs.Calls.{withdraw};
ghost use Rattle.planning.specs.Kind.{call_of};
ghost use Rattle.calls.specs.Exported as spec;
ghost use Rattle.calls.specs.Exported.{rows_of, ChangeExported};

use board::carry_out;
use calls::{Answer, Move, asked_enter, asked_recost, asked_withdraw, tell_notice};
use planning::{Change, plan_change};
use rows::Row;

fn change(memory: &mut [u8], x: Change, rows: &mut [Row]) -> Answer
    ensures { ChangeExported (call_of x) memory.old
        (rows_of rows.old) result memory.new (rows_of rows.new) }
{
    let p = plan_change(memory, x, rows.len());
    let r = tell_notice(rows, memory, p);
    carry_out(memory, p);
    r
}

// Adds a move to the board.
#[unsafe(no_mangle)]
pub extern "C" fn dolzhev_enter(memory: &mut [u8], given: Move, rows: &mut [Row]) -> Answer
    ensures { ChangeExported (spec.entering given) memory.old
        (rows_of rows.old) result memory.new (rows_of rows.new) }
{
    change(memory, asked_enter(given), rows)
}

// Takes the move of a number from the board.
#[unsafe(no_mangle)]
pub extern "C" fn dolzhev_withdraw(memory: &mut [u8], number: u16, rows: &mut [Row]) -> Answer
    ensures { ChangeExported (withdraw number) memory.old
        (rows_of rows.old) result memory.new (rows_of rows.new) }
{
    change(memory, asked_withdraw(number), rows)
}

// Gives a move new costs and a block.
#[unsafe(no_mangle)]
pub extern "C" fn dolzhev_recost(memory: &mut [u8], given: Move, rows: &mut [Row]) -> Answer
    ensures { ChangeExported (spec.recosting given) memory.old
        (rows_of rows.old) result memory.new (rows_of rows.new) }
{
    change(memory, asked_recost(given), rows)
}
