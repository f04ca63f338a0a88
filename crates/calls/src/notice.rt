// The plan of a change told: its notice is put into the lent rows, first who leaves, then who
// enters, and its answer is handed back.
ghost use Rattle.calls.specs.Told.{NoticeAsked, NoticeTold};

use crate::answer::{Answer, answered};
use planning::{ChangePlan, entered_of, left_of};
use rows::{Row, fill};

// Tells a change as planned.
pub fn tell_notice(rows: &mut [Row], memory: &[u8], p: ChangePlan) -> Answer
    requires { NoticeAsked p memory.now rows.old }
    ensures { NoticeTold p memory.now rows.old result rows.new }
{
    let left = left_of(p);
    fill(rows, memory, left, 0);
    fill(rows, memory, entered_of(p), left.count);
    answered(p.verdict, p.need, p.opened)
}
