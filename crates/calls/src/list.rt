// The plan of a list told: its rows are put into the lent ones, and its answer is handed back.
ghost use Rattle.calls.specs.Told.{ListAsked, ListTold};

use crate::answer::{Answer, answered};
use rows::{Plan, Row, fill};

// Tells a list as planned.
pub fn tell_list(rows: &mut [Row], memory: &[u8], p: Plan) -> Answer
    requires { ListAsked p memory.now rows.old }
    ensures { ListTold p memory.now rows.old result rows.new }
{
    fill(rows, memory, p.telling, 0);
    answered(p.verdict, p.need, p.opened)
}
