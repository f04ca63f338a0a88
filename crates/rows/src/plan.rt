// The plan of a list: what the call will say and tell, found without writing.
ghost use Rattle.promises.specs.Answers.{refused_by};
ghost use Rattle.rows.specs.Planned as spec;

use crate::telling::{Telling, listing_of, no_telling};
use memory::Head;
use promises::{Reason, Refusal, Verdict, counted, enough};
use upkeep::Found;

// `need` rows are needed, also where too few are lent, and `opened` nodes were opened: the answer
// alone tells zero of a refused call.
#[derive(Clone, Copy)]
pub struct Plan {
    pub verdict: Verdict,
    pub need: usize,
    pub opened: usize,
    pub telling: Telling,
}

// Nothing is told: a check before 8 turned the call down.
pub fn refused(reason: Reason, detail: usize) -> Plan
    ensures { spec.Refuses (refused_by reason detail) result }
{
    Plan {
        verdict: Err(Refusal { reason, detail }),
        need: 0,
        opened: 0,
        telling: no_telling(),
    }
}

// The moves found are told, if rows enough are lent.
pub fn plan_found(h: Head, found: Found, opened: usize, lent: usize) -> Plan
    ensures { spec.PlansFound h found opened lent result }
{
    let need = found.count;
    let numbers = found.numbers;
    let verdict = enough(need, lent);
    Plan {
        verdict,
        need,
        opened,
        telling: listing_of(h, numbers, counted(verdict, need)),
    }
}
