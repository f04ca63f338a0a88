// What a change will say and do, found without writing.
ghost use Rattle.memory.specs.Held.{SoundAt};
ghost use Rattle.planning.specs.Plan as spec;

use crate::change::Change;
use crate::foresee::{alike, coming_place, needed, no_upkeep, reported};
use crate::judge::judge;
use memory::{Board, Head};
use promises::{Reason, Refusal, Verdict, enough};
use soundness::sound_head;
use tree::place_of;
use upkeep::{Exchange, Upkeep, upkeep_of};

// The move at place `goes` goes, if there is one, and one that comes gets place `comes`.
#[derive(Clone, Copy)]
pub struct Places {
    pub goes: usize,
    pub comes: usize,
}

// `need` rows are needed, also where too few are lent, and `opened` nodes were opened: the answer
// alone tells zero of a refused call. Where moves change they have places. An accepted change of no
// moves gives its block all the same.
#[derive(Clone, Copy)]
pub struct ChangePlan {
    pub verdict: Verdict,
    pub need: usize,
    pub opened: usize,
    pub places: Option<Places>,
    pub head: Head,
    pub change: Change,
    pub upkeep: Upkeep,
}

// No move changes, and no row is told.
fn keeps_moves(head: Head, change: Change, verdict: Verdict) -> ChangePlan
    ensures { spec.KeepsMoves head change verdict result }
{
    ChangePlan {
        verdict,
        need: 0,
        opened: 0,
        places: None,
        head,
        change,
        upkeep: no_upkeep(),
    }
}

// Gives the plan on memory that is known to be sound. A number that is not on the board has the
// place past the last: where one enters none goes.
pub fn plan_on(m: &[u8], h: Head, x: Change, lent: usize) -> ChangePlan
    requires { SoundAt h m.now }
    ensures { spec.Planned x m.now lent result }
{
    let found = place_of(m, h.size, h.count, x.number());
    if let Err(reason) = judge(h, x, found.is_some()) {
        return keeps_moves(h, x, Err(Refusal::from(reason)));
    }
    let board = Board { bytes: m, head: h };
    let goes = found.unwrap_or(h.count);
    let k = Exchange {
        goes,
        coming: x.coming(),
    };
    if alike(&board, k) {
        return keeps_moves(h, x, Ok(()));
    }
    let comes = coming_place(&board, k);
    let upkeep = upkeep_of(&board, k, comes);
    let need = needed(upkeep);
    ChangePlan {
        verdict: enough(need, lent),
        need,
        opened: reported(k.coming.is_some(), upkeep.opened),
        places: Some(Places { goes, comes }),
        head: h,
        change: x,
        upkeep,
    }
}

// Gives the plan of a change: 3 first, then as on sound memory.
pub fn plan_change(m: &[u8], x: Change, lent: usize) -> ChangePlan
    ensures { spec.Planned x m.now lent result }
{
    let Some(h) = sound_head(m) else {
        let none = Head {
            size: 0,
            dimension: 0,
            count: 0,
        };
        return keeps_moves(none, x, Err(Refusal::from(Reason::Unsound)));
    };
    plan_on(m, h, x, lent)
}
