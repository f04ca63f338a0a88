// The hours call planned: 3, then 7 for the minute, then 12 for the lowest block with bad hours,
// then the list, and 8.
ghost use Rattle.hours.specs.Open.{HoursPlanned};

use crate::HOURS;
use crate::blocks::{first_bad, open_blocks};
use crate::shown::find_shown;
use crate::windows::minute_bad;
use memory::Board;
use promises::Reason;
use rows::{Plan, plan_found, refused};
use soundness::sound_head;

// Plans the list over the moves in the blocks that are open at a minute of the week, block k by
// entry k.
pub fn plan_hours(m: &[u8], minute: usize, hours: &[[u16; HOURS]], lent: usize) -> Plan
    ensures { HoursPlanned minute hours.now m.now lent result }
{
    let Some(h) = sound_head(m) else {
        return refused(Reason::Unsound, 0);
    };
    let board = Board { bytes: m, head: h };
    if minute_bad(minute) {
        return refused(Reason::BadArgument, 0);
    }
    if let Some(bad) = first_bad(hours) {
        return refused(Reason::BadHours, bad);
    }
    let blocks = open_blocks(minute as u16, hours);
    plan_found(h, find_shown(&board, blocks), 0, lent)
}
