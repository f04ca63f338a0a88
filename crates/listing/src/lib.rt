// List: the list, read off the flags, and the nodes opened. It is planned without writing.
#![tactic(auto)]

ghost use Rattle.model.specs.Calls.{list};
ghost use Rattle.rows.specs.Planned.{QueryPlanned};

use memory::Board;
use nodes::nodes_opened;
use promises::Reason;
use rows::{Plan, plan_found, refused};
use soundness::sound_head;
use upkeep::find_listed;

// Gives the plan of a list.
pub fn plan_list(m: &[u8], lent: usize) -> Plan
    ensures { QueryPlanned list m.now lent result }
{
    let Some(h) = sound_head(m) else {
        return refused(Reason::Unsound, 0);
    };
    let board = Board { bytes: m, head: h };
    let found = find_listed(&board);
    let opened = nodes_opened(&board);
    plan_found(h, found, opened, lent)
}
