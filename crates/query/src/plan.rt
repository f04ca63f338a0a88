// Band, on k and chosen costs planned: 3, then 7, then the moves that few enough others beat,
// and 8.
ghost use Rattle.model.specs.Calls.{band_query, on_k_query, chosen_query};
ghost use Rattle.rows.specs.Planned.{QueryPlanned};

use crate::band::find_band;
use crate::rule::Rule;
use crate::unbeaten::find_unbeaten;
use memory::Board;
use promises::Reason;
use rows::{Plan, plan_found, refused};
use soundness::sound_head;

// Plans band (Definition 3): the moves that b others or fewer dominate.
pub fn plan_band(m: &[u8], b: usize, lent: usize) -> Plan
    ensures { QueryPlanned (band_query b) m.now lent result }
{
    let Some(h) = sound_head(m) else {
        return refused(Reason::Unsound, 0);
    };
    let board = Board { bytes: m, head: h };
    if 4095 < b {
        return refused(Reason::BadArgument, 0);
    }
    plan_found(h, find_band(&board, b), 0, lent)
}

// Plans on k (Definition 6): the moves that none dominates on k of the costs.
pub fn plan_on_k(m: &[u8], k: usize, lent: usize) -> Plan
    ensures { QueryPlanned (on_k_query k) m.now lent result }
{
    let Some(h) = sound_head(m) else {
        return refused(Reason::Unsound, 0);
    };
    let board = Board { bytes: m, head: h };
    if k < 1 || h.dimension < k {
        return refused(Reason::BadArgument, 0);
    }
    plan_found(h, find_unbeaten(&board, Rule::OnK(k)), 0, lent)
}

// Plans chosen costs (Definition 8): the moves that none dominates on them, out of all moves. Bit i
// of the set stands for cost i.
pub fn plan_chosen(m: &[u8], set: usize, lent: usize) -> Plan
    ensures { QueryPlanned (chosen_query set) m.now lent result }
{
    let Some(h) = sound_head(m) else {
        return refused(Reason::Unsound, 0);
    };
    let board = Board { bytes: m, head: h };
    if set == 0 || (1usize << h.dimension) <= set {
        return refused(Reason::BadArgument, 0);
    }
    plan_found(h, find_unbeaten(&board, Rule::Chosen(set)), 0, lent)
}
