// What the exported calls take and hand back, by value.
ghost use Rattle.calls.specs.Exported.{Handed, Answered};

use promises::{Verdict, counted, detail_of, number_of};
use zorder::COSTS;

// A move that enters or gets new costs.
#[repr(C)]
#[derive(Clone, Copy)]
pub struct Move {
    pub number: u16,
    pub block: u16,
    pub costs: [u16; COSTS],
}

// Document 01's number of the refusal and its detail; the rows told; of list and withdraw the nodes
// opened, else 0.
#[repr(C)]
#[derive(Clone, Copy)]
pub struct Answer {
    pub refusal: usize,
    pub detail: usize,
    pub count: usize,
    pub opened: usize,
}

// Hands a verdict on, with the counts of rows and nodes.
pub fn handed(verdict: Verdict, count: usize, opened: usize) -> Answer
    ensures { Handed verdict count opened result }
{
    Answer {
        refusal: number_of(verdict) as usize,
        detail: detail_of(verdict),
        count,
        opened,
    }
}

// Hands on what a plan foresees: the counts are zero of a refused call.
pub fn answered(verdict: Verdict, need: usize, opened: usize) -> Answer
    ensures { Answered verdict need opened result }
{
    handed(verdict, counted(verdict, need), counted(verdict, opened))
}
