// The board beside a plain all-pairs program: many boards, loaded and then changed and read through
// the public calls, each answer held against one that is made from document 01's words alone, each
// change also against its preview, and a holder who follows the notices and passes previews by.
// Prints what was compared, and each call where the two disagree. The word `long` makes a longer
// run.
#![tactic(auto)]

use rows::ROW;
use std::io;
use std::rt::Env;

mod ask;
mod boards;
mod call;
mod change;
mod dice;
mod expect;
mod judge;
mod node_counts;
mod plain;
mod rules;
mod runs;
mod table;
mod tally;
mod told;
mod week;

// The number of boards that the word asks for.
fn boards_asked(rt: &impl Env) -> usize {
    let mut word = [0u8; 8];
    if rt.arg(1, &mut word).unwrap_or(0) == 0 {
        1200
    } else {
        40000
    }
}

fn main(rt: HostRuntime) -> io::Result<()> {
    let mut t = [[0u16; ROW]; table::TABLE];
    let mut m = [0u8; boards::MEMORY];
    let u = boards::all(&rt, &mut t, &mut m, boards_asked(&rt))?;
    tally::put_all(&rt, &u)
}
