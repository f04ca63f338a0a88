// Yard block hours (Card 8): the list over the moves in open blocks, planned without writing. It
// has no `requires`: it refuses.
#![tactic(auto)]

mod blocks;
mod plan;
mod shown;
mod windows;

pub use plan::plan_hours;

// The hours of a block as numbers: how many windows, then start and end of each of four.
pub const HOURS: usize = 9;

// Bit k of a set of blocks stands for block k.
const BLOCKS: usize = 64;
