// A planned change carried out: the moves, then the block.
#![tactic(auto)]

mod make;

pub use make::carry_out;
