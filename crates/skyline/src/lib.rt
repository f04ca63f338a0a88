// Whether the flagged moves are the list: each move is held against the listed moves before it.
#![tactic(auto)]

mod chunks;
mod flags;
mod hiders;
mod highs;

pub use flags::{flags_right, hider_before};
