// The public calls for C and Rust: rows are structs, a move comes as a struct, and an answer is
// document 01's number and detail. None has a `requires`: they refuse.
#![tactic(auto)]

mod change;
mod lists;
mod load;
mod preview;
mod ranked;

pub use calls::{Answer, Move};
pub use change::{dolzhev_enter, dolzhev_recost, dolzhev_withdraw};
pub use lists::{dolzhev_band, dolzhev_chosen, dolzhev_hours, dolzhev_list, dolzhev_on_k};
pub use load::dolzhev_load;
pub use preview::{dolzhev_preview_enter, dolzhev_preview_recost, dolzhev_preview_withdraw};
pub use ranked::dolzhev_rank;
