// What the exported calls are made of: what they take and hand back, the changes asked for, and
// plans told in the lent rows.
#![tactic(auto)]

mod answer;
mod change;
mod list;
mod notice;

pub use answer::{Answer, Move, handed};
pub use change::{asked_enter, asked_recost, asked_withdraw};
pub use list::tell_list;
pub use notice::tell_notice;
