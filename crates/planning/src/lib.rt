// Enter, withdraw and re-cost planned: what a change will say, tell and do, found without writing.
#![tactic(auto)]

mod change;
mod foresee;
mod judge;
mod notice;
mod plan;

pub use change::Change;
pub use notice::{entered_of, left_of};
pub use plan::{ChangePlan, Places, plan_change, plan_on};
