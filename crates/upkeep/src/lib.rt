// The kept list: flagged anew after a load, kept up by what a change does.
#![tactic(auto)]

mod entering;
mod exchange;
mod flag;
mod flags;
mod found;
mod kept;

pub use exchange::{Exchange, Upkeep};
pub use flag::flag_all;
pub use flags::set_flags;
pub use found::{Found, add_found, find_listed};
pub use kept::upkeep_of;
