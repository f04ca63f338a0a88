// Band, on k and chosen costs, planned without writing. None has a `requires`: they refuse.
#![tactic(auto)]

mod band;
mod plan;
mod rule;
mod unbeaten;

pub use plan::{plan_band, plan_chosen, plan_on_k};
