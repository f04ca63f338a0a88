// The nodes of the tree by the places of their moves, and the search through them.
#![tactic(auto)]

mod nodes;
mod places;

pub use nodes::{Leaf, next_leaf, nodes_opened};
pub use places::{entries, entry_at, node_end, node_start, side_between};
