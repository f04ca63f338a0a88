// The lent memory: its fields read and written. Above this crate nothing names a byte.
#![tactic(auto)]

mod board;
mod bytes;
mod fields;
mod head;
mod order;
mod places;
mod stores;

pub use board::Board;
pub use fields::{
    block_of, costs_of, has_format, height_at, is_listed, move_at, number_at, work_at,
};
pub use head::{Head, head_of};
pub use order::stands_before;
pub use stores::{
    set_block, set_costs, set_count, set_head, set_height, set_listed, set_number, set_work,
};
