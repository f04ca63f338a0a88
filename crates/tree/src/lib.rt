// The tree in the lent memory: the flat operations of `line` on its rows. Only rows and the work
// area are written here.
#![tactic(auto)]

mod enter;
mod field;
mod insert;
mod raise;
mod split;
mod withdraw;

pub use enter::{enter_line, with_rows};
pub use insert::{insert_row, place_for};
pub use raise::raise_levels;
pub use withdraw::{place_of, withdraw_line};
