// Frames (document 01, "Frames") answered: what the board's call says of a line's frame, which
// bytes that is, and the input as it comes.
#![tactic(auto)]

mod feeding;
mod said;
mod serving;
mod told;

pub use feeding::{Fed, Point, feed, finish, start};
use frame_lines::DIGITS;

// The board's size.
const SIZE: usize = 256;

// The memory that a board of this size needs.
pub const BYTES: usize = 64 * SIZE + 1024;

// The rows lent to each call: a notice never has more.
const ROWS: usize = SIZE + 1;

// Room for the longest answer: ten digits before the rows, for each row as many as the longest
// frame has, and a line end.
pub const TEXT: usize = ROWS * DIGITS + 11;
