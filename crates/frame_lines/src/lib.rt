// The lines of an input (document 01, "Frames"): where a line ends, which line is which frame, and
// numbers and refusals as the digits of an answer. Nothing here calls the board.
#![tactic(auto)]

mod digits;
mod frame;
mod reading;
mod text;

pub use frame::{Frame, frame_of};
pub use reading::{DIGITS, Line, Read, read_on};
pub use text::{put_byte, put_head, put_refusal, put_word, two_bytes};
