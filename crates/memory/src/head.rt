// The head of the memory as one value.
ghost use Rattle.std.specs.Prelude.{◌≤◌, length};
ghost use Rattle.memory.specs.Held.{HeadOf};

use crate::fields::{count, dimension, size};

// C, d and the number of moves of a board.
#[derive(Clone, Copy)]
pub struct Head {
    pub size: usize,
    pub dimension: usize,
    pub count: usize,
}

// Gives what the head says, whatever that is.
pub fn head_of(m: &[u8]) -> Head
    requires { 16 ≤ length m.now }
    ensures { HeadOf result m.now }
{
    Head {
        size: size(m),
        dimension: dimension(m),
        count: count(m),
    }
}
