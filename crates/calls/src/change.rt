// The changes as the code has them, from what the exported calls are given.
ghost use Rattle.std.specs.Prelude.{◌≡◌};
ghost use Rattle.calls.specs.Asked as spec;

use crate::answer::Move;
use planning::Change;

// The move without its block.
fn coming_of(given: Move) -> dominance::Move
    ensures { result ≡ spec.coming_of given }
{
    let costs = given.costs;
    dominance::Move {
        number: given.number,
        costs,
    }
}

// Asks that a move enters.
pub fn asked_enter(given: Move) -> Change
    ensures { result ≡ spec.asked_enter given }
{
    let coming = coming_of(given);
    Change::Enter {
        coming,
        block: given.block,
    }
}

// Asks that the move of a number is withdrawn.
pub fn asked_withdraw(number: u16) -> Change
    ensures { result ≡ spec.asked_withdraw number }
{
    Change::Withdraw { number }
}

// Asks for new costs and a block for a move.
pub fn asked_recost(given: Move) -> Change
    ensures { result ≡ spec.asked_recost given }
{
    let coming = coming_of(given);
    Change::Recost {
        coming,
        block: given.block,
    }
}
