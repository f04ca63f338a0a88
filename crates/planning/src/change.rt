// A change as it is asked for.
ghost use Rattle.std.specs.Prelude.{◌≡◌};
ghost use Rattle.zorder.specs.Address.{row_costs};
ghost use Rattle.zorder.proofs.Laws.Address.{Costs};
ghost use Rattle.planning.specs.Kind as spec;

use dominance::Move;

// What a change is asked: the move that comes, with the block it gets, or the number of the one
// that goes.
#[derive(Clone, Copy)]
pub enum Change {
    Enter { coming: Move, block: u16 },
    Withdraw { number: u16 },
    Recost { coming: Move, block: u16 },
}

// The same move: a function that is given one knows what its type says of its costs.
fn held(coming: Move) -> Move
    ensures is { result ≡ coming }
    ensures costs { Costs row_costs coming.costs }
{
    coming
}

impl Change {
    // Gives the number of the move that changes.
    pub fn number(self) -> u16
        ensures { result ≡ spec.asked_number self }
    {
        match self {
            Change::Enter { coming, block: _ } => coming.number,
            Change::Withdraw { number } => number,
            Change::Recost { coming, block: _ } => coming.number,
        }
    }

    // Gives the move that comes, if one does.
    pub fn coming(self) -> Option<Move>
        ensures is { result ≡ spec.coming_of self }
        ensures costs { spec.CostsOf self }
    {
        match self {
            Change::Enter { coming, block: _ } => Some(held(coming)),
            Change::Withdraw { number: _ } => None,
            Change::Recost { coming, block: _ } => Some(held(coming)),
        }
    }

    // Gives the block that a move gets, if one comes.
    pub fn block(self) -> Option<u16>
        ensures { result ≡ spec.given_block self }
    {
        match self {
            Change::Enter { coming: _, block } => Some(block),
            Change::Withdraw { number: _ } => None,
            Change::Recost { coming: _, block } => Some(block),
        }
    }

    // Says whether the number has to be new to the board.
    pub(crate) fn is_new(self) -> bool
        ensures { result ≡ spec.is_new self }
    {
        match self {
            Change::Enter {
                coming: _,
                block: _,
            } => true,
            Change::Withdraw { number: _ } => false,
            Change::Recost {
                coming: _,
                block: _,
            } => false,
        }
    }
}
