// The answers of the board's calls and the ranges of a board's numbers; in specs/ the layout of the
// lent memory, when it is sound, what each call promises, and the theorem of demand 3 over these
// promises.
#![tactic(auto)]

ghost use Rattle.std.specs.Prelude.{◌≡◌};

mod answers;
mod ranges;
mod row;

pub use answers::{counted, detail_of, enough, number_of};
pub use ranges::{block_bad, memory_need, size_bad};
pub use row::{WORDS, costs_from};

// Why a call is refused, by document 01's number.
#[derive(Clone, Copy, Debug, PartialEq, Eq)]
pub enum Reason {
    ShortMemory = 1,
    OutOfRange = 2,
    Unsound = 3,
    NumberTooLarge = 4,
    NumberTwice = 5,
    NumberAbsent = 6,
    BadArgument = 7,
    FewRows = 8,
    BlockTooLarge = 11,
    BadHours = 12,
}

// The detail is zero where document 01 says nothing else.
#[derive(Clone, Copy, Debug, PartialEq, Eq)]
pub struct Refusal {
    pub reason: Reason,
    pub detail: usize,
}

impl From<Reason> for Refusal {
    ghost from_gives = { λ reason r. r ≡ record { reason = reason; detail = 0 } };

    fn from(reason: Reason) -> Refusal {
        Refusal { reason, detail: 0 }
    }
}

// What a call says: that it is accepted, or how it is refused.
pub type Verdict = Result<(), Refusal>;

// What every call on a board but load answers: the verdict, how many rows it told, and the nodes
// that it opened.
#[derive(Clone, Copy, Debug, PartialEq, Eq)]
pub struct CallResult {
    pub verdict: Verdict,
    pub count: usize,
    pub opened: usize,
}
