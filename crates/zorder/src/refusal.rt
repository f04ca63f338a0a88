// Why a call is refused, and the check that says so.
ghost use Rattle.std.specs.Prelude.{◌≡◌, true, false, MatchResult};
ghost use Rattle.zorder.specs.Promise.{refusal_number};

// Document 01's 2 and 7.
#[derive(Clone, Copy, Debug, PartialEq, Eq)]
pub enum Refusal {
    BadCostCount,
    BadArgument,
}

impl From<Refusal> for usize {
    ghost from_gives = { λ e n. n ≡ refusal_number e };

    fn from(refusal: Refusal) -> usize {
        match refusal {
            Refusal::BadCostCount => 2,
            Refusal::BadArgument => 7,
        }
    }
}

// Refuses what is bad.
pub(crate) fn check(bad: bool, refusal: Refusal) -> Result<(), Refusal>
    ensures { MatchResult result (λ _. bad ≡ false) (λ e. (bad ≡ true) × (e ≡ refusal)) }
{
    if bad { Err(refusal) } else { Ok(()) }
}
