// What is read off a verdict, and the verdict on the rows lent.
ghost use Rattle.std.specs.Prelude.{◌≡◌};
ghost use Rattle.model.specs.Calls.{rows_answer};
ghost use Rattle.promises.specs.Answers as spec;

use crate::{Reason, Refusal, Verdict};

// Gives document 01's number of a verdict.
pub fn number_of(verdict: Verdict) -> u8
    ensures { result ≡ spec.number_of verdict }
{
    match verdict {
        Ok(()) => 0,
        Err(refusal) => refusal.reason as u8,
    }
}

// Gives the detail of a verdict.
pub fn detail_of(verdict: Verdict) -> usize
    ensures { result ≡ spec.detail_of verdict }
{
    match verdict {
        Ok(()) => 0,
        Err(refusal) => refusal.detail,
    }
}

// Gives what a call with this verdict tells of a count: a refused one tells zero.
pub fn counted(verdict: Verdict, n: usize) -> usize
    ensures { result ≡ spec.counted (spec.number_of verdict) n }
{
    match verdict {
        Ok(()) => n,
        Err(_) => 0,
    }
}

// Gives refusal 8, if more rows are needed than lent.
pub fn enough(need: usize, lent: usize) -> Verdict
    ensures { spec.answer_of result ≡ rows_answer need lent }
{
    if lent < need {
        return Err(Refusal {
            reason: Reason::FewRows,
            detail: need,
        });
    }
    Ok(())
}
