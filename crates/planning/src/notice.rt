// What a plan of a change tells: the rows that leave the list, then those that enter it.
ghost use Rattle.std.specs.Prelude.{◌≡◌, ◌≤◌};
ghost use Rattle.planning.specs.Plan.{left_of, coming_in, entered_of};

use crate::plan::ChangePlan;
use promises::counted;
use rows::{Coming, Telling, View, nobody};
use search::Among;

// Gives the listed moves whose flag changes.
pub fn left_of(p: ChangePlan) -> Telling
    ensures { result ≡ left_of p }
{
    let verdict = p.verdict;
    let head = p.head;
    let numbers = p.upkeep.changed;
    Telling {
        told: View {
            head,
            mark: 1,
            among: Among::Listed,
            coming: nobody(),
        },
        numbers,
        count: counted(verdict, p.upkeep.left),
    }
}

// The coming move, if it is listed, at its place.
fn coming_in(p: ChangePlan) -> Coming
    ensures { result ≡ coming_in p }
{
    let place = match p.places {
        Some(places) => places.comes,
        None => 0,
    };
    let entrant = if p.upkeep.listed {
        p.change.coming()
    } else {
        None
    };
    Coming { place, entrant }
}

// Gives the hidden moves whose flag changes, and the coming one.
pub fn entered_of(p: ChangePlan) -> Telling
    requires { p.upkeep.left ≤ p.need }
    ensures { result ≡ entered_of p }
{
    let verdict = p.verdict;
    let head = p.head;
    let numbers = p.upkeep.changed;
    Telling {
        told: View {
            head,
            mark: 2,
            among: Among::Hidden,
            coming: coming_in(p),
        },
        numbers,
        count: counted(verdict, p.need - p.upkeep.left),
    }
}
