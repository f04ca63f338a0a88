// What is told of one memory: the moves of a set of numbers, in Z-order, under one mark.
ghost use Rattle.std.specs.Prelude.{◌≡◌, ◌≤◌};
ghost use Rattle.rows.specs.Telling as spec;

use crate::row::{ROW, row_of};
use dominance::Move;
use memory::{Head, move_at, number_at};
use numbers::{WORDS, empty, has};
use search::{Among, looks};

// The coming move of a notice stands before the move at its place. It may be that none is told: the
// place is a position all the same.
#[derive(Clone, Copy)]
pub struct Coming {
    pub place: usize,
    pub entrant: Option<Move>,
}

// Which moves of a set are told, all or the listed or the hidden ones, and under which mark.
#[derive(Clone, Copy)]
pub struct View {
    pub head: Head,
    pub mark: u16,
    pub among: Among,
    pub coming: Coming,
}

// `count` rows are told. The set goes by reference where rows are told one by one: it would be
// copied for each of them.
#[derive(Clone, Copy)]
pub struct Telling {
    pub told: View,
    pub numbers: [u64; WORDS],
    pub count: usize,
}

// A row, and the position from which the next one is looked for.
#[derive(Clone, Copy)]
pub struct Step {
    pub row: [u16; ROW],
    pub next: usize,
}

// No move comes: a list has none.
pub fn nobody() -> Coming
    ensures { result ≡ spec.nobody }
{
    Coming {
        place: 0,
        entrant: None,
    }
}

// Gives the moves of these numbers, told as listed.
pub(crate) fn listing_of(head: Head, numbers: [u64; WORDS], count: usize) -> Telling
    ensures { result ≡ spec.listing head numbers count }
{
    Telling {
        told: View {
            head,
            mark: 0,
            among: Among::All,
            coming: nobody(),
        },
        numbers,
        count,
    }
}

// No row is told, of whatever memory.
pub fn no_telling() -> Telling
    ensures { result.count ≡ 0 }
{
    let head = Head {
        size: 0,
        dimension: 0,
        count: 0,
    };
    listing_of(head, empty(), 0)
}

// Positions are the places of the board, with the coming move before its own.
fn place_at(place: usize, i: usize) -> usize
    requires { i ≡ place → ⊥ }
    ensures { result ≡ spec.place_of place i }
{
    if i < place { i } else { i - 1 }
}

// The row told at position i, if one is.
fn told_at(m: &[u8], t: View, numbers: &[u64; WORDS], i: usize) -> Option<[u16; ROW]>
    requires { spec.TellingAsked t m.now × (i ≤ t.head.count) }
    ensures { result ≡ spec.told_row t numbers.now m.now i }
{
    let h = t.head;
    let coming = t.coming;
    let place = coming.place;
    if i == place {
        let x = coming.entrant?;
        return Some(row_of(x, t.mark));
    }
    let p = place_at(place, i);
    let number = number_at(m, h.size, p);
    if has(numbers, number) && looks(m, h.size, number, t.among) {
        return Some(row_of(move_at(m, h.size, h.dimension, p), t.mark));
    }
    None
}

// Gives the first told row from position i on.
pub fn told_next(m: &[u8], t: View, numbers: &[u64; WORDS], i: usize) -> Step
    requires { spec.TellingAsked t m.now }
    ensures { (result.row ≡ spec.next_row t numbers.now m.now i)
        × (result.next ≡ spec.next_at t numbers.now m.now i) }
{
    let h = t.head;
    let end = h.count + 1;
    for j in i..end {
        if let Some(row) = told_at(m, t, numbers, j) {
            return Step { row, next: j + 1 };
        }
    }
    Step {
        row: [0u16; ROW],
        next: end,
    }
}
