// Definitions 1, 5 and 7 and Card 4's rule on rows, and the rows selected by them.
use crate::table::{Area, Row, Table, number_of, put_row, row_at};
use crate::week::is_open;
use zorder::COSTS;

// The set of all costs.
pub const ALL: usize = (1 << COSTS) - 1;

// How one row stands to another: it beats it on a set of costs, bit i for cost i; on some k of the
// first d costs; it keeps it out of the list; it keeps it out of the list over open blocks at a
// minute; it is beaten; it is the same.
#[derive(Clone, Copy)]
pub enum Test {
    Beats(usize),
    BeatsOn(usize, usize),
    Hides,
    HidesAt(usize),
    Beaten,
    Same,
}

// Says whether p is nowhere greater than q on a set of costs.
pub fn nowhere_greater(set: usize, p: Row, q: Row) -> bool {
    (0..COSTS).all(|i| (set >> i) % 2 == 0 || p[2 + i] <= q[2 + i])
}

// Says whether p is nowhere greater and somewhere less.
pub fn beats(set: usize, p: Row, q: Row) -> bool {
    nowhere_greater(set, p, q) && !nowhere_greater(set, q, p)
}

// Card 4's words: it dominates the other, or its costs are equal and its number is lower.
fn hides(p: Row, q: Row) -> bool {
    beats(ALL, p, q) || (p[2..] == q[2..] && number_of(p) < number_of(q))
}

// Card 8's words: a move in a shut block is not shown, and keeps no other out.
fn hides_at(minute: usize, p: Row, q: Row) -> bool {
    !is_open(minute, q) || (is_open(minute, p) && hides(p, q))
}

fn beats_on(k: usize, d: usize, p: Row, q: Row) -> bool {
    (0..1usize << (d % 64)).any(|set| set.count_ones() as usize == k && beats(set, p, q))
}

fn stands(test: Test, p: Row, q: Row) -> bool {
    match test {
        Test::Beats(set) => beats(set, p, q),
        Test::BeatsOn(k, d) => beats_on(k, d, p, q),
        Test::Hides => hides(p, q),
        Test::HidesAt(minute) => hides_at(minute, p, q),
        Test::Beaten => beats(ALL, q, p),
        Test::Same => p == q,
    }
}

// The first rows of an area.
#[derive(Clone, Copy)]
pub struct Part {
    pub area: Area,
    pub count: usize,
}

// Counts how many rows of a part stand so to a row; counted no further than one past `most`.
pub fn count(t: &Table, part: Part, test: Test, r: Row, most: usize) -> usize {
    (0..part.count)
        .filter(|&i| stands(test, row_at(t, part.area, i), r))
        .take(most.saturating_add(1))
        .count()
}

// The rows to which `most` or fewer of `against` stand so, with a mark, put after the first `at` of
// an area.
#[derive(Clone, Copy)]
pub struct Pick {
    pub against: Part,
    pub test: Test,
    pub most: usize,
    pub mark: u16,
    pub to: Area,
    pub at: usize,
}

// A row with its new mark, if it is picked.
fn marked(t: &Table, area: Area, i: usize, by: Pick) -> Option<Row> {
    let mut r = row_at(t, area, i);
    if by.most < count(t, by.against, by.test, r, by.most) {
        return None;
    }
    r[0] = by.mark;
    Some(r)
}

// Selects rows into an area, and counts how many stand there then.
pub fn select(t: &mut Table, part: Part, by: Pick) -> usize {
    let mut k = by.at;
    for i in 0..part.count {
        if let Some(r) = marked(t, part.area, i, by) {
            put_row(t, by.to, k, r);
            k = k % 5000 + 1;
        }
    }
    k
}
