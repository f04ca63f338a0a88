// What was compared, counted in cells: one for each letter, digit or sign that a name goes with.
use crate::call::{Call, Change};
use crate::plain::Plain;
use std::io;

pub type Tally = [u64; 128];

// Adds to one of the tallies.
pub fn add(u: &mut Tally, cell: u8, v: usize) {
    let i = usize::from(cell % 128);
    u[i] = u[i] % 1000000000000 + v as u64 % 1000000;
}

// The cell of a call by its answer; its rows have the cell of the other case, which may be one
// without a name.
fn cell(k: Call, refusal: usize) -> u8 {
    if 0 < refusal {
        48 + (refusal % 16) as u8
    } else if k.changes() {
        b'c'
    } else {
        k.letter()
    }
}

// The letter of a call where the two disagree, and the board's number.
fn judge(rt: &impl Print, u: &mut Tally, letter: u8, right: bool) -> io::Result<()> {
    if right {
        return Ok(());
    }
    add(u, b'!', 1);
    rt.write_all(&[letter])?;
    println!(rt; " {}", u[usize::from(b'#')])
}

// Counts a call and its answer.
pub fn count(rt: &impl Print, u: &mut Tally, k: Call, b: Plain) -> io::Result<()> {
    let name = cell(k, b.answer.refusal);
    add(u, name, 1);
    add(u, name ^ 32, b.answer.count);
    add(u, if k.changes() { b'w' } else { b'o' }, b.answer.opened);
    add(u, b'h', usize::from(b.held.is_some()));
    judge(rt, u, k.letter(), b.right)
}

// Previews have cells of their own, and no holder hears them. Where one is wrong its letter is a
// capital.
pub fn count_preview(rt: &impl Print, u: &mut Tally, x: Change, b: Plain) -> io::Result<()> {
    add(u, if b.answer.accepts() { b'p' } else { b'x' }, 1);
    add(u, b'P', b.answer.count);
    add(u, b'v', b.answer.opened);
    judge(rt, u, x.letter() ^ 32, b.right)
}

// The cells that are printed, with their names.
const NAMES: [(u8, &str); 31] = [
    (b'#', "boards"),
    (b'^', "of size 4096"),
    (b'L', "loads"),
    (b'c', "changes"),
    (b'C', "rows of their notices"),
    (b'Q', "lists"),
    (b'q', "rows listed"),
    (b'o', "nodes opened"),
    (b'w', "nodes opened on withdrawals"),
    (b'B', "bands"),
    (b'R', "ranks"),
    (b'K', "on k"),
    (b'S', "chosen"),
    (b'Y', "hours"),
    (b'p', "previews"),
    (b'a', "of changes not made"),
    (b'P', "rows of previews"),
    (b'v', "nodes opened on previews"),
    (b'x', "previews refused"),
    (b'h', "lists of the holder"),
    (b'1', "refused 1"),
    (b'2', "refused 2"),
    (b'3', "refused 3"),
    (b'4', "refused 4"),
    (b'5', "refused 5"),
    (b'6', "refused 6"),
    (b'7', "refused 7"),
    (b'8', "refused 8"),
    (b';', "refused 11"),
    (b'<', "refused 12"),
    (b'!', "disagreements"),
];

// Writes all tallies.
pub fn put_all(rt: &impl Print, u: &Tally) -> io::Result<()> {
    for (cell, name) in &NAMES {
        println!(rt; "{name} {}", u[usize::from(*cell % 128)])?;
    }
    Ok(())
}
