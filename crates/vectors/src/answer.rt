// A line answered.
use crate::change::{change, preview};
use crate::lists::{list, rank};
use crate::load::load;
use crate::parse::Line;
use crate::said::Said;
use crate::week::hours_at;
use crate::word::Word;
use crate::{address, pairs, said};
use std::io;

// The calls that leave the memory as it was, and those on no board.
fn read(rt: &impl Print, memory: &[u8], values: &[u64], word: Word, s: Said) -> io::Result<Said> {
    match word {
        Word::Preview(x) => preview(rt, memory, x, values, s),
        Word::List(asked) => list(rt, memory, asked, values, s),
        Word::Rank => rank(rt, memory, values, s),
        Word::Hours => hours_at(rt, memory, values, s),
        Word::Address(asked) => address::answer(rt, values, asked, s),
        Word::Pair(asked) => pairs::answer(rt, values, asked, s),
        Word::Load(_) | Word::Change(_) | Word::Passed => Ok(s),
    }
}

// A word that asks nothing known has no answer.
fn call(
    rt: &impl Print,
    memory: &mut [u8],
    values: &[u64],
    word: Option<Word>,
    s: Said,
) -> io::Result<Said> {
    match word {
        Some(Word::Load(blocks)) => load(rt, memory, blocks, values, s),
        Some(Word::Change(x)) => change(rt, memory, x, values, s),
        Some(other) => read(rt, memory, values, other, s),
        None => Ok(s),
    }
}

// Says whether the answer is the line's.
pub fn agrees(
    rt: &impl Print,
    l: Line,
    word: Option<Word>,
    memory: &mut [u8],
    values: &[u64],
) -> io::Result<bool> {
    let s = call(rt, memory, values, word, said::begun(l))?;
    said::ended(rt, values, s)
}
