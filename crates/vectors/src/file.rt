// A file, read to its end.
use crate::answer::agrees;
use crate::parse::{Line, store};
use crate::values::{VALUES, value};
use crate::word::Word;
use std::io;
use std::io::Read;

// More than the largest board needs.
const MEMORY: usize = 263200;

// The line as far as it was read, how long the longest load was so far, how many lines before it
// agree, and how many were passed by.
#[derive(Clone, Copy)]
pub struct Reading {
    pub line: Line,
    pub bytes: usize,
    pub agree: u64,
    pub passed: u64,
}

// How many bytes the line's call is lent.
fn lent(word: Option<Word>, bytes: usize, values: &[u64]) -> usize {
    match word {
        Some(Word::Load(_)) => value(values, 0) as usize,
        _ => bytes,
    }
}

// After a load the memory is at least as long as the load's.
fn answered(rt: &impl Print, r: Reading, memory: &mut [u8], values: &[u64]) -> io::Result<Reading> {
    let word = Word::of(r.line.last_bytes());
    let mut next = r;
    next.line = Line::new();
    if let Some(Word::Passed) = word {
        next.passed = r.passed % 1000000000 + 1;
        return Ok(next);
    }
    let n = lent(word, r.bytes, values).min(memory.len());
    next.bytes = r.bytes.max(n);
    if agrees(rt, r.line, word, &mut memory[..n], values)? {
        next.agree = r.agree % 1000000000 + 1;
    }
    Ok(next)
}

fn take(
    rt: &impl Print,
    r: Reading,
    b: u8,
    memory: &mut [u8],
    values: &mut [u64],
) -> io::Result<Reading> {
    store(values, r.line, b);
    let mut after = r;
    after.line = r.line.step(b);
    if b == b'\n' {
        return answered(rt, after, memory, values);
    }
    Ok(after)
}

fn taken(
    rt: &impl Print,
    reading: Reading,
    bytes: &[u8],
    memory: &mut [u8],
    values: &mut [u64],
) -> io::Result<Reading> {
    let mut r = reading;
    for b in bytes {
        r = take(rt, r, *b, memory, values)?;
    }
    Ok(r)
}

// One read, taken byte by byte; none at the end of the file.
fn fed(
    rt: &impl Print,
    r: Reading,
    file: &mut impl Read,
    memory: &mut [u8; MEMORY],
    values: &mut [u64; VALUES],
) -> io::Result<Option<Reading>> {
    let mut buffer = [0u8; 4096];
    let n = file.read(&mut buffer)?;
    if n == 0 {
        return Ok(None);
    }
    Ok(Some(taken(rt, r, &buffer[..n], memory, values)?))
}

// Nothing says that a file ends, so the loop counts up to a number that no run reaches.
pub fn read(rt: &impl Print, file: &mut impl Read) -> io::Result<Reading> {
    let mut memory = [0u8; MEMORY];
    let mut values = [0u64; VALUES];
    let mut r = Reading {
        line: Line::new(),
        bytes: 0,
        agree: 0,
        passed: 0,
    };
    for _ in 0..u64::MAX {
        let Some(next) = fed(rt, r, file, &mut memory, &mut values)? else {
            break;
        };
        r = next;
    }
    Ok(r)
}
