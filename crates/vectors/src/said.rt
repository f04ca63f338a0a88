// What is answered to a line, number by number, held against what the line says. From the first
// number that differs on the line is written, with what is answered.
use crate::parse::Line;
use crate::values::value;
use std::io;

// A line's word, how many of its numbers are asked and how many there are, the place of the next
// one answered.
#[derive(Clone, Copy)]
pub struct Said {
    pub word: [u8; 3],
    pub asked: usize,
    pub count: usize,
    pub at: usize,
    pub agrees: bool,
}

// Begins what is said to a line.
pub fn begun(l: Line) -> Said {
    Said {
        word: l.last_bytes(),
        asked: l.asked,
        count: l.count,
        at: l.asked,
        agrees: true,
    }
}

// Writes a blank and a number.
pub fn write_number(rt: &impl Print, n: u64) -> io::Result<()> {
    print!(rt; " {n}")
}

// A word of fewer bytes has zeros before them.
fn write_word(rt: &impl Print, word: [u8; 3]) -> io::Result<()> {
    for b in word {
        if 0 < b {
            rt.write_all(&[b])?;
        }
    }
    Ok(())
}

// Writes numbers to standard output.
pub fn write_numbers(rt: &impl Print, values: &[u64], from: usize, to: usize) -> io::Result<()> {
    for i in from..to {
        write_number(rt, value(values, i))?;
    }
    Ok(())
}

// The line as far as the answer agrees.
fn write_agreed(rt: &impl Print, values: &[u64], s: Said) -> io::Result<()> {
    write_word(rt, s.word)?;
    write_numbers(rt, values, 0, s.asked)?;
    rt.write_all(b" =")?;
    write_numbers(rt, values, s.asked, s.at)
}

// Goes on with one number more.
pub fn put(rt: &impl Print, values: &[u64], s: Said, n: u64) -> io::Result<Said> {
    let mut r = s;
    if s.agrees {
        if s.at < s.count && value(values, s.at) == n {
            r.at = s.at + 1;
            return Ok(r);
        }
        write_agreed(rt, values, s)?;
        r.agrees = false;
    }
    write_number(rt, n)?;
    Ok(r)
}

// Goes on with all of the numbers.
pub fn put_all(rt: &impl Print, values: &[u64], s: Said, ns: &[u16]) -> io::Result<Said> {
    let mut r = s;
    for n in ns {
        r = put(rt, values, r, u64::from(*n))?;
    }
    Ok(r)
}

// Says whether all of the answer agrees; else the line that was written ends.
pub fn ended(rt: &impl Print, values: &[u64], s: Said) -> io::Result<bool> {
    if s.agrees {
        if s.at == s.count {
            return Ok(true);
        }
        write_agreed(rt, values, s)?;
    }
    rt.write_all(b"\n")?;
    Ok(false)
}
