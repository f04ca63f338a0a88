// Reads files of vectors, whose names are its arguments: a call a line, ` = `, the answer
// (bindings/README.md has the words of the lines). Makes each call, each file's on memory that was
// never loaded; writes each line whose answer is another, with what was answered, and for each file
// how many lines agree and how many ask no call that is here.
#![tactic(auto)]

mod address;
mod answer;
mod change;
mod file;
mod lists;
mod load;
mod pairs;
mod parse;
mod said;
mod told;
mod values;
mod week;
mod word;

use std::env::FillError;
use std::fs::File;
use std::rt::{Env, Files};
use std::{io, str};

// A file that can't be opened is named on standard error, and the next ones are read all the same.
fn named(rt: &(impl Files + Print + Eprint), name: &str) -> io::Result<()> {
    let mut file = match File::open(rt, name) {
        Ok(file) => file,
        Err(e) => return eprintln!(rt; "{name}: {e}"),
    };
    let r = file::read(rt, &mut file)?;
    println!(rt; "{name} {} agree, {} passed by", r.agree, r.passed)
}

// The file that the argument at place i names; says whether there is such an argument. A name that
// is too long, or no text, opens no file, and the next ones are read all the same.
fn argument(rt: &(impl Env + Files + Print + Eprint), i: usize) -> io::Result<bool> {
    let mut name = [0u8; 4096];
    let n = match rt.arg(i, &mut name) {
        Ok(n) => n,
        Err(FillError::TooLong) => 0,
        Err(FillError::NotPresent) => return Ok(false),
    };
    match str::from_utf8(&name[..n]) {
        Ok(text) => named(rt, text)?,
        Err(_) => eprintln!(rt; "argument {i} is no text")?,
    }
    Ok(true)
}

fn main(rt: HostRuntime) -> io::Result<()> {
    for i in 1..usize::MAX {
        if !argument(&rt, i)? {
            break;
        }
    }
    Ok(())
}
