//! Makes each call that takes memory, and prints how it ended.
//!
//! A line is `ok`, or `refused` where memory was refused to the call and its arguments are unharmed, or `unready` where
//! memory was refused to what comes before the call; else it is `wrong`. The program itself takes no memory but in its
//! calls. So where one of its requests is refused, just one line has to say so: else a call has overlooked it.
#![tactic(auto)]

// What is in each file:
// - `collections`: the calls of a collection of texts that take memory
// - `numbers`: the calls of a matrix, of a perfect hash and of a dictionary that take memory
// - `outcome`: what is handed to the calls, and how they end
// - `packed`: the calls of the packed index and of its strategies that take memory
// - `sequences`: the calls of a sequence that take memory, and those of its users
// - `simple`: the calls of a simple rank that take memory
// - `sparse`: the calls of sparse bits that take memory
// - `texts`: the calls of a text index that take memory
// - `trees`: the calls of a tree that take memory
// - `tries`: the calls of trees by their parents and of trees with labels that take memory
// - `uncopied`: a bit vector as a user writes it, which cannot be copied
// - `words`: the constructors of words, and copies of words
mod collections;
mod numbers;
mod outcome;
mod packed;
mod sequences;
mod simple;
mod sparse;
mod texts;
mod trees;
mod tries;
mod uncopied;
mod words;

use outcome::{Ended, Outcome};
use std::io;
use std::process::ExitCode;

fn main(rt: HostRuntime) -> io::Result<ExitCode> {
    let alloc = rt.alloc();
    let mut wrong = report(&rt, words::ended(alloc).as_slice())?;
    wrong |= report(&rt, simple::ended(alloc).as_slice())?;
    wrong |= report(&rt, packed::ended(alloc).as_slice())?;
    wrong |= report(&rt, sequences::ended(alloc).as_slice())?;
    wrong |= report(&rt, numbers::ended(alloc).as_slice())?;
    wrong |= report(&rt, texts::ended(alloc).as_slice())?;
    wrong |= report(&rt, trees::ended(alloc).as_slice())?;
    wrong |= report(&rt, tries::ended(alloc).as_slice())?;
    wrong |= report(&rt, sparse::ended(alloc).as_slice())?;
    wrong |= report(&rt, collections::ended(alloc).as_slice())?;
    Ok(ExitCode::from(wrong as u8))
}

/// Prints how each call ended, and answers whether one is wrong.
fn report(rt: &HostRuntime, calls: &[Ended]) -> io::Result<bool> {
    let mut wrong = false;
    for (name, outcome) in calls {
        println!(rt; "{name} {}", outcome.name())?;
        wrong |= matches!(outcome, Outcome::Wrong);
    }
    Ok(wrong)
}
