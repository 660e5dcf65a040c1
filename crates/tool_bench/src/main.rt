//! Times the calls of the library over one content, and prints a row of CSV for each.
//!
//! ```text
//! bench LOG2 KIND ROUNDS
//! bench keys COUNT ROUNDS
//! bench answers LOG2
//! ```
//!
//! The bit vector has 2^LOG2 bits, 10 to 33. KIND is `sparse`, `even` or `dense` (each 64th, second or seven of eight
//! bits is a 1 bit, on average), or one that misleads a guess: `end` (1 bits in the last sixteenth alone), `blocks` (1
//! bits and 0 bits by turns, 2^16 words of each) or `ramp` (ever more 1 bits). A value is the least of the rounds, of
//! the thread's processor time; a row is `row,by,log2,kind,value,unit,check`, where the check is a sum of the answers,
//! or the number of what was made. The second form times perfect hashes of the given number of keys, with rows
//! `row,by,keys,value,unit,check`. The third compares answers of matrices and trees with plain counts, and prints how
//! many were wrong. With other arguments the program prints its usage.
#![tactic(auto)]

ghost use Rattle.bitm.specs.Bits.{IsShort};
ghost use Rattle.std.specs.Prelude.{◌<◌};

// What is in each file:
// - `answers`: answers of matrices and trees, compared with plain counts over the same numbers and degrees
// - `bench`: rows, which are printed as they come, and the clock that times them
// - `content`: contents, numbers and queries that are drawn
// - `hashes`: rows of perfect hashes
// - `index`: rows of indexes
// - `many`: rows of calls of many queries at once
// - `numbers`: rows of wavelet matrices
// - `sequences`: rows of sequences
// - `trees`: rows of trees
// - `words`: rows of calls over words alone
mod answers;
mod bench;
mod content;
mod hashes;
mod index;
mod many;
mod numbers;
mod sequences;
mod trees;
mod words;

use answers::Compared;
use bench::Bench;
use bitm::BinaryRankSearch;
use content::{Kind, content, queries};
use index::{Asked, Sampled};
use std::alloc::{AllocError, Global};
use std::{env, io};
use wavelet_matrix::all_fit;

/// What is printed where the arguments are not a size, a kind and a number of rounds.
const USAGE: &str =
    "usage: bench LOG2 sparse|even|dense|end|blocks|ramp ROUNDS | bench keys COUNT ROUNDS | bench answers LOG2";

/// Adds the rows of numbers of `width` bits, by either strategy.
fn add_numbers(bench: &mut Bench<'_>, count: usize, width: u8) -> Result<(), AllocError>
    requires some { 0 < width }
    requires few { width < 17 }
{
    let drawn = numbers::numbers(bench.alloc(), count, width)?;
    let list = drawn.as_slice();
    if list.len() < 1 << 40 && all_fit(list, width) {
        numbers::add_matrix::<BinaryRankSearch, BinaryRankSearch>(bench, "binary", list, width)?;
        numbers::add_matrix::<Sampled, Sampled>(bench, "sampled", list, width)?;
        numbers::add_matrix::<Sampled, Sampled>(bench, "compact", list, width)?;
    }
    Ok(())
}

/// The queries of a bit vector.
#[derive(Drop)]
struct Drawn {
    positions: Vec<usize>,
    zeros: Vec<usize>,
    ones: Vec<usize>,
}

/// Draws the queries of this many bits, with this many 1 bits.
fn draw_queries(alloc: Global, bits: usize, ones: usize) -> Result<Drawn, AllocError> {
    let positions = queries(alloc, bits)?;
    let zeros = queries(alloc, bits.saturating_sub(ones))?;
    Ok(Drawn {
        positions,
        zeros,
        ones: queries(alloc, ones)?,
    })
}

/// Adds the rows of words and indexes over a bit vector, with these queries.
fn add_calls(bench: &mut Bench<'_>, content: &[u64], drawn: &Drawn) -> Result<(), AllocError>
    requires { IsShort content.now }
{
    let asked = Asked {
        positions: drawn.positions.as_slice(),
        ones: drawn.ones.as_slice(),
        zeros: drawn.zeros.as_slice(),
    };
    words::add_rows(bench, content, asked.positions);
    if bitm::words::count_bit_ones(content) < 1 << 32 {
        index::add_simple(bench, content, asked.positions);
    }
    index::add_rows::<BinaryRankSearch, BinaryRankSearch>(bench, "binary", content, asked)?;
    index::add_rows::<Sampled, Sampled>(bench, "sampled", content, asked)
}

/// Adds the rows of words and indexes over a bit vector.
fn add_content(bench: &mut Bench<'_>, kind: Kind, len: usize) -> Result<(), AllocError> {
    let kept = content(bench.alloc(), kind, len)?;
    let content = kept.as_slice();
    if content.len() >= 1 << 58 {
        return Ok(());
    }
    let ones = bitm::words::count_bit_ones(content);
    let drawn = draw_queries(bench.alloc(), content.len() * 64, ones)?;
    add_calls(bench, content, &drawn)
}

/// Adds the rows of a bit vector of 2^log2 bits, and, for the kind `even`, of sequences, trees and numbers of its size.
fn add_rows(bench: &mut Bench<'_>, log2: u32, kind: Kind) -> Result<(), AllocError>
    requires { log2 < 40 }
{
    let bits = 1usize << log2;
    add_content(bench, kind, bits / 64)?;
    if matches!(kind, Kind::Even) {
        sequences::add_rows(bench, bits / 4)?;
        trees::add_rows(bench, bits.min(1 << 24))?;
        add_numbers(bench, bits / 16, 8)?;
        add_numbers(bench, bits / 16, 16)?;
    }
    Ok(())
}

/// Adds the rows that two arguments name; `false` where they are none of the forms.
fn add_asked(bench: &mut Bench<'_>, size: &str, what: &str) -> Result<bool, AllocError> {
    if size == "keys" {
        let Ok(count) = what.parse::<usize>() else {
            return Ok(false);
        };
        hashes::add_rows(bench, count)?;
        return Ok(true);
    }
    match (size.parse::<u32>(), Kind::named(what)) {
        (Ok(log2), Some(kind)) => {
            add_rows(bench, log2.clamp(10, 33), kind)?;
            Ok(true)
        }
        _ => Ok(false),
    }
}

/// What the rows are of, as they print it.
fn name_of(alloc: Global, size: &str, what: &str) -> io::Result<String> {
    if size == "keys" {
        Ok(String::from_str(alloc, what)?)
    } else {
        Ok(format!(in alloc; "{size},{what}")?)
    }
}

/// Prints the rows that the arguments name, or the usage.
fn answer(rt: &HostRuntime, size: &str, what: &str, rounds: &str) -> io::Result<()> {
    let of = name_of(rt.alloc(), size, what)?;
    let mut bench = Bench::new(rt, of.as_str(), rounds.parse::<u32>().unwrap_or(1));
    if !add_asked(&mut bench, size, what)? {
        println!(rt; "{USAGE}")?;
    }
    if bench.lost() {
        return Err(io::Error::from(AllocError));
    }
    Ok(())
}

/// Prints how many answers were compared, and how many of them were wrong.
fn print_compared(rt: &HostRuntime, of: &str, compared: Compared) -> io::Result<()> {
    let (answers, wrong) = (compared.answers, compared.wrong);
    println!(rt; "{of}: {answers} answers, {wrong} wrong")
}

/// Compares answers over 2^log2 numbers and nodes.
fn compare(rt: &HostRuntime, log2: &str) -> io::Result<()> {
    let log2 = log2.parse::<u32>().unwrap_or(20).min(30);
    print_compared(rt, "numbers", answers::of_numbers(rt.alloc(), log2)?)?;
    print_compared(rt, "nodes", answers::of_nodes(rt.alloc(), log2)?)
}

fn main(rt: HostRuntime) -> io::Result<()> {
    let args: Vec<String> = env::args(&rt)?.skip(1).collect(rt.alloc())?;
    match args.as_slice() {
        [form, log2] if form.as_str() == "answers" => compare(&rt, log2.as_str()),
        [size, what, rounds] => answer(&rt, size.as_str(), what.as_str(), rounds.as_str()),
        _ => {
            println!(&rt; "{USAGE}")?;
            Ok(())
        }
    }
}
