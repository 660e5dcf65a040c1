//! Reads the numbers of a file as bits: how many there are below 100, number 100, the next from 900 on, the last below.
#![tactic(auto)]

ghost use Rattle.std.specs.Prelude.{◌≡◌, length};

use bitm::{
    AdaptiveCombinedSamplingDensity, BitVec, CombinedSampling, HasBits, Rank, RankSelect101111,
    Select, ranges, words,
};
use std::boxed::BoxedSlice;
use std::{env, fs, io};

type Samples = CombinedSampling<AdaptiveCombinedSamplingDensity<13>>;

/// Sets the bit of each number that stands in a line of the text.
fn mark(content: &mut [u64], text: &str)
    ensures { length content.new ≡ length content.old }
{
    for line in text.lines() {
        if let Ok(number) = line.trim().parse::<usize>() {
            words::try_set_bit(content, number);
        }
    }
}

/// The first number from `position` on, and the last number before it, if there are both.
fn beside<I: Rank + Select>(index: &I, position: usize) -> Option<(usize, usize)> {
    if position == 0 || position >= index.len() {
        return None;
    }
    Some((
        ranges::next_one(index, position)?,
        ranges::previous_one(index, position - 1)?,
    ))
}

fn main(rt: HostRuntime) -> io::Result<()> {
    let alloc = rt.alloc();
    let args: Vec<String> = env::args(&rt)?.skip(1).collect(alloc)?;
    let [path] = args.as_slice() else {
        println!(rt; "usage: primes FILE")?;
        return Ok(());
    };
    let text = fs::read_to_string(&rt, path.as_str())?;
    let mut content = BoxedSlice::with_zeroed_bits(alloc, 1024)?;
    mark(content.as_mut_slice(), text.as_str());
    let Ok((index, _ones)) = RankSelect101111::<Samples, Samples, _>::build(alloc, content) else {
        return Err(io::ErrorKind::OutOfMemory.into());
    };
    let Some((next, last)) = beside(&index, 900) else {
        return Ok(());
    };
    let (below, number) = (index.try_rank(100), index.try_select(100));
    println!(rt;
        "below 100: {}\nnumber 100, from 0: {}",
        below.unwrap_or(0),
        number.unwrap_or(0)
    )?;
    println!(rt; "the next from 900 on: {next}\nthe last below 900: {last}")
}
