//! Shards of some bits, with their tables and prefix counts.
use bitm_view::{IndexView, TablesView, build, lower_len, upper_len};
use sharded_index::prefix_sums;
use std::alloc::Global;
use std::test::Fail;

/// The bits of a shard, which are the first of its words, and the tables of the words.
#[derive(Drop)]
pub struct Made {
    words: Vec<u64>,
    upper: Vec<usize>,
    lower: Vec<u64>,
    len: usize,
}

/// As many zeros.
fn zeros(alloc: Global, len: usize) -> Result<Vec<u64>, Fail> {
    let mut made = Vec::new(alloc);
    for _ in 0..len {
        made.push(0u64)?;
    }
    Ok(made)
}

/// A shard of the first `len` bits of words.
pub fn shard(alloc: Global, words: Vec<u64>, len: usize) -> Result<Made, Fail> {
    let mut upper = Vec::new(alloc);
    for _ in 0..upper_len(words.len()) {
        upper.push(0usize)?;
    }
    let mut lower = zeros(alloc, lower_len(words.len()))?;
    let Some(_ones) = build(words.as_slice(), upper.as_mut_slice(), lower.as_mut_slice()) else {
        return Err("the tables have other lengths".into());
    };
    Ok(Made {
        words,
        upper,
        lower,
        len,
    })
}

/// Some words, by a generator of George Marsaglia's, in which few, half or most bits are 1 bits.
fn draw(alloc: Global, len: usize, kind: u64) -> Result<Vec<u64>, Fail> {
    let mut made = Vec::new(alloc);
    let mut state = 88172645463325252u64 ^ kind;
    for _ in 0..len {
        state ^= state << 13;
        state ^= state >> 7;
        state ^= state << 17;
        made.push(match kind % 5 {
            0 => state,
            1 => state & state >> 11 & state >> 23,
            2 => state | state << 7 | state << 29,
            3 => 0,
            _ => u64::MAX,
        })?;
    }
    Ok(made)
}

/// A shard of each number of bits: `kind` more for each.
pub fn shards(alloc: Global, lens: &[usize], kind: u64) -> Result<Vec<Made>, Fail> {
    let mut made = Vec::new(alloc);
    for at in 0..lens.len() {
        let words = draw(alloc, lens[at].div_ceil(64), kind.wrapping_add(at as u64))?;
        made.push(shard(alloc, words, lens[at])?)?;
    }
    Ok(made)
}

/// The views of shards.
pub fn views<'a>(alloc: Global, shards: &'a [Made]) -> Result<Vec<IndexView<'a>>, Fail> {
    let mut made = Vec::new(alloc);
    for shard in shards {
        let borrowed = TablesView::over(
            shard.words.as_slice(),
            shard.upper.as_slice(),
            shard.lower.as_slice(),
        );
        let Some(view) = borrowed.and_then(|borrowed| IndexView::over(borrowed, shard.len)) else {
            return Err("a shard has other lengths".into());
        };
        made.push(view)?;
    }
    Ok(made)
}

/// The bits of all shards, one by one.
pub fn joined(alloc: Global, shards: &[Made]) -> Result<Vec<bool>, Fail> {
    let mut made = Vec::new(alloc);
    for shard in shards {
        for at in 0..shard.len {
            let word = shard.words.as_slice().get(at / 64).copied().unwrap_or(0);
            made.push(word >> (at % 64) & 1 == 1)?;
        }
    }
    Ok(made)
}

/// How many bits, or 1 bits, there are before each shard, and in all.
pub fn before(alloc: Global, shards: &[Made], one: bool) -> Result<Vec<u64>, Fail> {
    let mut numbers = Vec::new(alloc);
    for shard in shards {
        let mut ones = 0u64;
        for at in 0..shard.len {
            let word = shard.words.as_slice().get(at / 64).copied().unwrap_or(0);
            ones = ones.wrapping_add(word >> (at % 64) & 1);
        }
        numbers.push(if one { ones } else { shard.len as u64 })?;
    }
    let mut sums = zeros(alloc, shards.len().saturating_add(1))?;
    if !prefix_sums(numbers.as_slice(), sums.as_mut_slice()) {
        return Err("the bits are too many".into());
    }
    Ok(sums)
}
