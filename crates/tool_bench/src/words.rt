//! Rows of calls over words alone.
use crate::bench::{Batch, Bench, Label, sum};
use bitm::{select64, words};

/// The position of the 1 bit of a word with this rank, 0 where it has none.
#[inline(always)]
#[tactic(auto, using(bitm::proofs::Callers::ones_of_word))]
fn position_in_word(word: u64, rank: u8) -> usize {
    if (rank as u32) < word.count_ones() {
        select64(word, rank) as usize
    } else {
        0
    }
}

/// Selects in one of the first 1024 words, which has no fewer than 32 ones.
#[inline(always)]
fn select_in_word(content: &[u64], position: usize) -> Option<usize> {
    let word = content.get(position / 64 % 1024)?;
    Some(position_in_word(*word | 0x00FF_FF00_FFFF_0000, (position % 32) as u8))
}

/// A rank by a scan from the begin, without a table.
#[inline(always)]
fn scanned_rank(content: &[u64], position: usize) -> Option<usize> {
    let last = content.get(position / 64)?;
    let mut ones = (*last & ((1 << (position % 64)) - 1)).count_ones() as usize;
    for word in &content[..position / 64] {
        ones = ones.wrapping_add(word.count_ones() as usize);
    }
    Some(ones)
}

/// A call over words.
#[derive(Clone, Copy)]
enum Call {
    Bit,
    Bits,
    Ones,
    Scan,
    Select,
}

/// Calls over words.
#[derive(Drop)]
struct Calls<'a> {
    call: Call,
    content: &'a [u64],
    positions: &'a [usize],
}

impl<'a> Batch for Calls<'a> {
    #[inline(never)]
    fn run(&self) -> usize {
        let (content, positions) = (self.content, self.positions);
        match self.call {
            Call::Bit => sum!(positions, position => words::try_get_bit(content, *position)),
            Call::Bits => sum!(positions, position => words::try_get_bits(content, *position, 13)),
            Call::Ones if content.len() < 1 << 58 => words::count_bit_ones(content),
            Call::Ones => 0,
            Call::Scan => sum!(positions, position => scanned_rank(content, *position)),
            Call::Select => sum!(positions, position => select_in_word(content, *position)),
        }
    }
}

/// Adds the rows of words: of single bits and of numbers of 13 bits, of all ones counted, of four ranks by a scan, and
/// of selections in words.
pub(crate) fn add_rows(bench: &mut Bench<'_>, content: &[u64], positions: &[usize]) {
    let some = &positions[..positions.len().min(4)];
    for (name, call, positions, calls) in [
        ("get_bit", Call::Bit, positions, positions.len()),
        ("get_bits_13", Call::Bits, positions, positions.len()),
        (
            "count_bit_ones_a_word",
            Call::Ones,
            positions,
            content.len(),
        ),
        ("rank_scan", Call::Scan, some, some.len()),
        ("select64", Call::Select, positions, positions.len()),
    ] {
        let batch = Calls {
            call,
            content,
            positions,
        };
        bench.least(Label(name, "words"), calls, &batch);
    }
}
