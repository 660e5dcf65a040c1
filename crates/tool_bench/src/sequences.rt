//! Rows of sequences: access, successor and going in order, by samples, by binary search and in a sorted array.
use crate::bench::{Batch, Bench, Label, sum};
use crate::content::{draw, queries};
use crate::index::Sampled;
use bitm::{BinaryRankSearch, Select0ForRank101111, SelectForRank101111};
use elias_fano::Sequence;
use std::alloc::{AllocError, Global};

/// `count` numbers, each greater than the number before it by less than 1000.
fn numbers(alloc: Global, count: usize) -> Result<Vec<u64>, AllocError> {
    let mut state = 88_172_645_463_325_252;
    let mut last = 0u64;
    let mut numbers = Vec::with_capacity(alloc, count)?;
    for _ in 0..count {
        last = last.saturating_add(draw(&mut state) % 1000);
        numbers.push(last)?;
    }
    Ok(numbers)
}

/// The index of the first of rising numbers that is at least the value, by binary search.
#[inline(always)]
fn halves(numbers: &[u64], value: u64) -> usize {
    let mut position = 0usize;
    let mut left = numbers.len();
    // As often as a length has binary digits.
    for _ in 0..64 {
        let half = left / 2;
        let at = position.wrapping_add(half);
        match numbers.get(at) {
            Some(number) if left > 0 => {
                if *number < value {
                    position = at.wrapping_add(1);
                    left = left.saturating_sub(1).saturating_sub(half);
                } else {
                    left = half;
                }
            }
            _ => return position,
        }
    }
    position
}

/// The queries of a sequence: indices, and values whose successors are sought.
#[derive(Drop)]
struct Asked {
    positions: Vec<usize>,
    values: Vec<usize>,
}

/// Draws the queries of `count` numbers up to the last.
fn draw_asked(alloc: Global, count: usize, last: usize) -> Result<Asked, AllocError> {
    let positions = queries(alloc, count)?;
    Ok(Asked {
        positions,
        values: queries(alloc, last)?,
    })
}

/// Builds a sequence, and adds its rows.
fn add_sequence<'a, S: SelectForRank101111, S0: Select0ForRank101111>(
    bench: &mut Bench<'a>,
    by: &'a str,
    list: &[u64],
    asked: &Asked,
) -> Result<(), AllocError> {
    match Sequence::<S, S0>::build(bench.alloc(), list) {
        Ok(sequence) => {
            add_calls(
                bench,
                by,
                &sequence,
                asked.positions.as_slice(),
                asked.values.as_slice(),
            );
            Ok(())
        }
        Err(_) => Err(AllocError),
    }
}

/// A call of a sequence.
#[derive(Clone, Copy)]
enum Call {
    Get,
    FirstAtLeast,
    InOrder,
}

/// Calls of a sequence.
#[derive(Drop)]
struct Calls<'a, S: SelectForRank101111, S0: Select0ForRank101111> {
    call: Call,
    sequence: &'a Sequence<S, S0>,
    asked: &'a [usize],
}

impl<'a, S: SelectForRank101111, S0: Select0ForRank101111> Batch for Calls<'a, S, S0> {
    #[inline(never)]
    fn run(&self) -> usize {
        let (sequence, asked) = (self.sequence, self.asked);
        match self.call {
            Call::Get => sum!(asked, position => sequence.try_get(*position)),
            Call::FirstAtLeast => sum!(asked, value => sequence.first_at_least(*value as u64)),
            Call::InOrder => sum!(sequence.iter(), number => Some(number)),
        }
    }
}

/// Adds the rows of a sequence.
fn add_calls<'a, S: SelectForRank101111, S0: Select0ForRank101111>(
    bench: &mut Bench<'a>,
    by: &'a str,
    sequence: &Sequence<S, S0>,
    positions: &[usize],
    values: &[usize],
) {
    for (name, call, asked, calls) in [
        ("sequence_get", Call::Get, positions, positions.len()),
        (
            "sequence_first_at_least",
            Call::FirstAtLeast,
            values,
            values.len(),
        ),
        ("sequence_in_order", Call::InOrder, values, sequence.len()),
    ] {
        let batch = Calls {
            call,
            sequence,
            asked,
        };
        bench.least(Label(name, by), calls, &batch);
    }
}

/// Searches in a sorted array.
#[derive(Drop)]
struct Searches<'a> {
    list: &'a [u64],
    values: &'a [usize],
}

impl<'a> Batch for Searches<'a> {
    #[inline(never)]
    fn run(&self) -> usize {
        sum!(self.values, value => Some(halves(self.list, *value as u64)))
    }
}

/// Adds the row of a sorted array.
fn add_array(bench: &mut Bench<'_>, list: &[u64], values: &[usize]) {
    let label = Label("sequence_first_at_least", "sorted array");
    bench.least(label, values.len(), &Searches { list, values });
}

/// Adds the rows of these numbers and queries.
fn add_all(bench: &mut Bench<'_>, list: &[u64], asked: &Asked) -> Result<(), AllocError> {
    add_array(bench, list, asked.values.as_slice());
    add_sequence::<Sampled, Sampled>(bench, "sampled", list, asked)?;
    add_sequence::<BinaryRankSearch, BinaryRankSearch>(bench, "binary", list, asked)
}

/// Adds the rows of `count` numbers.
pub(crate) fn add_rows(bench: &mut Bench<'_>, count: usize) -> Result<(), AllocError> {
    let drawn = numbers(bench.alloc(), count)?;
    let list = drawn.as_slice();
    let last = list.last().copied().unwrap_or(0) as usize;
    let asked = draw_asked(bench.alloc(), list.len(), last)?;
    add_all(bench, list, &asked)
}
