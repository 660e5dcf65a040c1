//! Rows of wavelet matrices of 8 and of 16 bits: numbers by their indices, ranks and selections of numbers, by samples
//! and by binary search, and of compact matrices, by samples.
ghost use Rattle.std.specs.Prelude.{◌^◌, ◌<◌, ◌≤◌, All, length};

use crate::bench::{Batch, Bench, Label, sum};
use crate::content::{draw, queries};
use bitm::{GetSize, Select0ForRank101111, SelectForRank101111};
use std::alloc::{AllocError, Global};
use wavelet_matrix::{WaveletMatrix, all_fit};

/// The names of the rows of a matrix: a number to build, its bits, and the calls.
type Names = [&'static str; 5];

const OF_8: Names = [
    "numbers8_build_a_number",
    "numbers8_space_a_number",
    "numbers8_get",
    "numbers8_rank",
    "numbers8_select",
];

const OF_16: Names = [
    "numbers16_build_a_number",
    "numbers16_space_a_number",
    "numbers16_get",
    "numbers16_rank",
    "numbers16_select",
];

/// `count` numbers of `width` bits, drawn evenly.
pub(crate) fn numbers(alloc: Global, count: usize, width: u8) -> Result<Vec<u64>, AllocError>
    requires { width < 64 }
{
    let mut state = 88_172_645_463_325_252;
    let mut numbers = Vec::with_capacity(alloc, count)?;
    for _ in 0..count {
        numbers.push(draw(&mut state) & ((1 << width) - 1))?;
    }
    Ok(numbers)
}

/// A number, with an index before which it is counted or with the rank among equal numbers that is sought.
type Pair = (u64, usize);

/// A call of a matrix.
#[derive(Clone, Copy)]
enum Call {
    Get,
    Rank,
    Select,
}

/// Pairs each index with the number at another index, or the number there with how many equal numbers come before.
fn pairs<S: SelectForRank101111, S0: Select0ForRank101111>(
    alloc: Global,
    matrix: &WaveletMatrix<S, S0>,
    positions: &[usize],
    selected: bool,
) -> Result<Vec<Pair>, AllocError> {
    let mut pairs = Vec::with_capacity(alloc, positions.len())?;
    for position in positions {
        let pair = if selected {
            let number = matrix.try_get(*position).unwrap_or(0);
            (number, matrix.try_rank(number, *position).unwrap_or(0))
        } else {
            let other = position.wrapping_add(1) % matrix.len().max(1);
            (matrix.try_get(other).unwrap_or(0), *position)
        };
        pairs.push(pair)?;
    }
    Ok(pairs)
}

/// Calls of a matrix: numbers are got from positions, and ranked and selected by pairs.
#[derive(Drop)]
struct Calls<'a, S: SelectForRank101111, S0: Select0ForRank101111> {
    call: Call,
    matrix: &'a WaveletMatrix<S, S0>,
    positions: &'a [usize],
    pairs: &'a [Pair],
}

impl<'a, S: SelectForRank101111, S0: Select0ForRank101111> Batch for Calls<'a, S, S0> {
    #[inline(never)]
    fn run(&self) -> usize {
        let matrix = self.matrix;
        match self.call {
            Call::Get => sum!(self.positions, position => matrix.try_get(*position)),
            Call::Rank => sum!(self.pairs, it => matrix.try_rank(it.0, it.1)),
            Call::Select => sum!(self.pairs, it => matrix.try_select(it.0, it.1)),
        }
    }
}

/// Adds the row of a call.
fn add_call<'a, S: SelectForRank101111, S0: Select0ForRank101111>(
    bench: &mut Bench<'a>,
    label: Label<'a>,
    matrix: &WaveletMatrix<S, S0>,
    positions: &[usize],
    call: Call,
) -> Result<(), AllocError> {
    let asked = if matches!(call, Call::Get) {
        &positions[..0]
    } else {
        positions
    };
    let kept = pairs(bench.alloc(), matrix, asked, matches!(call, Call::Select))?;
    let calls = Calls {
        call,
        matrix,
        positions,
        pairs: kept.as_slice(),
    };
    bench.least(label, positions.len(), &calls);
    Ok(())
}

/// Builds a matrix, a compact one where `by` is `compact`, and adds its rows.
pub(crate) fn add_matrix<'a, S: SelectForRank101111 + GetSize, S0: Select0ForRank101111 + GetSize>(
    bench: &mut Bench<'a>,
    by: &'a str,
    numbers: &[u64],
    width: u8,
) -> Result<(), AllocError>
    requires some { 1 ≤ width }
    requires few { width ≤ 16 }
    requires fit { All (λ x. x < 2 ^ width) numbers.now }
    requires short { length numbers.now < 2 ^ 40 }
{
    let [build, space, get, rank, select] = if width == 8 { OF_8 } else { OF_16 };
    let begun = bench.used();
    let matrix = if by == "compact" {
        WaveletMatrix::<S, S0>::build_compact(bench.alloc(), numbers, width)?
    } else {
        WaveletMatrix::<S, S0>::build(bench.alloc(), numbers, width)?
    };
    bench.add_since(begun, Label(build, by), numbers.len());
    bench.add_space(Label(space, by), matrix.size_bytes_dyn(), numbers.len());
    add_calls(
        bench,
        [Label(get, by), Label(rank, by), Label(select, by)],
        &matrix,
    )
}

/// Adds the rows of a matrix's calls.
fn add_calls<'a, S: SelectForRank101111, S0: Select0ForRank101111>(
    bench: &mut Bench<'a>,
    [get, rank, select]: [Label<'a>; 3],
    matrix: &WaveletMatrix<S, S0>,
) -> Result<(), AllocError> {
    let positions = queries(bench.alloc(), matrix.len())?;
    let positions = positions.as_slice();
    for (name, call) in [(get, Call::Get), (rank, Call::Rank), (select, Call::Select)] {
        add_call(bench, name, matrix, positions, call)?;
    }
    Ok(())
}
