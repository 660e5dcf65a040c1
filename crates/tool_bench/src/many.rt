//! Rows of calls of many queries at once.
ghost use Rattle.std.specs.Prelude.{◌<◌, All, IsTrue};

use crate::bench::{Bench, Label, least};
use crate::index::Asked;
use bitm::{Rank, RankSelect101111, Select0ForRank101111, SelectForRank101111};
use std::alloc::AllocError;

/// A call of many queries at once.
#[derive(Clone, Copy)]
enum Call {
    Rank,
    Select,
    Select0,
}

/// Whether each of the numbers is below a limit.
fn all_below(numbers: &[usize], limit: usize) -> bool
    ensures { IsTrue result → All (λ n. n < limit) numbers.now }
{
    for n in numbers {
        if *n >= limit {
            return false;
        }
    }
    true
}

/// Adds up the answers.
fn sum(answers: &[usize]) -> usize {
    let mut sum = 0usize;
    for answer in answers {
        sum = sum.wrapping_add(*answer);
    }
    sum
}

/// Makes all queries of an index, and adds up their answers; 0 where some query has none. The numbers are tested first,
/// within the measured time.
#[inline(never)]
#[tactic(auto, using(bitm::proofs::BitLaws::bits_are_counted))]
fn ask<S: SelectForRank101111, S0: Select0ForRank101111>(
    call: Call,
    index: &RankSelect101111<S, S0, &[u64]>,
    queries: &[usize],
    answers: &mut [usize],
) -> usize {
    let bits = index.content().len() * 64;
    let limit = match call {
        Call::Rank => bits,
        Call::Select => index.rank(bits),
        Call::Select0 => index.rank0(bits),
    };
    if answers.len() != queries.len() || !all_below(queries, limit) {
        return 0;
    }
    match call {
        Call::Rank => index.rank_many(queries, answers),
        Call::Select => index.select_many(queries, answers),
        Call::Select0 => index.select0_many(queries, answers),
    }
    sum(answers)
}

/// Times one of the calls, and adds its row.
fn add_call<S: SelectForRank101111, S0: Select0ForRank101111>(
    bench: &mut Bench<'_>,
    (name, call): (&'static str, Call),
    index: &RankSelect101111<S, S0, &[u64]>,
    queries: &[usize],
    answers: &mut [usize],
) {
    least!(
        bench,
        Label(name, "binary"),
        queries.len(),
        ask(call, index, queries, answers)
    );
}

/// Times the calls of many queries at once, and adds their rows.
pub(crate) fn add_many<S: SelectForRank101111, S0: Select0ForRank101111>(
    bench: &mut Bench<'_>,
    index: &RankSelect101111<S, S0, &[u64]>,
    asked: Asked<'_>,
) -> Result<(), AllocError> {
    let mut kept = Vec::from_slice(bench.alloc(), asked.positions)?;
    let answers = kept.as_mut_slice();
    for (name, call, queries) in [
        ("rank_many", Call::Rank, asked.positions),
        ("select_many", Call::Select, asked.ones),
        ("select0_many", Call::Select0, asked.zeros),
    ] {
        add_call(bench, (name, call), index, queries, answers);
    }
    Ok(())
}
